//! What is shown of the life of a block: by which steps it was got, last written and freed.

ghost use Rattle.std.specs.Prelude.{◌≡◌, ◌≤◌, ◌++◌, ◌^◌, IfOk, IfSome, OnOk, Some, decimal, option_map};
ghost use Rattle.l6_steps.specs.Configuration.{state_at};
ghost use Rattle.l6_steps.specs.Numbering.{last_number};
ghost use Rattle.l6_word.specs.Numerals.{largest_level};
ghost use Rattle.l6_session.specs.Texts.{chain_line};
ghost use Rattle.l6_session.specs.Who as spec;

use crate::names::Names;
use crate::session::Session;
use crate::stops::push_place;
use crate::text::push_counted;
use crate::values::push_chain_value;
use l6_history::Life;
use l6_prog::{Chain, Operand};
use l6_store::{Level, Places};
use l6_word::Word;
use std::alloc::{AllocError, Global};

/// What is answered of the block to which an operand leads. The session stays as it is.
///
/// # Errors
///
/// Memory ran out.
pub(crate) fn who_answer<S: Places>(
    alloc: Global,
    session: &mut Session<S>,
    names: &Names,
    operand: &Operand,
) -> Result<Vec<u8>, AllocError>
where
    S: Drop,
    ensures same { session.new ≡ session.old }
    ensures text { IfOk result (λ text. text.items ≡ spec.who_text S.rule names.now
        session.old.context session.old.state.number operand.now) }
{
    match operand {
        Operand::Number(place) => life_answer(alloc, session, names, *place),
        Operand::Chain(chain) => match session.machine().value(chain) {
            Ok(place) => life_answer(alloc, session, names, place),
            Err(_) => unfollowed(alloc, session, chain),
        },
    }
}

/// Why a chain leads nowhere.
fn unfollowed<S: Places>(
    alloc: Global,
    session: &Session<S>,
    chain: &Chain,
) -> Result<Vec<u8>, AllocError>
    ensures { IfOk result (λ text. text.items ≡ chain_line
        (state_at S.rule session.now.context session.now.state.number).memory chain.now) }
{
    let mut text = Vec::new(alloc);
    push_chain_value(&mut text, session.machine(), chain)?;
    Ok(text)
}

/// What is answered of the block at a place. The session stays as it is.
fn life_answer<S: Places>(
    alloc: Global,
    session: &mut Session<S>,
    names: &Names,
    place: Word,
) -> Result<Vec<u8>, AllocError>
where
    S: Drop,
    ensures same { session.new ≡ session.old }
    ensures text { IfOk result (λ text. text.items ≡ spec.block_life_text S.rule names.now
        session.old.context session.old.state.number place) }
{
    let level = session.machine().store().live(place);
    let life = session.life_of(alloc, place);
    let steps = steps_of(alloc, session, names, life)?;
    joined(alloc, place, level, life.freed, steps.as_slice())
}

/// The text of the steps of a life. The session stays as it is. The caller owes steps of the run.
fn steps_of<S: Places>(
    alloc: Global,
    session: &mut Session<S>,
    names: &Names,
    life: Life,
) -> Result<Vec<u8>, AllocError>
where
    S: Drop,
    requires got { IfSome life.got (λ n. n ≤ last_number S.rule session.old.context) }
    requires written { IfSome life.written (λ n. n ≤ last_number S.rule session.old.context) }
    requires freed { IfSome life.freed (λ n. n ≤ last_number S.rule session.old.context) }
    ensures same { session.new ≡ session.old }
    ensures text { IfOk result (λ text. text.items
        ≡ spec.steps_text S.rule names.now session.old.context life) }
{
    let number = session.history().number();
    let steps = steps_seen(alloc, session, names, life);
    session.look_at(alloc, number);
    steps
}

/// The text of the steps of a life, by going to the states before them. The caller owes steps of the run.
fn steps_seen<S: Places>(
    alloc: Global,
    session: &mut Session<S>,
    names: &Names,
    life: Life,
) -> Result<Vec<u8>, AllocError>
where
    S: Drop,
    requires got { IfSome life.got (λ n. n ≤ last_number S.rule session.old.context) }
    requires written { IfSome life.written (λ n. n ≤ last_number S.rule session.old.context) }
    requires freed { IfSome life.freed (λ n. n ≤ last_number S.rule session.old.context) }
    ensures context { session.new.context ≡ session.old.context }
    ensures state { session.new.state
        ≡ record session.old.state { number = session.new.state.number } }
    ensures text { IfOk result (λ text. text.items
        ≡ spec.steps_text S.rule names.now session.old.context life) }
{
    let mut text = Vec::new(alloc);
    push_step(alloc, &mut text, session, names, b"got ", life.got)?;
    push_step(alloc, &mut text, session, names, b"written ", life.written)?;
    push_step(alloc, &mut text, session, names, b"freed ", life.freed)?;
    Ok(text)
}

/// Adds a step, if there is one, by going to the state before it. The caller owes a step of the run.
fn push_step<S: Places>(
    alloc: Global,
    text: &mut Vec<u8>,
    session: &mut Session<S>,
    names: &Names,
    did: &[u8],
    number: Option<u64>,
) -> Result<(), AllocError>
where
    S: Drop,
    requires { IfSome number (λ n. n ≤ last_number S.rule session.old.context) }
    ensures context { session.new.context ≡ session.old.context }
    ensures state { session.new.state
        ≡ record session.old.state { number = session.new.state.number } }
    ensures text { OnOk result (text.new.items ≡ text.old.items
        ++ spec.step_text S.rule names.now session.old.context did.now number) }
{
    match number {
        Some(number) => {
            session.look_at(alloc, number);
            push_seen(alloc, text, session, names, did)
        }
        None => Ok(()),
    }
}

/// Adds what a step did, and the state before it, where the session is.
fn push_seen<S: Places>(
    alloc: Global,
    text: &mut Vec<u8>,
    session: &Session<S>,
    names: &Names,
    did: &[u8],
) -> Result<(), AllocError>
    ensures { OnOk result (text.new.items ≡ text.old.items ++ spec.step_text S.rule names.now
        session.now.context did.now (Some session.now.state.number)) }
{
    text.extend_from_slice(did)?;
    push_place(alloc, text, session.machine(), names)
}

/// Which block it is, and the text of its steps.
fn joined(
    alloc: Global,
    place: Word,
    level: Option<Level>,
    freed: Option<u64>,
    steps: &[u8],
) -> Result<Vec<u8>, AllocError>
    requires { IfSome level (λ level. level ≤ largest_level) }
    ensures { IfOk result (λ text. text.items
        ≡ spec.head_text place (option_map (λ level. 2 ^ level) level) freed ++ steps.now) }
{
    let mut text = Vec::new(alloc);
    push_head(&mut text, place, level, freed)?;
    text.extend_from_slice(steps)?;
    Ok(text)
}

/// Adds which block it is: one that is there, with its size; one that was freed; or none.
fn push_head(
    text: &mut Vec<u8>,
    place: Word,
    level: Option<Level>,
    freed: Option<u64>,
) -> Result<(), AllocError>
    requires { IfSome level (λ level. level ≤ largest_level) }
    ensures { OnOk result (text.new.items ≡ text.old.items
        ++ spec.head_text place (option_map (λ level. 2 ^ level) level) freed) }
{
    match level {
        Some(level) => {
            push_counted(text, b"BLOCK ", place.get())?;
            push_counted(text, b" SIZE ", 1u64 << level)?;
            text.extend_from_slice(b"\n")
        }
        None => push_gone(text, place, freed),
    }
}

/// Adds that the block at a place was freed, or that none was ever there.
fn push_gone(text: &mut Vec<u8>, place: Word, freed: Option<u64>) -> Result<(), AllocError>
    ensures { OnOk result (text.new.items ≡ text.old.items ++ spec.gone_text place freed) }
{
    match freed {
        Some(_) => push_around(text, b"BLOCK ", place, b" IS FREED\n"),
        None => push_around(text, b"NO BLOCK AT ", place, b", NOW OR BEFORE\n"),
    }
}

/// Adds a place between words.
fn push_around(
    text: &mut Vec<u8>,
    before: &[u8],
    place: Word,
    after: &[u8],
) -> Result<(), AllocError>
    ensures { OnOk result (text.new.items
        ≡ text.old.items ++ (before.now ++ decimal place ++ after.now)) }
{
    push_counted(text, before, place.get())?;
    text.extend_from_slice(after)
}
