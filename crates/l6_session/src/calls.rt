//! The calls that wait, and what is saved, in words.

ghost use Rattle.std.specs.Prelude.{◌≡◌, ◌-◌, ◌++◌, reverse, take, OnOk};
ghost use Rattle.std.specs.List.{enumerate_from, flat_map};
ghost use Rattle.l6_session.specs.Texts as spec;

use crate::text::{push_label, push_position, push_word};
use l6_asm::Labels;
use l6_machine::{Machine, Return, push_decimal};
use l6_store::Places;
use l6_word::{Window, Word};
use std::alloc::AllocError;

/// Adds where the run is, and the returns for which calls wait, the latest first.
pub(crate) fn push_waiting<S: Places>(
    text: &mut Vec<u8>,
    machine: &Machine<S>,
    labels: &Labels,
) -> Result<(), AllocError>
    ensures { OnOk result (text.new.items ≡ text.old.items
        ++ spec.waiting_text labels.now.entries machine.now.configuration.state) }
{
    push_here(text, machine, labels)?;
    push_returns(text, machine.returns(), labels)
}

/// Adds where the run is, the latest returns for which calls wait, so many lines in all, and how many more
/// there are.
pub(crate) fn push_few<S: Places>(
    text: &mut Vec<u8>,
    machine: &Machine<S>,
    labels: &Labels,
    lines: u64,
) -> Result<(), AllocError>
    ensures { OnOk result (text.new.items ≡ text.old.items
        ++ spec.few_text lines labels.now.entries machine.now.configuration.state) }
{
    push_here(text, machine, labels)?;
    push_returns(text, latest(machine.returns(), lines), labels)?;
    push_further(text, further(machine.depths().returns, lines))
}

/// The latest returns, as many as are shown in so many lines.
fn latest(returns: &[Return], lines: u64) -> &[Return]
    ensures { reverse result.now ≡ take (lines - 1) (reverse returns.now) }
{
    &returns[further(returns.len(), lines) as usize..]
}

/// How many returns are not shown in so many lines.
fn further(returns: usize, lines: u64) -> u64
    ensures { result ≡ returns - (lines - 1) }
{
    (returns as u64).saturating_sub(lines.saturating_sub(1))
}

/// Adds where the run is.
fn push_here<S: Places>(
    text: &mut Vec<u8>,
    machine: &Machine<S>,
    labels: &Labels,
) -> Result<(), AllocError>
    ensures { OnOk result (text.new.items ≡ text.old.items
        ++ spec.here_line labels.now.entries machine.now.configuration.state) }
{
    text.extend_from_slice(b"#0 at ")?;
    push_position(text, machine.at(), labels)?;
    text.extend_from_slice(b"\n")
}

/// Adds how many more calls wait, if any do.
fn push_further(text: &mut Vec<u8>, further: u64) -> Result<(), AllocError>
    ensures { OnOk result (text.new.items ≡ text.old.items ++ spec.more_text further) }
{
    if further == 0 {
        return Ok(());
    }
    text.extend_from_slice(b"and ")?;
    push_decimal(text, further)?;
    text.extend_from_slice(b" more\n")
}

/// Adds the lines of returns, the last one first, numbered from 1 on.
fn push_returns(text: &mut Vec<u8>, returns: &[Return], labels: &Labels) -> Result<(), AllocError>
    ensures { OnOk result (text.new.items ≡ text.old.items
        ++ flat_map (spec.return_line labels.now.entries) (enumerate_from 1 (reverse returns.now))) }
{
    let mut rest = returns;
    while let Some((waiting, earlier)) = rest.split_last() {
        push_return(text, returns.len() - earlier.len(), waiting, labels)?;
        rest = earlier;
    }
    Ok(())
}

/// Adds the line of a call that waits, by its number.
fn push_return(
    text: &mut Vec<u8>,
    number: usize,
    waiting: &Return,
    labels: &Labels,
) -> Result<(), AllocError>
    ensures { OnOk result (text.new.items ≡ text.old.items
        ++ spec.return_line labels.now.entries (number, waiting.now)) }
{
    text.extend_from_slice(b"#")?;
    push_decimal(text, number)?;
    text.extend_from_slice(b" returns to ")?;
    push_position(text, waiting.at, labels)?;
    push_fail(text, waiting.fail, labels)?;
    text.extend_from_slice(b"\n")
}

/// Adds the statement of a fail label, if there is one.
fn push_fail(text: &mut Vec<u8>, fail: Option<u16>, labels: &Labels) -> Result<(), AllocError>
    ensures { OnOk result (text.new.items ≡ text.old.items
        ++ spec.fail_text labels.now.entries fail) }
{
    let Some(statement) = fail else {
        return Ok(());
    };
    text.extend_from_slice(b", or by FAIL to ")?;
    push_decimal(text, statement)?;
    push_label(text, u64::from(statement), labels)
}

/// Adds the contents and the definitions that are saved, the latest first.
pub(crate) fn push_saved<S: Places>(
    text: &mut Vec<u8>,
    machine: &Machine<S>,
) -> Result<(), AllocError>
    ensures { OnOk result (text.new.items ≡ text.old.items
        ++ spec.saved_text machine.now.configuration.state.memory) }
{
    let depths = machine.depths();
    push_counted(text, b"CONTENTS ", depths.contents)?;
    push_contents(text, machine.saved_contents())?;
    push_counted(text, b"DEFINITIONS ", depths.definitions)?;
    push_definitions(text, machine.saved_definitions())
}

/// Adds a line of a word and a number.
fn push_counted(text: &mut Vec<u8>, counted: &[u8], number: usize) -> Result<(), AllocError>
    ensures { OnOk result (text.new.items ≡ text.old.items
        ++ spec.count_line counted.now number) }
{
    text.extend_from_slice(counted)?;
    push_decimal(text, number)?;
    text.extend_from_slice(b"\n")
}

/// Adds the lines of contents, the last one first.
fn push_contents(text: &mut Vec<u8>, contents: &[Word]) -> Result<(), AllocError>
    ensures { OnOk result (text.new.items ≡ text.old.items
        ++ flat_map spec.content_line (reverse contents.now)) }
{
    let mut rest = contents;
    while let Some((content, earlier)) = rest.split_last() {
        push_content(text, *content)?;
        rest = earlier;
    }
    Ok(())
}

/// Adds the line of a content.
fn push_content(text: &mut Vec<u8>, content: Word) -> Result<(), AllocError>
    ensures { OnOk result (text.new.items ≡ text.old.items ++ spec.content_line content) }
{
    text.extend_from_slice(b"  ")?;
    push_word(text, content)?;
    text.extend_from_slice(b"\n")
}

/// Adds the lines of definitions, the last one first.
fn push_definitions(text: &mut Vec<u8>, definitions: &[Option<Window>]) -> Result<(), AllocError>
    ensures { OnOk result (text.new.items ≡ text.old.items
        ++ flat_map spec.definition_line (reverse definitions.now)) }
{
    let mut rest = definitions;
    while let Some((definition, earlier)) = rest.split_last() {
        push_defined(text, *definition)?;
        rest = earlier;
    }
    Ok(())
}

/// Adds the line of a definition.
fn push_defined(text: &mut Vec<u8>, definition: Option<Window>) -> Result<(), AllocError>
    ensures { OnOk result (text.new.items ≡ text.old.items ++ spec.definition_line definition) }
{
    text.extend_from_slice(b"  ")?;
    push_definition(text, definition)?;
    text.extend_from_slice(b"\n")
}

/// Adds a definition: its word, its first bit and its last.
pub(crate) fn push_definition(
    text: &mut Vec<u8>,
    definition: Option<Window>,
) -> Result<(), AllocError>
    ensures { OnOk result (text.new.items ≡ text.old.items ++ spec.window_text definition) }
{
    let Some(window) = definition else {
        return text.extend_from_slice(b"not defined");
    };
    push_decimal(text, window.word())?;
    text.extend_from_slice(b" ")?;
    push_decimal(text, window.first())?;
    text.extend_from_slice(b" ")?;
    push_decimal(text, window.last())
}
