//! How the lines of commands are obeyed, and their answers written.

ghost use Rattle.std.specs.Prelude.{◌≡◌, ◌+◌, min, length, IfOk};
ghost use Rattle.std.specs.List.{concat};
ghost use Rattle.l6_word.specs.Lines.{lines_of};
ghost use Rattle.l6_device.specs.Numerals.{most_counted};
ghost use Rattle.l6_device.specs.Patience.{WriterRetries};
ghost use Rattle.l6_debug.specs.Serving.{GoOut};
ghost use Rattle.l6_debug.specs.Transcript.{answered, answers_from, is_quit, moved};

use crate::command::Reading;
use crate::debugger::Debugger;
use crate::reading::reading_of;
use crate::showing::push_answer;
use l6_device::{Patience, RunFault, Sink, write_text};
use l6_store::Places;
use l6_word::first_line;
use std::alloc::{AllocError, Global};

/// Obeys the lines of commands, one after another, up to one that ends the session. Each answer is
/// written before the next command is obeyed.
pub(crate) fn obey_all<S: Places, W: Sink>(
    alloc: Global,
    debugger: &mut Debugger<S>,
    commands: &[u8],
    writer: &mut W,
    patience: &mut Patience,
) -> Result<(), RunFault>
where
    S: Drop,
    ensures answers { let debugger_state = debugger.old.debugger_state in
        GoOut (answers_from S.rule debugger.old.context debugger_state (lines_of commands.now)) 0
        (W.taken writer.old) (W.taken writer.new) result }
    ensures retries { WriterRetries (W.health writer.old) (W.health writer.new)
        patience.old patience.new result }
{
    let mut sent = 0;
    let mut rest = commands;
    while let Some((line, following)) = first_line(rest) {
        let reading = reading_of(line);
        if is_quit(reading) {
            return Ok(());
        }
        match obey(alloc, debugger, reading, sent, writer, patience) {
            Ok(more) => sent = more,
            Err(fault) => return Err(fault),
        }
        rest = following;
    }
    Ok(())
}

/// Whether a line ends the session.
fn is_quit(reading: Reading) -> bool
    ensures { result ≡ is_quit reading }
{
    match reading {
        Reading::Quit => true,
        Reading::Skipped | Reading::Wrong | Reading::Asked(_) => false,
    }
}

/// Obeys a line, and writes the answer, if there is one. Answers how many bytes have gone out, where
/// as many went out before as is said.
fn obey<S: Places, W: Sink>(
    alloc: Global,
    debugger: &mut Debugger<S>,
    reading: Reading,
    before: u64,
    writer: &mut W,
    patience: &mut Patience,
) -> Result<u64, RunFault>
where
    S: Drop,
    ensures context { debugger.new.context ≡ debugger.old.context }
    ensures debugger_state { debugger.new.debugger_state
        ≡ moved S.rule debugger.old.context debugger.old.debugger_state reading }
    ensures answers { GoOut (answered S.rule debugger.old.context debugger.old.debugger_state reading) before
        (W.taken writer.old) (W.taken writer.new) result }
    ensures counted { let answers = answered S.rule debugger.old.context
        debugger.old.debugger_state reading in
        IfOk result (λ sent. sent ≡ min (before + length (concat answers)) most_counted) }
    ensures retries { WriterRetries (W.health writer.old) (W.health writer.new)
        patience.old patience.new result }
{
    let text = answer_to(alloc, debugger, reading)?;
    write_text(writer, text.as_slice(), before, patience)?;
    Ok(before.saturating_add(text.len() as u64))
}

/// Goes where a line leads, and answers what is to be written for it.
fn answer_to<S: Places>(
    alloc: Global,
    debugger: &mut Debugger<S>,
    reading: Reading,
) -> Result<Vec<u8>, AllocError>
where
    S: Drop,
    ensures context { debugger.new.context ≡ debugger.old.context }
    ensures debugger_state { debugger.new.debugger_state
        ≡ moved S.rule debugger.old.context debugger.old.debugger_state reading }
    ensures text { let answers = answered S.rule debugger.old.context debugger.old.debugger_state reading in
        IfOk result (λ text. text.items ≡ concat answers) }
{
    let mut text = Vec::new(alloc);
    match reading {
        Reading::Skipped | Reading::Quit => {}
        Reading::Wrong => text.extend_from_slice(b"?? NOT A COMMAND\n")?,
        Reading::Asked(command) => {
            debugger.obey(alloc, command);
            push_answer(alloc, &mut text, debugger.machine(), command)?;
        }
    }
    Ok(text)
}
