//! The whole program, but for what the system gives it: the words of the command line, standard input,
//! and where what it writes goes.

ghost use Rattle.std.specs.Prelude.{◌≡◌};
ghost use Rattle.std.specs.Process.{exit_status};
ghost use Rattle.l6.specs.Exit.{Exits};
ghost use Rattle.l6.specs.Status.{status_of};

use crate::arguments::{Task, WordsFault};
use crate::job::{Outcome, perform};
use crate::status::{status, status_of_words};
use crate::tracing::{tracing_status, try_trace};
use l6_device::{Patience, RunFault, write_text};
use l6_run::{Sink, Source};
use std::alloc::Global;
use std::io::Write;
use std::process::ExitCode;

/// Does what was asked for with the job or the trace that the reader gives, and says on `errors` why it was not done,
/// why a run has trapped if that is asked for, or why nothing could be asked for. Answers how the process is to end. A text that `errors` does not
/// take is lost.
pub fn exit_code<R: Source, W: Sink, E: Write>(
    alloc: Global,
    asked: Result<Task<'_>, WordsFault>,
    reader: &mut R,
    writer: &mut W,
    errors: &mut E,
) -> ExitCode
    ensures { Exits asked.entry (R.left reader.old) (R.left reader.new)
        (W.taken writer.old) (W.taken writer.new) (exit_status result) }
{
    match asked {
        Ok(Task::Job(request)) => {
            let answer = perform(alloc, request.verb, request.options, reader, writer);
            code_of(errors, &answer)
        }
        Ok(Task::Trace(trying)) => {
            let answer = try_trace(alloc, trying, reader, writer, errors);
            if let Err(fault) = &answer {
                let _ = writeln!(errors, "l6: {fault}");
            }
            ExitCode::from(tracing_status(&answer))
        }
        Ok(Task::Help(text)) => {
            let answer = show_help(alloc, &text, writer);
            code_of(errors, &answer)
        }
        Err(fault) => {
            let _ = write!(errors, "{fault}");
            ExitCode::from(status_of_words(&fault))
        }
    }
}

/// Says on `errors` why something was not done, or why a run has trapped. Answers how the process is to end.
fn code_of<E: Write>(errors: &mut E, answer: &Result<Outcome, RunFault>) -> ExitCode
    ensures { exit_status result ≡ status_of answer.now }
{
    match answer {
        Ok(Outcome::Explained(explained)) => {
            let _ = errors.write_all(explained.why.as_slice());
        }
        Ok(_) => {}
        Err(fault) => {
            let _ = writeln!(errors, "l6: {fault}");
        }
    }
    ExitCode::from(status(answer))
}

/// Shows a help.
fn show_help<W: Sink>(
    alloc: Global,
    text: &clap::Error,
    writer: &mut W,
) -> Result<Outcome, RunFault> {
    let text = format!(in alloc; "{text}")?;
    write_text(writer, text.as_bytes(), 0, &mut Patience::new())?;
    Ok(Outcome::Written)
}
