//! The program `l6db`: a debugger of decks that answers at once.
#![tactic(auto)]

mod arguments;
mod ending;
mod fault;
mod files;
mod opening;
mod terminal;

use arguments::{Request, request_of};
use ending::Ending;
use fault::DbFault;
use files::{Job, job_of};
use l6_device::{Host, Part, Patience, write_text};
use l6_session::{DeckSession, converse};
use l6_store::Buddy;
use opening::session_of;
use std::env;
use std::io::{IsTerminal, Lock, Write};
use std::process::ExitCode;
use terminal::{Mode, Terminal};

fn main(rt: HostRuntime) -> ExitCode {
    match run_session(&rt) {
        Ok(ending) => ExitCode::from(ending.status()),
        Err(fault) => {
            let text = format!(in rt.alloc(); "{fault}");
            if let Ok(text) = text {
                let _ = if fault.status() == 0 {
                    rt.stdout().write_all(text.as_bytes())
                } else {
                    rt.stderr().write_all(text.as_bytes())
                };
            }
            ExitCode::from(fault.status())
        }
    }
}

/// Does what the words of the command line ask for.
fn run_session(rt: &HostRuntime) -> Result<Ending, DbFault> {
    let words: Vec<String> = env::args(rt)?.collect(rt.alloc())?;
    let request = request_of(rt.alloc(), words.as_slice())?;
    let job = job_of(rt, &request)?;
    debug(rt, &request, job)
}

/// Shows where the run of a job begins, and then answers the lines of its commands, and those that are
/// typed.
fn debug(rt: &HostRuntime, request: &Request<'_>, job: Job) -> Result<Ending, DbFault> {
    let Job {
        deck,
        input,
        commands,
    } = job;
    Part::Deck.check(deck.as_slice())?;
    Part::Input.check(input.as_slice())?;
    Part::Commands.check(commands.as_slice())?;
    let mut session = session_of(rt.alloc(), deck, input.as_slice(), request.options)?;
    talk(rt, request, &mut session, commands)?;
    Ok(Ending::of(request.is_batch, session.is_refused()))
}

/// Shows where a run begins, and then answers lines.
fn talk(
    rt: &HostRuntime,
    request: &Request<'_>,
    session: &mut DeckSession<Buddy>,
    commands: Vec<u8>,
) -> Result<(), DbFault> {
    let mode = mode_of(rt, request);
    let place = session.place(rt.alloc())?;
    write_text(
        &mut Host::new(rt.stdout()),
        place.as_slice(),
        0,
        &mut Patience::new(),
    )?;
    let output = Host::new(rt.stdout());
    let mut console = Terminal::new(rt, rt.stdin().lock(), output, commands, mode);
    converse(rt.alloc(), session, &mut console, prompt_of(request, mode))?;
    Ok(())
}

/// What is shown before each line: the prompt that is given, or one where lines are typed.
fn prompt_of<'a>(request: &Request<'a>, mode: Mode) -> &'a [u8] {
    match request.prompt {
        Some(prompt) => prompt.as_bytes(),
        None if mode.is_typed => b"(l6db) ",
        None => b"",
    }
}

/// How the console behaves. Where the job comes from standard input, no commands are left there.
fn mode_of(rt: &HostRuntime, request: &Request<'_>) -> Mode {
    let is_batch = request.is_batch || request.deck == "-";
    Mode {
        is_batch,
        is_typed: rt.stdin().is_terminal() && rt.stdout().is_terminal() && !is_batch,
        has_echo: request.has_echo,
        may_name_files: request.commands.is_some(),
    }
}
