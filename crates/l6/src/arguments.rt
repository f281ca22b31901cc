//! The words of the command line, read with `clap`. What they mean is tested, and not proved.

ghost use Rattle.std.specs.Prelude.{◌≡◌, ◌≢◌, IfSome};
ghost use Rattle.std.specs.IoError.{error_kind};
ghost use Rattle.l6_machine.specs.Options.{default_options};
ghost use Rattle.l6.specs.Words.{fault_of};
ghost use Rattle.l6.specs.declared.arguments.WordsFault.TheVariants.{NoMemory};

use crate::checking::Shown;
use crate::help::{self, Help};
use crate::job::Verb;
use crate::trace_options::{chosen_trying, with_trace_options};
use crate::tracing::Trying;
use clap::error::ErrorKind;
use clap::{Arg, ArgAction, ArgMatches, Command};
use l6_check::Layout;
use l6_options::{chosen_options, with_options};
use l6_run::Options;
use std::alloc::{AllocError, Global};
use std::io::{self, ErrorKind as IoErrorKind};
use thiserror::Error;

/// The version of the program, and of the images that it writes.
const VERSION: &str = "1.0, images of version 2";

/// What the words ask for.
#[derive(Debug, Drop)]
pub enum Task<'a> {
    /// That something is done with a job.
    Job(Request<'a>),
    /// That the answers of a trace of an allocator's calls are tried.
    Trace(Trying),
    /// That the help is shown, by the verb `help`: the text of `clap`.
    Help(clap::Error),
}

/// What is to be done with a job.
#[derive(Clone, Copy, Debug, PartialEq, Eq)]
pub struct Request<'a> {
    /// What is to be done with the job.
    pub verb: Verb<'a>,
    /// What the user chose for it.
    pub options: Options,
}

/// Why words ask for nothing that can be done.
#[derive(Debug, Drop, Error)]
pub enum WordsFault {
    /// They are wrong, or ask for help or for the version: the text that `clap` has for that.
    #[error("{0}")]
    Usage(clap::Error),
    /// One of them names something that no command takes, most likely a file: the text of `clap`, and a
    /// hint.
    #[error("{0}\nThe job comes from standard input: write < before the name of its file\n")]
    Unexpected(clap::Error),
    /// One of them is not UTF-8.
    #[error("l6: a word is not UTF-8\n")]
    NotText,
    /// Memory ran out.
    #[error("l6: out of memory\n")]
    NoMemory,
}

impl From<clap::Error> for WordsFault {
    ghost from_gives = { λ error fault. fault ≡ fault_of error };

    fn from(error: clap::Error) -> Self {
        match error.kind() {
            ErrorKind::OutOfMemory => WordsFault::NoMemory,
            ErrorKind::UnknownArgument => WordsFault::Unexpected(error),
            _ => WordsFault::Usage(error),
        }
    }
}

impl From<AllocError> for WordsFault {
    ghost from_gives = { λ _ fault. fault ≡ NoMemory };

    fn from(_error: AllocError) -> Self {
        WordsFault::NoMemory
    }
}

/// The fault if the words could not be read.
impl From<io::Error> for WordsFault {
    fn from(error: io::Error) -> Self {
        fault_of_reading(&error)
    }
}

/// The fault if this error came in place of the words.
fn fault_of_reading(error: &io::Error) -> WordsFault
    ensures memory { error_kind error.now ≡ IoErrorKind.OutOfMemory → result ≡ WordsFault.NoMemory }
    ensures other { error_kind error.now ≢ IoErrorKind.OutOfMemory → result ≡ WordsFault.NotText }
{
    match error.kind() {
        IoErrorKind::OutOfMemory => WordsFault::NoMemory,
        _ => WordsFault::NotText,
    }
}

/// What these words ask for. The first one is the program's name.
///
/// # Errors
///
/// Why they ask for nothing that can be done.
pub fn task_of<'a>(alloc: Global, words: &'a [String]) -> Result<Task<'a>, WordsFault> {
    let mut command = program(alloc)?;
    let matches = match command.try_get_matches_from_mut(words) {
        Ok(matches) => matches,
        Err(error) => return help_or_fault(words, error),
    };
    if let Some(("trace", chosen)) = matches.subcommand() {
        if let Some(trying) = chosen_trying(chosen) {
            return Ok(Task::Trace(trying));
        }
    }
    let request = match matches.subcommand() {
        Some(("asm", _)) => Some(without_options(Verb::Asm)),
        Some(("list", _)) => Some(without_options(Verb::List)),
        Some(("check", chosen)) => Some(without_options(Verb::Check(shown_of(chosen)))),
        Some(("renew", _)) => Some(without_options(Verb::Renew)),
        Some(("run", chosen)) => requested(run_verb(chosen), chosen),
        Some(("load", chosen)) => requested(Verb::Load, chosen),
        Some(("debug", chosen)) => requested(Verb::Debug, chosen),
        _ => None,
    };
    match request {
        Some(request) => Ok(Task::Job(request)),
        None => Err(
            command
                .error(ErrorKind::MissingSubcommand, "no subcommand")?
                .into(),
        ),
    }
}

/// What these words ask for where `clap` has a text for them: the help, if their verb is `help`, and else
/// nothing that can be done.
fn help_or_fault<'a>(words: &[String], error: clap::Error) -> Result<Task<'a>, WordsFault> {
    let is_asked = words.get(1).is_some_and(|verb| verb.as_str() == "help");
    if is_asked && error.kind() == ErrorKind::DisplayHelp {
        return Ok(Task::Help(error));
    }
    Err(hinted(words, error.into()))
}

/// The fault of these words: it has the hint on files only if one of them may be the name of a file.
fn hinted(words: &[String], fault: WordsFault) -> WordsFault {
    match fault {
        WordsFault::Unexpected(error) if !has_a_name(words) => WordsFault::Usage(error),
        fault => fault,
    }
}

/// Whether a word after the verb may be the name of a file: it does not begin as an option does.
fn has_a_name(words: &[String]) -> bool {
    words
        .iter()
        .skip(2)
        .any(|word| !word.as_str().starts_with('-'))
}

/// The command line of the program.
fn program<'a>(alloc: Global) -> Result<Command<'a>, AllocError> {
    described(alloc, "l6", help::PROGRAM)
        .version(VERSION)
        .subcommand_required(true)
        .subcommand(described(alloc, "asm", help::ASM))?
        .subcommand(described(alloc, "list", help::LIST))?
        .subcommand(check(alloc)?)?
        .subcommand(run(alloc)?)?
        .subcommand(with_options(described(alloc, "load", help::LOAD), alloc)?)?
        .subcommand(described(alloc, "renew", help::RENEW))?
        .subcommand(with_options(described(alloc, "debug", help::DEBUG), alloc)?)?
        .subcommand(with_trace_options(described(alloc, "trace", help::TRACE), alloc)?)
}

/// A command with its name and its help.
fn described<'a>(alloc: Global, name: &'a str, help: Help) -> Command<'a> {
    Command::new(alloc, name)
        .override_usage(help.usage)
        .about(help.about)
        .after_help(help.details)
}

/// The command `check`.
fn check<'a>(alloc: Global) -> Result<Command<'a>, AllocError> {
    let long = Arg::new(alloc, "long")
        .long("long")
        .help("Show each card, with signs under its columns")
        .action(ArgAction::SetTrue);
    let name = Arg::new(alloc, "name").long("name").value_name("FILE").help(
        "The name of the deck's file, for the beginning of each line",
    );
    described(alloc, "check", help::CHECK).arg(long)?.arg(name)
}

/// The command `run`.
fn run<'a>(alloc: Global) -> Result<Command<'a>, AllocError> {
    let explain = Arg::new(alloc, "explain")
        .long("explain")
        .help("Say on standard error where a trap was met, and why")
        .action(ArgAction::SetTrue);
    with_options(described(alloc, "run", help::RUN), alloc)?.arg(explain)
}

/// How a deck was chosen to be run.
fn run_verb<'a>(chosen: &ArgMatches<'_>) -> Verb<'a> {
    if chosen.get_flag("explain") {
        Verb::Explain
    } else {
        Verb::Run
    }
}

/// How what is said of a deck was chosen to be shown.
fn shown_of<'a>(chosen: &ArgMatches<'a>) -> Shown<'a> {
    Shown {
        layout: if chosen.get_flag("long") {
            Layout::Long
        } else {
            Layout::Short
        },
        name: chosen.get_str("name").unwrap_or_default(),
    }
}

/// The request for a verb for which nothing can be chosen.
fn without_options(verb: Verb<'_>) -> Request<'_>
    ensures { result ≡ record { verb = verb.entry; options = default_options } }
{
    Request {
        verb,
        options: Options::default(),
    }
}

/// The request for the verb with what was chosen for it, if that is in range.
fn requested<'a>(verb: Verb<'a>, chosen: &ArgMatches<'_>) -> Option<Request<'a>>
    ensures { IfSome result (λ asked. asked.verb ≡ verb.entry) }
{
    let options = chosen_options(chosen)?;
    Some(Request { verb, options })
}
