//! The words of the command line, read with `clap`. What they mean is tested, and not proved.

use crate::fault::DbFault;
use clap::{Arg, ArgAction, Command};
use l6_machine::Options;
use l6_options::{chosen_options, with_options};
use std::alloc::{AllocError, Global};

/// What the words ask for.
#[derive(Clone, Copy, Debug)]
pub(crate) struct Request<'a> {
    /// The path of the deck, or `-` for standard input.
    pub(crate) deck: &'a str,
    /// The path of the input, if one is given.
    pub(crate) input: Option<&'a str>,
    /// The path of commands to obey first, if one is given.
    pub(crate) commands: Option<&'a str>,
    /// Whether those commands are all, and there is no prompt.
    pub(crate) is_batch: bool,
    /// Whether each command is repeated before its answer.
    pub(crate) has_echo: bool,
    /// The prompt, if one is given: it is then shown over a pipe, too.
    pub(crate) prompt: Option<&'a str>,
    /// What the user chose for the run.
    pub(crate) options: Options,
}

/// What follows the options in the help.
const DETAILS: &str = "\
DECK is the file of a deck, or of a whole job, whose lines $INPUT and $COMMANDS are then taken; - is
standard input. Where both ends are terminals there is a prompt; `help` lists the commands there.
Ctrl-D ends a session, and so does Ctrl-C, at once. `rlwrap l6db DECK` keeps a history of lines.

Examples:
  l6db examples/queue.deck
  printf 'break LOOP\\nc\\nwhere\\n' | l6db --echo examples/queue.deck

Exit status: 0 the session ended, 1 with --batch a command was refused, 4 the job was refused, 5 memory
ran out, or reading or writing failed, 64 the command line is wrong";

/// What these words ask for. The first one is the program's name.
///
/// # Errors
///
/// Why they ask for nothing that can be done.
pub(crate) fn request_of<'a>(alloc: Global, words: &'a [String]) -> Result<Request<'a>, DbFault> {
    let mut command = program(alloc)?;
    let matches = command.try_get_matches_from_mut(words)?;
    Ok(Request {
        deck: matches.get_str("deck").unwrap_or("-"),
        input: matches.get_str("input"),
        commands: matches.get_str("commands"),
        is_batch: matches.get_flag("batch"),
        has_echo: matches.get_flag("echo"),
        prompt: matches.get_str("prompt"),
        options: chosen_options(&matches).unwrap_or_default(),
    })
}

/// The command line of the program.
fn program<'a>(alloc: Global) -> Result<Command<'a>, AllocError> {
    let deck = Arg::new(alloc, "deck")
        .value_name("DECK")
        .help("The file of the deck or of the job, or - for standard input")
        .required(true)
        .action(ArgAction::Set);
    let input = Arg::new(alloc, "input")
        .long("input")
        .value_name("FILE")
        .help("The file of the run's input");
    let commands = Arg::new(alloc, "commands")
        .short('x')
        .value_name("FILE")
        .help("A file of commands to obey first");
    let batch = Arg::new(alloc, "batch")
        .long("batch")
        .help("Ends after the commands of -x or of the job, and shows no prompt")
        .action(ArgAction::SetTrue);
    let echo = Arg::new(alloc, "echo")
        .long("echo")
        .help("Repeats each command before its answer")
        .action(ArgAction::SetTrue);
    let prompt = Arg::new(alloc, "prompt")
        .long("prompt")
        .value_name("TEXT")
        .help("The prompt, which is then shown over a pipe, too");
    let command = Command::new(alloc, "l6db")
        .override_usage("l6db [OPTIONS] DECK")
        .about("Debugs a deck of L6: forward and back, with an answer to each command at once")
        .after_help(DETAILS)
        .version("1.0")
        .arg(deck)?
        .arg(input)?
        .arg(commands)?
        .arg(batch)?
        .arg(echo)?
        .arg(prompt)?;
    with_options(command, alloc)
}
