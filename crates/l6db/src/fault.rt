//! Why there is no session, or why one ends before its commands do.

ghost use Rattle.std.specs.Prelude.{◌≡◌, ◌≤◌, length};
ghost use Rattle.l6_card.specs.Numerals.{most_deck_bytes};
ghost use Rattle.l6db.specs.Status as spec;

use clap::error::ErrorKind;
use l6_check::checked_text;
use l6_device::{Part, RunFault};
use l6_session::ConsoleFault;
use std::alloc::{AllocError, Global};
use std::io;
use thiserror::Error;

/// Why there is no session, or why one ends before its commands do.
#[derive(Debug, Drop, Error)]
pub(crate) enum DbFault {
    /// The words of the command line are wrong: the text of `clap`.
    #[error("{0}")]
    Usage(clap::Error),
    /// The words of the command line ask for help or for the version: the text of `clap`.
    #[error("{0}")]
    Asked(clap::Error),
    /// A word of the command line is not UTF-8.
    #[error("l6db: a word is not UTF-8\n")]
    NotText,
    /// The file of this part can't be opened: its path, and why.
    #[error("l6db: the file of the {0} can't be opened: {1}: {2}\n")]
    NoFile(Part, String, &'static str),
    /// The deck has errors: the text of `l6 check`.
    #[error("{0}")]
    Deck(String),
    /// The job has this fault.
    #[error("l6db: {0}\n")]
    Job(RunFault),
    /// Standard input failed.
    #[error("l6db: standard input can't be read\n")]
    NoInput,
    /// Standard output failed.
    #[error("l6db: standard output can't be written\n")]
    NoOutput,
    /// Memory ran out.
    #[error("l6db: out of memory\n")]
    NoMemory,
}

impl DbFault {
    /// What is wrong with a deck of at most 1,048,576 bytes that has errors, as `l6 check` says it.
    ///
    /// # Errors
    ///
    /// Memory ran out.
    pub(crate) fn of_deck(alloc: Global, deck: &[u8]) -> Result<Self, DbFault>
        requires { length deck.now ≤ most_deck_bytes }
    {
        let checked = checked_text(alloc, deck).map_err(|_| DbFault::NoMemory)?;
        Ok(DbFault::Deck(checked.text))
    }

    /// The fault if the file of a part can't be opened for this error.
    ///
    /// # Errors
    ///
    /// Memory ran out.
    pub(crate) fn of_file(
        alloc: Global,
        part: Part,
        path: &str,
        error: &io::Error,
    ) -> Result<Self, AllocError> {
        let path = format!(in alloc; "{path}")?;
        Ok(DbFault::NoFile(part, path, reason_of(error)))
    }

    /// The exit status: 0 if help or the version was asked for, 4 if the job is refused, 5 if memory ran
    /// out or a device failed, 64 if the words are wrong.
    pub(crate) fn status(&self) -> u8
        ensures { result ≡ spec.status_of self.now }
    {
        match self {
            DbFault::Asked(_) => 0,
            DbFault::NoFile(..) | DbFault::Deck(_) | DbFault::Job(RunFault::TooLong(_)) => 4,
            DbFault::Job(_) | DbFault::NoInput | DbFault::NoOutput | DbFault::NoMemory => 5,
            DbFault::Usage(_) | DbFault::NotText => 64,
        }
    }
}

/// Why a file can't be opened, in words.
fn reason_of(error: &io::Error) -> &'static str {
    match error.kind() {
        io::ErrorKind::NotFound => "there is no such file",
        io::ErrorKind::PermissionDenied => "it may not be read",
        _ => "the system refuses it",
    }
}

impl From<clap::Error> for DbFault {
    fn from(error: clap::Error) -> Self {
        match error.kind() {
            ErrorKind::OutOfMemory => DbFault::NoMemory,
            ErrorKind::DisplayHelp | ErrorKind::DisplayVersion => DbFault::Asked(error),
            _ => DbFault::Usage(error),
        }
    }
}

impl From<AllocError> for DbFault {
    fn from(_error: AllocError) -> Self {
        DbFault::NoMemory
    }
}

impl From<RunFault> for DbFault {
    fn from(fault: RunFault) -> Self {
        match fault {
            RunFault::NoMemory => DbFault::NoMemory,
            RunFault::Write(_) => DbFault::NoOutput,
            fault => DbFault::Job(fault),
        }
    }
}

impl From<ConsoleFault> for DbFault {
    fn from(fault: ConsoleFault) -> Self {
        match fault {
            ConsoleFault::Read => DbFault::NoInput,
            ConsoleFault::Write => DbFault::NoOutput,
            ConsoleFault::NoMemory => DbFault::NoMemory,
        }
    }
}

/// The fault if the words could not be read.
impl From<io::Error> for DbFault {
    fn from(error: io::Error) -> Self {
        match error.kind() {
            io::ErrorKind::OutOfMemory => DbFault::NoMemory,
            _ => DbFault::NotText,
        }
    }
}
