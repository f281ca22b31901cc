//! Why the program ends before its messages do.

ghost use Rattle.std.specs.Prelude.{◌≡◌};
ghost use Rattle.l6ed.specs.Status as spec;

use l6_rpc::ChannelFault;
use std::alloc::AllocError;
use std::io;
use thiserror::Error;

/// Why the program ends before its messages do.
#[derive(Clone, Copy, Debug, Error, PartialEq, Eq)]
pub(crate) enum EdFault {
    /// The words are wrong.
    #[error("the words are wrong: l6ed lsp, l6ed dap, or l6ed --help")]
    Usage,
    /// What came is no message.
    #[error("what came is no message")]
    Malformed,
    /// Standard input failed.
    #[error("standard input can't be read")]
    NoInput,
    /// Standard output failed.
    #[error("standard output can't be written")]
    NoOutput,
    /// Memory ran out.
    #[error("out of memory")]
    NoMemory,
}

impl EdFault {
    /// The exit status: 4 if what came is no message, 5 if memory ran out or a device failed, 64 if the words are
    /// wrong.
    pub(crate) fn status(self) -> u8
        ensures { result ≡ spec.status_of self }
    {
        match self {
            EdFault::Malformed => 4,
            EdFault::NoInput | EdFault::NoOutput | EdFault::NoMemory => 5,
            EdFault::Usage => 64,
        }
    }
}

impl From<AllocError> for EdFault {
    fn from(_error: AllocError) -> Self {
        EdFault::NoMemory
    }
}

impl From<ChannelFault> for EdFault {
    fn from(fault: ChannelFault) -> Self {
        match fault {
            ChannelFault::Read => EdFault::NoInput,
            ChannelFault::Malformed => EdFault::Malformed,
            ChannelFault::Write => EdFault::NoOutput,
            ChannelFault::NoMemory => EdFault::NoMemory,
        }
    }
}

impl From<io::Error> for EdFault {
    fn from(error: io::Error) -> Self {
        match error.kind() {
            io::ErrorKind::OutOfMemory => EdFault::NoMemory,
            _ => EdFault::Usage,
        }
    }
}
