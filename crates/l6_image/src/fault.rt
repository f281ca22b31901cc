//! Why something is no image.

ghost use Rattle.std.specs.Prelude.{◌≡◌};
ghost use Rattle.l6_image.specs.declared.fault.LoadFault.TheVariants.{NoMemory};
ghost use Rattle.l6_image.specs.declared.fault.ReadFault.TheVariants.{NoMemory as NoRoom};
ghost use Rattle.l6_image.specs.inner.Faults.{load_fault};

use std::alloc::{AllocError, AllocFailed};
use thiserror::Error;

/// Why a text is no image.
#[derive(Clone, Copy, Debug, Error, PartialEq, Eq)]
pub enum LoadFault {
    /// This line, counted from 1, is the first that is not twelve octal digits and a line feed.
    #[error("line {0}: not a word")]
    NotWords(u32),
    /// Each line is a word, but they are the words of no program.
    #[error("not an image")]
    NotAnImage,
    /// Memory ran out. This says nothing of the text.
    #[error("out of memory")]
    NoMemory,
}

impl From<AllocError> for LoadFault {
    ghost from_gives = { λ _ fault. fault ≡ NoMemory };

    fn from(_error: AllocError) -> Self {
        LoadFault::NoMemory
    }
}

/// Why no statements could be read from words.
#[derive(Clone, Copy)]
pub(crate) enum ReadFault {
    /// They are the words of no program.
    NotAnImage,
    /// Memory ran out.
    NoMemory,
}

impl From<AllocError> for ReadFault {
    ghost from_gives = { λ _ fault. fault ≡ NoRoom };

    fn from(_error: AllocError) -> Self {
        ReadFault::NoMemory
    }
}

impl<T: Drop> From<AllocFailed<T>> for LoadFault {
    ghost from_gives = { λ _ fault. fault ≡ NoMemory };

    fn from(_error: AllocFailed<T>) -> Self {
        LoadFault::NoMemory
    }
}

impl From<ReadFault> for LoadFault {
    ghost from_gives = { λ read fault. fault ≡ load_fault read };

    fn from(fault: ReadFault) -> Self {
        match fault {
            ReadFault::NotAnImage => LoadFault::NotAnImage,
            ReadFault::NoMemory => LoadFault::NoMemory,
        }
    }
}

impl<T: Drop> From<AllocFailed<T>> for ReadFault {
    ghost from_gives = { λ _ fault. fault ≡ NoRoom };

    fn from(_error: AllocFailed<T>) -> Self {
        ReadFault::NoMemory
    }
}
