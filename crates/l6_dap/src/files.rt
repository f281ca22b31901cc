//! The files that an editor names.

use l6_device::Part;
use std::alloc::{AllocError, Global};
use thiserror::Error;

/// Why a file was not read.
#[derive(Clone, Copy, Debug, Error, PartialEq, Eq)]
pub enum FileFault {
    /// It can't be opened or read.
    #[error("it can't be read")]
    Unread,
    /// It has more bytes than this part of a job may have.
    #[error("it is too long")]
    TooLong,
    /// Memory ran out.
    #[error("out of memory")]
    NoMemory,
}

impl From<AllocError> for FileFault {
    fn from(_error: AllocError) -> Self {
        FileFault::NoMemory
    }
}

/// The files that an editor names.
pub trait Files {
    /// The bytes of a file, which is this part of a job.
    ///
    /// # Errors
    ///
    /// It can't be read, or is too long, or memory ran out.
    fn read(&mut self, alloc: Global, path: &str, part: Part) -> Result<Vec<u8>, FileFault>;
}
