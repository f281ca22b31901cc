//! The parts of a job, and why a job is not done.

ghost use Rattle.std.specs.Prelude.{◌≡◌, ◌<◌, ◌≤◌, length, IfErr, OnOk, Some};
ghost use Rattle.l6_device.specs.Fault.{limit_of, part_text, unassembled, unloaded};
ghost use Rattle.l6_device.specs.Numerals.{most_job_bytes};
ghost use Rattle.l6_device.specs.declared.fault.RunFault.TheVariants.{NoMemory};

use l6_asm::AsmFault;
use l6_card::MAX_DECK_BYTES;
use l6_image::{LoadFault, MAX_BYTES};
use l6_steps::MAX_INPUT;
use std::alloc::AllocError;
use std::fmt;
use thiserror::Error;

/// The most bytes that a job may have.
pub const MAX_JOB_BYTES: usize = 16_777_216;

/// The most bytes that the debugger's commands may have.
pub const MAX_COMMAND_BYTES: usize = 1_048_576;

/// A part of a job.
#[derive(Clone, Copy, Debug, PartialEq, Eq)]
pub enum Part {
    /// The cards that spell a program.
    Deck,
    /// The text of a program's image.
    Image,
    /// The characters that the program reads.
    Input,
    /// The commands of the debugger.
    Commands,
    /// The whole job.
    Job,
}

impl Part {
    /// The most bytes that the part may have.
    pub fn limit(self) -> usize
        ensures value { result ≡ limit_of self }
        ensures within { result ≤ most_job_bytes }
    {
        match self {
            Part::Deck => MAX_DECK_BYTES,
            Part::Image => MAX_BYTES,
            Part::Input => MAX_INPUT,
            Part::Commands => MAX_COMMAND_BYTES,
            Part::Job => MAX_JOB_BYTES,
        }
    }

    /// Checks that the part has no more bytes than it may have.
    ///
    /// # Errors
    ///
    /// `TooLong` of this part, exactly if it has more.
    pub fn check(self, bytes: &[u8]) -> Result<(), RunFault>
        ensures ok { OnOk result (length bytes.now ≤ limit_of self) }
        ensures err { IfErr result (λ fault.
            (fault ≡ RunFault.TooLong self) × (limit_of self < length bytes.now)) }
    {
        if bytes.len() > self.limit() {
            return Err(RunFault::TooLong(self));
        }
        Ok(())
    }
}

impl fmt::Display for Part {
    ghost output = { λ part. Some (part_text part) };

    fn fmt<W: fmt::Write>(&self, f: &mut fmt::Formatter<W>) -> fmt::Result {
        f.write_str(match self {
            Part::Deck => "deck",
            Part::Image => "image",
            Part::Input => "input",
            Part::Commands => "commands",
            Part::Job => "job",
        })
    }
}

/// Why a job was not done.
#[derive(Clone, Copy, Debug, PartialEq, Eq, Error)]
pub enum RunFault {
    /// The part has more bytes than its limit.
    #[error("{0} too long")]
    TooLong(Part),
    /// The deck spells no program.
    #[error(transparent)]
    Asm(AsmFault),
    /// The text is not that of an image.
    #[error(transparent)]
    Load(LoadFault),
    /// The part's reader had trouble.
    #[error("read failed")]
    Read(Part),
    /// The writer had trouble after so many bytes of the answer. The count stops at `u64::MAX`.
    #[error("write failed after {0} bytes")]
    Write(u64),
    /// Memory ran out.
    #[error("out of memory")]
    NoMemory,
}

impl From<AllocError> for RunFault {
    ghost from_gives = { λ _ fault. fault ≡ NoMemory };

    fn from(_error: AllocError) -> RunFault {
        RunFault::NoMemory
    }
}

impl From<AsmFault> for RunFault {
    ghost from_gives = { λ asm fault. fault ≡ unassembled asm };

    fn from(fault: AsmFault) -> Self {
        match fault {
            AsmFault::NoMemory => RunFault::NoMemory,
            AsmFault::Form(_)
            | AsmFault::Limit(_)
            | AsmFault::TwiceLabelled(_)
            | AsmFault::NoLabel(_) => RunFault::Asm(fault),
        }
    }
}

impl From<LoadFault> for RunFault {
    ghost from_gives = { λ load fault. fault ≡ unloaded load };

    fn from(fault: LoadFault) -> Self {
        match fault {
            LoadFault::NoMemory => RunFault::NoMemory,
            LoadFault::NotWords(_) | LoadFault::NotAnImage => RunFault::Load(fault),
        }
    }
}
