//! Exit statuses.

ghost use Rattle.std.specs.Prelude.{◌≡◌, ◌==◌, if◌then◌else◌};
ghost use Rattle.l6.specs.Status as spec;

use crate::arguments::WordsFault;
use crate::job::Outcome;
use l6_asm::AsmFault;
use l6_image::LoadFault;
use l6_run::{Ending, RunFault};

/// The exit status of the program: 0 after DONE or if a text was written, 1 after FAIL, 2 after a
/// trap, 3 at the limit of steps, 4 if the job was refused or a deck that was checked has errors, and 5
/// if memory ran out or a device failed.
pub fn status(answer: &Result<Outcome, RunFault>) -> u8
    ensures { result ≡ spec.status_of answer.now }
{
    match answer {
        Ok(Outcome::Written) => 0,
        Ok(Outcome::Checked(errors)) => status_of_errors(*errors),
        Ok(Outcome::Ran(ending)) => status_of_ending(*ending),
        Ok(Outcome::Explained(explained)) => status_of_ending(explained.ending),
        Err(
            RunFault::TooLong(_)
            | RunFault::Asm(
                AsmFault::Form(_)
                | AsmFault::Limit(_)
                | AsmFault::TwiceLabelled(_)
                | AsmFault::NoLabel(_),
            )
            | RunFault::Load(LoadFault::NotWords(_) | LoadFault::NotAnImage),
        ) => 4,
        Err(
            RunFault::Asm(AsmFault::NoMemory)
            | RunFault::Load(LoadFault::NoMemory)
            | RunFault::Read(_)
            | RunFault::Write(_)
            | RunFault::NoMemory,
        ) => 5,
    }
}

/// The exit status of a run that has ended so.
fn status_of_ending(ending: Ending) -> u8
    ensures { result ≡ spec.status_of_ending ending }
{
    match ending {
        Ending::Done => 0,
        Ending::Fail => 1,
        Ending::Trap(_) => 2,
        Ending::Limit => 3,
    }
}

/// The exit status of a deck that was checked and has so many errors.
fn status_of_errors(errors: u32) -> u8
    ensures { result ≡ (if errors == 0 then 0 else 4) }
{
    if errors == 0 { 0 } else { 4 }
}

/// The exit status if the words of the command line ask for nothing that can be done: 5 if memory
/// ran out, and else 64.
pub fn status_of_words(fault: &WordsFault) -> u8
    ensures { result ≡ spec.status_of_words fault.now }
{
    match fault {
        WordsFault::NoMemory => 5,
        WordsFault::Usage(_) | WordsFault::Unexpected(_) | WordsFault::NotText => 64,
    }
}
