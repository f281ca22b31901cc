//! That the numbers of the code are those of the language.

ghost use Rattle.std.specs.Prelude.{◌≡◌};
ghost use Rattle.l6_device.specs.Numerals.{most_command_bytes, most_job_bytes, most_retries};

use crate::fault::{MAX_COMMAND_BYTES, MAX_JOB_BYTES};
use crate::patience::MAX_RETRIES;

/// Jobs are as long as the language says.
pub fn jobs_have_their_limit()
    ensures { MAX_JOB_BYTES ≡ most_job_bytes }
{}

/// Commands are as long as the language says.
pub fn commands_have_their_limit()
    ensures { MAX_COMMAND_BYTES ≡ most_command_bytes }
{}

/// Calls retry as often as the language says.
pub fn retries_have_their_limit()
    ensures { MAX_RETRIES ≡ most_retries }
{}
