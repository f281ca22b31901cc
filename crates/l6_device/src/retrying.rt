//! One read and one write, retried after interruptions as long as patience is left.

ghost use Rattle.std.specs.Prelude.{◌≡◌, ◌<◌, length, [], ◌∷◌, is_err, IfOk};
ghost use Rattle.std.specs.Io.{ReadsAtMost, WritesAtMost};
ghost use Rattle.std.specs.Io.KnownBytes.{ReadConsumes, WriteAppends};
ghost use Rattle.l6_device.specs.Patience.{RetriesAccountedWith, device_use};

use crate::device::{Sink, Source, Trouble};
use crate::patience::Patience;

/// One read, retried after interruptions.
pub(crate) fn read_patiently<R: Source>(
    reader: &mut R,
    buffer: &mut [u8],
    patience: &mut Patience,
) -> Result<usize, Trouble>
    ensures bound { ReadsAtMost result buffer.new }
    ensures bytes { ReadConsumes (R.left reader.old) (R.left reader.new) result buffer.new }
    ensures retries { RetriesAccountedWith
        (device_use (R.health reader.old) (R.health reader.new) (is_err result) ∷ [])
        patience.old patience.new }
{
    loop {
        match reader.read(buffer) {
            Ok(count) => return Ok(count),
            Err(Trouble::Interrupted) => {
                if !patience.retry() {
                    return Err(Trouble::Interrupted);
                }
            }
            Err(Trouble::Failed) => return Err(Trouble::Failed),
        }
    }
}

/// One write of some bytes, retried after interruptions. A write that takes none of them is a
/// failure. The caller owes a byte.
pub(crate) fn write_patiently<W: Sink>(
    writer: &mut W,
    bytes: &[u8],
    patience: &mut Patience,
) -> Result<usize, Trouble>
    requires some { 0 < length bytes.now }
    ensures bound { WritesAtMost result bytes.now }
    ensures some { IfOk result (λ count. 0 < count) }
    ensures bytes { WriteAppends (W.taken writer.old) (W.taken writer.new) result bytes.now }
    ensures retries { RetriesAccountedWith
        (device_use (W.health writer.old) (W.health writer.new) (is_err result) ∷ [])
        patience.old patience.new }
{
    loop {
        match writer.write(bytes) {
            Ok(0) => return Err(Trouble::Failed),
            Ok(count) => return Ok(count),
            Err(Trouble::Interrupted) => {
                if !patience.retry() {
                    return Err(Trouble::Interrupted);
                }
            }
            Err(Trouble::Failed) => return Err(Trouble::Failed),
        }
    }
}
