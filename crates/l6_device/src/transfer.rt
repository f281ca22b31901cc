//! Reading a whole part of a job, and writing a whole text.

ghost use Rattle.std.specs.Prelude.{◌≡◌, ◌+◌, ◌-◌, ◌^◌, ◌<◌, ◌≤◌, min, length, vec_len, MatchResult, OnOk, IfOk, IfErr};
ghost use Rattle.std.specs.Io.KnownBytes.{Appends};
ghost use Rattle.l6_device.specs.Fault.{limit_of};
ghost use Rattle.l6_device.specs.Numerals.{most_counted};
ghost use Rattle.l6_device.specs.Patience.{ReaderRetries, WriterRetries};
ghost use Rattle.l6_device.specs.Transfer.{EndsReading, EndsWriting, GivesAtMost, GivesPart};
ghost use Rattle.l6_device.specs.inner.Transfer.{GivesMore, IsReadFault};

use crate::device::{Sink, Source};
use crate::fault::{Part, RunFault};
use crate::patience::Patience;
use crate::retrying::{read_patiently, write_patiently};
use std::alloc::Global;

/// The most bytes that one read asks for.
const CHUNK: usize = 65_536;

/// Reads all that the reader has left, at most the part's limit and one byte more.
///
/// # Errors
///
/// `TooLong` if more came than the part may have, `Read` if the reader has failed or was
/// interrupted when no retry was left, and `NoMemory`.
pub fn read_part<R: Source>(
    alloc: Global,
    reader: &mut R,
    part: Part,
    patience: &mut Patience,
) -> Result<Vec<u8>, RunFault>
    // What came, and why it ended.
    ensures bytes { MatchResult result
        (λ bytes. GivesPart part (R.left reader.old) (R.left reader.new) bytes.items)
        (EndsReading part (R.left reader.old) (R.left reader.new)) }
    ensures at_most { GivesAtMost (limit_of part + 1) (R.left reader.old) (R.left reader.new) }

    // The reader's retries are accounted for.
    ensures retries { ReaderRetries part (R.health reader.old) (R.health reader.new)
        patience.old patience.new result }
{
    let mut chunk = vec![in alloc; 0; CHUNK]?;
    let mut bytes = Vec::new(alloc);
    while bytes.len() <= part.limit() {
        let count = read_more(reader, part, chunk.as_mut_slice(), &mut bytes, patience)?;
        if count == 0 {
            return Ok(bytes);
        }
    }
    Err(RunFault::TooLong(part))
}

/// Appends what one read gives to the bytes, and answers how much came. The read asks for no more
/// than the part may still have and one byte more.
fn read_more<R: Source>(
    reader: &mut R,
    part: Part,
    chunk: &mut [u8],
    bytes: &mut Vec<u8>,
    patience: &mut Patience,
) -> Result<usize, RunFault>
    requires room { 0 < length chunk.old }
    requires within { vec_len bytes.old ≤ limit_of part }
    ensures ok { IfOk result (GivesMore (R.left reader.old) (R.left reader.new)
        bytes.old.items bytes.new.items) }
    ensures within { OnOk result (vec_len bytes.new ≤ limit_of part + 1) }
    ensures err { IfErr result (IsReadFault part) }
    ensures at_most { GivesAtMost (limit_of part + 1 - vec_len bytes.old)
        (R.left reader.old) (R.left reader.new) }
    ensures retries { ReaderRetries part (R.health reader.old) (R.health reader.new)
        patience.old patience.new result }
{
    let room = chunk.len().min(part.limit() + 1 - bytes.len());
    match read_patiently(reader, &mut chunk[..room], patience) {
        Ok(count) => {
            bytes.extend_from_slice(&chunk[..count])?;
            Ok(count)
        }
        Err(_) => Err(RunFault::Read(part)),
    }
}

/// Writes the text. `before` bytes of the same answer went out earlier.
///
/// # Errors
///
/// `Write` if the writer has failed or was interrupted when no retry was left, with how many bytes
/// of the answer went out.
pub fn write_text<W: Sink>(
    writer: &mut W,
    text: &[u8],
    before: u64,
    patience: &mut Patience,
) -> Result<(), RunFault>
    // What went out.
    ensures ok { OnOk result (Appends (W.taken writer.old) (W.taken writer.new) text.now) }
    ensures err { IfErr result
        (EndsWriting text.now before (W.taken writer.old) (W.taken writer.new)) }
    ensures empty { length text.now ≡ 0
        → (writer.new ≡ writer.old) × (patience.new ≡ patience.old) }

    // The writer's retries are accounted for.
    ensures retries { WriterRetries (W.health writer.old) (W.health writer.new)
        patience.old patience.new result }
{
    let mut count = 0;
    while count < text.len() {
        match write_patiently(writer, &text[count..], patience) {
            Ok(more) => count += more,
            Err(_) => return Err(write_fault(before, count)),
        }
    }
    Ok(())
}

/// The fault of a writer that took `count` bytes after the `before` that went out earlier.
fn write_fault(before: u64, count: usize) -> RunFault
    ensures { result ≡ RunFault.Write (min (before + count) most_counted) }
{
    RunFault::Write(before.saturating_add(count as u64))
}
