//! What an image lists: its statements, and in each of them its tests and its operations.

ghost use Rattle.std.specs.Prelude.{ℕ, List, Option};
ghost use Rattle.l6_image.specs.Row.{Row as Meaning};
ghost use Rattle.l6_image.specs.declared.version.Version.{Version};
ghost use Rattle.l6_image.specs.inner.decode.Statements as spec;
ghost use Rattle.l6_image.specs.inner.decode.Seen.{Gives};

use crate::decode::reader::row_at;
use crate::decode::reading::OfRow;
use crate::fault::ReadFault;
use crate::version::Version;
use l6_prog::MAX_OPERATIONS;
use std::alloc::Global;

/// What words list.
pub(crate) trait Listed: Sized {
    // What words begin with, and the words after it.
    ghost reads: { Version → List ℕ → Option (Self × List ℕ) };

    /// What words begin with, and the words after it.
    fn read(alloc: Global, version: Version, words: &[u64]) -> Result<(Self, &[u64]), ReadFault>
        ensures { Gives (λ found. (found.0, found.1.now)) result (reads version words.now) };
}

impl<T: OfRow> Listed for T {
    ghost reads = { spec.item_at T.row_meaning };

    #[tactic(auto, unfolding(crate::specs::inner::decode::Statements::item_at))]
    fn read(_alloc: Global, version: Version, words: &[u64]) -> Result<(Self, &[u64]), ReadFault> {
        let (row, rest) = row_at(version, words).ok_or(ReadFault::NotAnImage)?;
        let item = T::of_row(&row).ok_or(ReadFault::NotAnImage)?;
        Ok((item, rest))
    }
}

/// So many that words begin with, and the words after them.
// The count of an image's statements may be any number, so no room is made for as many as it says.
pub(crate) fn list_of<T: Listed + Drop>(
    alloc: Global,
    version: Version,
    count: u64,
    words: &[u64],
) -> Result<(Vec<T>, &[u64]), ReadFault>
    ensures { Gives (λ found. (found.0.items, found.1.now)) result
        (spec.many (T.reads version) count words.now) }
{
    let mut list = Vec::with_capacity(alloc, count.min(MAX_OPERATIONS as u64) as usize)?;
    let mut rest = words;
    for _ in 0..count {
        let (next, following) = T::read(alloc, version, rest)?;
        list.push(next)?;
        rest = following;
    }
    Ok((list, rest))
}
