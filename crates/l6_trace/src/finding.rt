//! What is wrong with another allocator's answer.

use l6_places::{Hindrance, Place};

/// What is wrong with another allocator's answer to a call.
#[derive(Clone, Copy, Debug, PartialEq, Eq)]
pub enum Finding {
    /// A get by a name that holds a block.
    Held,
    /// A free by a name that holds none.
    NotHeld,
    /// The trace has no answer to a get.
    Unanswered,
    /// A block, though more words were asked for than any has.
    TooLarge,
    /// The place is no multiple of the smallest piece.
    Between,
    /// No block of that size may be at the place.
    Hindered(Hindrance),
    /// The get was refused though this place is open.
    Refused(Place),
    /// The block has another size than this one.
    WrongSize(u32),
    /// The piece that was freed had to be joined so often.
    NotJoined(u32),
}
