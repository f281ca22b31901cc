//! The calls of a trace, and their answers.

use l6_store::{Level, Place};

/// What a line of a trace asks for. A block goes by the number of its name among those of the trace.
#[derive(Clone, Copy, Debug, PartialEq, Eq)]
pub enum Call {
    /// A block of at least so many words.
    Get { block: usize, words: u32 },
    /// That a block is freed.
    Free { block: usize },
    /// The free lists.
    Lists,
    /// What is at each place of the store.
    Map,
    /// How much of the store is used.
    Stats,
}

/// What another allocator answered to a call.
#[derive(Clone, Copy, Debug, PartialEq, Eq)]
pub enum Reply {
    /// The place of the block, and its size, where that is said.
    At { place: Place, size: Option<u32> },
    /// A place that is no multiple of the smallest piece.
    Between,
    /// There was no block.
    Nothing,
    /// The piece that was freed was joined so often.
    Joined(u32),
}

/// A call of a trace, with what another allocator answered to it, where the trace says so.
#[derive(Clone, Copy, Debug, PartialEq, Eq)]
pub struct Line {
    /// The number of the line, from 1 on.
    pub number: u32,
    /// The call.
    pub call: Call,
    /// What the other allocator answered.
    pub reply: Option<Reply>,
}

/// What the store answers to a call.
#[derive(Clone, Copy, Debug, PartialEq, Eq)]
pub enum Answer {
    /// A block of a level at a place, for which a piece was halved so often.
    Given {
        place: Place,
        level: Level,
        halved: u32,
    },
    /// No block: no aligned run of free words is large enough.
    Refused,
    /// The piece that was freed was joined so often.
    Freed {
        joined: u32,
    },
    /// Lists, a map or figures, which are in the text of the answers.
    Shown,
}
