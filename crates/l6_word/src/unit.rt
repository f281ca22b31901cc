//! The unit of the store, which is the largest block.

/// The level of the largest block. A block of level k has `2^k` words.
pub const LARGEST_LEVEL: u8 = 10;

/// How many words the largest block has. The store is made of units of this size.
pub const UNIT_SIZE: u16 = 1 << LARGEST_LEVEL;
