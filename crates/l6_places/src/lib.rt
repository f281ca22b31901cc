//! The places of an allocator without what they hold: which are open, which is the lowest open one, what is in
//! the way of a block, and which blocks there are.
#![tactic(auto)]

mod board;
mod building;
mod laws;
mod tree;

pub use board::{Board, BoardFault, Hindrance, Level, MAX_TOP, Piece, Place};
pub use laws::boards_have_their_limit;
