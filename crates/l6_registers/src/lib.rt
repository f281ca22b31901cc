//! The registers of the machine: all that operations work on, and what each action does to them.
#![tactic(auto)]

mod action;
mod calculating;
mod characters;
mod condition;
mod definitions;
mod fields;
mod getting;
mod input;
mod laws;
mod pushdown;
mod readable;
mod registers;
mod returns;
mod row;
mod saved;
mod stack;
mod upcoming;
mod views;

pub use laws::registers_have_their_limits;
pub use registers::Registers;
pub use saved::Depths;
pub use stack::MAX_ENTRIES;
