//! Programs: statements of operations on chains of names.
#![tactic(auto)]

mod chain;
mod condition;
mod exit;
mod laws;
mod name;
mod operand;
mod operation;
mod print_text;
mod program;
mod statement;

pub use chain::{Chain, MAX_NAMES};
pub use condition::{Comparison, Cond, Test};
pub use exit::Exit;
pub use laws::{programs_are_taken, programs_have_their_limits};
pub use name::{DIGITS, NAMES, Name};
pub use operand::Operand;
pub use operation::Op;
pub use print_text::{MAX_CHARACTERS, PrintText};
pub use program::{MAX_OPERATIONS, MAX_STATEMENTS, MAX_TESTS, ProgFault, Program};
pub use statement::Statement;
