//! Groups of a card: the operations and tests that they spell, and what labels are.
#![tactic(auto)]

mod cut;
mod element;
mod fault;
mod label;
mod laws;
mod number;
mod objection;
mod operation;
mod parts;
mod shapes;
mod spelling;
mod test;
mod value;
mod word;

pub use element::{are_blank, chain_of, is_letter};
pub use fault::{GroupFault, GroupObjection, Shape};
pub use l6_word::is_blank;
pub use label::{Label, MAX_LABEL_CHARACTERS, label_of};
pub use laws::labels_have_their_limit;
pub use number::decimal_of;
pub use objection::{operation_objection, shapes_as_operation, shapes_as_test, test_objection};
pub use operation::operation_of;
pub use spelling::{Spelling, spelled};
pub use test::test_of;
pub use word::{after_then, condition_from, exit_from};
