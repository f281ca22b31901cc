//! The written machine: what a step of a program does, defined without registers.
//!
//! The definitions in `specs/` are what one has to believe of the machine; the functions are those on
//! plain values, and the laws of the definitions.
#![tactic(auto)]

mod calculation;
mod condition;
mod getting;
mod halt;
mod jump;
mod laws;
mod limits;
mod locus;
mod position;
mod returns;
mod trap;
mod worked;

pub use calculation::Calculation;
pub use condition::{ShortCircuit, compares, short_circuit_of};
pub use getting::level_for;
pub use halt::{Halt, StepResult};
pub use jump::{Jump, ending_after, position_after};
pub use laws::{
    logic_goes_bit_by_bit, outputs_grow, runs_are_determined, runs_end, runs_have_a_last_state,
    runs_have_their_limits, runs_stay_within_bounds, sums_undo_differences, tests_look_at_each_bit,
};
pub use limits::{Limits, MAX_INPUT, MAX_OUTPUT, MAX_STEPS};
pub use locus::Locus;
pub use position::Position;
pub use returns::Return;
pub use trap::Trap;
pub use worked::{
    bugs_exchange, chain_leads, difference_wraps, fail_goes_to_its_label, get_keeps_the_old,
    not_all_stops, use_after_free_traps,
};
