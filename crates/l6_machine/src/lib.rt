//! The machine: it runs a program, a step at a time. Its options, and the printout of its run.
#![tactic(auto)]

mod decimal;
mod ending;
mod execution;
mod fault;
mod fields;
mod finding;
mod flow;
mod machine;
mod options;
mod printing;
mod progress;
mod returning;
mod views;
mod watching;
mod words;

pub use decimal::push_decimal;
pub use ending::Ending;
pub use fault::MachineFault;
pub use l6_registers::Depths;
pub use l6_steps::{Halt, Limits, Position, Return, StepResult, Trap};
pub use machine::Machine;
pub use options::{Options, machine_under};
pub use printing::{ending_line, ending_of, into_printout, printout, push_whole_lines};
pub use watching::Watch;
