//! A debug adapter: what an editor asks of the run of a deck, by the Debug Adapter Protocol. It goes back, too.
#![tactic(auto)]

mod adapter;
mod answer;
mod asking;
mod breakpoints;
mod debuggee;
mod entering;
mod evaluating;
mod events;
mod files;
mod frames;
mod launching;
mod marks;
mod moves;
mod nodes;
mod paths;
mod request;
mod scopes;
mod serving;
mod standing;
mod stopping;
mod targets;
mod trimmed;
mod values;
mod variable;
mod variables;
mod watches;

pub use adapter::{Adapter, Reply};
pub use events::Event;
pub use files::{FileFault, Files};
pub use serving::serve;
