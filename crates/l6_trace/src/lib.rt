//! Traces: the calls of a program that uses an allocator, as text, which are done on a buddy store, so
//! that another allocator's answers can be compared.
#![tactic(auto)]

mod call;
mod ending;
mod fault;
mod finding;
mod finding_texts;
mod following;
mod judge;
mod judging;
mod laws;
mod line;
mod map;
mod pieces;
mod report;
mod summary;
mod tally;
mod texts;
mod trace;
mod tracer;

pub use call::{Answer, Call, Line, Reply};
pub use ending::{End, Ending, answers_in, ending_of};
pub use fault::TraceFault;
pub use finding::Finding;
pub use following::{Difference, follow};
pub use judge::{Holding, Judge, MAX_POOL_LEVEL, Pool};
pub use judging::{Judgement, judge_lines, judge_trace};
pub use laws::{boards_are_stores, traces_have_their_limits};
pub use line::MAX_NUMBER;
pub use report::{Form, Report};
pub use summary::{Before, Summary};
pub use tally::Tally;
pub use trace::{Answers, MAX_CALLS, answers_to, judgement_of};
pub use tracer::Tracer;
