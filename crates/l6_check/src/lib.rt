//! What is wrong with a deck, in words: its errors, and what else is worth a warning.
#![tactic(auto)]

mod advice;
mod cards;
mod certain;
mod codes;
mod columns;
mod conditions;
mod element;
mod element_advice;
mod explain;
mod fault;
mod field_places;
mod field_warnings;
mod finding;
mod findings;
mod form_words;
mod forms;
mod group_words;
mod indented;
mod job;
mod label_places;
mod labels;
mod laws;
mod listed;
mod marked;
mod marks;
mod mended;
mod names;
mod nearest;
mod parts;
mod reached;
mod reading;
mod reason;
mod report;
mod running;
mod saying;
mod scan;
mod slips;
mod spelling_advice;
mod targets;
mod texts;
mod verdict;
mod warning_words;
mod ways;
mod writing;

pub use cards::{CardWarnings, card_warnings};
pub use fault::OutOfMemory;
pub use field_warnings::undefined_fields;
pub use finding::{Finding, Severity, Span};
pub use findings::{Findings, MAX_FINDINGS};
pub use l6_group::{GroupFault, Shape};
pub use labels::{Labels, LabelsFound, labels_of};
pub use laws::checks_have_their_limits;
pub use listed::all_findings;
pub use reading::{StatementErrors, statement_errors};
pub use reason::{
    CertainTrap, FormReason, LabelText, LimitReason, MissingLabel, Reason, WarningReason,
};
pub use report::{ProgramWarnings, Report, check};
pub use saying::Said;
pub use ways::{StatementWarnings, statement_warnings};
pub use writing::{CheckedText, Layout, checked_text, checked_text_of};
