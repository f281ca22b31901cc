//! Places without words for programs in C, C++, Rust, Zig or Python: an offset allocator of any memory. No call owes more
//! than that its store is one that `L6_OFFSET_CLOSED` or these calls made, and that one call at a time has it.
#![tactic(auto)]

mod calls;
mod exports;
mod fault;
mod handle;
mod loose;
mod store;
#[cfg(test)]
mod tests;
