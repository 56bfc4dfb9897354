//! Uses of the crates below: their public calls, as a caller writes them. Each function says in its
//! `ensures` what the caller gets, and that follows from what the callees promise.
#![tactic(auto)]

pub mod answer;
pub mod collection;
pub mod frame;
pub mod log;
pub mod margin;
pub mod report;
pub mod survey;
pub mod table;
pub mod verdict;
