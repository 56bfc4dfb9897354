//! What the log of an inventory session proves about its list of tags.
//!
//! `judge` returns the verdict on a log; `explain` adds a small population that shows it. The rest
//! is public for the crates above: what a possible log tells of the tags, or else the first
//! impossible line (`facts_of`; with the parts of the keys for `vic_margin`), whether a log is
//! possible, and how a list differs from it. `laws` states what follows from the definitions.
#![tactic(auto)]

mod differences;
mod explanation;
mod facts;
mod judging;
pub mod laws;
mod listed;

pub use differences::{Differences, compare};
pub use explanation::{Explanation, explain, explain_with};
pub use facts::{Facts, Met, facts_and_parts_of, facts_of, is_possible};
pub use judging::{Verdict, judge, judge_with, verdict_of_facts};
pub use listed::{count_listed, listed_uids};
