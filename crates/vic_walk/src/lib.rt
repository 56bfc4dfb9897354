//! The keys of all UIDs, divided into parts, so that a log treats all UIDs of a part alike, and a
//! walk over a log, which knows of each part whether it is open, Quiet or heard, and which entry
//! rules it out.
#![tactic(auto)]

mod answers;
mod cutting;
mod gathered;
mod index;
mod lacking;
pub mod laws;
mod lines;
mod listing;
mod log_parts;
mod log_walk;
mod marks;
mod needs;
mod ordering;
mod part_keys;
mod part_states;
mod parts;
mod ranked;
mod steps;
mod three;
mod walk_state;

pub use answers::{Answering, open_answers};
pub use lacking::first_lack;
pub use lines::LogLines;
pub use listing::list_start;
pub use log_parts::LogParts;
pub use log_walk::{LogWalk, walk_log};
pub use marks::Marks;
pub use part_keys::{closed_keys, other_keys};
pub use part_states::PartStates;
pub use parts::Parts;
pub use steps::{Span, Step};
