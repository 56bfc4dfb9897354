//! How many misses it would take to make a complete list wrong.
//!
//! A UID is overlooked in a slot in which, by the log, a tag with it should have answered, if the
//! slot was silent, or another tag's reply was read alone. In how many slots that is so is its
//! margin; that of a log is the least margin of the UIDs that it doesn't list. `margin` returns it,
//! with the first mask of UIDs that have it, and how far a complete list stays complete if the log
//! is read more cautiously; `overlooked` returns the margin of each of some UIDs.
//! `laws` states what follows from the definitions.
#![tactic(auto)]

mod answer;
mod cautious;
mod counts;
pub mod laws;
mod least;
mod margins;
mod tally;
mod weakest;

pub use answer::{Margin, Readings, Weakest};
pub use cautious::{readings, readings_of_complete};
pub use margins::overlooked;
pub use weakest::{margin, weakest_besides, weakest_by_keys};
