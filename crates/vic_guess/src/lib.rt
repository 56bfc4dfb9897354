//! A guess about an impossible log: which lines contradict each other.
//!
//! It walks over the lines a few times, whatever they are, and is right as far as tests show. Its
//! contract promises nothing. No answer rests on it: `vic_report` judges a log that keeps only the
//! guessed lines, in proved code, and if that log is possible names all slot lines up to the first
//! impossible one, except unknown ones.
#![tactic(auto)]

mod conflict;
mod effects;
mod waiting;

pub use conflict::guess_conflict;
