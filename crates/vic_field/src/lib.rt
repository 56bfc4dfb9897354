//! Tags as machines: what a field of tags answers, and the log of a session with them.
#![tactic(auto)]

mod field;
mod hear;
mod index;
mod outcome;
mod populate;
mod quiet;
mod row;
mod session;

pub use field::{AddFault, Field};
pub use outcome::Outcome;
pub use session::{SimFault, simulate};
