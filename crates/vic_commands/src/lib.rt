//! The commands of the program over texts in memory, and their names: what the program would write
//! for files with these names and bytes, and its status. A command over many files takes one after
//! the other (`Gather`), so that the program needs to have only one of them in memory.
#![tactic(auto)]

mod collected;
mod commands;
mod gathering;
pub mod laws;
mod surveyed;
mod texts;

pub use collected::{Form, TakenForLines, TakenForObject, TakenForTable};
pub use commands::{Command, Output};
pub use gathering::Gather;
pub use surveyed::TakenLogs;
pub use texts::output_of;
