//! What the program does for all words and files: what it writes, and with which status it ends.
//!
//! It is generic over whatever opens files, and over the three standard streams.
#![tactic(auto)]

mod each;
mod files;
mod no_answer;
mod program;
mod run;
mod single;
mod texts;

pub use files::Files;
pub use no_answer::NoAnswer;
pub use program::run_program;
pub use run::run_asked;
