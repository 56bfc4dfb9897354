//! What a log says of its field, as a value and as a sealed text.
//!
//! A `Survey` has the name of a log and what the log says, whatever it lists: which UIDs are
//! certain, which are open, its margin, and what more would be possible if replies had hidden
//! others, or if the reader had gone deaf. `push_survey` writes a survey behind others, and
//! `read_surveys` reads such a text: any other is refused at its first wrong line.
#![tactic(auto)]

mod begun;
mod fault;
mod fault_names;
pub mod laws;
mod making;
mod name;
mod read;
mod rising;
mod steps;
mod survey;
mod values;
mod write;

pub use fault::SurveysFault;
pub use name::{MAX_NAME_LEN, Name};
pub use read::read_surveys;
pub use rising::{CertainUids, MAX_LINE_NUMBER, RisingMasks};
pub use survey::{FieldFacts, MAX_COUNT, Survey, SurveyedField};
pub use write::push_survey;
