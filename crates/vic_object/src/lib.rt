//! The object of a log, in JSON.
#![tactic(auto)]

mod answer;
mod asking;
mod cautious;
mod finding;
pub mod laws;
mod lines;
mod object;
mod plain;
mod request;
mod text;
mod told;

pub use finding::{FindingTold, MOST_TOLD, findings_told};
pub use object::object_of;
pub use request::ValidRequest;
pub use text::push_object;
pub use told::{AskedMask, CautiousReading, FieldTold, LogTold, MOST_CERTAIN};
