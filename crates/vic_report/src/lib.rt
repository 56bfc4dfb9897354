//! All findings of a log, and the lines that show them; or the conflict of an impossible one.
//!
//! The first finding of a report is the verdict of `vic_verdict::judge` (`LogReport::verdict`). The
//! lines of absent UIDs are read off a walk over the log; those of certain UIDs are noted in one
//! pass over the lines and one over the unread slots: the first reply, if the UID was heard. The
//! lines of a conflict are guessed by `vic_guess` and checked here, except that a reply of a Quiet
//! tag is a conflict by itself. All of this is proved, but for one point that is only tested: that
//! no line of a conflict can be left out.
#![tactic(auto)]

mod absent_lines;
mod certain_lines;
mod conflict;
mod findings;
mod kept_log;
pub mod laws;
mod line_numbers;
mod reporting;
mod shown;
mod silencer;

pub use certain_lines::lines_of_certain;
pub use conflict::{Conflict, find_conflict};
pub use findings::{Findings, Unsettled};
pub use reporting::{LogReport, report, report_of_facts};
pub use shown::ShownUid;
