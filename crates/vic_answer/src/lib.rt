//! What vicinity answers to a log's text, a frame or words; how the answer reads as text and
//! status; and the runs from a source to a sink.
#![tactic(auto)]

mod answered;
mod check;
mod explain;
mod findings;
mod frame;
mod input;
pub mod laws;
mod lines;
mod margin;
mod output;
mod pieces;
mod report;
mod report_lines;
mod run;
mod simulate;
mod spell;
mod status;
mod task;
mod text;

pub use answered::{Answer, Answered, HasVerdict, Judgement, answer_of, find_in_text, read_text};
pub use check::{judge_text, run_check};
pub use explain::{run_explain, uids_of};
pub use findings::{Finding, findings_of};
pub use frame::run_frame;
pub use lines::{check_status, check_text};
pub use margin::run_margin;
pub use report::run_report;
pub use run::{LogCommand, WrittenText, written_text};
pub use simulate::{run_simulate, simulate_text};
pub use spell::{MAX_LINK, run_spell};
pub use status::{RunFault, Status, fault_text};
pub use task::{Task, do_task};
pub use text::ANSWER_ROOM;
