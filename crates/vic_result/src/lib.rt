//! What is written of a collection, in three forms:
//!
//! - `table` is its table: each row of the catalogue with three cells more;
//! - `lines` is its lines: all findings, or the line of the answer;
//! - `object` is its object in JSON.
//!
//! Below all three are `answered`, the line of an answer and its status; `uid_logs`, in which logs
//! a UID is; and `names` and `states`, what logs and states are called. `push_..` adds to a text.
#![tactic(auto)]

mod answered;
mod lines;
mod names;
mod object;
mod states;
mod table;
mod uid_logs;

pub use answered::{ResultText, answer_status, push_answer_line};
pub use lines::lines_text;
pub use object::{LogMargin, object_text};
pub use states::state_name;
pub use table::table_text;
