//! What vicinity answers in numbers, for C: answers, findings and margins as structs, numbers of
//! faults, and lists copied into a caller's buffer.
#![tactic(auto)]

mod buffers;
mod fault_numbers;
mod finding_numbers;
mod margin_numbers;
mod numbers;

pub use buffers::{copy_list, copy_uids};
pub use fault_numbers::{fault_number, frame_fault_number};
pub use finding_numbers::{VicinityFinding, copy_findings};
pub use margin_numbers::{NO_WEAKEST, VicinityWeakest, weakest_of};
pub use numbers::{NO_ANSWER, VicinityAnswer, numbers_of};
