//! The checker for C, and for languages that call C: the text of a log in, an answer in numbers
//! out.
#![tactic(auto)]

ghost use Rattle.std.specs.Prelude.{◌≡◌};

mod check;
mod explain;
mod fields;
mod frames;
mod given;
mod inventory;
mod lines;
mod listed;
mod margins;
mod names;
mod report;
mod run;
mod simulated;

pub use fields::{VicinityReply, VicinityRequest};
pub use frames::VicinityFrame;
pub use inventory::VicinityMask;
pub use lines::VicinityLine;
pub use names::{VicinityName, each_fault_has_its_name};

/// The number of this interface: it changes if a struct, a number or the meaning of a call changes,
/// not if a call is added.
#[unsafe(no_mangle)]
pub extern "C" fn vicinity_interface() -> u32
    ensures { result ≡ 2 }
{
    2
}

/// The version of this library: 10,000 times its first number, 100 times its second, and its third.
#[unsafe(no_mangle)]
pub extern "C" fn vicinity_version() -> u32
    ensures { result ≡ 20008 }
{
    20_008
}
