//! The numbers of faults.

ghost use Rattle.std.specs.Prelude.{◌≡◌, ◌<◌};
ghost use Rattle.vic_numbers.specs.FaultNumbers as spec;

use vic_frame::FrameFault;
use vic_log::LineFault;

/// The number of a frame's fault.
pub fn frame_fault_number(fault: &FrameFault) -> u32
    ensures number { result ≡ spec.frame_fault_number fault.now }
    ensures above { 100 < result }
{
    match fault {
        FrameFault::Short => 101,
        FrameFault::Crc => 102,
        FrameFault::Extension => 103,
        FrameFault::Reserved => 104,
        FrameFault::OptionFlag => 105,
        FrameFault::OtherCommand => 106,
        FrameFault::InventoryFlag => 107,
        FrameFault::Afi => 108,
        FrameFault::Length => 109,
        FrameFault::MaskTooLong => 110,
        FrameFault::MaskPadding => 111,
        FrameFault::SelectFlag => 112,
        FrameFault::NotAddressed => 113,
        FrameFault::ErrorFlag => 114,
        FrameFault::NotVicinity => 115,
    }
}

/// The number of a line's fault.
pub fn fault_number(fault: &LineFault) -> u32
    ensures number { result ≡ spec.fault_number fault.now }
    ensures nonzero { 0 < result }
{
    match fault {
        LineFault::TooManyLines => 1,
        LineFault::LineTooLong => 2,
        LineFault::Header => 3,
        LineFault::UnknownEntry => 4,
        LineFault::Hex => 5,
        LineFault::ListedLength => 6,
        LineFault::NotVicinity => 7,
        LineFault::SlotOutsideRound => 8,
        LineFault::EntryAfterList => 9,
        LineFault::DuplicateListed => 10,
        LineFault::Frame(fault) => frame_fault_number(fault),
    }
}
