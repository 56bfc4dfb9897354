//! The faults of a log by their names.

ghost use Rattle.std.specs.Prelude.{◌≡◌};
ghost use Rattle.vic_survey.specs.declared.fault_names.TheConstants.{FAULTS};
ghost use Rattle.vic_survey.specs.inner.Values as spec;

use vic_frame::FrameFault;
use vic_log::LineFault;

/// The faults of a log. Where a line and a frame have one of the same name, it is the line's.
const FAULTS: [LineFault; 24] = [
    LineFault::TooManyLines,
    LineFault::LineTooLong,
    LineFault::Header,
    LineFault::UnknownEntry,
    LineFault::Hex,
    LineFault::ListedLength,
    LineFault::Frame(FrameFault::Short),
    LineFault::Frame(FrameFault::Crc),
    LineFault::Frame(FrameFault::Extension),
    LineFault::Frame(FrameFault::Reserved),
    LineFault::Frame(FrameFault::OptionFlag),
    LineFault::Frame(FrameFault::OtherCommand),
    LineFault::Frame(FrameFault::InventoryFlag),
    LineFault::Frame(FrameFault::Afi),
    LineFault::Frame(FrameFault::Length),
    LineFault::Frame(FrameFault::MaskTooLong),
    LineFault::Frame(FrameFault::MaskPadding),
    LineFault::Frame(FrameFault::SelectFlag),
    LineFault::Frame(FrameFault::NotAddressed),
    LineFault::Frame(FrameFault::ErrorFlag),
    LineFault::NotVicinity,
    LineFault::SlotOutsideRound,
    LineFault::EntryAfterList,
    LineFault::DuplicateListed,
];

/// The fault with this name.
pub(crate) fn fault_named(name: &[u8]) -> Option<LineFault>
    ensures { result ≡ spec.fault_among FAULTS name.now }
{
    first_named(FAULTS.as_slice(), name)
}

/// The first of some faults with this name.
fn first_named(faults: &[LineFault], name: &[u8]) -> Option<LineFault>
    ensures { result ≡ spec.fault_among faults.now name.now }
{
    for fault in faults {
        if fault.name().as_bytes() == name {
            return Some(*fault);
        }
    }
    None
}
