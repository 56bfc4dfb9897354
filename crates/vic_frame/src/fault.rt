//! What can be wrong with a frame.

ghost use Rattle.std.specs.Prelude.{◌≡◌, ◌≤◌, Some, length};
ghost use Rattle.vic_frame.specs.Names.{fault_name};

use std::fmt;

/// Why bytes aren't a frame of the expected kind: the first fault that applies, in the order of the
/// two tables of `docs/FRAMES.md`. It displays as its name.
#[derive(Clone, Copy, Debug, PartialEq, Eq)]
pub enum FrameFault {
    /// A request has fewer than 4 bytes.
    Short,
    /// The last two bytes are not the CRC of those before them.
    Crc,
    /// The protocol extension flag of a request, bit 4, is 1.
    Extension,
    /// Bit 8 of the flags of a request, which is reserved, is 1.
    Reserved,
    /// The Option_flag of a request, bit 7, is 1.
    OptionFlag,
    /// The command of a request is neither 01, Inventory, nor 02, Stay Quiet.
    OtherCommand,
    /// The Inventory_flag, bit 3, is not 1 in an Inventory request, or not 0 in a Stay Quiet
    /// request.
    InventoryFlag,
    /// The AFI_flag of an Inventory request, bit 5, is 1.
    Afi,
    /// The frame doesn't have the number of bytes that its fields require.
    Length,
    /// An Inventory request has a mask length above 64 with one slot, or above 60 with sixteen.
    MaskTooLong,
    /// A bit of the mask value above the mask's length is 1.
    MaskPadding,
    /// The Select_flag of a Stay Quiet request, bit 5, is 1.
    SelectFlag,
    /// The Address_flag of a Stay Quiet request, bit 6, is 0.
    NotAddressed,
    /// The Error_flag of a reply, bit 1, is 1.
    ErrorFlag,
    /// The most significant byte of the UID of a reply is not E0.
    NotVicinity,
}

impl FrameFault {
    /// Its name, of at most 13 bytes.
    pub fn name(&self) -> &'static str
        ensures name { result.now ≡ fault_name self.now }
        ensures short { length result.now ≤ 13 }
    {
        match self {
            FrameFault::Short => "Short",
            FrameFault::Crc => "Crc",
            FrameFault::Extension => "Extension",
            FrameFault::Reserved => "Reserved",
            FrameFault::OptionFlag => "OptionFlag",
            FrameFault::OtherCommand => "OtherCommand",
            FrameFault::InventoryFlag => "InventoryFlag",
            FrameFault::Afi => "Afi",
            FrameFault::Length => "Length",
            FrameFault::MaskTooLong => "MaskTooLong",
            FrameFault::MaskPadding => "MaskPadding",
            FrameFault::SelectFlag => "SelectFlag",
            FrameFault::NotAddressed => "NotAddressed",
            FrameFault::ErrorFlag => "ErrorFlag",
            FrameFault::NotVicinity => "NotVicinity",
        }
    }
}

impl fmt::Display for FrameFault {
    ghost output = { λ e. Some (fault_name e) };

    fn fmt<W: fmt::Write>(&self, f: &mut fmt::Formatter<W>) -> fmt::Result {
        f.write_str(self.name())
    }
}
