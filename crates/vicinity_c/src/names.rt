//! The names of an answer's kinds and of faults, for C.

ghost use Rattle.std.specs.Prelude.{◌≡◌, ◌≤◌, length};
ghost use Rattle.vic_log.specs.Names as log;
ghost use Rattle.vic_log.specs.declared.fault.LineFault.{LineFault};
ghost use Rattle.vic_numbers.specs.FaultNumbers.{fault_number};
ghost use Rattle.vicinity_c.specs.Names as spec;

/// The size of the buffer for a name and a zero.
pub const NAME_ROOM: usize = 28;

/// A name, with length 0 if a number has none.
#[repr(C)]
#[derive(Clone, Copy, Debug, PartialEq, Eq)]
pub struct VicinityName {
    pub len: u32,
    /// The name, with zeros after it.
    pub text: [u8; NAME_ROOM],
}

/// The word that the line of an answer of this kind begins with: none if there is none.
/// The result is its length.
#[unsafe(no_mangle)]
pub extern "C" fn vicinity_kind_name(kind: u32, name: &mut VicinityName) -> u32
    ensures name { name.new ≡ spec.named (spec.kind_name kind) }
    ensures len { result ≡ length (spec.kind_name kind) }
{
    *name = named(kind_name(kind).as_bytes());
    name.len
}

/// The name of a line's fault, of a frame's, or of a refusal, as `vicinity check` and `vicinity
/// frame` write the first two; none for another number. The result is its length.
#[unsafe(no_mangle)]
pub extern "C" fn vicinity_fault_name(fault: u32, name: &mut VicinityName) -> u32
    ensures name { name.new ≡ spec.named (spec.fault_name fault) }
    ensures len { result ≡ length (spec.fault_name fault) }
{
    *name = named(fault_name(fault).as_bytes());
    name.len
}

/// The name of a fault.
fn fault_name(fault: u32) -> &'static str
    ensures name { result.now ≡ spec.fault_name fault }
    ensures short { length result.now ≤ 16 }
{
    match fault / 100 {
        0 => line_fault_name(fault),
        1 => frame_fault_name(fault),
        _ => refusal_name(fault),
    }
}

/// A name with zeros after it.
fn named(name: &[u8]) -> VicinityName
    requires { length name.now ≤ NAME_ROOM }
    ensures { result ≡ spec.named name.now }
{
    let mut room = [0; NAME_ROOM];
    room[..name.len()].copy_from_slice(name);
    VicinityName {
        len: name.len() as u32,
        text: room,
    }
}

/// The word of a kind of answer.
fn kind_name(kind: u32) -> &'static str
    ensures name { result.now ≡ spec.kind_name kind }
    ensures short { length result.now ≤ 10 }
{
    match kind {
        1 => "complete",
        2 => "absent",
        3 => "unlisted",
        4 => "unsettled",
        5 => "doubtful",
        6 => "impossible",
        7 => "refused",
        _ => "",
    }
}

/// The name of a line's fault.
fn line_fault_name(fault: u32) -> &'static str
    ensures name { result.now ≡ spec.line_fault_name fault }
    ensures short { length result.now ≤ 16 }
{
    match fault {
        1 => "TooManyLines",
        2 => "LineTooLong",
        3 => "Header",
        4 => "UnknownEntry",
        5 => "Hex",
        6 => "ListedLength",
        7 => "NotVicinity",
        8 => "SlotOutsideRound",
        9 => "EntryAfterList",
        10 => "DuplicateListed",
        _ => "",
    }
}

/// The name of a frame's fault.
fn frame_fault_name(fault: u32) -> &'static str
    ensures name { result.now ≡ spec.frame_fault_name fault }
    ensures short { length result.now ≤ 13 }
{
    match fault {
        101 => "Short",
        102 => "Crc",
        103 => "Extension",
        104 => "Reserved",
        105 => "OptionFlag",
        106 => "OtherCommand",
        107 => "InventoryFlag",
        108 => "Afi",
        109 => "Length",
        110 => "MaskTooLong",
        111 => "MaskPadding",
        112 => "SelectFlag",
        113 => "NotAddressed",
        114 => "ErrorFlag",
        115 => "NotVicinity",
        _ => "",
    }
}

/// The name of a refusal.
fn refusal_name(fault: u32) -> &'static str
    ensures name { result.now ≡ spec.refusal_name fault }
    ensures short { length result.now ≤ 11 }
{
    match fault {
        201 => "WrongLink",
        202 => "WrongSlots",
        203 => "WrongMask",
        204 => "WrongSlot",
        205 => "WrongReply",
        206 => "TooLong",
        207 => "WrongLetter",
        _ => "",
    }
}

/// The name of a fault by its number is the name that it displays as.
pub fn each_fault_has_its_name()
    ensures { (f : LineFault) → spec.fault_name (fault_number f) ≡ log.line_fault_name f }
{}
