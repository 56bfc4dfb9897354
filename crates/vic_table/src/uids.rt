//! The UIDs that a cell spells or has.

ghost use Rattle.std.specs.Prelude.{◌≡◌, ◌≤◌, length};
ghost use Rattle.std.specs.List.{position_or_len};
ghost use Rattle.vic_table.specs.Contents.{is_no_filler, is_no_hex_digit, hex_uid, spelled_uid, has_uid, tells_uid};

use crate::contents::is_space;
use arrayvec::ArrayVec;
use vic_frame::Uid;

/// Whether a cell has or spells a UID. Most cells are too short.
pub(crate) fn tells_uid(cell: &[u8]) -> bool
    ensures { result ≡ tells_uid cell.now }
{
    if cell.len() < UID_DIGITS {
        return false;
    }
    has_uid(cell) || spelled_uid(cell).is_some()
}

/// Whether 16 hex digits in a row, with none before or behind them, are a UID.
fn has_uid(cell: &[u8]) -> bool
    ensures { result ≡ has_uid cell.now }
{
    let mut rest = cell;
    loop {
        let len = hex_len(rest);
        if len == UID_DIGITS && hex_uid(&rest[..len]).is_some() {
            return true;
        }
        if len == rest.len() {
            return false;
        }
        rest = &rest[len + 1..];
    }
}

/// How many hex digits a cell begins with.
fn hex_len(cell: &[u8]) -> usize
    ensures value { result ≡ position_or_len is_no_hex_digit cell.now }
    ensures bound { result ≤ length cell.now }
{
    for (index, byte) in cell.iter().enumerate() {
        if is_no_hex_digit(*byte) {
            return index;
        }
    }
    cell.len()
}

/// Whether a byte is no hex digit.
fn is_no_hex_digit(byte: u8) -> bool
    ensures { result ≡ is_no_hex_digit byte }
{
    !byte.is_ascii_hexdigit()
}

/// The UID that a cell spells: 16 hex digits are left of it without spaces, tabs, `:` and `-`.
pub fn spelled_uid(cell: &[u8]) -> Option<Uid>
    ensures { result ≡ spelled_uid cell.now }
{
    let mut digits: ArrayVec<u8, UID_DIGITS> = ArrayVec::new();
    for byte in cell {
        if is_no_filler(*byte) && digits.try_push(*byte).is_err() {
            return None;
        }
    }
    hex_uid(digits.as_slice())
}

/// Whether a byte isn't one that may stand among the digits of a UID.
fn is_no_filler(byte: u8) -> bool
    ensures { result ≡ is_no_filler byte }
{
    !(is_space(byte) || byte == b':' || byte == b'-')
}

/// The UID that 16 hex digits spell.
fn hex_uid(digits: &[u8]) -> Option<Uid>
    ensures { result ≡ hex_uid digits.now }
{
    let mut bytes = [0; 8];
    match hex::decode_to_slice(digits, &mut bytes) {
        Ok(()) => Uid::new(u64::from_be_bytes(bytes)),
        Err(_) => None,
    }
}

/// How many hex digits spell a UID.
const UID_DIGITS: usize = 16;
