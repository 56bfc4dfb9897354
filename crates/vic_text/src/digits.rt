//! Numbers, UIDs and masks behind a text.

ghost use Rattle.std.specs.Prelude.{◌≡◌, ◌≤◌, ◌++◌, OnOk, decimal};
ghost use Rattle.arrayvec.specs.ArrayVec.{array_vec_len};
ghost use Rattle.vic_text.specs.Digits.{hex_bytes, mask_text, uid_text, value_text};

use arrayvec::ArrayVec;
use itoa::Buffer;
use std::alloc::AllocError;
use vic_frame::{Mask, Uid};
use vic_log::push_hex;

/// How many digits eight bytes have in hex.
pub const HEX_LEN: usize = 16;

/// Appends a number, in decimal digits.
pub fn push_decimal(text: &mut Vec<u8>, number: u64) -> Result<(), AllocError>
    ensures { OnOk result (text.new.items ≡ text.old.items ++ decimal number) }
{
    text.extend_from_slice(Buffer::new().format(number).as_bytes())
}

/// Appends the last `count` bytes of a number, most significant first, in hex digits.
pub fn push_bytes(text: &mut Vec<u8>, count: usize, number: u64) -> Result<(), AllocError>
    requires { count ≤ 8 }
    ensures { OnOk result (text.new.items ≡ text.old.items ++ hex_bytes count number) }
{
    let digits = hex_digits(count, number);
    text.extend_from_slice(digits.as_slice())
}

/// The last `count` bytes of a number, most significant first, in hex digits.
pub fn hex_digits(count: usize, number: u64) -> ArrayVec<u8, HEX_LEN>
    requires { count ≤ 8 }
    ensures items { result.items ≡ hex_bytes count number }
    ensures len { array_vec_len result ≤ HEX_LEN }
{
    let mut digits = ArrayVec::new();
    let bytes = number.to_be_bytes();
    push_hex(&mut digits, &bytes[8 - count..]);
    digits
}

/// Appends a UID, in hex digits.
pub fn push_uid(text: &mut Vec<u8>, uid: Uid) -> Result<(), AllocError>
    ensures { OnOk result (text.new.items ≡ text.old.items ++ uid_text uid) }
{
    push_bytes(text, 8, uid.number())
}

/// Appends a mask: its length and its value.
pub fn push_mask(text: &mut Vec<u8>, mask: &Mask) -> Result<(), AllocError>
    ensures { OnOk result (text.new.items ≡ text.old.items ++ mask_text mask.now) }
{
    push_decimal(text, u64::from(mask.len()))?;
    text.extend_from_slice(b" ")?;
    push_value(text, mask)
}

/// Appends the value of a mask.
pub fn push_value(text: &mut Vec<u8>, mask: &Mask) -> Result<(), AllocError>
    ensures { OnOk result (text.new.items ≡ text.old.items ++ value_text mask.now) }
{
    let len = mask.len();
    if len == 0 {
        text.extend_from_slice(b"-")
    } else {
        push_bytes(text, usize::from((len + 7) / 8), mask.value())
    }
}
