//! Numbers in a text: each is read, written again and compared, so that it has one form.

ghost use Rattle.std.specs.Prelude.{◌≡◌, ◌≤◌};
ghost use Rattle.vic_text.specs.Values as spec;

use crate::digits::hex_digits;
use itoa::Buffer;
use vic_frame::MAX_MASK_LEN;

/// The number that digits spell in decimal, without a sign or leading zeros.
pub fn number_in(digits: &[u8]) -> Option<u64>
    ensures { result ≡ spec.number_in digits.now }
{
    match str::from_utf8(digits) {
        Ok(text) => number_of(text),
        Err(_) => None,
    }
}

/// The same of a text.
fn number_of(text: &str) -> Option<u64>
    ensures { result ≡ spec.number_in text.now }
{
    let Ok(number) = text.parse::<u64>() else {
        return None;
    };
    let mut buffer = Buffer::new();
    if buffer.format(number) == text {
        Some(number)
    } else {
        None
    }
}

/// The number that digits spell as `count` bytes in upper-case hex digits.
pub fn hex_number_in(count: usize, digits: &[u8]) -> Option<u64>
    requires { count ≤ 8 }
    ensures { result ≡ spec.hex_number_in count digits.now }
{
    let mut bytes = [0; 8];
    if hex::decode_to_slice(digits, &mut bytes[8 - count..]).is_err() {
        return None;
    }
    let number = u64::from_be_bytes(bytes);
    if hex_digits(count, number).as_slice() == digits {
        Some(number)
    } else {
        None
    }
}

/// The value of a mask of `len` bits, `-` if it has none.
pub fn value_in(len: u8, text: &[u8]) -> Option<u64>
    requires { len ≤ MAX_MASK_LEN }
    ensures { result ≡ spec.value_in len text.now }
{
    if len > 0 {
        hex_number_in(usize::from((len + 7) / 8), text)
    } else if text == b"-".as_slice() {
        Some(0)
    } else {
        None
    }
}
