//! Text in a buffer of fixed size, and how numbers are appended to it.

ghost use Rattle.std.specs.Prelude.{◌≡◌, ◌+◌, ◌≤◌, ◌++◌, length, decimal};
ghost use Rattle.arrayvec.specs.ArrayVec.{array_vec_len};
ghost use Rattle.vic_text.specs.Digits.{hex_bytes, mask_text, uid_text, value_text};

use arrayvec::ArrayVec;
use itoa::Buffer;
use vic_frame::Mask;
use vic_text::{HEX_LEN, hex_digits};

/// Room for the line of an answer, at most 45 bytes, and at least one zero after it.
pub const ANSWER_ROOM: usize = 64;

/// Room for the five lines of `margin`.
pub const TEXT_ROOM: usize = 4 * ANSWER_ROOM;

/// A short text, in a buffer of fixed size.
pub type ShortText = ArrayVec<u8, TEXT_ROOM>;

/// The greatest number of digits that a `u32` has in decimal.
const DECIMAL_LEN: usize = 10;

/// Appends a text.
pub(crate) fn push_str(text: &mut ShortText, word: &str)
    requires { array_vec_len text.old + length word.now ≤ TEXT_ROOM }
    ensures items { text.new.items ≡ text.old.items ++ word.now }
    ensures len { array_vec_len text.new ≡ array_vec_len text.old + length word.now }
{
    let Ok(()) = text.try_extend_from_slice(word.as_bytes()) else {
        unreachable!()
    };
}

/// Appends a number, in decimal digits.
pub(crate) fn push_decimal(text: &mut ShortText, number: u32)
    requires { array_vec_len text.old + DECIMAL_LEN ≤ TEXT_ROOM }
    ensures items { text.new.items ≡ text.old.items ++ decimal number }
    ensures len { array_vec_len text.new ≤ array_vec_len text.old + DECIMAL_LEN }
{
    let mut buffer = Buffer::new();
    push_str(text, buffer.format(number));
}

/// Appends the last `count` bytes of a number, most significant first, in hex digits.
pub(crate) fn push_bytes(text: &mut ShortText, count: usize, number: u64)
    requires room { array_vec_len text.old + HEX_LEN ≤ TEXT_ROOM }
    requires count { count ≤ 8 }
    ensures items { text.new.items ≡ text.old.items ++ hex_bytes count number }
    ensures len { array_vec_len text.new ≤ array_vec_len text.old + HEX_LEN }
{
    let Ok(()) = text.try_extend_from_slice(hex_digits(count, number).as_slice()) else {
        unreachable!()
    };
}

/// Appends a UID, in hex digits.
pub(crate) fn push_uid(text: &mut ShortText, uid: u64)
    requires { array_vec_len text.old + HEX_LEN ≤ TEXT_ROOM }
    ensures items { text.new.items ≡ text.old.items ++ uid_text uid }
    ensures len { array_vec_len text.new ≤ array_vec_len text.old + HEX_LEN }
{
    push_bytes(text, 8, uid);
}

/// The greatest number of bytes of a mask: its length, a space and its value.
pub(crate) const MASK_LEN: usize = DECIMAL_LEN + 1 + HEX_LEN;

/// Appends a mask: its length and its value.
pub(crate) fn push_mask(text: &mut ShortText, mask: &Mask)
    requires { array_vec_len text.old + MASK_LEN ≤ TEXT_ROOM }
    ensures items { text.new.items ≡ text.old.items ++ mask_text mask.now }
    ensures len { array_vec_len text.new ≤ array_vec_len text.old + MASK_LEN }
{
    push_decimal(text, u32::from(mask.len()));
    push_str(text, " ");
    push_value(text, mask);
}

/// Appends the value of a mask.
fn push_value(text: &mut ShortText, mask: &Mask)
    requires { array_vec_len text.old + HEX_LEN ≤ TEXT_ROOM }
    ensures items { text.new.items ≡ text.old.items ++ value_text mask.now }
    ensures len { array_vec_len text.new ≤ array_vec_len text.old + HEX_LEN }
{
    let len = mask.len();
    if len == 0 {
        push_str(text, "-");
    } else {
        push_bytes(text, usize::from((len + 7) / 8), mask.value());
    }
}
