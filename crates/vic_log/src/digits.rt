//! Bytes as hex digits.

ghost use Rattle.std.specs.Prelude.{◌≡◌, ◌+◌, ◌*◌, ◌≤◌, ◌++◌, length};
ghost use Rattle.arrayvec.specs.ArrayVec.{array_vec_len};
ghost use Rattle.hex.specs.Hex.{encode_upper};

use arrayvec::ArrayVec;

/// Appends bytes to a text, each as two upper-case hex digits. Unlike `hex::encode_upper`, it
/// allocates no memory.
pub fn push_hex<const ROOM: usize>(text: &mut ArrayVec<u8, ROOM>, bytes: &[u8])
    requires { array_vec_len text.old + 2 * length bytes.now ≤ ROOM }
    ensures items { text.new.items ≡ text.old.items ++ encode_upper bytes.now }
    ensures len { array_vec_len text.new ≡ array_vec_len text.old + 2 * length bytes.now }
{
    for byte in bytes {
        text.push(DIGITS[usize::from(*byte / 16)]);
        text.push(DIGITS[usize::from(*byte % 16)]);
    }
}

const DIGITS: [u8; 16] = *b"0123456789ABCDEF";
