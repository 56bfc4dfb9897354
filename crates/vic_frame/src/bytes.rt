//! Numbers as bytes, least significant byte first, and the bits of a byte.

ghost use Rattle.std.specs.Prelude.{◌≡◌, ◌+◌, ◌≤◌, ◌++◌, length};
ghost use Rattle.vic_frame.specs.Bytes as spec;
ghost use Rattle.arrayvec.specs.ArrayVec.{array_vec_len};

use arrayvec::ArrayVec;

/// The number that at most eight bytes spell, least significant first.
pub(crate) fn number_of(bytes: &[u8]) -> u64
    requires { length bytes.now ≤ 8 }
    ensures { result ≡ spec.number_of bytes.now }
{
    let mut number: u64 = 0;
    let mut i = bytes.len();
    while i > 0 {
        i -= 1;
        number = number * 256 + u64::from(bytes[i]);
    }
    number
}

/// Appends the `count` low bytes of a number, least significant first.
pub(crate) fn push_number<const ROOM: usize>(
    out: &mut ArrayVec<u8, ROOM>,
    count: usize,
    number: u64,
)
    requires { array_vec_len out.old + count ≤ ROOM }
    ensures items { out.new.items ≡ out.old.items ++ spec.bytes_of count number }
    ensures len { array_vec_len out.new ≡ array_vec_len out.old + count }
{
    let mut rest = number;
    for i in 0..count {
        out.push((rest % 256) as u8);
        rest /= 256;
    }
}

/// Whether a bit of a byte is 1; `place` is 1 (the least significant bit) to 8.
pub(crate) fn bit(byte: u8, place: u8) -> bool
    requires low { 1 ≤ place }
    requires high { place ≤ 8 }
    ensures { result ≡ spec.bit place byte }
{
    (byte >> (place - 1)) % 2 == 1
}
