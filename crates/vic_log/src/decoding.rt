//! A line's bytes from its hex digits: those of most frames eight at a time, by vectors.

ghost use Rattle.std.specs.Prelude.{◌≡◌, ℕ, ◌+◌, ◌*◌, ◌<◌, ◌≤◌, true, false, map, length, slice_index, Ok, IsErr, IfOk, IfErr};
ghost use Rattle.hex.specs.Hex.{decode_of, decode_pairs};
ghost use Rattle.vic_log.specs.inner.Digits.{digit_or_255, SpellsByte};
ghost use Rattle.vic_log.specs.declared.fault.LineFault.TheVariants.{Hex};

use crate::fault::LineFault;
use std::simd::prelude::*;

/// How many bytes are decoded at once.
const AT_ONCE: usize = 8;

/// The bytes that hex digits spell, in some room.
#[inline(always)]
pub(crate) fn decode<'a>(digits: &[u8], room: &'a mut [u8; 63]) -> Result<&'a [u8], LineFault>
    requires { length digits.now ≤ 126 }
    ensures ok { IfOk result (λ bytes. decode_of digits.now ≡ Ok bytes.now) }
    ensures err { IfErr result (λ e. (e ≡ Hex) × IsErr (decode_of digits.now)) }
{
    if digits.len() % 2 != 0 {
        return Err(LineFault::Hex);
    }
    let bytes = &mut room[..digits.len() / 2];
    let spell = if AT_ONCE <= bytes.len() && bytes.len() <= 2 * AT_ONCE {
        decode_ends(digits, bytes)
    } else {
        decode_each(digits, bytes)
    };
    if spell {
        Ok(bytes)
    } else {
        Err(LineFault::Hex)
    }
}

/// Puts in the 8 to 16 bytes that hex digits spell, and says whether they spell any: the first
/// eight and the last eight are all of them.
#[inline(always)]
fn decode_ends(digits: &[u8], bytes: &mut [u8]) -> bool
    requires digits { length digits.now ≡ 2 * length bytes.old }
    requires low { AT_ONCE ≤ length bytes.old }
    requires high { length bytes.old ≤ 2 * AT_ONCE }
    ensures ok { result ≡ true → decode_pairs 0 digits.now ≡ Ok bytes.new }
    ensures err { result ≡ false → IsErr (decode_pairs 0 digits.now) }
{
    let begins = decode_eight(digits, bytes, 0);
    if bytes.len() == AT_ONCE {
        return begins;
    }
    let last = bytes.len() - AT_ONCE;
    let ends = decode_eight(digits, bytes, last);
    begins && ends
}

/// The same of eight of the bytes, from a place on.
#[inline(always)]
fn decode_eight(digits: &[u8], bytes: &mut [u8], at: usize) -> bool
    requires digits { length digits.now ≡ 2 * length bytes.old }
    requires room { at + AT_ONCE ≤ length bytes.old }
    ensures len { length bytes.new ≡ length bytes.old }
    ensures before { (k : ℕ) → k < at → slice_index bytes.new k ≡ slice_index bytes.old k }
    ensures ok { result ≡ true → (k : ℕ) → at ≤ k → k < at + AT_ONCE → SpellsByte
        (slice_index digits.now (2 * k)) (slice_index digits.now (2 * k + 1))
        (slice_index bytes.new k) }
    ensures err { result ≡ false → IsErr (decode_pairs 0 digits.now) }
{
    let values = values_of(u8x16::from_slice(&digits[2 * at..]));
    let high = values.swizzle::<8>([0, 2, 4, 6, 8, 10, 12, 14]);
    let low = values.swizzle::<8>([1, 3, 5, 7, 9, 11, 13, 15]);
    (high * u8x8::splat(16) + low).copy_to_slice(&mut bytes[at..]);
    values.simd_ge(u8x16::splat(16)).to_bitmask() == 0
}

/// The values of sixteen hex digits, 255 where one is none.
#[inline(always)]
fn values_of(digits: u8x16) -> u8x16
    ensures { result ≡ map digit_or_255 digits }
{
    // A byte below the first digit or letter becomes a large number, since subtraction wraps.
    let number = digits - u8x16::splat(b'0');
    let letter = (digits | u8x16::splat(0x20)) - u8x16::splat(b'a');
    let letters = letter
        .simd_lt(u8x16::splat(6))
        .select(letter + u8x16::splat(10), u8x16::splat(255));
    number.simd_lt(u8x16::splat(10)).select(number, letters)
}

/// The same of any number of bytes, one by one.
#[inline(always)]
fn decode_each(digits: &[u8], bytes: &mut [u8]) -> bool
    requires { length digits.now ≡ 2 * length bytes.old }
    ensures ok { result ≡ true → decode_pairs 0 digits.now ≡ Ok bytes.new }
    ensures err { result ≡ false → IsErr (decode_pairs 0 digits.now) }
{
    'bytes: for i in 0..bytes.len() {
        let high = digit_value(digits[2 * i]);
        let low = digit_value(digits[2 * i + 1]);
        if high > 15 || low > 15 {
            return false;
        }
        bytes[i] = high * 16 + low;
    }
    true
}

/// The value of a hex digit in upper or lower case, 255 where it is none.
fn digit_value(byte: u8) -> u8
    ensures { result ≡ digit_or_255 byte }
{
    VALUES[usize::from(byte)]
}

/// The value of each byte as a hex digit, 255 where it is none. A table, so that a digit takes one
/// look-up and no branch.
const VALUES: [u8; 256] = [
    255, 255, 255, 255, 255, 255, 255, 255, 255, 255, 255, 255, 255, 255, 255, 255, 255, 255, 255,
    255, 255, 255, 255, 255, 255, 255, 255, 255, 255, 255, 255, 255, 255, 255, 255, 255, 255, 255,
    255, 255, 255, 255, 255, 255, 255, 255, 255, 255, 0, 1, 2, 3, 4, 5, 6, 7, 8, 9, 255, 255, 255,
    255, 255, 255, 255, 10, 11, 12, 13, 14, 15, 255, 255, 255, 255, 255, 255, 255, 255, 255, 255,
    255, 255, 255, 255, 255, 255, 255, 255, 255, 255, 255, 255, 255, 255, 255, 255, 10, 11, 12, 13,
    14, 15, 255, 255, 255, 255, 255, 255, 255, 255, 255, 255, 255, 255, 255, 255, 255, 255, 255,
    255, 255, 255, 255, 255, 255, 255, 255, 255, 255, 255, 255, 255, 255, 255, 255, 255, 255, 255,
    255, 255, 255, 255, 255, 255, 255, 255, 255, 255, 255, 255, 255, 255, 255, 255, 255, 255, 255,
    255, 255, 255, 255, 255, 255, 255, 255, 255, 255, 255, 255, 255, 255, 255, 255, 255, 255, 255,
    255, 255, 255, 255, 255, 255, 255, 255, 255, 255, 255, 255, 255, 255, 255, 255, 255, 255, 255,
    255, 255, 255, 255, 255, 255, 255, 255, 255, 255, 255, 255, 255, 255, 255, 255, 255, 255, 255,
    255, 255, 255, 255, 255, 255, 255, 255, 255, 255, 255, 255, 255, 255, 255, 255, 255, 255, 255,
    255, 255, 255, 255, 255, 255, 255, 255, 255, 255, 255, 255, 255, 255, 255, 255, 255, 255, 255,
    255, 255, 255,
];
