//! UIDs in the order of their bits, lowest bit first.
//!
//! In this order the UIDs of a mask are consecutive, so a sorted set finds them as one range. A
//! UID's key is its 56 low bits reversed, a number below `2^56`: in this order the keys rise.

ghost use Rattle.std.specs.Prelude.{◌≡◌, ℕ, ◌+◌, ◌-◌, ◌^◌, ◌≤◌};
ghost use Rattle.vic_frame.specs.Uids.{IsUid};
ghost use Rattle.vic_frame.specs.Masks.{lies_in, slot_of_sixteen};
ghost use Rattle.vic_frame.specs.LowBitsFirst.{IsBlock, IsKey, is_in_block, mirror, mirror_bits, uid_of};

use crate::mask::{Mask, without_top_byte};
use crate::uid::{UID_BITS, Uid};
use std::marker::Model;

/// The place of a UID in the order: a number below `2^56`.
#[derive(Clone, Copy)]
pub struct UidKey {
    number: u64,
}

impl Model for UidKey {
    ghost use Rattle.std.specs.Prelude.{ℕ};
    ghost use Rattle.vic_frame.specs.LowBitsFirst.{IsKey};

    ghost Value = { ℕ };

    ghost view = { λ a. a.number };

    ghost invariant = { λ a. IsKey a.number };

    ghost inverse = { λ n. record { number = n } };
}

impl UidKey {
    /// The key with a number below `2^56`.
    #[inline(always)]
    pub fn new(number: u64) -> UidKey
        requires { IsKey number }
        ensures { result ≡ number }
    {
        UidKey { number }
    }

    /// Its number.
    #[inline(always)]
    pub fn number(self) -> u64
        ensures value { result ≡ self }
        ensures small { IsKey self }
    {
        self.number
    }
}

/// The keys of the UIDs in a mask of at most 56 bits, which are consecutive.
#[derive(Clone, Copy)]
pub struct KeyBlock {
    /// The first one.
    pub first: UidKey,
    /// How many bits the mask has: there are `2^(56 - len)` keys.
    pub len: u8,
    pub ghost block: { IsBlock first len },
}

impl KeyBlock {
    ghost use Rattle.vic_frame.specs.KeyBlocks.{is_in_some_block};

    /// The keys of the UIDs in a mask; `None` if the mask holds no UID.
    pub fn of(mask: &Mask) -> Option<KeyBlock>
        ensures { (u : ℕ) → IsUid u
            → lies_in mask.now u ≡ is_in_some_block result (mirror u) }
    {
        match without_top_byte(mask) {
            Some(low) => Some(KeyBlock {
                first: first_key(&low),
                len: low.len(),
            }),
            None => None,
        }
    }

    /// The keys of the UIDs in slot `k` of sixteen, for a mask of at most 52 bits whose first key
    /// is known. The first key in the slot differs from it in the slot's four bits.
    #[inline(always)]
    pub fn of_slot(mask: &Mask, first: UidKey, k: u8) -> KeyBlock
        requires short { mask.now.len + 4 ≤ UID_BITS }
        requires slot { k ≤ 15 }
        requires first { first ≡ mirror mask.now.value }
        ensures { (u : ℕ) → lies_in (slot_of_sixteen mask.now k) u
            ≡ is_in_block result.first result.len (mirror u) }
    {
        let len = mask.len() + 4;
        let four_bits = turn_byte(k) / 16;
        KeyBlock {
            first: UidKey {
                number: first.number() + (u64::from(four_bits) << (UID_BITS - len)),
            },
            len,
        }
    }

    /// The last one.
    #[inline(always)]
    pub fn last(&self) -> UidKey
        ensures { result ≡ self.now.first + (2 ^ (UID_BITS - self.now.len) - 1) }
    {
        UidKey {
            number: self.first.number + ((1 << (UID_BITS - self.len)) - 1),
        }
    }
}

/// The key of a UID. Different UIDs have different keys.
pub fn key(uid: Uid) -> UidKey
    ensures value { result ≡ mirror uid }
    ensures back { uid_of result ≡ uid }
    ensures is_uid { IsUid uid }
{
    turn_round(uid.number())
}

/// The key of the first UID in a mask that holds one.
pub fn first_key(mask: &Mask) -> UidKey
    ensures { result ≡ mirror mask.now.value }
{
    turn_round(mask.value())
}

/// The UID with a key below `2^56`.
pub fn uid_at(key: u64) -> Uid
    requires { IsKey key }
    ensures value { result ≡ uid_of key }
    ensures back { mirror result ≡ key }
    ensures is_uid { IsUid result }
{
    Uid::from_low_bits(turn_round(key).number())
}

/// The mask of `len` bits, at most 56, whose first UID has the key `first`: a multiple of
/// `2^(56 - len)` below `2^56`.
pub fn mask_of_keys(first: u64, len: u8) -> Mask
    requires { IsBlock first len }
    ensures len { result.len ≡ len }
    ensures first { mirror result.value ≡ first }
    ensures inside { (u : ℕ) → lies_in result u ≡ is_in_block first len (mirror u) }
{
    Mask::of_bits(len, turn_round(first).number())
}

/// The 56 low bits of a number in reverse order, so that the lowest becomes the highest (`mirror`
/// in definitions).
fn turn_round(number: u64) -> UidKey
    ensures { result ≡ mirror number }
{
    let mut turned = 0;
    let mut rest = number;
    for _ in 0..UID_BITS / 8 {
        turned = turned * 256 + u64::from(turn_byte((rest % 256) as u8));
        rest /= 256;
    }
    UidKey { number: turned }
}

/// A byte with its bits reversed.
fn turn_byte(byte: u8) -> u8
    ensures { result ≡ mirror_bits 8 byte }
{
    TURNED[usize::from(byte)]
}

/// Each byte with its bits reversed.
const TURNED: [u8; 256] = [
    0x00, 0x80, 0x40, 0xC0, 0x20, 0xA0, 0x60, 0xE0, 0x10, 0x90, 0x50, 0xD0, 0x30, 0xB0, 0x70, 0xF0,
    0x08, 0x88, 0x48, 0xC8, 0x28, 0xA8, 0x68, 0xE8, 0x18, 0x98, 0x58, 0xD8, 0x38, 0xB8, 0x78, 0xF8,
    0x04, 0x84, 0x44, 0xC4, 0x24, 0xA4, 0x64, 0xE4, 0x14, 0x94, 0x54, 0xD4, 0x34, 0xB4, 0x74, 0xF4,
    0x0C, 0x8C, 0x4C, 0xCC, 0x2C, 0xAC, 0x6C, 0xEC, 0x1C, 0x9C, 0x5C, 0xDC, 0x3C, 0xBC, 0x7C, 0xFC,
    0x02, 0x82, 0x42, 0xC2, 0x22, 0xA2, 0x62, 0xE2, 0x12, 0x92, 0x52, 0xD2, 0x32, 0xB2, 0x72, 0xF2,
    0x0A, 0x8A, 0x4A, 0xCA, 0x2A, 0xAA, 0x6A, 0xEA, 0x1A, 0x9A, 0x5A, 0xDA, 0x3A, 0xBA, 0x7A, 0xFA,
    0x06, 0x86, 0x46, 0xC6, 0x26, 0xA6, 0x66, 0xE6, 0x16, 0x96, 0x56, 0xD6, 0x36, 0xB6, 0x76, 0xF6,
    0x0E, 0x8E, 0x4E, 0xCE, 0x2E, 0xAE, 0x6E, 0xEE, 0x1E, 0x9E, 0x5E, 0xDE, 0x3E, 0xBE, 0x7E, 0xFE,
    0x01, 0x81, 0x41, 0xC1, 0x21, 0xA1, 0x61, 0xE1, 0x11, 0x91, 0x51, 0xD1, 0x31, 0xB1, 0x71, 0xF1,
    0x09, 0x89, 0x49, 0xC9, 0x29, 0xA9, 0x69, 0xE9, 0x19, 0x99, 0x59, 0xD9, 0x39, 0xB9, 0x79, 0xF9,
    0x05, 0x85, 0x45, 0xC5, 0x25, 0xA5, 0x65, 0xE5, 0x15, 0x95, 0x55, 0xD5, 0x35, 0xB5, 0x75, 0xF5,
    0x0D, 0x8D, 0x4D, 0xCD, 0x2D, 0xAD, 0x6D, 0xED, 0x1D, 0x9D, 0x5D, 0xDD, 0x3D, 0xBD, 0x7D, 0xFD,
    0x03, 0x83, 0x43, 0xC3, 0x23, 0xA3, 0x63, 0xE3, 0x13, 0x93, 0x53, 0xD3, 0x33, 0xB3, 0x73, 0xF3,
    0x0B, 0x8B, 0x4B, 0xCB, 0x2B, 0xAB, 0x6B, 0xEB, 0x1B, 0x9B, 0x5B, 0xDB, 0x3B, 0xBB, 0x7B, 0xFB,
    0x07, 0x87, 0x47, 0xC7, 0x27, 0xA7, 0x67, 0xE7, 0x17, 0x97, 0x57, 0xD7, 0x37, 0xB7, 0x77, 0xF7,
    0x0F, 0x8F, 0x4F, 0xCF, 0x2F, 0xAF, 0x6F, 0xEF, 0x1F, 0x9F, 0x5F, 0xDF, 0x3F, 0xBF, 0x7F, 0xFF,
];
