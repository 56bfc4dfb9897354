//! Masks: which UIDs a request is for, by their low bits.

ghost use Rattle.std.specs.Prelude.{◌≡◌, ℕ, ◌^◌, ◌%◌, ◌<◌, ◌≤◌, ◌+◌, ◌*◌, ◌==◌, false};
ghost use Rattle.std.specs.Prelude.{SomeIff, IfSome, IfNone};
ghost use Rattle.vic_frame.specs.Uids.{IsUid};
ghost use Rattle.vic_frame.specs.Masks.{BitMask, IsMask, LiesIn, lies_in};
ghost use Rattle.vic_frame.specs.Masks.{slot_of_sixteen, own_mask, least_uid_in};

use crate::uid::{UID_BITS, Uid};
use std::marker::Model;

/// How many bits a mask fixes at most (profile).
pub const MAX_MASK_LEN: u8 = 64;

/// How many bits a mask fixes at most with sixteen slots: four more are the slot's number.
pub const MAX_MASK_LEN_OF_SIXTEEN: u8 = 60;

/// The number of the last of sixteen slots.
const LAST_SLOT: u8 = 15;

/// The low bits that a UID must have: how many, from 0 to 64, and their value.
///
/// A mask of at most 56 bits holds `2^(56 - len)` UIDs, a longer one at most one, since it fixes
/// bits of E0. `ISO/IEC 15693-3, Inventory request` (mask length and mask value). Masks are ordered
/// by length, then by value.
#[derive(Clone, Copy, Debug, PartialEq, Eq, PartialOrd, Ord)]
pub struct Mask {
    len: u8,
    value: u64,
}

impl Model for Mask {
    ghost Value = { BitMask };

    ghost view = { λ a. record { len = a.len; value = a.value } };

    ghost invariant = { λ a. IsMask (record { len = a.len; value = a.value }) };

    ghost inverse = { λ m. record { len = m.len; value = m.value } };
}

/// The mask of no bits, in which every UID lies: what an `ArrayVec` of masks fills its free
/// elements with.
impl Default for Mask {
    ghost is_default = { λ m. m ≡ (record { len = 0; value = 0 }) };

    fn default() -> Self {
        Mask { len: 0, value: 0 }
    }
}

impl Mask {
    /// The mask of `len` bits with this value; `None` if `len` is above 64, or `value` has a bit
    /// above the lowest `len`.
    pub fn new(len: u8, value: u64) -> Option<Mask>
        ensures { SomeIff result (IsMask (record { len = len; value = value }))
            (record { len = len; value = value }) }
    {
        if len <= MAX_MASK_LEN && low_bits(value, len) == value {
            Some(Mask { len, value })
        } else {
            None
        }
    }

    /// The mask of `len` bits with this value, which fits into them.
    pub fn of_bits(len: u8, value: u64) -> Mask
        requires { IsMask (record { len = len; value = value }) }
        ensures { result ≡ record { len = len; value = value } }
    {
        Mask { len, value }
    }

    /// The mask of 56 bits that holds this UID and no other.
    pub fn of_uid(uid: Uid) -> Mask
        ensures value { result ≡ own_mask uid }
        ensures alone { (u : ℕ) → IsUid u → lies_in result u ≡ (u == uid) }
    {
        Mask {
            len: UID_BITS,
            value: uid.number() % (1 << UID_BITS),
        }
    }

    /// How many bits it fixes, from 0 to 64.
    pub fn len(&self) -> u8
        ensures value { result ≡ self.now.len }
        ensures is_mask { IsMask self.now }
    {
        self.len
    }

    /// The value of those bits, below `2^len`.
    pub fn value(&self) -> u64
        ensures value { result ≡ self.now.value }
        ensures is_mask { IsMask self.now }
    {
        self.value
    }

    /// Whether the UID lies in it: whether the UID's low bits are the mask's.
    ///
    /// `ISO/IEC 15693-3, inventory sequence`.
    pub fn matches(&self, uid: Uid) -> bool
        ensures value { result ≡ lies_in self.now uid }
        ensures is_uid { IsUid uid }
    {
        low_bits(uid.number(), self.len) == self.value
    }

    /// The mask of slot `k` of sixteen: four more bits, with the number of the slot above the
    /// value. `None` if the mask has more than 60 bits, or `k` is above 15.
    ///
    /// `ISO/IEC 15693-3, inventory sequence`.
    pub fn slot(&self, k: u8) -> Option<Mask>
        ensures { SomeIff result ((self.now.len ≤ MAX_MASK_LEN_OF_SIXTEEN) × (k ≤ 15))
            (slot_of_sixteen self.now k) }
    {
        if self.len <= MAX_MASK_LEN_OF_SIXTEEN && k <= LAST_SLOT {
            Some(Mask {
                len: self.len + 4,
                value: self.value + slot_number(k, self.len),
            })
        } else {
            None
        }
    }

    /// The least UID in it. A mask of more than 56 bits may hold none.
    pub fn least_uid(&self) -> Uid
        requires { self.now.len ≤ UID_BITS }
        ensures value { result ≡ least_uid_in self.now }
        ensures inside { LiesIn self.now result }
        ensures least { (u : ℕ) → IsUid u → LiesIn self.now u → result ≤ u }
        ensures range { IsUid result }
    {
        Uid::from_low_bits(self.value)
    }
}

/// The mask of at most 56 bits that holds the same UIDs; `None` if the mask holds no UID.
pub fn without_top_byte(mask: &Mask) -> Option<Mask>
    ensures short { IfSome result (λ m. IsMask m × (m.len ≤ UID_BITS)) }
    ensures same { IfSome result (λ m. (u : ℕ) → IsUid u
        → lies_in m u ≡ lies_in mask.now u) }
    ensures none { IfNone result ((u : ℕ) → IsUid u → lies_in mask.now u ≡ false) }
{
    if mask.len <= UID_BITS {
        return Some(*mask);
    }
    let value = mask.value % (1 << UID_BITS);
    if mask.matches(Uid::from_low_bits(value)) {
        Some(Mask {
            len: UID_BITS,
            value,
        })
    } else {
        None
    }
}

/// The low `len` bits of a number.
fn low_bits(number: u64, len: u8) -> u64
    requires { len ≤ MAX_MASK_LEN }
    ensures { result ≡ number % 2 ^ len }
{
    if len < MAX_MASK_LEN {
        number % (1 << len)
    } else {
        number
    }
}

/// The number of a slot, above `len` bits.
fn slot_number(k: u8, len: u8) -> u64
    requires slot { k ≤ LAST_SLOT }
    requires short { len ≤ MAX_MASK_LEN_OF_SIXTEEN }
    ensures value { result ≡ k * 2 ^ len }
    ensures fits { result + 2 ^ len ≤ 2 ^ (len + 4) }
    ensures small { 2 ^ (len + 4) ≤ 2 ^ 64 }
{
    u64::from(k) << len
}
