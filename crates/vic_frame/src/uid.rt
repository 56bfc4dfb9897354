//! The UIDs of tags.

ghost use Rattle.std.specs.Prelude.{◌≡◌, ℕ, ◌^◌, ◌<◌, SomeIff};
ghost use Rattle.vic_frame.specs.Uids.{IsUid, uid_from_low_bits};

use std::marker::Model;

/// The most significant byte of every UID.
const TOP_BYTE: u64 = 0xE0;

/// How many bits are below the top byte, and distinguish UIDs.
pub const UID_BITS: u8 = 56;

/// A tag's UID: a number of 64 bits whose most significant byte is E0.
///
/// The next byte is the manufacturer's code, and 48 bits of serial number follow; neither is
/// judged. UIDs are ordered as numbers. `ISO/IEC 15693-3, unique identifier`.
#[derive(Clone, Copy, Debug, PartialEq, Eq, PartialOrd, Ord)]
pub struct Uid {
    number: u64,
}

impl Model for Uid {
    ghost Value = { ℕ };

    ghost view = { λ a. a.number };

    ghost invariant = { λ a. IsUid a.number };

    ghost inverse = { λ n. record { number = n } };
}

/// The least UID, E000000000000000: what an `ArrayVec` of UIDs fills its free elements with.
impl Default for Uid {
    ghost is_default = { λ u. u ≡ uid_from_low_bits 0 };

    fn default() -> Self {
        Uid::from_low_bits(0)
    }
}

impl Uid {
    /// The UID with this number; `None` if the most significant byte isn't E0.
    pub fn new(number: u64) -> Option<Uid>
        ensures { SomeIff result (IsUid number) number }
    {
        if number >> UID_BITS == TOP_BYTE {
            Some(Uid { number })
        } else {
            None
        }
    }

    /// The UID with these bits, below `2^56`, under its top byte.
    pub fn from_low_bits(bits: u64) -> Uid
        requires { bits < 2 ^ UID_BITS }
        ensures value { result ≡ uid_from_low_bits bits }
        ensures range { IsUid result }
    {
        Uid {
            number: (TOP_BYTE << UID_BITS) + bits,
        }
    }

    /// Its number, of which the most significant byte is E0.
    pub fn number(&self) -> u64
        ensures value { result ≡ self.now }
        ensures range { IsUid self.now }
    {
        self.number
    }
}
