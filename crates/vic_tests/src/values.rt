//! UIDs and masks that the tests share.

ghost use Rattle.std.specs.Prelude.{◌≡◌, IfOk};

use std::test::Fail;
use vic_frame::{Mask, Uid};

pub const A: u64 = 0xE004_0100_0000_00A1;

pub const B: u64 = 0xE004_0100_0000_00B2;

/// The first UID in the order of low bits.
pub const Z: u64 = 0xE000_0000_0000_0000;

/// The second UID in the order of low bits.
pub const Y: u64 = 0xE080_0000_0000_0000;

pub fn uid(number: u64) -> Result<Uid, Fail>
    ensures { IfOk result (λ u. u ≡ number) }
{
    Ok(Uid::new(number).ok_or("no UID")?)
}

pub fn mask(len: u8, value: u64) -> Result<Mask, Fail> {
    Ok(Mask::new(len, value).ok_or("no mask")?)
}
