//! The margin of a log, in numbers.

ghost use Rattle.std.specs.Prelude.{◌≡◌};
ghost use Rattle.vic_numbers.specs.MarginNumbers as spec;

use vic_answer::Answered;
use vic_frame::Mask;
use vic_margin::{Margin, Readings, Weakest};

/// The margin of a log, and the weakest mask: the first by length, then by value, all of whose UIDs
/// have this margin and aren't listed; and, if the list is complete, what the hidden and the deaf
/// reading of the log leave unsettled. All is 0 if there is no margin.
#[repr(C)]
#[derive(Clone, Copy, Debug, PartialEq, Eq)]
pub struct VicinityWeakest {
    /// In how many slots each UID of the mask was overlooked.
    pub margin: u32,
    /// At most 56.
    pub mask_len: u32,
    pub mask_value: u64,
    /// 1 if the list isn't complete in the hidden reading of the log; else 0, as the next two.
    pub has_hidden: u32,
    /// The first mask of UIDs that are possible in it and not listed; at most 56.
    pub hidden_len: u32,
    pub hidden_value: u64,
    /// The same in the deaf reading.
    pub has_deaf: u32,
    pub deaf_len: u32,
    pub deaf_value: u64,
}

/// No margin.
pub const NO_WEAKEST: VicinityWeakest = VicinityWeakest {
    margin: 0,
    mask_len: 0,
    mask_value: 0,
    has_hidden: 0,
    hidden_len: 0,
    hidden_value: 0,
    has_deaf: 0,
    deaf_len: 0,
    deaf_value: 0,
};

/// The margin of the log behind an answer, in numbers.
pub fn weakest_of(measured: &Answered<Margin>) -> VicinityWeakest
    ensures { result ≡ spec.weakest_of measured.now }
{
    match measured {
        Answered::Found(margin) => {
            weakest_fields(&margin.weakest, &readings_or_none(&margin.readings))
        }
        Answered::RefusedAt { .. } => NO_WEAKEST,
    }
}

/// A margin in numbers.
fn weakest_fields(weakest: &Option<Weakest>, readings: &Readings) -> VicinityWeakest
    ensures { result ≡ spec.weakest_fields weakest.now readings.now }
{
    match weakest {
        Some(weakest) => {
            let hidden = mask_or_zeros(&readings.hidden);
            let deaf = mask_or_zeros(&readings.deaf);
            VicinityWeakest {
                margin: weakest.margin,
                mask_len: u32::from(weakest.mask.len()),
                mask_value: weakest.mask.value(),
                has_hidden: has_mask(&readings.hidden),
                hidden_len: u32::from(hidden.len()),
                hidden_value: hidden.value(),
                has_deaf: has_mask(&readings.deaf),
                deaf_len: u32::from(deaf.len()),
                deaf_value: deaf.value(),
            }
        }
        None => NO_WEAKEST,
    }
}

/// The readings of a log; where it has none, two that leave no mask unsettled.
fn readings_or_none(readings: &Option<Readings>) -> Readings
    ensures { result ≡ spec.readings_or_none readings.now }
{
    match readings {
        Some(readings) => *readings,
        None => Readings {
            hidden: None,
            deaf: None,
        },
    }
}

/// 1 if there is a mask, 0 if not.
fn has_mask(mask: &Option<Mask>) -> u32
    ensures { result ≡ spec.has_mask mask.now }
{
    match mask {
        Some(_) => 1,
        None => 0,
    }
}

/// A mask, with zeros for none.
fn mask_or_zeros(mask: &Option<Mask>) -> Mask
    ensures { result ≡ spec.mask_or_zeros mask.now }
{
    match mask {
        Some(mask) => *mask,
        None => Mask::of_bits(0, 0),
    }
}
