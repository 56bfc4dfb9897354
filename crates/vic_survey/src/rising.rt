//! Certain UIDs with their lines, and masks, in rising order.

ghost use Rattle.std.specs.Prelude.{◌≡◌, ◌==◌, ◌++◌, ◌∷◌, [], OnOk, length, true};
ghost use Rattle.vic_frame.specs.Uids.{IsUid};
ghost use Rattle.vic_survey.specs.Parts.{AreRisingUids, AreRisingMasks, IsLineNumber, IsShort};
ghost use Rattle.vic_survey.specs.inner.Rising.{comes_before, is_above, is_behind};

use std::alloc::{AllocError, Global};
use std::marker::Model;
use vic_frame::{Mask, Uid};
use vic_log::MAX_LINES;
use vic_report::ShownUid;

/// The greatest number of a line: that of the first line too many of a log.
pub const MAX_LINE_NUMBER: u32 = 1_000_001;

const _: () = prove!(MAX_LINE_NUMBER == MAX_LINES + 1);

/// UIDs in rising order, each with the number of a line, from 1 to `MAX_LINE_NUMBER`, that shows
/// that it is there.
#[derive(Drop)]
pub struct CertainUids {
    pub(crate) uids: Vec<ShownUid>,
}

impl Model for CertainUids {
    ghost use Rattle.std.specs.Prelude.{List};
    ghost use Rattle.vic_report.specs.declared.shown.ShownUid.{ShownUid};
    ghost use Rattle.vic_survey.specs.Parts.{AreRisingUids};

    ghost Value = { List ShownUid };

    ghost view = { λ a. a.uids.items };

    ghost invariant = { λ a. AreRisingUids a.uids.items };
}

impl CertainUids {
    /// None.
    pub(crate) fn none(alloc: Global) -> CertainUids
        ensures { result ≡ [] }
    {
        CertainUids {
            uids: Vec::new(alloc),
        }
    }

    /// Some, which rise, with lines that are in range.
    pub(crate) fn of(uids: Vec<ShownUid>) -> CertainUids
        requires { AreRisingUids uids.items }
        ensures { result ≡ uids.items }
    {
        CertainUids { uids }
    }

    /// Whether a UID is above all of them.
    pub(crate) fn is_above(&self, uid: Uid) -> bool
        ensures { result ≡ is_above self.now uid }
    {
        match self.uids.last() {
            Some(last) => last.uid < uid,
            None => true,
        }
    }

    /// Adds one above all of them.
    pub(crate) fn push(&mut self, one: ShownUid) -> Result<(), AllocError>
        requires above { is_above self.old one.uid ≡ true }
        requires uid { IsUid one.uid }
        requires line { IsLineNumber one.line }
        ensures { OnOk result (self.new ≡ self.old ++ one ∷ []) }
    {
        self.uids.push(one)?;
        Ok(())
    }

    /// The UIDs, from the least to the greatest.
    pub fn as_slice(&self) -> &[ShownUid]
        ensures value { result.now ≡ self.now }
        ensures certain { AreRisingUids self.now }
    {
        &self.uids
    }
}

/// Masks of at most 56 bits, by length, then by value.
#[derive(Drop)]
pub struct RisingMasks {
    pub(crate) masks: Vec<Mask>,
}

impl Model for RisingMasks {
    ghost use Rattle.std.specs.Prelude.{List};
    ghost use Rattle.vic_frame.specs.Masks.{BitMask};
    ghost use Rattle.vic_survey.specs.Parts.{AreRisingMasks};

    ghost Value = { List BitMask };

    ghost view = { λ a. a.masks.items };

    ghost invariant = { λ a. AreRisingMasks a.masks.items };
}

impl RisingMasks {
    /// None.
    pub(crate) fn none(alloc: Global) -> RisingMasks
        ensures { result ≡ [] }
    {
        RisingMasks {
            masks: Vec::new(alloc),
        }
    }

    /// Some, which are in order.
    pub(crate) fn of(masks: Vec<Mask>) -> RisingMasks
        requires { AreRisingMasks masks.items }
        ensures { result ≡ masks.items }
    {
        RisingMasks { masks }
    }

    /// Whether there are none.
    pub fn is_empty(&self) -> bool
        ensures { result ≡ (length self.now == 0) }
    {
        self.masks.as_slice().is_empty()
    }

    /// Whether a mask comes behind all of them.
    pub(crate) fn is_behind(&self, mask: &Mask) -> bool
        ensures { result ≡ is_behind self.now mask.now }
    {
        match self.masks.last() {
            Some(last) => comes_before(last, mask),
            None => true,
        }
    }

    /// Adds one behind all of them.
    pub(crate) fn push(&mut self, mask: Mask) -> Result<(), AllocError>
        requires behind { is_behind self.old mask ≡ true }
        requires short { IsShort mask }
        ensures { OnOk result (self.new ≡ self.old ++ mask ∷ []) }
    {
        self.masks.push(mask)?;
        Ok(())
    }

    /// The masks, the shortest first.
    pub fn as_slice(&self) -> &[Mask]
        ensures value { result.now ≡ self.now }
        ensures masks { AreRisingMasks self.now }
    {
        &self.masks
    }
}

/// Whether the first mask comes before the second, by length, then by value.
pub(crate) fn comes_before(mask: &Mask, other: &Mask) -> bool
    ensures { result ≡ comes_before mask.now other.now }
{
    if mask.len() == other.len() {
        mask.value() < other.value()
    } else {
        mask.len() < other.len()
    }
}
