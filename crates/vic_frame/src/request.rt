//! What a reader sends: which tags are to answer, and in which slots.

ghost use Rattle.std.specs.Prelude.{◌≡◌, ◌<◌, ◌↔◌, IsTrue, SomeIff};
ghost use Rattle.vic_frame.specs.Requests.{IsValid};
ghost use Rattle.vic_frame.specs.Slots.{slot_count, mask_in, slot_mask};

use crate::mask::{MAX_MASK_LEN_OF_SIXTEEN, Mask};

/// A request of a reader. `link`, from 0 to 3, is the sub-carrier flag plus twice the data rate
/// flag; it doesn't change which tags answer.
#[derive(Clone, Copy, Debug, PartialEq, Eq)]
pub enum Request {
    /// Each Ready tag answers in the slot whose mask it lies in. There are sixteen slots or one;
    /// with sixteen, the mask has at most 60 bits.
    ///
    /// `ISO/IEC 15693-3, Inventory request`.
    Inventory { link: u8, sixteen: bool, mask: Mask },
    /// The tag with this UID becomes Quiet, and answers no Inventory request until it loses power.
    /// The number may be one that isn't a UID, and then it is no tag's.
    ///
    /// `ISO/IEC 15693-3, Stay Quiet`.
    StayQuiet { link: u8, uid: u64 },
}

impl Request {
    /// Whether it has a frame: `link` is at most 3, and with sixteen slots, the mask has at most 60
    /// bits.
    pub fn is_valid(&self) -> bool
        ensures { IsTrue result ↔ IsValid self.now }
    {
        match *self {
            Request::Inventory {
                link,
                sixteen,
                mask,
            } => link <= 3 && (!sixteen || mask.len() <= MAX_MASK_LEN_OF_SIXTEEN),
            Request::StayQuiet { link, .. } => link <= 3,
        }
    }

    /// How many slots it opens: 1 or 16, and 0 for Stay Quiet.
    pub fn slots(&self) -> u8
        ensures { result ≡ slot_count self.now }
    {
        match *self {
            Request::Inventory { sixteen, .. } => { if sixteen { 16 } else { 1 } }
            Request::StayQuiet { .. } => 0,
        }
    }

    /// The mask of slot `k`; `None` if the request isn't valid, or has no such slot.
    ///
    /// `ISO/IEC 15693-3, inventory sequence`.
    pub fn slot_mask(&self, k: u8) -> Option<Mask>
        ensures mask { SomeIff result (IsValid self.now × (k < slot_count self.now))
            (mask_in self.now k) }
        ensures valid { IsValid self.now → result ≡ slot_mask self.now k }
    {
        if !self.is_valid() || k >= self.slots() {
            return None;
        }
        match *self {
            Request::Inventory { sixteen, mask, .. } => {
                if sixteen { mask.slot(k) } else { Some(mask) }
            }
            Request::StayQuiet { .. } => None,
        }
    }
}
