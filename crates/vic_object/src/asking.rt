//! What asks for open masks.

ghost use Rattle.std.specs.Prelude.{◌≡◌, ◌≤◌, ◌<◌, ◌+◌, ◌*◌, ◌==◌, ◌++◌, ◌&&◌, ◌||◌, ◌∷◌, [], IfOk, List, OnOk, Some};
ghost use Rattle.std.specs.List.{list_any};
ghost use Rattle.std.specs.List.Sorted.{IsNonDecreasing};
ghost use Rattle.vic_frame.specs.Masks.{BitMask, IsMask, slot_of_sixteen};
ghost use Rattle.vic_frame.specs.declared.request.Request.TheVariants.{Inventory};
ghost use Rattle.vic_log.specs.Order.{entries};
ghost use Rattle.vic_log.specs.declared.entry.Entry.{Entry as EntryValue};
ghost use Rattle.vic_object.specs.Asking as spec;
ghost use Rattle.vic_object.specs.inner.Collided.{AreCollided, has_mask};
ghost use Rattle.vic_object.specs.inner.Middles.{AreMiddles, is_middle_in, middle_of};

use crate::request::ValidRequest;
use std::alloc::{AllocError, Global};
use std::collections::BTreeSet;
use vic_frame::low_bits_first::first_key;
use vic_frame::{MAX_MASK_LEN_OF_SIXTEEN, Mask, Request, UID_BITS};
use vic_log::{Entry, Log, RoundCursor};

/// Where tags collided in a log.
#[derive(Drop)]
pub(crate) struct Collisions {
    /// The masks of these slots.
    masks: BTreeSet<Mask>,
    /// The middles of these masks, in order. The middle of one mask lies among the keys of another
    /// if it is the same, or has more bits and lies within it; that of a mask with fewer bits never
    /// does.
    middles: Vec<u64>,
}

impl Collisions {
    /// Those of a log.
    pub(crate) fn of(alloc: Global, log: &Log) -> Result<Collisions, AllocError>
        ensures { IfOk result (AreCollided (entries log.now.lines)) }
    {
        Ok(Collisions {
            masks: collided_masks(alloc, log)?,
            middles: collided_middles(alloc, log)?,
        })
    }
}

/// The masks of the slots of a log in which tags collided.
fn collided_masks(alloc: Global, log: &Log) -> Result<BTreeSet<Mask>, AllocError>
    ensures { IfOk result (λ set. (m : BitMask)
        → has_mask set m ≡ spec.has_collided (entries log.now.lines) m) }
{
    let lines = log.lines();
    let mut masks = BTreeSet::new(alloc);
    let mut cursor = RoundCursor::first();
    for line in lines {
        let entry = line.item();
        let mask = cursor.mask();
        note_collision(&mut masks, &entry, mask)?;
        cursor.advance(&entry);
    }
    Ok(masks)
}

/// Notes the mask of a slot, if tags collided in it.
fn note_collision(
    masks: &mut BTreeSet<Mask>,
    entry: &Entry,
    mask: Option<Mask>,
) -> Result<(), AllocError>
    ensures { OnOk result ((m : BitMask) → has_mask masks.new m
        ≡ ((spec.is_collision (Some entry.now) && spec.is_mask_of mask m)
        || has_mask masks.old m)) }
{
    match *entry {
        Entry::Collision => {
            if let Some(mask) = mask {
                masks.insert(mask)?;
            }
            Ok(())
        }
        Entry::Sent(_)
        | Entry::Silent
        | Entry::Heard(_)
        | Entry::Listed(_)
        | Entry::Garbled
        | Entry::FieldCycle
        | Entry::Captured(_)
        | Entry::Unknown => Ok(()),
    }
}

/// The middles of these masks, in order.
fn collided_middles(alloc: Global, log: &Log) -> Result<Vec<u64>, AllocError>
    ensures { IfOk result (λ middles. AreMiddles (entries log.now.lines) middles.items) }
{
    let lines = log.lines();
    let mut middles = Vec::new(alloc);
    let mut cursor = RoundCursor::first();
    for line in lines {
        let entry = line.item();
        let mask = cursor.mask();
        note_middle(&mut middles, &entry, mask)?;
        cursor.advance(&entry);
    }
    middles.sort_unstable();
    Ok(middles)
}

/// Notes the middle of the mask of a slot, if tags collided in it.
fn note_middle(middles: &mut Vec<u64>, entry: &Entry, mask: Option<Mask>) -> Result<(), AllocError>
    ensures { OnOk result ((m : BitMask) → IsMask m → m.len ≤ UID_BITS
        → list_any (is_middle_in m) middles.new.items
        ≡ ((spec.is_collision (Some entry.now) && spec.is_one_within mask m)
        || list_any (is_middle_in m) middles.old.items)) }
{
    match *entry {
        Entry::Collision => {
            if let Some(mask) = mask {
                middles.push(middle_of(&mask))?;
            }
            Ok(())
        }
        Entry::Sent(_)
        | Entry::Silent
        | Entry::Heard(_)
        | Entry::Listed(_)
        | Entry::Garbled
        | Entry::FieldCycle
        | Entry::Captured(_)
        | Entry::Unknown => Ok(()),
    }
}

/// Twice the middle of the keys of a mask of at most 56 bits; a longer one counts as one key.
fn middle_of(mask: &Mask) -> u64
    ensures value { result ≡ middle_of mask.now }
    ensures is_mask { IsMask mask.now }
{
    2 * first_key(mask).number() + (1 << UID_BITS.saturating_sub(mask.len()))
}

/// Whether one of some middles, in order, lies among the keys of a mask of at most 56 bits.
fn has_middle_in(middles: &[u64], mask: &Mask) -> bool
    requires { mask.now.len ≤ UID_BITS }
    ensures value { IsNonDecreasing middles.now
        → result ≡ list_any (is_middle_in mask.now) middles.now }
    ensures is_mask { IsMask mask.now }
{
    let first = first_key(mask).number();
    let end = 2 * (first + (1 << (UID_BITS - mask.len())));
    match middles.binary_search(&(2 * first + 1)) {
        Ok(_) => true,
        Err(at) => at < middles.len() && middles[at] < end,
    }
}

/// Whether tags collided in a slot with the mask of one of sixteen slots of a mask.
fn has_collided_below(collided: &Collisions, mask: &Mask) -> bool
    requires { mask.now.len ≤ MAX_MASK_LEN_OF_SIXTEEN }
    ensures { (es : List EntryValue) → AreCollided es collided.now
        → result ≡ spec.has_collided_below es mask.now 16 }
{
    let mut found = false;
    for k in 0..16u8 {
        found = has_collided_in_slot(&collided.masks, mask, k) || found;
    }
    found
}

/// Whether tags collided in a slot with the mask of slot `k` of sixteen.
fn has_collided_in_slot(masks: &BTreeSet<Mask>, mask: &Mask, k: u8) -> bool
    requires len { mask.now.len ≤ MAX_MASK_LEN_OF_SIXTEEN }
    requires k { k ≤ 15 }
    ensures { result ≡ has_mask masks.now (slot_of_sixteen mask.now k) }
{
    match mask.slot(k) {
        Some(slot) => masks.contains(&slot),
        None => unreachable!(),
    }
}

/// Whether a mask is asked in sixteen slots: that of all tags, and one in which, or within which,
/// tags collided.
fn needs_sixteen_slots(collided: &Collisions, mask: &Mask) -> bool
    requires { mask.now.len ≤ UID_BITS }
    ensures { (es : List EntryValue) → AreCollided es collided.now
        → result ≡ (mask.now.len == 0 || spec.has_collided_within es mask.now) }
{
    if mask.len() == 0 {
        return true;
    }
    has_middle_in(&collided.middles, mask)
}

/// Appends what asks for a mask, which is divided into the masks of its sixteen slots, and these
/// again, at most `times` times.
pub(crate) fn push_requests(
    requests: &mut Vec<ValidRequest>,
    collided: &Collisions,
    times: u8,
    link: u8,
    mask: Mask,
) -> Result<(), AllocError>
    requires link { link ≤ 3 }
    requires short { 0 < times → mask.len + 4 * times ≤ MAX_MASK_LEN_OF_SIXTEEN }
    ensures { OnOk result ((es : List EntryValue) → AreCollided es collided.now
        → requests.new.items ≡ requests.old.items ++ spec.asks_in es times link mask) }
{
    if times == 0 {
        return Ok(());
    }
    if !has_collided_below(collided, &mask) {
        let sixteen = needs_sixteen_slots(collided, &mask);
        return push_request(requests, link, sixteen, mask);
    }
    for k in 0..16u8 {
        let Some(slot) = mask.slot(k) else {
            unreachable!()
        };
        push_requests(requests, collided, times - 1, link, slot)?;
    }
    Ok(())
}

/// Appends one request.
fn push_request(
    requests: &mut Vec<ValidRequest>,
    link: u8,
    sixteen: bool,
    mask: Mask,
) -> Result<(), AllocError>
    requires link { link ≤ 3 }
    requires short { mask.len ≤ MAX_MASK_LEN_OF_SIXTEEN }
    ensures { OnOk result (requests.new.items
        ≡ requests.old.items ++ Inventory link sixteen mask ∷ []) }
{
    let request = Request::Inventory {
        link,
        sixteen,
        mask,
    };
    requests.push(ValidRequest::new(request))?;
    Ok(())
}
