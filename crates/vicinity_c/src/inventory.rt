//! Inventory requests for C: whether numbers are those of one, and the masks of its slots.

ghost use Rattle.std.specs.Prelude.{◌≡◌, ◌≢◌, nat_lt, MatchResult, if◌then◌else◌};
ghost use Rattle.vic_frame.specs.Requests.{IsValid};
ghost use Rattle.vic_frame.specs.Slots.{slot_count, mask_in};
ghost use Rattle.vicinity_c.specs.Inventory as spec;

use vic_answer::MAX_LINK;
use vic_frame::{MAX_MASK_LEN, MAX_MASK_LEN_OF_SIXTEEN, Mask, Request};

/// The fault of a link above `MAX_LINK`.
pub const WRONG_LINK: u32 = 201;

/// The fault of a number of slots that is neither 1 nor 16.
pub const WRONG_SLOTS: u32 = 202;

/// The fault of a mask that is longer than its request allows, or whose value is longer than it.
pub const WRONG_MASK: u32 = 203;

/// The fault of a slot that a request doesn't have.
pub const WRONG_SLOT: u32 = 204;

/// A mask, or why there is none; then the others are 0.
#[repr(C)]
#[derive(Clone, Copy, Debug, PartialEq, Eq)]
pub struct VicinityMask {
    /// 0, or why there is no mask.
    pub fault: u32,
    pub len: u32,
    pub value: u64,
}

/// Returns the mask of a slot, counted from 0, of an Inventory request with these slots and this
/// mask: the UIDs in it answer there. The result is 0 or the fault: that of the request, or `slot`
/// isn't below `slots`.
#[unsafe(no_mangle)]
pub extern "C" fn vicinity_slot_mask(
    slots: u32,
    mask_len: u32,
    mask_value: u64,
    slot: u32,
    mask: &mut VicinityMask,
) -> u32
    ensures mask { mask.new ≡ spec.slot_mask slots mask_len mask_value slot }
    ensures fault { result ≡ mask.new.fault }
{
    *mask = match inventory(0, slots, mask_len, mask_value) {
        Ok(request) => slot_of(&request, slot),
        Err(fault) => no_mask(fault),
    };
    mask.fault
}

/// The Inventory request with some numbers, or their fault.
pub(crate) fn inventory(link: u32, slots: u32, len: u32, value: u64) -> Result<Request, u32>
    ensures { MatchResult result
        (λ q. (spec.inventory_fault link slots len value ≡ 0) × IsValid q
        × (q ≡ spec.inventory_of link slots len value))
        (λ fault. (fault ≢ 0) × (fault ≡ spec.inventory_fault link slots len value)) }
{
    if link > u32::from(MAX_LINK) {
        return Err(WRONG_LINK);
    }
    if slots != 1 && slots != 16 {
        return Err(WRONG_SLOTS);
    }
    let longest = if slots == 16 {
        MAX_MASK_LEN_OF_SIXTEEN
    } else {
        MAX_MASK_LEN
    };
    if len > u32::from(longest) {
        return Err(WRONG_MASK);
    }
    let Some(mask) = Mask::new(len as u8, value) else {
        return Err(WRONG_MASK);
    };
    Ok(Request::Inventory {
        link: link as u8,
        sixteen: slots == 16,
        mask,
    })
}

/// The mask of a slot of an Inventory request, or no mask.
fn slot_of(request: &Request, slot: u32) -> VicinityMask
    requires { IsValid request.now }
    ensures { result ≡ (if nat_lt slot (slot_count request.now)
        then spec.mask_fields (mask_in request.now slot) else spec.no_mask WRONG_SLOT) }
{
    if slot >= u32::from(request.slots()) {
        return no_mask(WRONG_SLOT);
    }
    match request.slot_mask(slot as u8) {
        Some(mask) => mask_fields(&mask),
        None => no_mask(WRONG_SLOT),
    }
}

/// A mask.
fn mask_fields(mask: &Mask) -> VicinityMask
    ensures { result ≡ spec.mask_fields mask.now }
{
    VicinityMask {
        fault: 0,
        len: u32::from(mask.len()),
        value: mask.value(),
    }
}

/// No mask, and why.
fn no_mask(fault: u32) -> VicinityMask
    ensures { result ≡ spec.no_mask fault }
{
    VicinityMask {
        fault,
        len: 0,
        value: 0,
    }
}
