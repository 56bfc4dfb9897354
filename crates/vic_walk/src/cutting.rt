//! The borders at which a log is cut, and which of them each entry concerns.

ghost use Rattle.std.specs.Prelude.{◌≡◌, ℕ, ◌<◌, ◌≤◌, true, Some, List, IfOk, OnOk, length};
ghost use Rattle.vic_frame.specs.Uids.{IsUid};
ghost use Rattle.vic_log.specs.declared.entry.Entry.{Entry as EntryValue};
ghost use Rattle.vic_log.specs.OpenRounds.{IsCursorAt};
ghost use Rattle.vic_log.specs.Order.{AreValid, entries};
ghost use Rattle.vic_log.specs.Rounds.{is_slot};
ghost use Rattle.vic_log.specs.Slots.{hears};
ghost use Rattle.vic_walk.specs.Cuts.{names};
ghost use Rattle.vic_walk.specs.Listing.{IsListFrom};
ghost use Rattle.vic_walk.specs.inner.Gathered.{ArePlaced, HasAll, HasBlockAt, HasKeyAt, HasMaskAt, HasUidAt};

use crate::gathered::{Border, Gathered};
use crate::lines::LogLines;
use crate::listing::list_start;
use crate::steps::Step;
use std::alloc::{AllocError, Global};
use vic_frame::low_bits_first::{KeyBlock, key};
use vic_frame::{Request, Uid};
use vic_log::{Entry, RoundCursor};

/// The borders that the entries of a log need, in no order; and for each entry before its list
/// where those stand that it concerns.
pub(crate) fn gather(alloc: Global, lines: &LogLines) -> Result<(Gathered, Vec<Step>), AllocError>
    ensures list { IfOk result (λ r. IsListFrom (entries lines.now) (length r.1.items)) }
    ensures within { IfOk result (λ r. length r.1.items ≤ length (entries lines.now)) }
    ensures placed { IfOk result (λ r. ArePlaced (entries lines.now) r.0 r.1.items) }
{
    let list = list_start(lines);
    let mut borders = Gathered::new(alloc)?;
    let mut steps = Vec::with_capacity(alloc, list)?;
    let mut cursor = RoundCursor::first();
    for index in 0..list {
        let entry = lines.entry(index);
        let (from, to) = push_mask(&mut borders, &cursor, &entry)?;
        let own = push_named(&mut borders, &entry)?;
        steps.push(Step { from, to, own })?;
        cursor.advance(&entry);
    }
    Ok((borders, steps))
}

/// Adds the borders of a slot's mask. Returns where they stand.
#[inline(always)]
fn push_mask(
    borders: &mut Gathered,
    cursor: &RoundCursor,
    entry: &Entry,
) -> Result<(u32, u32), AllocError>
    ensures more { OnOk result (HasAll borders.old borders.new) }
    ensures to { IfOk result (λ r. r.1 < length borders.new) }
    ensures mask { IfOk result (λ r. (es : List EntryValue) (i : ℕ) → AreValid es
        → IsCursorAt es i cursor.now → is_slot entry.now ≡ true
        → HasMaskAt es i borders.new r.0 r.1) }
{
    match *entry {
        Entry::Silent
        | Entry::Collision
        | Entry::Heard(_)
        | Entry::Garbled
        | Entry::Captured(_)
        | Entry::Unknown => push_block(borders, cursor.keys()),
        Entry::Sent(_) | Entry::Listed(_) | Entry::FieldCycle => push_block(borders, None),
    }
}

/// Adds the borders around the UID that an entry silences or hears. Returns where the first
/// stands: that of the least border, which nobody uses, if it names none.
#[inline(always)]
fn push_named(borders: &mut Gathered, entry: &Entry) -> Result<u32, AllocError>
    ensures more { OnOk result (HasAll borders.old borders.new) }
    ensures key { IfOk result (HasKeyAt borders.new) }
    ensures named { IfOk result (λ place. (u : ℕ) → IsUid u → names (Some entry.now) u ≡ true
        → HasUidAt borders.new u place) }
    // as the type `Response` has it
    ensures heard { (u : ℕ) → hears (Some entry.now) u ≡ true → IsUid u }
{
    match *entry {
        Entry::Sent(request) => match request {
            Request::StayQuiet { uid, .. } => match Uid::new(uid) {
                Some(silenced) => push_uid(borders, silenced),
                // no tag has this number
                None => Ok(borders.least()),
            },
            Request::Inventory { .. } => Ok(borders.least()),
        },
        Entry::Heard(response) | Entry::Captured(response) => push_uid(borders, response.uid()),
        Entry::Silent
        | Entry::Collision
        | Entry::Garbled
        | Entry::Unknown
        | Entry::Listed(_)
        | Entry::FieldCycle => Ok(borders.least()),
    }
}

/// Adds the borders of a block, and returns where they stand. If there is none, since no slot or no
/// UID is there, both are where the least border stands, with no part between them.
#[inline(always)]
fn push_block(borders: &mut Gathered, block: Option<KeyBlock>) -> Result<(u32, u32), AllocError>
    ensures more { OnOk result (HasAll borders.old borders.new) }
    ensures to { IfOk result (λ r. r.1 < length borders.new) }
    ensures block { IfOk result (λ r. HasBlockAt borders.new block r.0 r.1) }
{
    match block {
        Some(block) => {
            let from = borders.push(Border::at(block.first))?;
            let to = borders.push(Border::past(block.last()))?;
            Ok((from, to))
        }
        None => {
            let least = borders.least();
            Ok((least, least))
        }
    }
}

/// Adds the borders around a UID. Returns where the first stands.
#[inline(always)]
fn push_uid(borders: &mut Gathered, uid: Uid) -> Result<u32, AllocError>
    ensures more { OnOk result (HasAll borders.old borders.new) }
    ensures uid { IfOk result (HasUidAt borders.new uid) }
{
    let own = key(uid);
    let place = borders.push(Border::at(own))?;
    borders.push(Border::past(own))?;
    Ok(place)
}
