//! The inventory rounds of a log, followed from entry to entry.

ghost use Rattle.std.specs.Prelude.{◌≡◌, ℕ, ◌+◌, ◌≤◌, IfSome, List, Some, slice_get};
ghost use Rattle.vic_frame.specs.KeyBlocks.{is_in_some_block};
ghost use Rattle.vic_frame.specs.LowBitsFirst.{mirror};
ghost use Rattle.vic_frame.specs.Masks.{lies_in, slot_of_sixteen};
ghost use Rattle.vic_frame.specs.Requests.{IsValid};
ghost use Rattle.vic_frame.specs.Slots.{slot_mask};
ghost use Rattle.vic_frame.specs.Uids.{IsUid};
ghost use Rattle.vic_log.specs.declared.entry.Entry.{Entry as EntryValue};
ghost use Rattle.vic_log.specs.OpenRounds.{IsCursorAt, round_at};
ghost use Rattle.vic_log.specs.Order.{IsInOrder, AreValid};
ghost use Rattle.vic_log.specs.Rounds.{lies_in_some, mask_at};

use crate::entry::Entry;
use std::marker::Model;
use vic_frame::low_bits_first::{KeyBlock, UidKey, first_key};
use vic_frame::{Mask, Request, UID_BITS};

/// An open round (ISO/IEC 15693-3, inventory sequence). Only contracts mention it: it is the value
/// of a `KeyedRound`.
#[derive(Clone, Copy)]
pub struct OpenRound {
    /// The request that opened it.
    pub request: Request,
    /// The number of its next slot, from 0.
    pub next: u8,
}

/// An open round with the first key of its request's mask, from which the keys of its slots are
/// computed.
#[derive(Clone, Copy)]
pub struct KeyedRound {
    request: Request,
    next: u8,
    first: UidKey,
}

impl Model for KeyedRound {
    ghost use Rattle.std.specs.Prelude.{◌≡◌};
    ghost use Rattle.vic_log.specs.declared.rounds.OpenRound.{OpenRound as OpenRoundValue};
    ghost use Rattle.vic_frame.specs.LowBitsFirst.{first_key_of};

    ghost Value = { OpenRoundValue };

    ghost view = { λ r. record { request = r.request; next = r.next } };

    ghost invariant = { λ r. r.first ≡ first_key_of r.request };

    ghost inverse = { λ r. record
        { request = r.request; next = r.next; first = first_key_of r.request } };
}

impl KeyedRound {
    /// The round that a request opens.
    fn opened(request: Request) -> KeyedRound
        ensures { result ≡ record { request = request; next = 0 } }
    {
        let first = match request {
            Request::Inventory { mask, .. } => first_key(&mask),
            Request::StayQuiet { .. } => UidKey::new(0),
        };
        KeyedRound {
            request,
            next: 0,
            first,
        }
    }

    /// Moves past a slot.
    #[inline(always)]
    fn pass_slot(&mut self)
        ensures { self.old.next ≤ 16
            → self.new ≡ record { request = self.old.request; next = self.old.next + 1 } }
    {
        self.next = self.next.saturating_add(1);
    }

    /// The mask of its next slot; `None` if no slot is left, or its request isn't valid.
    fn mask(&self) -> Option<Mask>
        ensures { IsValid self.now.request
            → result ≡ slot_mask self.now.request self.now.next }
    {
        self.request.slot_mask(self.next)
    }

    /// The keys of the UIDs in its next slot; `None` if it has no more slots, or no UID lies in it.
    #[inline(always)]
    fn keys(&self) -> Option<KeyBlock>
        ensures { (u : ℕ) → IsValid self.now.request → IsUid u
            → is_in_some_block result (mirror u)
            ≡ lies_in_some (slot_mask self.now.request self.now.next) u }
    {
        match self.request {
            Request::Inventory { sixteen, mask, .. } => {
                if sixteen {
                    keys_in_slot(&mask, self.first, self.next)
                } else if self.next > 0 {
                    None
                } else if mask.len() <= UID_BITS {
                    Some(KeyBlock {
                        first: self.first,
                        len: mask.len(),
                    })
                } else {
                    KeyBlock::of(&mask)
                }
            }
            Request::StayQuiet { .. } => None,
        }
    }
}

/// The keys of the UIDs in slot `k` of sixteen of a mask whose first key is known; `None` if there
/// is no such slot, or no UID lies in it.
#[inline(always)]
fn keys_in_slot(mask: &Mask, first: UidKey, k: u8) -> Option<KeyBlock>
    requires { first ≡ mirror mask.now.value }
    ensures none { 16 ≤ k → result ≡ None }
    ensures inside { (u : ℕ) → mask.now.len ≤ 60 → k ≤ 15 → IsUid u
        → is_in_some_block result (mirror u) ≡ lies_in (slot_of_sixteen mask.now k) u }
{
    if k > 15 {
        return None;
    }
    if mask.len() + 4 <= UID_BITS {
        return Some(KeyBlock::of_slot(mask, first, k));
    }
    match mask.slot(k) {
        Some(slot) => KeyBlock::of(&slot),
        None => None,
    }
}

/// A cursor over the entries of a log, from the first on: the round that is open there, if there is
/// one.
#[derive(Clone, Copy)]
pub struct RoundCursor {
    pub round: Option<KeyedRound>,
}

impl RoundCursor {
    /// A cursor before the first entry.
    pub fn first() -> RoundCursor
        ensures { (es : List EntryValue) → IsCursorAt es 0 result }
    {
        RoundCursor { round: None }
    }

    /// Moves past an entry.
    #[inline(always)]
    pub fn advance(&mut self, entry: &Entry)
        ensures { (es : List EntryValue) (i : ℕ) → IsInOrder es
            → slice_get es i ≡ Some entry.now → IsCursorAt es i self.old
            → IsCursorAt es (i + 1) self.new }
    {
        pass_entry(&mut self.round, entry);
    }

    /// The mask of the slot that a slot line here is about, if there is one.
    pub fn mask(&self) -> Option<Mask>
        ensures { (es : List EntryValue) (i : ℕ) → AreValid es → IsCursorAt es i self.now
            → result ≡ mask_at es i }
    {
        match &self.round {
            Some(round) => round.mask(),
            None => None,
        }
    }

    /// The keys of the UIDs that lie in that mask; `None` if there is no such slot, or no UID lies
    /// in it.
    #[inline(always)]
    pub fn keys(&self) -> Option<KeyBlock>
        ensures { (es : List EntryValue) (i u : ℕ) → AreValid es
            → IsCursorAt es i self.now → IsUid u
            → is_in_some_block result (mirror u) ≡ lies_in_some (mask_at es i) u }
    {
        match &self.round {
            Some(round) => round.keys(),
            None => None,
        }
    }
}

/// Moves an open round past an entry.
#[inline(always)]
fn pass_entry(round: &mut Option<KeyedRound>, entry: &Entry)
    ensures { (es : List EntryValue) (i : ℕ) → IfSome round.old (λ r. r.next ≤ 16)
        → slice_get es i ≡ Some entry.now → round.old ≡ round_at es i
        → round.new ≡ round_at es (i + 1) }
{
    match *entry {
        Entry::Sent(request) => *round = Some(KeyedRound::opened(request)),
        Entry::Listed(_) | Entry::FieldCycle => *round = None,
        Entry::Silent
        | Entry::Collision
        | Entry::Heard(_)
        | Entry::Garbled
        | Entry::Captured(_)
        | Entry::Unknown => {
            if let Some(round) = round {
                round.pass_slot();
            }
        }
    }
}
