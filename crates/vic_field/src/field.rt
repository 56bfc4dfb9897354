//! The tags of a field, each Ready or Quiet.

ghost use Rattle.std.specs.Prelude.{◌≡◌, ℕ, ◌==◌, [], true, false, IfOk, MatchResult, OnOk, OnErr};
ghost use Rattle.std.specs.Option.{option_map};
ghost use Rattle.vic_log.specs.Populations.{IsPopulation};
ghost use Rattle.vic_field.specs.Keys.{AreRisingKeys, uids_at};
ghost use Rattle.vic_field.specs.Tags.{uids, readiness, ready_in, quiets, heard, RefusesTag, HasAdded, HasSilenced};
ghost use Rattle.vic_frame.specs.LowBitsFirst.{uid_of};
ghost use Rattle.vic_frame.specs.Uids.{has};

use crate::hear::hear;
use crate::index::Index;
use crate::outcome::Outcome;
use crate::quiet::QuietPositions;
use crate::row::Row;
use std::alloc::{AllocError, Global};
use std::marker::Model;
use vic_frame::low_bits_first::{KeyBlock, key};
use vic_frame::{Mask, Request, Uid};

/// Why a field doesn't take one more tag.
#[derive(Clone, Copy, Debug, PartialEq, Eq)]
pub enum AddFault {
    /// A tag with this UID is in the field.
    Already,
    /// Memory for it was refused.
    Memory,
}

impl From<AllocError> for AddFault {
    ghost use Rattle.vic_field.specs.declared.field.AddFault.{AddFault};

    ghost from_gives = { λ _ e. e ≡ AddFault.Memory };

    fn from(_: AllocError) -> AddFault {
        AddFault::Memory
    }
}

/// The tags of a field, each Ready or Quiet. No two have the same UID.
#[derive(Drop)]
pub struct Field {
    /// The tags, in the order of the low bits of UIDs.
    row: Row,
}

impl Model for Field {
    ghost use Rattle.std.specs.Prelude.{ℕ, List, Bool};
    ghost use Rattle.vic_field.specs.Keys.{tags_of};
    ghost use Rattle.vic_field.specs.Rows.{entries};

    ghost Value = { List (ℕ × Bool) };

    ghost view = { λ a. tags_of (entries a.row) };
}

impl Field {
    /// A field without tags.
    pub fn new(alloc: Global) -> Field
        ensures { result ≡ [] }
    {
        Field {
            row: Row {
                keys: Vec::new(alloc),
                quiet: QuietPositions::new(alloc),
                index: Index::new(alloc),
            },
        }
    }

    /// A field of the tags with these keys, all Ready.
    pub(crate) fn of_keys(alloc: Global, keys: Vec<u64>) -> Result<Field, AllocError>
        requires { AreRisingKeys keys.items }
        ensures { IfOk result (HasAdded (has (uids_at keys.items)) []) }
    {
        let quiet = QuietPositions::over(alloc, keys.len())?;
        let index = Index::over(alloc, &keys)?;
        Ok(Field {
            row: Row { keys, quiet, index },
        })
    }

    /// Adds a tag to the field; it is Ready. Refused if a tag with this UID is there already. The
    /// time is proportional to the number of tags, and so is the memory: two bits for each, and
    /// what the keys grow by.
    pub fn add(&mut self, uid: Uid) -> Result<(), AddFault>
        ensures answer { MatchResult result
            (λ _. has (uids self.old) uid ≡ false)
            (RefusesTag self.old uid) }
        ensures added { OnOk result (HasAdded (λ u. u == uid) self.old self.new) }
        ensures unchanged { OnErr result (self.new ≡ self.old) }
    {
        if self.holds(uid) {
            return Err(AddFault::Already);
        }
        self.row.put(key(uid))?;
        Ok(())
    }

    /// Whether a tag with this UID is in the field.
    fn holds(&self, uid: Uid) -> bool
        ensures { result ≡ has (uids self.now) uid }
    {
        self.row.holds(key(uid))
    }

    /// What the tags do when a request is sent: a Stay Quiet makes the tag with its UID Quiet, if
    /// it is there (ISO/IEC 15693-3, Stay Quiet). Allocates no memory.
    pub fn send(&mut self, request: &Request)
        ensures { HasSilenced (quiets request.now) self.old self.new }
    {
        if let Request::StayQuiet { uid, .. } = *request {
            if let Some(uid) = Uid::new(uid) {
                self.quiet(uid);
            }
        }
    }

    /// Makes a tag Quiet, if it is there.
    fn quiet(&mut self, uid: Uid)
        ensures { HasSilenced (λ u. u == uid) self.old self.new }
    {
        self.row.silence(key(uid));
    }

    /// Makes every tag Ready, as a field that is switched off and on does. Allocates no memory.
    pub fn power_cycle(&mut self)
        ensures { (u : ℕ) → readiness self.new u
            ≡ option_map (λ _. true) (readiness self.old u) }
    {
        self.row.wake();
    }

    /// What a reader hears of the Ready tags in a mask. Allocates no memory.
    ///
    /// It looks for at most two Ready tags, and skips Quiet ones by words of 64 bits, not one by
    /// one.
    pub fn answer(&self, mask: &Mask) -> Outcome
        ensures heard { result ≡ heard (ready_in mask.now self.now) }
        ensures population { IsPopulation (uids self.now) }
    {
        let row = &self.row;
        let Some(block) = KeyBlock::of(mask) else {
            return Outcome::Silent;
        };
        hear(row, block.first.number(), block.last().number())
    }
}
