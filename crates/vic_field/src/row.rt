//! Tags in a row by their keys, each Ready or Quiet.

ghost use Rattle.std.specs.Prelude.{◌≡◌, true, false, None, IfSome, OnOk, OnErr, length};
ghost use Rattle.std.proofs.Props.{props};
ghost use Rattle.vic_field.specs.Keys.{AreRisingKeys};
ghost use Rattle.vic_field.specs.Positions.{HasRoomFor};
ghost use Rattle.vic_frame.specs.Uids.{has};

use crate::index::Index;
use crate::quiet::QuietPositions;
use std::alloc::AllocError;
use vic_frame::low_bits_first::UidKey;

/// A set of tags by their keys, each Ready or Quiet.
#[derive(Drop)]
pub(crate) struct Row {
    /// The keys of the tags, lowest first: the position of a tag is that of its key.
    pub(crate) keys: Vec<u64>,
    /// The positions of the Quiet ones.
    pub(crate) quiet: QuietPositions,
    /// A hint of where a key is, which `put` leaves as it is.
    pub(crate) index: Index,
    ghost rising: { AreRisingKeys keys.items } by { Prim.hlevel props },
    ghost room: { HasRoomFor (length keys.items) quiet },
}

impl Row {
    ghost use Rattle.vic_field.specs.Rows.{entries};
    ghost use Rattle.vic_field.specs.inner.Rows.{HasKeyPositionBetween, HasMore, HasNoneReady, IsKeyPosition, IsNextReady, as_ready, with_quiet};

    /// The position of the first Ready tag from a position on, if its key is at most `last`.
    pub(crate) fn next_ready(&self, from: usize, last: u64) -> Option<usize>
        ensures none { result ≡ None → HasNoneReady self.now from last }
        ensures some { IfSome result (λ position. IsNextReady self.now from last position) }
    {
        let mut position = from;
        while position < self.keys.len() && self.keys[position] <= last {
            let quiet = self.quiet.run_from(position);
            if quiet == 0 {
                return Some(position);
            }
            position += quiet;
        }
        None
    }

    /// Whether a check shows that at least `from` and at most `to` of the keys are below this one.
    fn is_between(&self, key: u64, from: usize, to: usize) -> bool
        ensures { result ≡ true → HasKeyPositionBetween key self.now.keys.items from to }
    {
        let keys = self.keys.as_slice();
        if to < from || keys.len() < to {
            return false;
        }
        (from == 0 || keys[from - 1] < key) && (to == keys.len() || key <= keys[to])
    }

    /// How many keys are below this one, at least and at most: what the index says, or none and all
    /// if its hint is wrong.
    fn bounds(&self, key: u64) -> (usize, usize)
        ensures { HasKeyPositionBetween key self.now.keys.items result.0 result.1 }
    {
        let (from, to) = self.index.hint(key);
        if self.is_between(key, from, to) {
            (from, to)
        } else {
            (0, self.keys.len())
        }
    }

    /// How many of the keys are below this one: its position, if it is there.
    pub(crate) fn position_of(&self, key: u64) -> usize
        ensures { IsKeyPosition key self.now.keys.items result }
    {
        let (from, to) = self.bounds(key);
        from + self.keys[from..to].partition_point(|other| *other < key)
    }

    /// Makes the tag with this key Quiet, if it is there.
    pub(crate) fn silence(&mut self, key: UidKey)
        ensures { entries self.new ≡ with_quiet key (entries self.old) }
    {
        let key = key.number();
        let position = self.position_of(key);
        if position < self.keys.len() && self.keys[position] == key {
            self.quiet.add(position);
        }
    }

    /// Makes every tag Ready.
    pub(crate) fn wake(&mut self)
        ensures { entries self.new ≡ as_ready (entries self.old) }
    {
        self.quiet.wake();
    }

    /// Whether the tag with this key is there.
    pub(crate) fn holds(&self, key: UidKey) -> bool
        ensures { result ≡ has self.now.keys.items key }
    {
        let key = key.number();
        let position = self.position_of(key);
        position < self.keys.len() && self.keys[position] == key
    }

    /// Adds the tag with this key, which isn't there yet. It is Ready.
    pub(crate) fn put(&mut self, key: UidKey) -> Result<(), AllocError>
        requires { has self.old.keys.items key ≡ false }
        ensures more { OnOk result (HasMore key (entries self.old) (entries self.new)) }
        ensures unchanged { OnErr result (entries self.new ≡ entries self.old) }
    {
        let key = key.number();
        let position = self.position_of(key);
        let quiet = self.quiet.with_gap(position, self.keys.len() + 1)?;
        self.keys.insert(position, key)?;
        self.quiet = quiet;
        Ok(())
    }
}
