//! Parts: the keys, divided at borders, so that a log treats all UIDs of a part alike.

ghost use Rattle.std.specs.Prelude.{◌≡◌, ◌+◌, ◌<◌, true, IfOk, slice_index};
ghost use Rattle.vic_walk.specs.Borders.{AreBorders, IsPartOf, part_count};
ghost use Rattle.vic_walk.specs.inner.Searching.{IsBetween};

use crate::index::{Index, up_to};
use std::alloc::{AllocError, Global};
use std::marker::Model;
use vic_frame::low_bits_first::UidKey;

/// The keys, divided into parts. A part has the keys from one border on and below the next.
#[derive(Drop)]
pub struct Parts {
    /// In rising order, from 0 to the end of the keys.
    borders: Vec<u64>,
    /// A hint of where any key is among them, if it was asked for.
    index: Option<Index>,
}

impl Model for Parts {
    ghost use Rattle.std.specs.Prelude.{ℕ, List};
    ghost use Rattle.vic_walk.specs.Borders.{AreBorders};

    ghost Value = { List ℕ };

    ghost view = { λ p. p.borders.items };

    ghost invariant = { λ p. AreBorders p.borders.items };
}

impl Parts {
    /// Those between some borders.
    pub(crate) fn between(borders: Vec<u64>) -> Parts
        requires { AreBorders borders.items }
        ensures { result ≡ borders.items }
    {
        Parts {
            borders,
            index: None,
        }
    }

    /// The same, with an index, by which `at` finds any key faster: up to 2 bytes a part.
    pub fn indexed(self, alloc: Global) -> Result<Parts, AllocError>
        ensures { IfOk result (λ parts. parts ≡ self) }
    {
        let index = Index::over(alloc, &self.borders)?;
        Ok(Parts {
            index: Some(index),
            ..self
        })
    }

    /// How many there are. Clause `borders`, here and of other calls, tells a proof what is so of
    /// any `Parts`.
    pub fn count(&self) -> usize
        ensures count { result ≡ part_count self.now }
        ensures borders { AreBorders self.now }
    {
        self.borders.len() - 1
    }

    /// The first key of a part.
    pub fn first_key(&self, part: usize) -> u64
        requires { part < part_count self.now }
        ensures first { result ≡ slice_index self.now part }
        ensures borders { AreBorders self.now }
    {
        self.borders[part]
    }

    /// What comes after the last key of a part.
    pub fn end_key(&self, part: usize) -> u64
        requires { part < part_count self.now }
        ensures { result ≡ slice_index self.now (part + 1) }
    {
        self.borders[part + 1]
    }

    /// The part that has a key.
    pub fn at(&self, key: UidKey) -> usize
        ensures { IsPartOf self.now key result }
    {
        let (from, to) = match &self.index {
            Some(index) => index.hint(key.number()),
            None => (0, 0),
        };
        let near = up_to(&self.borders, from, key.number());
        // each is tested, since a hint may be wrong: near its first border, between its two
        // borders, anywhere
        if self.is_between(key, near, near.saturating_add(1)) {
            near
        } else if self.is_between(key, from, to) {
            self.search(key, from, to)
        } else {
            self.search(key, 0, self.count())
        }
    }

    /// Whether a key lies between two borders.
    fn is_between(&self, key: UidKey, from: usize, to: usize) -> bool
        ensures { result ≡ true → IsBetween self.now key from to }
    {
        let key = key.number();
        from < to && to < self.borders.len() && self.borders[from] <= key && key < self.borders[to]
    }

    /// The part that has a key between two borders.
    fn search(&self, key: UidKey, from: usize, to: usize) -> usize
        requires { IsBetween self.now key from to }
        ensures { IsPartOf self.now key result }
    {
        let key = key.number();
        let mut low = from;
        let mut high = to;
        while low + 1 < high {
            let middle = low + (high - low) / 2;
            if self.borders[middle] <= key {
                low = middle;
            } else {
                high = middle;
            }
        }
        low
    }
}
