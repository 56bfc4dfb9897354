//! Borders that are gathered in any order. A log names most of its borders several times, and near
//! to each other; so a small cache, by hash, keeps most of them from being added again, which makes
//! ordering them shorter.

ghost use Rattle.std.specs.Prelude.{◌≡◌, ◌+◌, IfOk, IfSome, OnOk};
ghost use Rattle.vic_walk.specs.inner.Gathered.{AreGathered, HasAll, IsBorder, StandsAt};

use std::alloc::{AllocError, Global};
use std::marker::Model;
use vic_frame::UID_BITS;
use vic_frame::low_bits_first::UidKey;

/// How many cells the cache has, as a power of two.
const CACHE_BITS: u32 = 11;

/// What a border is multiplied by, so that borders in any order have different cells: 2^64 divided
/// by the golden ratio.
const SPREAD: u64 = 0x9E37_79B9_7F4A_7C15;

/// A key, or the end of the keys.
#[derive(Clone, Copy)]
pub(crate) struct Border {
    number: u64,
    ghost is_border: { IsBorder number },
}

impl Border {
    /// The border before a key.
    #[inline(always)]
    pub(crate) fn at(key: UidKey) -> Border
        ensures { result.number ≡ key }
    {
        Border {
            number: key.number(),
        }
    }

    /// The border after a key.
    #[inline(always)]
    pub(crate) fn past(key: UidKey) -> Border
        ensures { result.number ≡ key + 1 }
    {
        Border {
            number: key.number() + 1,
        }
    }
}

/// Borders in the order in which they were added.
#[derive(Drop)]
pub(crate) struct Gathered {
    borders: Vec<u64>,
    /// For each cell, where the border stands that was added last of those with this cell; 0, that
    /// of the first key, while there is none.
    cache: Vec<u32>,
}

impl Model for Gathered {
    ghost use Rattle.std.specs.Prelude.{ℕ, List};
    ghost use Rattle.vic_walk.specs.inner.Gathered.{AreGathered};

    ghost Value = { List ℕ };

    ghost view = { λ g. g.borders.items };

    ghost invariant = { λ g. AreGathered g.borders.items };
}

impl Gathered {
    /// The border before all keys, and the one after them.
    pub(crate) fn new(alloc: Global) -> Result<Gathered, AllocError> {
        let cache = vec![in alloc; 0; 1usize << CACHE_BITS]?;
        let mut borders = Vec::new(alloc);
        borders.push(0)?;
        borders.push(1 << UID_BITS)?;
        Ok(Gathered { borders, cache })
    }

    /// Where the border before all keys stands.
    pub(crate) fn least(&self) -> u32
        ensures { StandsAt self.now 0 result }
    {
        // a use of a field shows a proof the invariant
        let _ = &self.borders;
        0
    }

    /// Where a border stands, if the cache still has it.
    #[inline(always)]
    fn cached(&self, border: u64) -> Option<u32>
        ensures { IfSome result (StandsAt self.now border) }
    {
        let at = self.cache.get(cell_of(border)).copied()?;
        let place = at as usize;
        if place < self.borders.len() && self.borders[place] == border {
            Some(at)
        } else {
            None
        }
    }

    /// Adds a border. Returns where it stands. It also fails if 32 bits aren't enough for that.
    #[inline(always)]
    pub(crate) fn push(&mut self, border: Border) -> Result<u32, AllocError>
        ensures more { OnOk result (HasAll self.old self.new) }
        ensures there { IfOk result (StandsAt self.new border.number) }
    {
        let border = border.number;
        if let Some(at) = self.cached(border) {
            return Ok(at);
        }
        if self.borders.len() > u32::MAX as usize {
            return Err(AllocError);
        }
        let at = self.borders.len() as u32;
        if let Some(cell) = self.cache.get_mut(cell_of(border)) {
            *cell = at;
        }
        self.borders.push(border)?;
        Ok(at)
    }

    /// The borders.
    pub(crate) fn into_borders(self) -> Vec<u64>
        ensures value { result.items ≡ self }
        ensures gathered { AreGathered result.items }
    {
        let Gathered { borders, .. } = self;
        borders
    }
}

/// The cell of a border in the cache.
fn cell_of(border: u64) -> usize {
    (border.wrapping_mul(SPREAD) >> (u64::BITS - CACHE_BITS)) as usize
}
