//! What is left of ranges of keys when some keys are removed, run by run.
//!
//! Both the ranges and the removed keys come in order, and are walked side by side, once.

ghost use Rattle.std.specs.Prelude.{◌≡◌, ℕ, ◌+◌, ◌≤◌, Bool, false, IfSome, IfNone, OnSome};
ghost use Rattle.vic_tree.specs.inner.Ranges.{IsFirstRun, PassFrom};

use crate::key_range::KeyRange;
use crate::ranges::Ranges;
use crate::sorted_keys::KeysAhead;
use std::marker::Model;

/// The runs of the keys, from key `from` on, that are in some ranges and not removed.
#[derive(Drop)]
pub(crate) struct Runs<'a> {
    from: u64,
    ranges: &'a [KeyRange],
    removed: KeysAhead<'a>,
}

impl<'a> Model for Runs<'a> {
    ghost use Rattle.std.specs.Prelude.{ℕ, List};
    ghost use Rattle.vic_tree.specs.Ranges.{AreRanges};

    ghost Value = { ℕ × List (ℕ × ℕ) × List ℕ };

    ghost view = { λ a. (a.from, a.ranges.now, a.removed) };

    ghost invariant = { λ a. AreRanges a.ranges.now };
}

impl<'a> Runs<'a> {
    /// The runs of the keys from key `from` on that are in `ranges` and not in `removed`.
    pub(crate) fn new(from: u64, ranges: &Ranges<'a>, removed: KeysAhead<'a>) -> Runs<'a>
        ensures { result ≡ (from, ranges.now, removed.entry) }
    {
        Runs {
            from,
            ranges: ranges.ranges,
            removed,
        }
    }

    /// The key from which on runs are still to be taken out.
    pub(crate) fn from(&self) -> u64
        ensures { result ≡ self.now.0 }
    {
        self.from
    }

    /// Skips the keys before another one.
    pub(crate) fn go_on(&mut self, from: u64)
        ensures { self.new ≡ (from, self.old.1, self.old.2) }
    {
        self.from = from;
    }

    /// Takes out the first run: the first key from `from` on that is left, and those after it up to
    /// the next that isn't.
    pub(crate) fn next_run(&mut self) -> Option<KeyRange>
        ensures run { (p : ℕ → Bool) → PassFrom p self.old
            → IfSome result (λ r. IsFirstRun p self.old.0 r.0 r.1) }
        ensures rest { (p : ℕ → Bool) → PassFrom p self.old
            → OnSome result (PassFrom p self.new) }
        ensures from { IfSome result (λ r. self.new.0 ≡ r.1 + 2) }
        ensures none { (p : ℕ → Bool) → PassFrom p self.old
            → IfNone result ((k : ℕ) → self.old.0 ≤ k → p k ≡ false) }
    {
        while let Some((range, others)) = self.ranges.split_first() {
            self.from = self.removed.first_free(self.from.max(range.first()));
            if self.from <= range.last() {
                let run = self
                    .removed
                    .run_from(KeyRange::new(self.from, range.last()));
                // the key after a run isn't left
                self.from = run.last() + 2;
                return Some(run);
            }
            self.ranges = others;
        }
        None
    }
}
