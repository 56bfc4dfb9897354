//! A row of counts, of which all in a span are raised by one at once: a complete binary tree, in
//! which a count is the sum of the numbers from its leaf up to the root.

ghost use Rattle.std.specs.Prelude.{◌≡◌, ◌+◌, ◌*◌, ◌^◌, ◌/◌, ◌<◌, ◌≤◌, ◌&&◌, ℕ, IfOk, length};
ghost use Rattle.vic_margin.specs.UidMargins.{one_if};
ghost use Rattle.vic_margin.specs.inner.Trees.{AreAtMost, sum_up, within};
ghost use Rattle.vic_walk.specs.Borders.{part_count};

use std::alloc::{AllocError, Global};
use vic_walk::{Parts, Span};

/// A row of counts.
#[derive(Drop)]
pub(crate) struct Counts {
    /// The root is node 1. Below node `n` are nodes `2 * n` and `2 * n + 1`.
    nodes: Vec<u32>,
    /// The node that is the leaf of the first count; so many leaves there are.
    leaves: usize,
    /// How many nodes lead from a leaf up to the root, both included.
    levels: usize,
    /// How often a span was raised.
    raised: u32,
    ghost leaves_half: { leaves * 2 ≡ 2 ^ levels },
    ghost node_room: { length nodes.items ≡ 2 ^ levels },
    ghost few: { AreAtMost raised nodes.items },
    ghost low: { (p : ℕ) → p < leaves → sum_up nodes.items levels (leaves + p) ≤ raised },
}

impl Counts {
    ghost use Rattle.vic_margin.specs.inner.Counts.{count_at};

    /// At least a count for each part, all of them 0.
    pub(crate) fn none(alloc: Global, parts: &Parts) -> Result<Counts, AllocError>
        ensures room { IfOk result (λ c. part_count parts.now ≤ c.leaves) }
        ensures counts { IfOk result (λ c. (p : ℕ) → p < part_count parts.now → count_at c p ≡ 0) }
        ensures raised { IfOk result (λ c. c.raised ≡ 0) }
    {
        let count = parts.count();
        let mut leaves = 1;
        let mut levels = 1;
        while leaves < count {
            leaves *= 2;
            levels += 1;
        }
        Ok(Counts {
            nodes: vec![in alloc; 0; leaves * 2]?,
            leaves,
            levels,
            raised: 0,
        })
    }

    /// Raises the counts of a span.
    pub(crate) fn raise(&mut self, span: Span)
        requires within { span.to ≤ self.old.leaves }
        requires few { self.old.raised + 1 < 2 ^ 32 }
        ensures room { self.new.leaves ≡ self.old.leaves }
        ensures raised { self.new.raised ≡ self.old.raised + 1 }
        ensures counts { (p : ℕ) → p < self.old.leaves
            → count_at self.new p ≡ count_at self.old p + one_if (within span.from span.to p) }
    {
        let mut low = self.leaves + span.from.min(span.to);
        let mut high = self.leaves + span.to;
        let nodes = &mut self.nodes;
        while low < high {
            // in each row the nodes at both ends, if their parents have a node outside of the span
            if low % 2 == 1 {
                nodes[low] += 1;
            }
            if high % 2 == 1 {
                nodes[high - 1] += 1;
            }
            low = low / 2 + low % 2;
            high /= 2;
        }
        self.raised += 1;
    }

    /// The count with number `place`.
    pub(crate) fn at(&self, place: usize) -> u32
        requires { place < self.now.leaves }
        ensures value { result ≡ count_at self.now place }
        ensures few { result ≤ self.now.raised }
    {
        // nothing is counted yet, as where a log silences its tags first
        if self.raised == 0 {
            return 0;
        }
        let mut sum = 0;
        let mut node = self.leaves + place;
        for _level in 0..self.levels {
            sum += self.nodes[node];
            node /= 2;
        }
        sum
    }
}
