//! The line with a number; sets of line numbers.

ghost use Rattle.std.specs.Prelude.{◌≡◌, ℕ, ◌≤◌, [], IfNone, IfSome, Some, slice_get, true};
ghost use Rattle.std.specs.List.Sorted.{IsStrictlyIncreasing};
ghost use Rattle.vic_frame.specs.Uids.{has};
ghost use Rattle.vic_log.specs.Order.{IsRisingFrom};
ghost use Rattle.vic_log.specs.declared.entry.LogLine.{LogLine as LogLineValue};

use std::marker::Model;
use vic_log::PackedLine;

/// The position of the line with a number.
pub(crate) fn place_of(lines: &[PackedLine], number: u32) -> Option<usize>
    ensures some { IfSome result (λ i. (l : LogLineValue)
        × (slice_get lines.now i ≡ Some l) × (l.number ≡ number)) }
    ensures none { IfNone result (IsRisingFrom 0 lines.now → (i : ℕ) (l : LogLineValue)
        → slice_get lines.now i ≡ Some l → l.number ≡ number → ⊥) }
{
    match lines.binary_search_by_key(&number, |line| line.number()) {
        Ok(place) => Some(place),
        Err(_) => None,
    }
}

/// Numbers of lines in rising order, each once.
#[derive(Drop)]
pub(crate) struct LineNumbers {
    numbers: Vec<u32>,
}

impl Model for LineNumbers {
    ghost use Rattle.std.specs.Prelude.{ℕ, List};
    ghost use Rattle.std.specs.List.Sorted.{IsStrictlyIncreasing};

    ghost Value = { List ℕ };

    ghost view = { λ n. n.numbers.items };

    ghost invariant = { λ n. IsStrictlyIncreasing n.numbers.items };
}

impl LineNumbers {
    /// Some numbers, put in order.
    pub(crate) fn of(mut numbers: Vec<u32>) -> LineNumbers
        ensures { (n : ℕ) → has result n ≡ has numbers.items n }
    {
        numbers.sort_unstable();
        numbers.dedup();
        LineNumbers { numbers }
    }

    /// Whether a number is among them.
    pub(crate) fn has(&self, number: u32) -> bool
        ensures { result ≡ has self.now number }
    {
        self.numbers.binary_search(&number).is_ok()
    }

    /// The last one.
    pub(crate) fn last(&self) -> Option<u32>
        ensures none { IfNone result (self.now ≡ []) }
        ensures member { IfSome result (λ last. has self.now last ≡ true) }
        ensures above { IfSome result (λ last. (n : ℕ) → has self.now n ≡ true → n ≤ last) }
    {
        self.numbers.last().copied()
    }

    /// The numbers, from the least to the greatest.
    pub(crate) fn as_slice(&self) -> &[u32]
        ensures value { result.now ≡ self.now }
        ensures rising { IsStrictlyIncreasing result.now }
    {
        &self.numbers
    }

    /// The same as a vector.
    pub(crate) fn into_vec(self) -> Vec<u32>
        ensures { result.items ≡ self }
    {
        self.numbers
    }
}
