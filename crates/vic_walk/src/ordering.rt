//! Gathered borders in order: the parts between them.

ghost use Rattle.std.specs.Prelude.{◌≡◌, ℕ, true, IfOk, length, slice_index};
ghost use Rattle.std.specs.List.{All, Contains};
ghost use Rattle.std.specs.List.Sorted.{IsStrictlyIncreasing};
ghost use Rattle.vic_walk.specs.Borders.{AreBorders};
ghost use Rattle.vic_walk.specs.inner.Gathered.{AreMoved, IsBorder, StandsAt};

use crate::gathered::Gathered;
use crate::parts::Parts;
use crate::ranked::{Ranked, rank};
use std::alloc::{AllocError, Global};
use vic_frame::UID_BITS;
use vic_frame::low_bits_first::UidKey;

/// The parts between gathered borders; and for each border, by where it stands, the number of the
/// part that begins there.
pub(crate) fn in_order(alloc: Global, gathered: Gathered) -> Result<(Parts, Vec<u32>), AllocError>
    ensures borders { IfOk result (λ r. AreBorders r.0) }
    ensures moved { IfOk result (λ r. AreMoved gathered r.0 (λ p. slice_index r.1.items p)) }
{
    let borders = gathered.into_borders();
    let Ranked {
        borders: ranked,
        ranks,
    } = rank(alloc, &borders)?;
    if are_borders(&ranked) && have_ranks(&borders, &ranked, &ranks) {
        return Ok((Parts::between(ranked), ranks));
    }
    // nothing is promised of the ranks, so they are checked; no log has so many borders that they
    // are wrong
    let mut copied = Vec::new(alloc);
    copied.extend_from_slice(&borders)?;
    let parts = Parts::between(sorted(copied));
    let ranks = ranks_in(alloc, &parts, &borders)?;
    Ok((parts, ranks))
}

/// Whether numbers are borders in rising order, from the first key to the end of the keys.
fn are_borders(numbers: &[u64]) -> bool
    ensures { result ≡ true → AreBorders numbers.now }
{
    if numbers.is_empty() || numbers[0] != 0 || numbers[numbers.len() - 1] != 1 << UID_BITS {
        return false;
    }
    for index in 1..numbers.len() {
        if numbers[index] <= numbers[index - 1] {
            return false;
        }
    }
    true
}

/// Whether each of some borders is among others, where its rank says.
fn have_ranks(borders: &[u64], ranked: &[u64], ranks: &[u32]) -> bool
    ensures { result ≡ true
        → AreMoved borders.now ranked.now (λ p. slice_index ranks.now p) }
{
    for index in 0..borders.len() {
        if !has_at(ranked, rank_of(ranks, index), borders[index]) {
            return false;
        }
    }
    true
}

/// The rank of the border at a place.
pub(crate) fn rank_of(ranks: &[u32], place: usize) -> u32
    ensures { result ≡ slice_index ranks.now place }
{
    match ranks.get(place) {
        Some(rank) => *rank,
        None => 0,
    }
}

/// Whether a border is among some, where its rank says.
fn has_at(ranked: &[u64], rank: u32, border: u64) -> bool
    ensures { result ≡ true → StandsAt ranked.now border rank }
{
    let at = rank as usize;
    at < ranked.len() && ranked[at] == border
}

/// The numbers of the parts that begin at some borders.
fn ranks_in(alloc: Global, parts: &Parts, borders: &[u64]) -> Result<Vec<u32>, AllocError>
    requires { (b : ℕ) → Contains borders.now b → Contains parts.now b }
    ensures { IfOk result (λ v. AreMoved borders.now parts.now (λ p. slice_index v.items p)) }
{
    let mut ranks = Vec::with_capacity(alloc, borders.len())?;
    for border in borders {
        let rank = rank_in(parts, *border);
        if rank > u32::MAX as usize {
            return Err(AllocError);
        }
        ranks.push(rank as u32)?;
    }
    Ok(ranks)
}

/// The number of the part that begins at a border, or at the end of the keys how many there are.
fn rank_in(parts: &Parts, border: u64) -> usize
    requires { Contains parts.now border }
    ensures { StandsAt parts.now border result }
{
    // by its clause `borders` a proof knows what the parts are
    let count = parts.count();
    if border < 1 << UID_BITS {
        parts.at(UidKey::new(border))
    } else {
        count
    }
}

/// Borders in rising order, each once.
fn sorted(borders: Vec<u64>) -> Vec<u64>
    ensures rising { IsStrictlyIncreasing result.items }
    ensures same { (b : ℕ) → Contains borders.items b → Contains result.items b }
    ensures borders { All IsBorder borders.items → All IsBorder result.items }
{
    let mut borders = borders;
    borders.sort_unstable();
    borders.dedup();
    borders
}
