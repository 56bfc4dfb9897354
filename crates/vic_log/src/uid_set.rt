//! A set of UIDs that shows at once whether one more is new.

ghost use Rattle.std.specs.Prelude.{◌≡◌, ℕ, ◌<◌, ◌||◌, not, false, length, nat_eq, ◌==◌, IfOk, OnOk, OnErr, IfSome, IfNone, slice_get, Some, ◌∷◌, []};
ghost use Rattle.vic_frame.specs.Uids.{has};
ghost use Rattle.vic_log.specs.Order.{entries, listed};
ghost use Rattle.vic_log.specs.inner.UidSets.{place_of, is_held, IsUidSet, IsSetOf, IsIndex};

use crate::entry::{Entry, MAX_LINES};
use crate::packed::PackedLine;
use std::alloc::{AllocError, Global};
use std::collections::BTreeSet;
use std::simd::prelude::*;
use vic_frame::Uid;

/// How many UIDs fit into a row.
const ROW: usize = 8;

/// How many UIDs there are per row at most.
const MEAN: usize = 5;

/// A new set has rows for this many times as many lines to come as there are.
const GROWTH: usize = 3;

/// What a UID is multiplied by, so that UIDs in any order are spread over the rows: 2^64 divided by
/// the golden ratio.
const SPREAD: u64 = 0x9E37_79B9_7F4A_7C15;

/// A set of UIDs. Each is in the row that its number selects or, if that row is full, in an ordered
/// set, so that UIDs of a hostile log that all select one row cost only a search of that set.
#[derive(Drop)]
pub(crate) struct UidSet {
    /// The numbers of UIDs; 0 is a free element.
    pub(crate) rows: Vec<[u64; ROW]>,
    /// The UIDs whose row was full.
    pub(crate) others: BTreeSet<Uid>,
    /// For how many lines of the log there are enough rows.
    pub(crate) lines: usize,
}

/// Which of `rows` rows a UID's number selects.
fn place_of(uid: Uid, rows: usize) -> usize
    requires { 0 < rows }
    ensures value { result ≡ place_of uid rows }
    ensures there { result < rows }
{
    let spread = uid.number().wrapping_mul(SPREAD);
    (u128::from(spread) * rows as u128 >> 64) as usize
}

/// Whether a row has a number.
#[inline(always)]
fn is_in(row: &[u64; ROW], number: u64) -> bool
    ensures { result ≡ has row.now number }
{
    u64x8::from_slice(row).simd_eq(u64x8::splat(number)).any()
}

/// The index of the first free element of a row. No branch depends on which it is: a wrong guess by
/// the processor takes longer than all of it.
#[inline(always)]
fn free_place(row: &[u64; ROW]) -> Option<usize>
    ensures full { IfNone result (has row.now 0 ≡ false) }
    ensures free { IfSome result (λ k. slice_get row.now k ≡ Some 0) }
    ensures inside { IfSome result (λ k. k < ROW) }
{
    let free = u64x8::from_slice(row).simd_eq(u64x8::splat(0)).to_bitmask();
    if free == 0 {
        return None;
    }
    Some(free.trailing_zeros() as usize)
}

impl UidSet {
    /// A set that no UID can be put in yet. Allocates no memory.
    pub(crate) fn without_rows(alloc: Global) -> UidSet
        ensures { result.rows.items ≡ [] }
    {
        UidSet {
            rows: Vec::new(alloc),
            others: BTreeSet::new(alloc),
            lines: 0,
        }
    }

    /// A set without UIDs, with rows for those that lines list and for those of lines to come: of
    /// some times as many lines, or of all that a log may still have.
    fn with_rows(alloc: Global, lines: &[PackedLine]) -> Result<UidSet, AllocError>
        ensures set { IfOk result IsUidSet }
        ensures empty { IfOk result (IsSetOf []) }
    {
        let left = (MAX_LINES as usize).saturating_sub(lines.len());
        let more = lines.len().saturating_mul(GROWTH).min(left);
        let mut uids = more;
        for line in lines {
            if let Entry::Listed(_) = line.item() {
                uids = uids.saturating_add(1);
            }
        }
        Ok(UidSet {
            rows: vec![in alloc; [0; ROW]; uids / MEAN + 1]?,
            others: BTreeSet::new(alloc),
            lines: lines.len().saturating_add(more),
        })
    }

    /// Whether it has no row.
    pub(crate) fn has_no_rows(&self) -> bool
        ensures { result ≡ (length self.now.rows.items == 0) }
    {
        self.rows.is_empty()
    }

    /// Whether it has too few rows for one more line than that many.
    pub(crate) fn is_crowded(&self, lines: usize) -> bool
        ensures { result ≡ false → 0 < length self.now.rows.items }
    {
        self.rows.is_empty() || self.lines <= lines
    }

    /// Rebuilds it from the UIDs that lines list, which are those in it, if it has too few rows for
    /// one more line.
    #[inline(always)]
    pub(crate) fn make_room(&mut self, lines: &[PackedLine]) -> Result<(), AllocError>
        ensures index { OnOk result ((greatest : ℕ)
            → IsIndex (listed (entries lines.now)) greatest self.old
            → IsUidSet self.new × IsSetOf (listed (entries lines.now)) self.new) }
        ensures same { OnErr result (self.new ≡ self.old) }
    {
        if self.is_crowded(lines.len()) {
            *self = listed_uids(*self.rows.allocator(), lines)?;
        }
        Ok(())
    }

    /// Adds a UID, and returns whether it is new.
    pub(crate) fn put(&mut self, uid: Uid) -> Result<bool, AllocError>
        requires { IsUidSet self.old }
        ensures set { IsUidSet self.new }
        ensures answer { IfOk result (λ is_new. is_new ≡ not (is_held self.old uid)) }
        ensures fresh { OnErr result (is_held self.old uid ≡ false) }
        ensures more { OnOk result ((u : ℕ) → 0 < u
            → is_held self.new u ≡ (is_held self.old u || nat_eq u uid)) }
        ensures same { OnErr result ((u : ℕ) → is_held self.new u ≡ is_held self.old u) }
    {
        let place = place_of(uid, self.rows.len());
        if is_in(&self.rows[place], uid.number()) {
            return Ok(false);
        }
        match free_place(&self.rows[place]) {
            Some(free) => {
                self.rows[place][free] = uid.number();
                Ok(true)
            }
            None => Ok(self.others.insert(uid)?),
        }
    }
}

/// Whether an entry lists a UID.
fn lists(item: &Entry, uid: Uid) -> bool
    ensures { result ≡ has (listed (item.now ∷ [])) uid }
{
    match *item {
        Entry::Listed(other) => uid == other,
        Entry::Sent(_)
        | Entry::Silent
        | Entry::Collision
        | Entry::Heard(_)
        | Entry::Garbled
        | Entry::FieldCycle
        | Entry::Captured(_)
        | Entry::Unknown => false,
    }
}

/// Whether lines list a UID. It looks at all of them.
pub(crate) fn is_listed(lines: &[PackedLine], uid: Uid) -> bool
    ensures { result ≡ has (listed (entries lines.now)) uid }
{
    for line in lines {
        if lists(&line.item(), uid) {
            return true;
        }
    }
    false
}

/// The UIDs that lines list.
pub(crate) fn listed_uids(alloc: Global, lines: &[PackedLine]) -> Result<UidSet, AllocError>
    ensures set { IfOk result IsUidSet }
    ensures uids { IfOk result (IsSetOf (listed (entries lines.now))) }
{
    let mut set = UidSet::with_rows(alloc, lines)?;
    for line in lines {
        if let Entry::Listed(uid) = line.item() {
            set.put(uid)?;
        }
    }
    Ok(set)
}
