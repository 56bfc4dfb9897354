//! For each UID the logs in which it is possible and not certain.
//!
//! The logs are halved again and again, and a UID goes on to the halves of which some log leaves it
//! open. So no log is asked for each UID.

ghost use Rattle.std.specs.Prelude.{◌≡◌, ◌+◌, ◌<◌, ◌^◌, ◌++◌, ◌∷◌, [], ℕ, true, if◌then◌else◌, length, map, IfOk, OnOk};
ghost use Rattle.std.specs.List.{filter};
ghost use Rattle.std.specs.List.Sorted.{IsStrictlyIncreasing};
ghost use Rattle.vic_frame.specs.Uids.{IsUid, has};
ghost use Rattle.vic_tree.specs.OpenSet.{SameUids};
ghost use Rattle.vic_tree.specs.Ranges.{is_open_in};
ghost use Rattle.vic_collection.specs.Collections.{is_named, is_undecided_in, logs_in, positions_from, undecided_logs};

use crate::collection::Collection;
use crate::logs_by_uid::{LogOfUid, LogsByUid};
use crate::uids::push_uids;
use std::alloc::{AllocError, Global};
use vic_frame::Uid;
use vic_survey::{Survey, SurveyedField};
use vic_tree::{OpenSet, RangeSet, SortedKeys};

impl Collection {
    /// For each UID that is of an item, or certain in some log, the logs in which it is possible
    /// and not certain, by their positions, in their order.
    pub fn undecided_logs(&self, alloc: Global) -> Result<LogsByUid, AllocError>
        ensures { IfOk result (λ logs. (u : ℕ) → IsUid u → is_named self.now u ≡ true
            → logs_in logs u ≡ undecided_logs self.now u) }
    {
        let uids = self.named_uids(alloc)?;
        let sets = undecided_sets(alloc, self.surveys())?;
        let mut rows = Vec::new(alloc);
        note(alloc, &mut rows, &sets, 0, uids.as_slice())?;
        LogsByUid::of(alloc, rows)
    }
}

/// Notes for each of some UIDs the sets that have it. The sets are numbered from `from` on.
fn note(
    alloc: Global,
    rows: &mut Vec<LogOfUid>,
    sets: &[RangeSet],
    from: usize,
    uids: &[Uid],
) -> Result<(), AllocError>
    requires fits { from + length sets.now < 2 ^ 64 }
    requires rising { IsStrictlyIncreasing uids.now }
    ensures { OnOk result ((u : ℕ) → IsUid u
        → logs_in rows.new.items u ≡ logs_in rows.old.items u
        ++ (if has uids.now u then positions_from (λ set. is_open_in set u) from sets.now
        else [])) }
{
    if uids.is_empty() {
        return Ok(());
    }
    let inside = inside(alloc, &RangeSet::union(alloc, sets)?, uids)?;
    if sets.len() < 2 {
        return note_each(rows, &inside, from);
    }
    let (front, back) = sets.split_at(sets.len() / 2);
    note(alloc, rows, front, from, &inside)?;
    note(alloc, rows, back, from + front.len(), &inside)
}

/// The UIDs of a list that are in a set.
fn inside(alloc: Global, set: &RangeSet, uids: &[Uid]) -> Result<Vec<Uid>, AllocError>
    ensures { IfOk result (λ inside. inside.items ≡ filter (is_open_in set.now) uids.now) }
{
    uids.iter()
        .copied()
        .filter(|uid| set.has(*uid))
        .collect(alloc)
}

/// Notes a log for each of some UIDs.
fn note_each(rows: &mut Vec<LogOfUid>, uids: &[Uid], log: usize) -> Result<(), AllocError>
    requires { IsStrictlyIncreasing uids.now }
    ensures { OnOk result ((u : ℕ) → logs_in rows.new.items u ≡ logs_in rows.old.items u
        ++ (if has uids.now u then log ∷ [] else [])) }
{
    for uid in uids {
        rows.push(LogOfUid { uid: *uid, log })?;
    }
    Ok(())
}

/// For each log the UIDs that are possible in it and not certain.
fn undecided_sets(alloc: Global, surveys: &[Survey]) -> Result<Vec<RangeSet>, AllocError>
    ensures { IfOk result (λ sets. (u : ℕ) → IsUid u
        → map (λ set. is_open_in set u) sets.items
        ≡ map (λ s. is_undecided_in s u) surveys.now) }
{
    let mut sets = Vec::with_capacity(alloc, surveys.len())?;
    for survey in surveys {
        sets.push(undecided_set(alloc, survey)?)?;
    }
    Ok(sets)
}

/// The UIDs that are possible in a log and not certain.
pub(crate) fn undecided_set(alloc: Global, survey: &Survey) -> Result<RangeSet, AllocError>
    ensures { IfOk result (λ set. SameUids (is_open_in set) (is_undecided_in survey.now)) }
{
    match survey.field() {
        SurveyedField::Refused { .. } | SurveyedField::Impossible { .. } => RangeSet::everything(
            alloc,
        ),
        SurveyedField::Possible(seen) => {
            let mut certain = Vec::new(alloc);
            push_uids(&mut certain, seen.certain.as_slice())?;
            let masks = RangeSet::of_masks(alloc, seen.open.as_slice())?;
            masks.besides(alloc, &SortedKeys::of(alloc, &certain)?)
        }
    }
}
