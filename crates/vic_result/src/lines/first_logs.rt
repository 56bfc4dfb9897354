//! For each of some UIDs, the first of several logs that leaves it open.
//!
//! The logs are halved again and again: a UID that some log of the first half leaves open is looked
//! for there, and any other in the second half. So no log is asked for each UID, and no UID is kept
//! with each log.

ghost use Rattle.std.specs.Prelude.{◌≡◌, ◌+◌, ◌<◌, ◌^◌, ◌||◌, ◌&&◌, ℕ, not, if◌then◌else◌, Some, length, map, IfOk, OnOk};
ghost use Rattle.std.specs.BTreeMap.{get};
ghost use Rattle.std.specs.Ordering.{nat_cmp};
ghost use Rattle.std.specs.List.{All, list_any};
ghost use Rattle.vic_collection.specs.Findings.{AreFoundIn};
ghost use Rattle.vic_collection.specs.declared.state.State.TheVariants.{Doubtful};
ghost use Rattle.vic_frame.specs.Masks.{lies_in};
ghost use Rattle.vic_frame.specs.Uids.{IsUid, has};
ghost use Rattle.vic_tree.specs.OpenSet.{SameUids};
ghost use Rattle.vic_tree.specs.Ranges.{is_open_in};
ghost use Rattle.vic_result.specs.inner.FirstLogs.{AreLeftOpen, HasFirstName, first_open, is_open_somewhere, leaves_open, name_in};

use crate::names::name_at;
use std::alloc::{AllocError, Global};
use std::collections::BTreeMap;
use vic_collection::{Collection, FoundItem};
use vic_frame::{Mask, Uid};
use vic_survey::{Survey, SurveyedField};
use vic_tree::{OpenSet, RangeSet};

/// For the UID of each item that isn't provable, the position of the first log in which it may be.
pub(crate) fn first_logs(
    alloc: Global,
    collection: &Collection,
    doubtful: &[FoundItem],
) -> Result<BTreeMap<Uid, usize>, AllocError>
    requires { AreFoundIn collection.now Doubtful doubtful.now }
    ensures { IfOk result (λ logs. All (HasFirstName collection.now logs) doubtful.now) }
{
    let uids = uids_of(alloc, doubtful)?;
    let mut logs = BTreeMap::new(alloc);
    note_first(alloc, &mut logs, collection.surveys(), 0, uids)?;
    Ok(logs)
}

/// The name of the log of a UID.
pub(crate) fn name_of<'a>(surveys: &'a [Survey], logs: &BTreeMap<Uid, usize>, uid: Uid) -> &'a [u8]
    ensures value { result.now ≡ name_in surveys.now logs.now uid }
    ensures range { IsUid uid }
{
    let _number = uid.number();
    match logs.get(&uid) {
        Some(log) => name_at(surveys, *log),
        None => &[],
    }
}

/// The UIDs of items.
fn uids_of(alloc: Global, found: &[FoundItem]) -> Result<Vec<Uid>, AllocError>
    ensures { IfOk result (λ uids. uids.items ≡ map (λ f. f.uid) found.now) }
{
    found.iter().map(|found| found.uid).collect(alloc)
}

/// Notes for each of some UIDs the first log that leaves it open. The logs are numbered from `from`
/// on.
fn note_first(
    alloc: Global,
    logs: &mut BTreeMap<Uid, usize>,
    surveys: &[Survey],
    from: usize,
    uids: Vec<Uid>,
) -> Result<(), AllocError>
    requires fits { from + length surveys.now < 2 ^ 64 }
    requires left { AreLeftOpen surveys.now uids.items }
    ensures { OnOk result ((u : ℕ) → IsUid u → get nat_cmp logs.new u
        ≡ (if has uids.items u then Some (from + first_open surveys.now u)
        else get nat_cmp logs.old u)) }
{
    if uids.is_empty() {
        return Ok(());
    }
    if surveys.len() < 2 {
        return note_all(logs, from, &uids);
    }
    let (front, back) = surveys.split_at(surveys.len() / 2);
    let (here, later) = parted(alloc, &open_set(alloc, front)?, uids)?;
    note_first(alloc, logs, front, from, here)?;
    note_first(alloc, logs, back, from + front.len(), later)
}

/// The UIDs of a list that are in a set, and those that aren't.
fn parted(alloc: Global, set: &RangeSet, uids: Vec<Uid>) -> Result<(Vec<Uid>, Vec<Uid>), AllocError>
    ensures inside { IfOk result (λ p. (u : ℕ)
        → has p.0.items u ≡ (has uids.items u && is_open_in set.now u)) }
    ensures outside { IfOk result (λ p. (u : ℕ)
        → has p.1.items u ≡ (has uids.items u && not (is_open_in set.now u))) }
{
    let mut inside = Vec::new(alloc);
    let mut outside = Vec::new(alloc);
    for uid in &uids {
        if set.has(*uid) {
            inside.push(*uid)?;
        } else {
            outside.push(*uid)?;
        }
    }
    Ok((inside, outside))
}

/// Notes one log for all of some UIDs.
fn note_all(logs: &mut BTreeMap<Uid, usize>, log: usize, uids: &[Uid]) -> Result<(), AllocError>
    ensures { OnOk result ((u : ℕ) → get nat_cmp logs.new u
        ≡ (if has uids.now u then Some log else get nat_cmp logs.old u)) }
{
    for uid in uids {
        logs.insert(*uid, log)?;
    }
    Ok(())
}

/// The UIDs that some log leaves open.
fn open_set(alloc: Global, surveys: &[Survey]) -> Result<RangeSet, AllocError>
    ensures { IfOk result (λ set. SameUids (is_open_in set) (is_open_somewhere surveys.now)) }
{
    let masks = open_masks(alloc, surveys)?;
    RangeSet::of_masks(alloc, &masks)
}

/// The masks that some log leaves open.
fn open_masks(alloc: Global, surveys: &[Survey]) -> Result<Vec<Mask>, AllocError>
    ensures { IfOk result (λ masks. (u : ℕ)
        → list_any (λ m. lies_in m u) masks.items ≡ is_open_somewhere surveys.now u) }
{
    let mut masks = Vec::new(alloc);
    for survey in surveys {
        add_open_masks(&mut masks, survey)?;
    }
    Ok(masks)
}

/// Appends the masks that a log leaves open: that of every UID where it tells nothing.
fn add_open_masks(masks: &mut Vec<Mask>, survey: &Survey) -> Result<(), AllocError>
    ensures { OnOk result ((u : ℕ) → list_any (λ m. lies_in m u) masks.new.items
        ≡ (list_any (λ m. lies_in m u) masks.old.items || leaves_open survey.now u)) }
{
    match survey.field() {
        SurveyedField::Refused { .. } | SurveyedField::Impossible { .. } => {
            masks.push(Mask::default())?;
            Ok(())
        }
        SurveyedField::Possible(facts) => masks.extend_from_slice(facts.open.as_slice()),
    }
}
