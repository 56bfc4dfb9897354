//! What logs say of UIDs together.

ghost use Rattle.std.specs.Prelude.{◌≡◌, ℕ, ◌++◌, ◌∷◌, [], ◌||◌, if◌then◌else◌, IfOk, OnOk};
ghost use Rattle.std.specs.List.{list_any};
ghost use Rattle.std.specs.List.Sorted.{IsStrictlyIncreasing};
ghost use Rattle.vic_frame.specs.Masks.{lies_in};
ghost use Rattle.vic_frame.specs.Uids.{IsUid, has};
ghost use Rattle.vic_tree.specs.Ranges.{is_open_in};
ghost use Rattle.vic_report.specs.Findings.{uids_of};
ghost use Rattle.vic_collection.specs.Collections.{is_certain_in, logs_in, positions_from, tells_nothing};
ghost use Rattle.vic_collection.specs.inner.Told.{IsToldBy, is_open_by};

use crate::logs_by_uid::{LogOfUid, LogsByUid};
use std::alloc::{AllocError, Global};
use vic_frame::{Mask, Uid};
use vic_report::ShownUid;
use vic_survey::{Survey, SurveyedField};
use vic_tree::{OpenSet, RangeSet};

/// What the logs of a collection say of UIDs.
#[derive(Drop)]
pub(crate) struct Told {
    /// In which logs UIDs are certain.
    pub(crate) certain: LogsByUid,
    /// The UIDs that lie in an open mask of some log.
    pub(crate) open: RangeSet,
    /// Whether some log tells nothing, so that any UID may have been in its field.
    pub(crate) nothing: bool,
}

impl Told {
    /// What some surveys say.
    pub(crate) fn by(alloc: Global, surveys: &[Survey]) -> Result<Told, AllocError>
        ensures { IfOk result (IsToldBy surveys.now) }
    {
        let masks = open_masks(alloc, surveys)?;
        let sightings = all_sightings(alloc, surveys)?;
        let certain = LogsByUid::of(alloc, sightings)?;
        Ok(Told {
            certain,
            open: RangeSet::of_masks(alloc, &masks)?,
            nothing: any_tells_nothing(surveys),
        })
    }

    /// Whether a UID that is certain in no log may have been in a field.
    pub(crate) fn may_have(&self, uid: Uid) -> bool
        ensures value { result ≡ (self.now.nothing || is_open_in self.now.«open» uid) }
        ensures range { IsUid uid }
    {
        let _number = uid.number();
        self.nothing || self.open.has(uid)
    }
}

/// Whether some log tells nothing of its field.
fn any_tells_nothing(surveys: &[Survey]) -> bool
    ensures { result ≡ list_any tells_nothing surveys.now }
{
    surveys.iter().any(|survey| tells_nothing(survey))
}

/// Whether a log tells nothing of its field.
pub(crate) fn tells_nothing(survey: &Survey) -> bool
    ensures { result ≡ tells_nothing survey.now }
{
    match survey.field() {
        SurveyedField::Refused { .. } | SurveyedField::Impossible { .. } => true,
        SurveyedField::Possible(_) => false,
    }
}

/// The open masks of all logs.
fn open_masks(alloc: Global, surveys: &[Survey]) -> Result<Vec<Mask>, AllocError>
    ensures { IfOk result (λ masks. (u : ℕ) → list_any (λ m. lies_in m u) masks.items
        ≡ list_any (λ s. is_open_by s.field u) surveys.now) }
{
    let mut masks = Vec::new(alloc);
    for survey in surveys {
        if let SurveyedField::Possible(seen) = survey.field() {
            masks.extend_from_slice(seen.open.as_slice())?;
        }
    }
    Ok(masks)
}

/// The UIDs that are certain in each log, one log after the other.
fn all_sightings(alloc: Global, surveys: &[Survey]) -> Result<Vec<LogOfUid>, AllocError>
    ensures { IfOk result (λ sightings. (u : ℕ) → logs_in sightings.items u
        ≡ positions_from (λ s. is_certain_in s u) 0 surveys.now) }
{
    let mut sightings = Vec::new(alloc);
    for (index, survey) in surveys.iter().enumerate() {
        if let SurveyedField::Possible(seen) = survey.field() {
            push_all(&mut sightings, seen.certain.as_slice(), index)?;
        }
    }
    Ok(sightings)
}

/// Appends the UIDs that are certain in a log.
fn push_all(sightings: &mut Vec<LogOfUid>, uids: &[ShownUid], log: usize) -> Result<(), AllocError>
    requires { IsStrictlyIncreasing (uids_of uids.now) }
    ensures { OnOk result ((u : ℕ) → logs_in sightings.new.items u
        ≡ logs_in sightings.old.items u
        ++ (if has (uids_of uids.now) u then log ∷ [] else [])) }
{
    for shown in uids {
        let uid = shown.uid;
        sightings.push(LogOfUid { uid, log })?;
    }
    Ok(())
}
