//! The UIDs that are certain in some log and of no item, and what is unsettled.

ghost use Rattle.std.specs.Prelude.{◌≡◌, ℕ, true, false, ◌<◌, Some, get_or, length, map, slice_get, IfOk, MatchOption};
ghost use Rattle.std.specs.List.{All, Contains};
ghost use Rattle.std.specs.List.Sorted.{IsStrictlyIncreasing};
ghost use Rattle.vic_frame.specs.Uids.{IsUid, has};
ghost use Rattle.vic_tree.specs.Ranges.{is_open_in};
ghost use Rattle.vic_verdict.specs.Rising.{IsListOf};
ghost use Rattle.vic_verdict.specs.Verdict.{IsFirstMask, NoSuch};
ghost use Rattle.vic_report.specs.Findings.{uids_of};
ghost use Rattle.vic_report.specs.declared.shown.ShownUid.{ShownUid as ShownUidValue};
ghost use Rattle.vic_survey.specs.Surveys.{SurveyValue};
ghost use Rattle.vic_collection.specs.Collections.{is_certain_in, is_certain_somewhere, is_possible_somewhere, is_unlisted};
ghost use Rattle.vic_collection.specs.Findings.{IsShownBy, IsShownFirst, IsUnsettled};

use crate::collection::Collection;
use std::alloc::{AllocError, Global};
use vic_frame::Uid;
use vic_report::ShownUid;
use vic_survey::SurveyedField;
use vic_tree::{OpenSet, RangeSet, SortedKeys};
use vic_verdict::{Differences, compare};

/// A UID that is certain in some log and of no item.
#[derive(Clone, Copy, Debug, PartialEq, Eq)]
pub struct UnlistedUid {
    pub uid: Uid,
    /// The first log in which it is certain.
    pub log: usize,
    /// A line of that log that shows it.
    pub line: u32,
}

impl Collection {
    /// How the UIDs of items differ from what the logs say.
    pub(crate) fn differences(&self, alloc: Global) -> Result<Differences, AllocError>
        ensures unlisted { IfOk result (λ d.
            IsListOf (λ u. is_unlisted self.now u ≡ true) d.unlisted) }
        ensures unsettled { IfOk result (λ d. MatchOption d.unsettled
            (NoSuch (IsUnsettled self.now)) (IsFirstMask (IsUnsettled self.now))) }
    {
        let certain = self.certain_uids(alloc)?;
        let listed = self.item_uids(alloc)?;
        compare(alloc, self.possible_set(alloc)?, &certain, &listed)
    }

    /// A set of the UIDs that are possible in some log; of those that are certain in one it may
    /// lack some.
    fn possible_set(&self, alloc: Global) -> Result<RangeSet, AllocError>
        ensures { IfOk result (λ set. (u : ℕ) → IsUid u → is_certain_somewhere self.now u ≡ false
            → is_open_in set u ≡ is_possible_somewhere self.now u) }
    {
        if self.told.nothing {
            RangeSet::everything(alloc)
        } else {
            self.told.open.besides(alloc, &SortedKeys::none(alloc))
        }
    }

    /// UIDs that are certain in some log, each with the first such log.
    pub(crate) fn shown(&self, alloc: Global, uids: &[Uid]) -> Result<Vec<UnlistedUid>, AllocError>
        requires { (u : ℕ) → has uids.now u ≡ true → is_certain_somewhere self.now u ≡ true }
        ensures uids { IfOk result (λ shown. map (λ x. x.uid) shown.items ≡ uids.now) }
        ensures shown { IfOk result (λ shown. All (IsShownFirst self.now) shown.items) }
    {
        let mut shown = Vec::with_capacity(alloc, uids.len())?;
        for uid in uids {
            shown.push(self.shown_first(*uid))?;
        }
        Ok(shown)
    }

    /// A UID that is certain in some log, with the first such log.
    fn shown_first(&self, uid: Uid) -> UnlistedUid
        requires { is_certain_somewhere self.now uid ≡ true }
        ensures uid { result.uid ≡ uid }
        ensures shown { IsShownFirst self.now result }
    {
        let log = self.certain_in(uid)[0];
        let line = self.line_in(log, uid);
        UnlistedUid { uid, log, line }
    }

    /// The line of the survey of a log that shows a UID that is certain in it.
    fn line_in(&self, log: usize, uid: Uid) -> u32
        requires log { log < length self.now.surveys }
        requires certain { (s : SurveyValue) → slice_get self.now.surveys log ≡ Some s
            → is_certain_in s uid ≡ true }
        ensures { (s : SurveyValue) → slice_get self.now.surveys log ≡ Some s
            → IsShownBy s.field (record { uid = uid; line = result }) }
    {
        let SurveyedField::Possible(seen) = self.surveys()[log].field() else {
            unreachable!()
        };
        line_of(seen.certain.as_slice(), uid)
    }
}

/// The line with a UID that is among some.
fn line_of(shown: &[ShownUid], uid: Uid) -> u32
    requires rising { IsStrictlyIncreasing (uids_of shown.now) }
    requires among { has (uids_of shown.now) uid ≡ true }
    ensures { Contains shown.now (record { uid = uid; line = result }) }
{
    shown[index_of(shown, uid)].line
}

/// Where a UID is among some.
fn index_of(shown: &[ShownUid], uid: Uid) -> usize
    requires rising { IsStrictlyIncreasing (uids_of shown.now) }
    requires among { has (uids_of shown.now) uid ≡ true }
    ensures within { result < length shown.now }
    ensures there { (d : ShownUidValue) → (get_or shown.now result d).uid ≡ uid }
{
    shown.partition_point(|one| one.uid < uid)
}
