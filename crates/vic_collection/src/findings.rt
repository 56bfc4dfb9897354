//! What a collection lacks, what is there beside it, and what can't be told.

ghost use Rattle.std.specs.Prelude.{◌≡◌, position, count_by, length, map, IfOk};
ghost use Rattle.vic_collection.specs.Answers.{IsAnswer, NoneDoubtful};
ghost use Rattle.vic_collection.specs.Collections.{CollectionValue, positions_from, tells_nothing};
ghost use Rattle.vic_collection.specs.Findings.{AreFindings};
ghost use Rattle.vic_collection.specs.Joins.{is_left_over};
ghost use Rattle.vic_collection.specs.States.{is_there};

use crate::answer::CollectionAnswer;
use crate::collection::Collection;
use crate::found_items::FoundItem;
use crate::state::State;
use crate::told::tells_nothing;
use crate::unlisted::UnlistedUid;
use std::alloc::{AllocError, Global};
use vic_frame::Mask;
use vic_survey::Survey;

/// All findings of a collection.
#[derive(Drop)]
pub struct Findings<'a> {
    /// The first log that is refused or impossible, if there is one.
    pub not_possible: Option<usize>,
    /// The items that are missing, by rising UIDs.
    pub absent: Vec<FoundItem>,
    /// The UIDs that are certain in some log and of no item, in rising order.
    pub unlisted: Vec<UnlistedUid>,
    /// The first mask, by length, then by value, of at most 56 bits, all of whose UIDs may be
    /// somewhere and may be nowhere, and are of no item.
    pub unsettled: Option<Mask>,
    /// The items that aren't provable, by rising UIDs.
    pub doubtful: Vec<FoundItem>,
    /// The items that are misplaced, by rising UIDs.
    pub misplaced: Vec<FoundItem>,
    /// The items that should be away and aren't, by rising UIDs.
    pub returned: Vec<FoundItem>,
    /// The items whose place has no log, by rising UIDs.
    pub not_counted: Vec<FoundItem>,
    /// The places without a log: of items by their rows, then of the table of places.
    pub without_log: Vec<&'a [u8]>,
    /// The logs of no place, in their order.
    pub left_over: Vec<usize>,
    /// The state of each item, in the order of the catalogue.
    pub states: Vec<State>,
    /// How many items are in place or there.
    pub count: usize,
}

impl Collection {
    /// All findings of the collection.
    pub fn findings(&self, alloc: Global) -> Result<Findings<'_>, AllocError>
        ensures { IfOk result (AreFindings self.now) }
    {
        let states = self.states(alloc)?;
        let differences = self.differences(alloc)?;
        Ok(Findings {
            not_possible: first_telling_nothing(self.surveys()),
            absent: self.items_in(alloc, &states, State::Absent)?,
            unlisted: self.shown(alloc, differences.unlisted.as_slice())?,
            unsettled: differences.unsettled,
            doubtful: self.items_in(alloc, &states, State::Doubtful)?,
            misplaced: self.items_in(alloc, &states, State::Misplaced)?,
            returned: self.items_in(alloc, &states, State::Returned)?,
            not_counted: self.items_in(alloc, &states, State::NotCounted)?,
            without_log: self.places_without_log(alloc)?,
            left_over: self.left_over(alloc)?,
            count: count_there(&states),
            states,
        })
    }

    /// The logs of no place.
    fn left_over(&self, alloc: Global) -> Result<Vec<usize>, AllocError>
        ensures { IfOk result (λ logs.
            logs.items ≡ positions_from (is_left_over self.now) 0 self.now.surveys) }
    {
        let mut logs = Vec::new(alloc);
        for index in 0..self.surveys().len() {
            if self.is_left_over(index) {
                logs.push(index)?;
            }
        }
        Ok(logs)
    }
}

impl<'a> Findings<'a> {
    /// The answer of the collection that has these findings.
    pub fn answer(&self) -> CollectionAnswer<'a>
        ensures { (c : CollectionValue) → AreFindings c self.now → IsAnswer c result }
    {
        if let Some(log) = self.not_possible {
            return CollectionAnswer::NotPossible { log };
        }
        if let Some(found) = self.absent.first() {
            return CollectionAnswer::Absent { uid: found.uid };
        }
        if let Some(found) = self.unlisted.first() {
            return CollectionAnswer::Unlisted { uid: found.uid };
        }
        if let Some(mask) = self.unsettled {
            return CollectionAnswer::Unsettled { mask };
        }
        if let Some(found) = self.doubtful.first() {
            return CollectionAnswer::Doubtful { uid: found.uid };
        }
        self.answer_by_place()
    }

    /// The answer where everything that should be there is there, and nothing else.
    fn answer_by_place(&self) -> CollectionAnswer<'a>
        ensures { (c : CollectionValue) → AreFindings c self.now → NoneDoubtful c
            → IsAnswer c result }
    {
        if let Some(found) = self.misplaced.first() {
            return CollectionAnswer::Misplaced { uid: found.uid };
        }
        if let Some(found) = self.returned.first() {
            return CollectionAnswer::Returned { uid: found.uid };
        }
        if let Some(found) = self.not_counted.first() {
            return CollectionAnswer::NotCounted { uid: found.uid };
        }
        if let Some(place) = self.without_log.first() {
            return CollectionAnswer::WithoutLog { place: *place };
        }
        if let Some(log) = self.left_over.first() {
            return CollectionAnswer::LeftOver { log: *log };
        }
        CollectionAnswer::Complete { count: self.count }
    }
}

/// The first log that tells nothing.
fn first_telling_nothing(surveys: &[Survey]) -> Option<usize>
    ensures { result ≡ position tells_nothing surveys.now }
{
    surveys.iter().position(|survey| tells_nothing(survey))
}

/// How many items are in place or there.
fn count_there(states: &[State]) -> usize
    ensures { result ≡ count_by is_there states.now }
{
    states.iter().filter(|state| is_there(**state)).count()
}

/// In place or there.
fn is_there(state: State) -> bool
    ensures { result ≡ is_there state }
{
    matches!(state, State::InPlace | State::There)
}
