//! The items in a state, by their UIDs.

ghost use Rattle.std.specs.Prelude.{◌≡◌, ℕ, true, false, length, map, IfOk};
ghost use Rattle.std.specs.List.{All, Contains};
ghost use Rattle.std.specs.List.Sorted.{IsStrictlyIncreasing};
ghost use Rattle.vic_frame.specs.Uids.{has};
ghost use Rattle.vic_collection.specs.Findings.{AreFoundIn};
ghost use Rattle.vic_collection.specs.States.{state_of};
ghost use Rattle.vic_collection.specs.inner.FoundItems.{AreAllIn};

use crate::collection::Collection;
use crate::state::State;
use std::alloc::{AllocError, Global};
use vic_frame::Uid;

/// An item with its UID.
#[derive(Clone, Copy, Debug, PartialEq, Eq)]
pub struct FoundItem {
    pub uid: Uid,
    /// Its position in the catalogue.
    pub item: usize,
}

impl Collection {
    /// The state of each item.
    pub fn states(&self, alloc: Global) -> Result<Vec<State>, AllocError>
        ensures { IfOk result (λ states.
            states.items ≡ map (state_of self.now) self.now.catalogue.items) }
    {
        let count = self.catalogue().len();
        let mut states = Vec::with_capacity(alloc, count)?;
        for index in 0..count {
            states.push(self.state(index))?;
        }
        Ok(states)
    }

    /// The items in a state, by rising UIDs.
    pub(crate) fn items_in(
        &self,
        alloc: Global,
        states: &[State],
        state: State,
    ) -> Result<Vec<FoundItem>, AllocError>
        requires { states.now ≡ map (state_of self.now) self.now.catalogue.items }
        ensures { IfOk result (λ found. AreFoundIn self.now state found.items) }
    {
        Ok(by_uids(self.all_in(alloc, states, state)?))
    }

    /// The items in a state that have a UID, by their rows.
    fn all_in(
        &self,
        alloc: Global,
        states: &[State],
        state: State,
    ) -> Result<Vec<FoundItem>, AllocError>
        requires { states.now ≡ map (state_of self.now) self.now.catalogue.items }
        ensures { IfOk result (λ found.
            AreAllIn self.now state (length self.now.catalogue.items) found.items) }
    {
        let catalogue = self.catalogue();
        let mut found = Vec::new(alloc);
        for item in 0..catalogue.len() {
            if is_same(states[item], state) {
                if let Some(uid) = catalogue.uid(item) {
                    found.push(FoundItem { uid, item })?;
                }
            }
        }
        Ok(found)
    }
}

/// Whether two states are one.
fn is_same(one: State, other: State) -> bool
    ensures same { result ≡ true → one ≡ other }
    ensures different { result ≡ false → one ≡ other → ⊥ }
{
    one == other
}

/// An item for each UID of some items, by rising UIDs.
fn by_uids(found: Vec<FoundItem>) -> Vec<FoundItem>
    ensures rising { IsStrictlyIncreasing (map (λ f. f.uid) result.items) }
    ensures members { (u : ℕ) → has (map (λ f. f.uid) result.items) u
        ≡ has (map (λ f. f.uid) found.items) u }
    ensures items { All (Contains found.items) result.items }
{
    let mut found = found;
    found.sort_unstable_by_key(|one| one.uid);
    found.dedup_by_key(|one| one.uid);
    found
}
