//! The UIDs of items, and those that are certain in some log.

ghost use Rattle.std.specs.Prelude.{◌≡◌, ◌++◌, ◌||◌, ℕ, IfOk, OnOk};
ghost use Rattle.vic_frame.specs.Uids.{has};
ghost use Rattle.vic_report.specs.Findings.{uids_of};
ghost use Rattle.vic_collection.specs.Collections.{is_certain_somewhere, is_named, is_of_item};

use crate::collection::Collection;
use std::alloc::{AllocError, Global};
use vic_frame::Uid;
use vic_report::ShownUid;
use vic_survey::SurveyedField;
use vic_tree::RisingUids;

impl Collection {
    /// The UIDs that are certain in some log, or of an item.
    pub(crate) fn named_uids(&self, alloc: Global) -> Result<RisingUids, AllocError>
        ensures { IfOk result (λ uids. (u : ℕ) → has uids u ≡ is_named self.now u) }
    {
        let mut uids = Vec::new(alloc);
        self.push_certain(&mut uids)?;
        self.push_items(&mut uids)?;
        Ok(RisingUids::of(uids))
    }

    /// The UIDs that are certain in some log.
    pub(crate) fn certain_uids(&self, alloc: Global) -> Result<RisingUids, AllocError>
        ensures { IfOk result (λ uids. (u : ℕ) → has uids u ≡ is_certain_somewhere self.now u) }
    {
        let mut uids = Vec::new(alloc);
        self.push_certain(&mut uids)?;
        Ok(RisingUids::of(uids))
    }

    /// The UIDs of items.
    pub(crate) fn item_uids(&self, alloc: Global) -> Result<RisingUids, AllocError>
        ensures { IfOk result (λ uids. (u : ℕ) → has uids u ≡ is_of_item self.now u) }
    {
        let mut uids = Vec::new(alloc);
        self.push_items(&mut uids)?;
        Ok(RisingUids::of(uids))
    }

    /// Appends the UIDs that are certain in some log.
    fn push_certain(&self, uids: &mut Vec<Uid>) -> Result<(), AllocError>
        ensures { OnOk result ((u : ℕ) → has uids.new.items u
            ≡ (has uids.old.items u || is_certain_somewhere self.now u)) }
    {
        for survey in self.surveys() {
            if let SurveyedField::Possible(seen) = survey.field() {
                push_uids(uids, seen.certain.as_slice())?;
            }
        }
        Ok(())
    }

    /// Appends the UIDs of items.
    fn push_items(&self, uids: &mut Vec<Uid>) -> Result<(), AllocError>
        ensures { OnOk result ((u : ℕ) → has uids.new.items u
            ≡ (has uids.old.items u || is_of_item self.now u)) }
    {
        let catalogue = self.catalogue();
        for index in 0..catalogue.len() {
            if let Some(uid) = catalogue.uid(index) {
                uids.push(uid)?;
            }
        }
        Ok(())
    }
}

/// Appends UIDs without their lines.
pub(crate) fn push_uids(uids: &mut Vec<Uid>, shown: &[ShownUid]) -> Result<(), AllocError>
    ensures { OnOk result (uids.new.items ≡ uids.old.items ++ uids_of shown.now) }
{
    for one in shown {
        uids.push(one.uid)?;
    }
    Ok(())
}
