//! What is left to ask for, log by log.

ghost use Rattle.std.specs.Prelude.{IfOk};
ghost use Rattle.std.specs.List.{AllZip};
ghost use Rattle.vic_collection.specs.Findings.{AreOpenMasksOfSurvey};

use crate::collection::Collection;
use crate::undecided_logs::undecided_set;
use std::alloc::{AllocError, Global};
use vic_tree::{OpenMasks, SpacedKeys};

impl Collection {
    /// For each log the first open masks of the UIDs that are possible in it and certain in none,
    /// and whether there are more.
    pub fn open_masks(&self, alloc: Global) -> Result<Vec<OpenMasks>, AllocError>
        ensures { IfOk result (λ masks.
            AllZip (AreOpenMasksOfSurvey self.now) self.now.surveys masks.items) }
    {
        let certain = self.certain_uids(alloc)?;
        let keys = SpacedKeys::of(alloc, certain.as_slice())?;
        let surveys = self.surveys();
        let mut masks = Vec::with_capacity(alloc, surveys.len())?;
        for survey in surveys {
            let set = undecided_set(alloc, survey)?;
            masks.push(set.open_masks_between(&keys))?;
        }
        Ok(masks)
    }
}
