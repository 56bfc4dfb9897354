//! Uses of `vic_collection`.

ghost use Rattle.std.specs.Prelude.{ℕ, List, IfOk, IfSome};
ghost use Rattle.std.specs.List.{AllZip};
ghost use Rattle.vic_collection.specs.Complete.{IsComplete, IsSurveyOf};

use std::alloc::{AllocError, Global};
use vic_collection::laws::complete_is_true;
use vic_collection::{Collection, CollectionAnswer};

/// How many items are where they should be, if all are and nothing else is there. That is so
/// whatever tags produced the logs from which the surveys come.
pub fn all_in_place(alloc: Global, collection: &Collection) -> Result<Option<usize>, AllocError>
    ensures { IfOk result (λ all. IfSome all (λ count. (texts : List (List ℕ))
        → AllZip IsSurveyOf texts collection.now.surveys
        → IsComplete collection.now texts count)) }
{
    complete_is_true();
    let findings = collection.findings(alloc)?;
    match findings.answer() {
        CollectionAnswer::Complete { count } => Ok(Some(count)),
        _ => Ok(None),
    }
}
