//! Laws of the definitions. The functions do nothing: each stands for what its clauses say.

ghost use Rattle.std.specs.Prelude.{ℕ, List};
ghost use Rattle.vic_answer.specs.declared.status.Status.TheVariants.{Whole};
ghost use Rattle.vic_commands.specs.Collected.{IsJsonCollectionRun, IsReconcileRun, IsCollectionRun};
ghost use Rattle.vic_commands.specs.CompleteFiles.{AreComplete, AreCompleteToReconcile, OfFiles};
ghost use Rattle.vic_commands.specs.declared.collected.Form.TheVariants as form;

use vic_collection::laws::complete_is_true;
use vic_survey::laws::one_text_says_one_thing;

/// Where a command about a collection ends with status 0, its answer is `Complete`, and what this
/// promises is true of the catalogue and the logs in the texts.
pub fn complete_is_true_of_files()
    ensures collection { (names texts : List (List ℕ)) (text : List ℕ)
        → IsCollectionRun names texts text Whole
        → OfFiles (AreComplete form.Table text) names texts }
    ensures json_collection { (names texts : List (List ℕ)) (text : List ℕ)
        → IsJsonCollectionRun names texts text Whole
        → OfFiles (AreComplete form.Object text) names texts }
    ensures reconcile { (names texts : List (List ℕ)) (text : List ℕ)
        → IsReconcileRun names texts text Whole
        → OfFiles (AreCompleteToReconcile text) names texts }
{
    complete_is_true();
    one_text_says_one_thing();
}
