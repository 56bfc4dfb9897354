//! Uses of `vic_margin`.

ghost use Rattle.std.specs.Prelude.{◌≡◌, ℕ, ◌<◌, true, List, IfOk, IfSome, length};
ghost use Rattle.vic_frame.specs.Uids.{has};
ghost use Rattle.vic_log.specs.Order.{entries, listed};
ghost use Rattle.vic_log.specs.Populations.{CouldHaveGiven, IsPopulation};
ghost use Rattle.vic_log.specs.declared.entry.Entry.{Entry};
ghost use Rattle.vic_margin.specs.Differing.{DifferOnlyAt};

use std::alloc::{AllocError, Global};
use vic_log::Log;
use vic_margin::laws::few_wrong_lines_hide_no_tag;
use vic_margin::{Margin, margin};

/// The margin of a log. If fewer of its slot lines are wrong, in whatever way, each tag that was in
/// the field is listed.
pub fn margin_of(alloc: Global, log: Log) -> Result<Margin, AllocError>
    ensures { IfOk result (λ m. IfSome m.weakest (λ w. (truth : List Entry) (places p : List ℕ)
        → DifferOnlyAt places (entries log.lines) truth → length places < w.margin
        → IsPopulation p → CouldHaveGiven p truth
        → (u : ℕ) → has p u ≡ true → has (listed (entries log.lines)) u ≡ true)) }
{
    few_wrong_lines_hide_no_tag();
    margin(alloc, log)
}
