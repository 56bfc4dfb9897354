//! Lines that rule out UIDs, read off a walk over the log.

ghost use Rattle.std.specs.Prelude.{◌≡◌, IfOk, false};
ghost use Rattle.std.specs.List.{All};
ghost use Rattle.vic_log.specs.Order.{entries};
ghost use Rattle.vic_log.specs.Slots.{slots_of, is_open};
ghost use Rattle.vic_report.specs.Findings.{IsRuledOut, uids_of};
ghost use Rattle.vic_verdict.specs.Possible.{IsPossible};

use crate::shown::ShownUid;
use std::alloc::{AllocError, Global};
use vic_frame::Uid;
use vic_frame::low_bits_first::key;
use vic_log::Log;
use vic_walk::{LogLines, LogWalk, walk_log};

/// For each of some UIDs that a possible log doesn't leave open, the first line that rules it out.
pub(crate) fn lines_of_absent(
    alloc: Global,
    log: &Log,
    absent: &[Uid],
) -> Result<Vec<ShownUid>, AllocError>
    requires possible { IsPossible (entries log.now.lines) }
    requires not_open { All (λ u. is_open (slots_of (entries log.now.lines)) u ≡ false)
        absent.now }
    ensures uids { IfOk result (λ v. uids_of v.items ≡ absent.now) }
    ensures shown { IfOk result (λ v. All (IsRuledOut log.now.lines) v.items) }
{
    if absent.is_empty() {
        return Ok(Vec::new(alloc));
    }
    let lines = log.lines();
    // to its end, since the log is possible
    let LogWalk {
        log_parts,
        ends,
        ..
    } = walk_log(alloc, &LogLines::of(log))?;
    let indexed = log_parts.parts.indexed(alloc)?;
    let mut shown = Vec::with_capacity(alloc, absent.len())?;
    for uid in absent {
        // not 0, since the UID isn't open
        let end = ends[indexed.at(key(*uid))] as usize;
        let line = lines[end - 1].number();
        shown.push(ShownUid { uid: *uid, line })?;
    }
    Ok(shown)
}
