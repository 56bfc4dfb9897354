//! The margin of a log, and the first mask of UIDs that have it.

ghost use Rattle.std.specs.Prelude.{◌≡◌, ℕ, IfOk, List, MatchOption};
ghost use Rattle.vic_log.specs.Order.{entries};
ghost use Rattle.vic_tree.specs.Keys.{AreKeysOf};
ghost use Rattle.vic_verdict.specs.Possible.{IsPossible};
ghost use Rattle.vic_verdict.specs.Verdict.{IsVerdict};
ghost use Rattle.vic_walk.specs.Steps.{AreLogParts};
ghost use Rattle.vic_margin.specs.Margins.{IsWeakest, IsWeakestBesides};
ghost use Rattle.vic_margin.specs.Readings.{AreReadingsIfComplete};

use crate::answer::{Margin, Weakest};
use crate::cautious::readings_if_complete;
use crate::least::least_besides;
use crate::margins::{PartMargins, part_margins};
use std::alloc::{AllocError, Global};
use vic_frame::{UID_BITS, Uid};
use vic_log::Log;
use vic_tree::{OpenSet, RangeSet, SortedKeys};
use vic_verdict::{Facts, Verdict, facts_and_parts_of, listed_uids, verdict_of_facts};
use vic_walk::{LogParts, other_keys};

/// The verdict on a log, and its margin, if it is possible; if its list is complete, also how far
/// it stays complete if the log is read more cautiously. Impossible logs have neither.
pub fn margin(alloc: Global, log: Log) -> Result<Margin, AllocError>
    ensures verdict { IfOk result (λ m. IsVerdict log.lines m.verdict) }
    ensures weakest { IfOk result (λ m. MatchOption m.weakest
        (IsPossible (entries log.lines) → ⊥)
        (λ w. IsPossible (entries log.lines) × IsWeakest (entries log.lines) w)) }
    ensures readings { IfOk result (λ m.
        AreReadingsIfComplete (entries log.lines) m.verdict m.readings) }
{
    match facts_and_parts_of::<RangeSet>(alloc, &log)? {
        Ok((facts, log_parts)) => {
            let Facts {
                open,
                met: _,
                certain,
            } = facts;
            let verdict = verdict_of_facts(alloc, open, &certain, &log)?;
            match verdict {
                // its UIDs were overlooked nowhere
                Verdict::Unsettled(mask) => Ok(Margin {
                    verdict,
                    weakest: Some(Weakest { margin: 0, mask }),
                    readings: None,
                }),
                Verdict::Impossible { .. }
                | Verdict::Absent(_)
                | Verdict::Unlisted(_)
                | Verdict::Doubtful(_)
                | Verdict::Complete { .. } => measured(alloc, verdict, log, log_parts),
            }
        }
        Err(line) => Ok(Margin {
            verdict: Verdict::Impossible { line },
            weakest: None,
            readings: None,
        }),
    }
}

/// What `margin` returns for a possible log with this verdict: its margin, measured by its parts.
fn measured(
    alloc: Global,
    verdict: Verdict,
    log: Log,
    log_parts: LogParts,
) -> Result<Margin, AllocError>
    requires verdict { IsVerdict log.lines verdict }
    requires parts { AreLogParts (entries log.lines) log_parts }
    ensures same { IfOk result (λ m. m.verdict ≡ verdict) }
    ensures weakest { IfOk result (λ m. MatchOption m.weakest ⊥ (IsWeakest (entries log.lines))) }
    ensures readings { IfOk result (λ m.
        AreReadingsIfComplete (entries log.lines) m.verdict m.readings) }
{
    let listed = listed_uids(alloc, log.lines())?;
    let keys = SortedKeys::of(alloc, listed.as_slice())?;
    let (weakest, _log_parts) = weakest_by_keys(alloc, &log, log_parts, &keys)?;
    let readings = readings_if_complete(alloc, &verdict, log, &keys)?;
    Ok(Margin {
        verdict,
        weakest: Some(weakest),
        readings,
    })
}

/// The margin of a log beside some UIDs, as if it listed these and no others, and the first mask of
/// UIDs that have it, by the parts of the log.
pub fn weakest_besides(
    alloc: Global,
    log: &Log,
    log_parts: LogParts,
    uids: &[Uid],
) -> Result<Weakest, AllocError>
    requires { AreLogParts (entries log.now.lines) log_parts }
    ensures { IfOk result (IsWeakestBesides (entries log.now.lines) uids.now) }
{
    let keys = SortedKeys::of(alloc, uids)?;
    let (weakest, _log_parts) = weakest_by_keys(alloc, log, log_parts, &keys)?;
    Ok(weakest)
}

/// The same, by the keys of the UIDs; with the parts, to be used again.
pub fn weakest_by_keys(
    alloc: Global,
    log: &Log,
    log_parts: LogParts,
    keys: &SortedKeys,
) -> Result<(Weakest, LogParts), AllocError>
    requires parts { AreLogParts (entries log.now.lines) log_parts }
    requires keys { (us : List ℕ) × AreKeysOf keys.now us }
    ensures weakest { IfOk result (λ r. (us : List ℕ) → AreKeysOf keys.now us
        → IsWeakestBesides (entries log.now.lines) us r.0) }
    ensures parts { IfOk result (λ r. AreLogParts (entries log.now.lines) r.1) }
{
    let (margins, steps) = part_margins(alloc, log, log_parts)?;
    let weakest = weakest_of(alloc, &margins, keys)?;
    let PartMargins { parts, .. } = margins;
    Ok((weakest, LogParts { parts, steps }))
}

/// The margin of a log beside the UIDs with some keys, and the first mask of UIDs that have it.
fn weakest_of(
    alloc: Global,
    margins: &PartMargins,
    keys: &SortedKeys,
) -> Result<Weakest, AllocError>
    requires { (us : List ℕ) × AreKeysOf keys.now us }
    ensures { IfOk result (λ w. (us : List ℕ) → AreKeysOf keys.now us
        → IsWeakestBesides (entries margins.now.log.now.lines) us w) }
{
    // no memory holds every UID
    if keys.as_slice().len() >= 1 << UID_BITS {
        return Err(AllocError);
    }
    let Some(least) = least_besides(margins, keys) else {
        unreachable!()
    };
    let others = other_keys(alloc, &margins.parts, &margins.each, least)?;
    let set = RangeSet::without(alloc, others)?;
    let Some(mask) = set.widest_besides(keys)? else {
        unreachable!()
    };
    Ok(Weakest {
        margin: least,
        mask,
    })
}
