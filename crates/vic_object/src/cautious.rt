//! The two cautious readings of a log, the hidden and the deaf one, against the same list.

ghost use Rattle.std.specs.Prelude.{◌≡◌, ◌↔◌, ℕ, IfOk, IfSome, List, MatchOption, true, false};
ghost use Rattle.vic_log.specs.Deaf.{deaf_entries, hidden_entries};
ghost use Rattle.vic_log.specs.Order.{entries};
ghost use Rattle.vic_log.specs.declared.entry.LogLine.{LogLine as LogLineValue};
ghost use Rattle.vic_tree.specs.OpenSet.{SameUids, without_keys};
ghost use Rattle.vic_tree.specs.Ranges.{is_open_in};
ghost use Rattle.vic_walk.specs.Steps.{AreLogParts};
ghost use Rattle.vic_verdict.specs.Facts.{AreFactsOf};
ghost use Rattle.vic_verdict.specs.Verdict.{IsVerdict};
ghost use Rattle.vic_verdict.specs.declared.judging.Verdict.TheVariants.{Complete};
ghost use Rattle.vic_margin.specs.Margins.{IsWeakest};
ghost use Rattle.vic_object.specs.Told.{IsCautiousReading, IsToldBy, IsWeakestIfComplete};
ghost use Rattle.vic_object.specs.inner.Certain.{AreCertainKeys};
ghost use Rattle.vic_object.specs.inner.Cautious.{AreHiddenOrDeaf};

use crate::told::CautiousReading;
use std::alloc::{AllocError, Global};
use vic_log::Log;
use vic_margin::{Weakest, weakest_by_keys};
use vic_tree::{OpenSet, RangeSet, SortedKeys};
use vic_verdict::{Facts, Verdict, facts_and_parts_of, listed_uids, verdict_of_facts};
use vic_walk::LogParts;

/// What the hidden and the deaf reading of a log tell, where the log itself has this verdict and
/// these certain UIDs. The parts are at hand if its list is complete.
pub(crate) fn cautious_readings(
    alloc: Global,
    log: Log,
    verdict: &Verdict,
    certain: &Option<SortedKeys>,
    log_parts: Option<LogParts>,
) -> Result<(CautiousReading, CautiousReading), AllocError>
    requires verdict { IsVerdict log.lines verdict.now }
    requires certain { AreCertainKeys log.lines certain.now }
    requires parts { IfSome log_parts (AreLogParts (entries log.lines)) }
    ensures hidden { IfOk result (λ r.
        IsCautiousReading log.lines (hidden_entries (entries log.lines)) verdict.now r.0) }
    ensures deaf { IfOk result (λ r.
        IsCautiousReading log.lines (deaf_entries (entries log.lines)) verdict.now r.1) }
{
    let Some(log_parts) = log_parts else {
        return judged_readings(alloc, log, verdict, certain);
    };
    match *verdict {
        Verdict::Complete { count } => complete_readings(alloc, log, count, log_parts),
        Verdict::Impossible { .. }
        | Verdict::Absent(_)
        | Verdict::Unlisted(_)
        | Verdict::Unsettled(_)
        | Verdict::Doubtful(_) => judged_readings(alloc, log, verdict, certain),
    }
}

/// The same, each judged anew. Both are one, if no silent slot comes behind the last answer.
fn judged_readings(
    alloc: Global,
    log: Log,
    verdict: &Verdict,
    certain: &Option<SortedKeys>,
) -> Result<(CautiousReading, CautiousReading), AllocError>
    requires { AreCertainKeys log.lines certain.now }
    ensures hidden { IfOk result (λ r.
        IsCautiousReading log.lines (hidden_entries (entries log.lines)) verdict.now r.0) }
    ensures deaf { IfOk result (λ r.
        IsCautiousReading log.lines (deaf_entries (entries log.lines)) verdict.now r.1) }
{
    let falls_silent = log.ends_silent();
    let hidden_log = log.into_hidden();
    let hidden = judged_reading(alloc, &hidden_log, verdict, certain)?;
    if !falls_silent {
        let deaf = hidden;
        return Ok((hidden, deaf));
    }
    let deaf = judged_reading(alloc, &hidden_log.into_deaf(), verdict, certain)?;
    Ok((hidden, deaf))
}

/// The same, if the list of the log is complete, and has so many UIDs: by the margin of each
/// reading, which has the parts of the log.
fn complete_readings(
    alloc: Global,
    log: Log,
    count: u32,
    log_parts: LogParts,
) -> Result<(CautiousReading, CautiousReading), AllocError>
    requires verdict { IsVerdict log.lines (Complete count) }
    requires parts { AreLogParts (entries log.lines) log_parts }
    ensures hidden { IfOk result (λ r.
        IsCautiousReading log.lines (hidden_entries (entries log.lines)) (Complete count) r.0) }
    ensures deaf { IfOk result (λ r.
        IsCautiousReading log.lines (deaf_entries (entries log.lines)) (Complete count) r.1) }
{
    let falls_silent = log.ends_silent();
    let listed = listed_uids(alloc, log.lines())?;
    let keys = SortedKeys::of(alloc, listed.as_slice())?;
    let hidden_log = log.into_hidden();
    let (weakest, log_parts) = weakest_by_keys(alloc, &hidden_log, log_parts, &keys)?;
    let hidden = reading_by_margin(count, weakest);
    if !falls_silent {
        let deaf = hidden;
        return Ok((hidden, deaf));
    }
    let (weakest, _) = weakest_by_keys(alloc, &hidden_log.into_deaf(), log_parts, &keys)?;
    let deaf = reading_by_margin(count, weakest);
    Ok((hidden, deaf))
}

/// What a reading of a log with a complete list tells, by its margin: a UID that isn't listed is
/// possible if it was overlooked nowhere.
fn reading_by_margin(count: u32, weakest: Weakest) -> CautiousReading
    ensures { (lines others : List LogLineValue)
        → AreHiddenOrDeaf (entries others) (entries lines) → IsVerdict lines (Complete count)
        → IsWeakest (entries others) weakest → IsToldBy lines others (Complete count) result }
{
    if weakest.margin == 0 {
        return CautiousReading {
            verdict: Verdict::Unsettled(weakest.mask),
            holds: false,
            weakest: None,
            settled: false,
        };
    }
    CautiousReading {
        verdict: Verdict::Complete { count },
        holds: true,
        weakest: Some(weakest),
        settled: true,
    }
}

/// What a reading of a log tells, where the log itself has this verdict and these certain UIDs. It
/// judges once.
fn judged_reading(
    alloc: Global,
    log: &Log,
    verdict: &Verdict,
    certain: &Option<SortedKeys>,
) -> Result<CautiousReading, AllocError>
    ensures { IfOk result (λ r. (lines : List LogLineValue)
        → AreCertainKeys lines certain.now → IsToldBy lines log.now.lines verdict.now r) }
{
    match facts_and_parts_of::<RangeSet>(alloc, log)? {
        Ok((facts, log_parts)) => reading_of_facts(alloc, log, verdict, certain, facts, log_parts),
        Err(line) => {
            let other = Verdict::Impossible { line };
            Ok(CautiousReading {
                verdict: other,
                holds: is_same(&other, verdict),
                weakest: None,
                settled: true,
            })
        }
    }
}

/// The same of a possible reading, by its facts.
fn reading_of_facts(
    alloc: Global,
    log: &Log,
    verdict: &Verdict,
    certain: &Option<SortedKeys>,
    facts: Facts<RangeSet>,
    log_parts: LogParts,
) -> Result<CautiousReading, AllocError>
    requires facts { AreFactsOf (entries log.now.lines) (is_open_in facts.«open») facts.met
        facts.certain }
    requires parts { AreLogParts (entries log.now.lines) log_parts }
    ensures { IfOk result (λ r. (lines : List LogLineValue)
        → AreCertainKeys lines certain.now → IsToldBy lines log.now.lines verdict.now r) }
{
    let settled = is_settled(alloc, &facts.open, certain)?;
    let other = verdict_of_facts(alloc, facts.open, &facts.certain, log)?;
    let (weakest, _) = weakest_if_complete(alloc, &other, log, log_parts)?;
    Ok(CautiousReading {
        verdict: other,
        holds: is_same(&other, verdict),
        weakest,
        settled,
    })
}

/// Whether two verdicts are the same.
fn is_same(verdict: &Verdict, other: &Verdict) -> bool
    ensures { (result ≡ true) ↔ (verdict.now ≡ other.now) }
{
    *verdict == *other
}

/// Whether each UID of a set has one of some keys; it has, if the keys are those of an impossible
/// log.
fn is_settled(
    alloc: Global,
    open: &RangeSet,
    certain: &Option<SortedKeys>,
) -> Result<bool, AllocError>
    ensures { IfOk result (λ settled. MatchOption certain.now (settled ≡ true) (λ keys.
        (settled ≡ true) ↔ SameUids (without_keys (is_open_in open.now) keys) (λ _. false))) }
{
    match certain {
        Some(keys) => has_none_besides(alloc, open, keys),
        None => Ok(true),
    }
}

/// Whether each UID of a set has one of some keys.
fn has_none_besides(alloc: Global, open: &RangeSet, keys: &SortedKeys) -> Result<bool, AllocError>
    ensures { IfOk result (λ none. (none ≡ true)
        ↔ SameUids (without_keys (is_open_in open.now) keys.now) (λ _. false)) }
{
    match open.besides(alloc, keys)?.widest() {
        Some(mask) => {
            // by its clause a proof sees that the mask has a UID
            let _uid = mask.least_uid();
            Ok(false)
        }
        None => Ok(true),
    }
}

/// The margin of a log with this verdict, if its list is complete, and its parts, to be used again.
pub(crate) fn weakest_if_complete(
    alloc: Global,
    verdict: &Verdict,
    log: &Log,
    log_parts: LogParts,
) -> Result<(Option<Weakest>, Option<LogParts>), AllocError>
    requires { AreLogParts (entries log.now.lines) log_parts }
    ensures weakest { IfOk result (λ r.
        IsWeakestIfComplete (entries log.now.lines) verdict.now r.0) }
    ensures parts { IfOk result (λ r. IfSome r.1 (AreLogParts (entries log.now.lines))) }
{
    match *verdict {
        Verdict::Complete { .. } => {
            let (weakest, log_parts) = weakest_by_parts(alloc, log, log_parts)?;
            Ok((Some(weakest), Some(log_parts)))
        }
        Verdict::Impossible { .. }
        | Verdict::Absent(_)
        | Verdict::Unlisted(_)
        | Verdict::Unsettled(_)
        | Verdict::Doubtful(_) => Ok((None, None)),
    }
}

/// The margin of a log, and the first mask of UIDs that have it, by its parts; with these.
fn weakest_by_parts(
    alloc: Global,
    log: &Log,
    log_parts: LogParts,
) -> Result<(Weakest, LogParts), AllocError>
    requires { AreLogParts (entries log.now.lines) log_parts }
    ensures weakest { IfOk result (λ r. IsWeakest (entries log.now.lines) r.0) }
    ensures parts { IfOk result (λ r. AreLogParts (entries log.now.lines) r.1) }
{
    let listed = listed_uids(alloc, log.lines())?;
    let keys = SortedKeys::of(alloc, listed.as_slice())?;
    weakest_by_keys(alloc, log, log_parts, &keys)
}
