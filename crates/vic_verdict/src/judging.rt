//! The verdict on a log.

ghost use Rattle.std.specs.Prelude.{◌≡◌, ℕ, IfOk, length};
ghost use Rattle.vic_log.specs.Order.{entries, listed};
ghost use Rattle.vic_log.specs.SecondVersion.{AreOfSecondVersion};
ghost use Rattle.vic_walk.specs.LogLines.{AreLogLines};
ghost use Rattle.vic_verdict.specs.Facts.{AreOpenAndCertain};
ghost use Rattle.vic_verdict.specs.Verdict.{IsVerdict, IsWhole, IsAllHeard};
ghost use Rattle.vic_verdict.specs.Versions.{IsWholeSecond, IsWholeThird};
ghost use Rattle.vic_verdict.specs.declared.judging.Verdict.TheVariants.{Complete};

use crate::differences::missing_from;
use crate::facts::{Facts, facts_of};
use crate::listed::{count_listed, listed_uids};
use std::alloc::{AllocError, Global};
use vic_frame::{Mask, Uid};
use vic_log::Log;
use vic_tree::outside::uids_outside;
use vic_tree::{OpenSet, RangeSet, RisingUids, SortedKeys};

/// What a log proves about its list of tags (profile): the first case that applies.
#[derive(Clone, Copy, Debug, PartialEq, Eq)]
pub enum Verdict {
    /// No population could have produced the lines up to this one, and it is the first such line.
    /// In all other cases the log is possible.
    Impossible { line: u32 },
    /// The least listed UID that isn't possible.
    Absent(Uid),
    /// The least certain UID that isn't listed.
    Unlisted(Uid),
    /// The first mask by length, then by value, of at most 56 bits, all of whose UIDs are possible
    /// and not listed.
    Unsettled(Mask),
    /// The least listed UID that isn't certain.
    Doubtful(Uid),
    /// The list is complete: each population that could have produced the log has exactly the
    /// listed UIDs, of which there are `count`.
    Complete { count: u32 },
}

/// The verdict on a log.
///
/// If it is `Complete`, some population could have produced the log, and every population that
/// could has exactly the listed UIDs (clause `whole`; clause `second` says the same in the words of
/// version 2, whose logs have field cycles and garbled slots, clause `third` in those of version
/// 3, whose logs have captured replies and unknown slots besides). If each listed UID of a possible
/// log was heard, and no other is possible, the verdict is `Complete` (clause `all_heard`).
pub fn judge(alloc: Global, log: &Log) -> Result<Verdict, AllocError>
    ensures verdict { IfOk result (λ v. IsVerdict log.now.lines v) }
    ensures whole { IfOk result (λ v. (count : ℕ) → v ≡ Complete count
        → IsWhole (entries log.now.lines)
        × (count ≡ length (listed (entries log.now.lines)))) }
    ensures second { IfOk result (λ v. (count : ℕ) → v ≡ Complete count
        → AreOfSecondVersion (entries log.now.lines)
        → IsWholeSecond (entries log.now.lines)) }
    ensures third { IfOk result (λ v. (count : ℕ) → v ≡ Complete count
        → IsWholeThird (entries log.now.lines)) }
    ensures all_heard { IfOk result (λ v. IsAllHeard (entries log.now.lines)
        → v ≡ Complete (length (listed (entries log.now.lines)))) }
{
    judge_with::<RangeSet>(alloc, log)
}

/// The same, with the open UIDs kept in an `S`.
pub fn judge_with<S: OpenSet>(alloc: Global, log: &Log) -> Result<Verdict, AllocError>
    ensures verdict { IfOk result (λ v. IsVerdict log.now.lines v) }
    ensures whole { IfOk result (λ v. (count : ℕ) → v ≡ Complete count
        → IsWhole (entries log.now.lines)
        × (count ≡ length (listed (entries log.now.lines)))) }
    ensures second { IfOk result (λ v. (count : ℕ) → v ≡ Complete count
        → AreOfSecondVersion (entries log.now.lines)
        → IsWholeSecond (entries log.now.lines)) }
    ensures third { IfOk result (λ v. (count : ℕ) → v ≡ Complete count
        → IsWholeThird (entries log.now.lines)) }
    ensures all_heard { IfOk result (λ v. IsAllHeard (entries log.now.lines)
        → v ≡ Complete (length (listed (entries log.now.lines)))) }
{
    judge_lines::<S>(alloc, log)
}

/// The verdict on the lines of a log, from which the other clauses follow. Clause `log` restates,
/// for proofs, what holds of every `Log`.
fn judge_lines<S: OpenSet>(alloc: Global, log: &Log) -> Result<Verdict, AllocError>
    ensures verdict { IfOk result (λ v. IsVerdict log.now.lines v) }
    ensures log { AreLogLines log.now.lines }
{
    match facts_of::<S>(alloc, log)? {
        Ok(Facts { open, certain, .. }) => verdict_of_facts(alloc, open, &certain, log),
        Err(line) => Ok(Verdict::Impossible { line }),
    }
}

/// The verdict on a possible log. Each kind of finding is looked for only if there is none of those
/// before; so nothing has to be subtracted, as `compare` does.
pub fn verdict_of_facts<S: OpenSet>(
    alloc: Global,
    set: S,
    certain: &RisingUids,
    log: &Log,
) -> Result<Verdict, AllocError>
    requires { AreOpenAndCertain (entries log.now.lines) (S.is_open set) certain.now }
    ensures { IfOk result (λ v. IsVerdict log.now.lines v) }
{
    let listed = listed_uids(alloc, log.lines())?;
    let listed_keys = SortedKeys::of(alloc, listed.as_slice())?;
    let absent = uids_outside(alloc, &set, &listed_keys)?;
    if let Some(uid) = absent.first() {
        return Ok(Verdict::Absent(uid));
    }
    let unlisted = missing_from(alloc, certain, &listed)?;
    if let Some(uid) = unlisted.first() {
        return Ok(Verdict::Unlisted(uid));
    }
    // all certain UIDs are listed by now, so the mask needn't avoid them
    if let Some(mask) = set.widest_besides(&listed_keys)? {
        return Ok(Verdict::Unsettled(mask));
    }
    let doubtful = missing_from(alloc, &listed, certain)?;
    if let Some(uid) = doubtful.first() {
        return Ok(Verdict::Doubtful(uid));
    }
    Ok(Verdict::Complete {
        count: count_listed(log),
    })
}
