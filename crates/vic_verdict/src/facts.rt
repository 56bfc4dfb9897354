//! What a log tells of the tags, if it is possible; else its first impossible line.

ghost use Rattle.std.specs.Prelude.{IfOk, MatchResult, ◌≡◌, ◌↔◌, ℕ, List, ⊤, true};
ghost use Rattle.std.specs.List.{All};
ghost use Rattle.vic_frame.specs.Uids.{has};
ghost use Rattle.vic_log.specs.Order.{entries};
ghost use Rattle.vic_log.specs.declared.entry.Entry.{Entry as EntryValue};
ghost use Rattle.vic_log.specs.Slots.{slots_of, is_open, IsForcedBy};
ghost use Rattle.vic_tree.specs.OpenSet.{SameUids};
ghost use Rattle.vic_walk.specs.LogLines.{AreLogLines};
ghost use Rattle.vic_walk.specs.Steps.{AreLogParts};
ghost use Rattle.vic_verdict.specs.Facts.{AreFactsOf};
ghost use Rattle.vic_verdict.specs.Possible.{IsPossible};
ghost use Rattle.vic_verdict.specs.Needs.{HasEnough, IsMet};
ghost use Rattle.vic_verdict.specs.Rising.{IsListOf};
ghost use Rattle.vic_verdict.specs.Verdict.{IsHeard, IsVerdict};
ghost use Rattle.vic_verdict.specs.declared.judging.Verdict.TheVariants.{Impossible};
ghost use Rattle.vic_verdict.specs.inner.Impossible.{IsFirstImpossible};

use std::alloc::{AllocError, Global};
use vic_frame::Uid;
use vic_log::Log;
use vic_tree::{OpenSet, RisingUids};
use vic_walk::{
    Answering, LogLines, LogParts, LogWalk, closed_keys, first_lack, list_start, open_answers,
    walk_log,
};

/// What a possible log tells of the tags: which may be there, which must, and which meet its slots.
#[derive(Drop)]
pub struct Facts<S: OpenSet> {
    /// The UIDs that no slot rules out.
    pub open: S,
    /// What meets the slots in which tags answered.
    pub met: Met,
    /// The UIDs that are in every population that could have produced the log.
    pub certain: RisingUids,
}

/// The UIDs that meet the slots of a possible log.
#[derive(Drop)]
pub struct Met {
    /// The UIDs that were heard, or are to be there for another reason, in any order, also several
    /// times.
    pub heard: Vec<Uid>,
    /// Of each unread slot, open UIDs that answer there: three, or all if there are fewer.
    pub unread: Vec<Answering>,
}

/// What a log tells, if it is possible; else the number of its first impossible line. Clause `log`
/// restates, for proofs, what holds of every `Log`.
pub fn facts_of<S: OpenSet>(alloc: Global, log: &Log) -> Result<Result<Facts<S>, u32>, AllocError>
    ensures facts { IfOk result (λ r. MatchResult r
        (λ f. AreFactsOf (entries log.now.lines) (S.is_open f.«open») f.met f.certain)
        (λ n. IsVerdict log.now.lines (Impossible n))) }
    ensures log { AreLogLines log.now.lines }
{
    Ok(facts_and_parts_of::<S>(alloc, log)?.map(|(facts, _)| facts))
}

/// `facts_of`, with the parts of the keys that the walk made; clause `log` as there.
pub fn facts_and_parts_of<S: OpenSet>(
    alloc: Global,
    log: &Log,
) -> Result<Result<(Facts<S>, LogParts), u32>, AllocError>
    ensures facts { IfOk result (λ r. MatchResult r
        (λ p. AreFactsOf (entries log.now.lines) (S.is_open p.0.«open») p.0.met p.0.certain)
        (λ n. IsVerdict log.now.lines (Impossible n))) }
    ensures parts { IfOk result (λ r. MatchResult r
        (λ p. AreLogParts (entries log.now.lines) p.1) (λ _. ⊤)) }
    ensures log { AreLogLines log.now.lines }
{
    match open_and_met::<S>(alloc, &LogLines::of(log))? {
        Ok((open, met, log_parts)) => {
            let certain = certain_uids(alloc, &met)?;
            Ok(Ok((Facts { open, met, certain }, log_parts)))
        }
        Err(at) => Ok(Err(log.lines()[at].number())),
    }
}

/// The UIDs that the slots of a possible log force: those that were heard, and those of each unread
/// slot that requires all who answer there.
fn certain_uids(alloc: Global, met: &Met) -> Result<RisingUids, AllocError>
    ensures { IfOk result (λ v. (es : List EntryValue) → IsMet es met.now
        → IsListOf (IsForcedBy (is_open (slots_of es)) (slots_of es)) v) }
{
    let mut certain = Vec::from_slice(alloc, &met.heard)?;
    for slot in &met.unread {
        if slot.uids.len() == slot.need {
            certain.extend_from_slice(&slot.uids)?;
        }
    }
    Ok(RisingUids::of(certain))
}

/// If a log is possible, the UIDs that it leaves open, what meets its slots, and the parts of the
/// keys; else the position of its first impossible line.
fn open_and_met<S: OpenSet>(
    alloc: Global,
    lines: &LogLines,
) -> Result<Result<(S, Met, LogParts), usize>, AllocError>
    ensures facts { IfOk result (λ r. MatchResult r
        (λ p. IsPossible (entries lines.now)
        × SameUids (S.is_open p.0) (is_open (slots_of (entries lines.now)))
        × IsMet (entries lines.now) p.1)
        (IsFirstImpossible (entries lines.now))) }
    ensures parts { IfOk result (λ r. MatchResult r
        (λ p. AreLogParts (entries lines.now) p.2) (λ _. ⊤)) }
{
    let LogWalk {
        log_parts,
        open: open_parts,
        ends,
        broken,
    } = walk_log(alloc, lines)?;
    if let Some(at) = broken {
        // the replies aren't borne out at `at`; but before that line an unread slot may already
        // lack open UIDs: `first_lack` returns the position of the first entry after which one
        // does, or `at`
        return Ok(Err(first_lack(alloc, lines, &log_parts, &ends, at)?));
    }
    let closed = closed_keys(alloc, &log_parts.parts, &ends)?;
    let open = S::without(alloc, closed)?;
    let unread = open_answers(alloc, lines, &log_parts, open_parts)?;
    if !are_met(&unread) {
        // after all lines an unread slot lacks open UIDs: `first_lack` returns the position of the
        // first entry after which one does
        return Ok(Err(first_lack(alloc, lines, &log_parts, &ends, lines.len())?));
    }
    let heard = heard_uids(alloc, lines)?;
    Ok(Ok((open, Met { heard, unread }, log_parts)))
}

/// Whether a log is possible: whether some population could have produced it.
pub fn is_possible(alloc: Global, lines: &LogLines) -> Result<bool, AllocError>
    ensures { IfOk result (λ b. (b ≡ true) ↔ IsPossible (entries lines.now)) }
{
    let LogWalk {
        log_parts,
        open,
        broken,
        ..
    } = walk_log(alloc, lines)?;
    if broken.is_some() {
        return Ok(false);
    }
    let unread = open_answers(alloc, lines, &log_parts, open)?;
    Ok(are_met(&unread))
}

/// Whether in each unread slot as many UIDs answer as it requires.
fn are_met(unread: &[Answering]) -> bool
    ensures { (result ≡ true) ↔ All HasEnough unread.now }
{
    unread.iter().all(|slot| slot.need <= slot.uids.len())
}

/// The UIDs heard in a log, one for each reply. No reply comes after the list starts.
fn heard_uids(alloc: Global, lines: &LogLines) -> Result<Vec<Uid>, AllocError>
    ensures { IfOk result (λ v. (u : ℕ)
        → (has v.items u ≡ true) ↔ IsHeard (entries lines.now) u) }
{
    let mut heard = Vec::new(alloc);
    for index in 0..list_start(lines) {
        if let Some(uid) = lines.entry(index).heard() {
            heard.push(uid)?;
        }
    }
    Ok(heard)
}
