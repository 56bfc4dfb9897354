//! A verdict with a small population that shows it.

ghost use Rattle.std.specs.Prelude.{◌≡◌, ◌++◌, IfOk, OnOk};
ghost use Rattle.std.specs.List.Sorted.{IsStrictlyIncreasing};
ghost use Rattle.vic_log.specs.Order.{entries};
ghost use Rattle.vic_verdict.specs.Facts.{AreFactsOf};
ghost use Rattle.vic_verdict.specs.Explained.{IsExplanation};
ghost use Rattle.vic_verdict.specs.inner.Chosen.{chosen, chosen_population};
ghost use Rattle.vic_verdict.specs.Rising.{SameMembers};

use crate::facts::{Facts, Met, facts_of};
use crate::judging::{Verdict, verdict_of_facts};
use std::alloc::{AllocError, Global};
use vic_frame::Uid;
use vic_log::Log;
use vic_tree::{OpenSet, RangeSet, RisingUids};
use vic_walk::Answering;

/// The verdict on a log, and a population that shows it.
#[derive(Drop)]
pub struct Explanation {
    pub verdict: Verdict,
    /// Tags that could have produced the log: without the UID that is absent or doubtful, with the
    /// one that is unlisted, or with one of the unsettled mask. In rising order, and at most the
    /// UIDs heard, plus two for each collision, one for each garbled slot, and one.
    /// `None` if the log is impossible or its list complete.
    pub population: Option<Vec<Uid>>,
}

/// The verdict of `judge` on a log, with a small population that shows it.
pub fn explain(alloc: Global, log: &Log) -> Result<Explanation, AllocError>
    ensures { IfOk result (IsExplanation log.now.lines) }
{
    explain_with::<RangeSet>(alloc, log)
}

/// `explain`, with the open UIDs kept in an `S`.
pub fn explain_with<S: OpenSet>(alloc: Global, log: &Log) -> Result<Explanation, AllocError>
    ensures { IfOk result (IsExplanation log.now.lines) }
{
    match facts_of::<S>(alloc, log)? {
        Ok(facts) => explain_facts(alloc, facts, log),
        Err(line) => Ok(Explanation {
            verdict: Verdict::Impossible { line },
            population: None,
        }),
    }
}

/// The verdict on a possible log with a population that shows it, from its facts.
fn explain_facts<S: OpenSet>(
    alloc: Global,
    facts: Facts<S>,
    log: &Log,
) -> Result<Explanation, AllocError>
    requires { AreFactsOf (entries log.now.lines) (S.is_open facts.«open») facts.met facts.certain }
    ensures { IfOk result (IsExplanation log.now.lines) }
{
    let Facts {
        open,
        mut met,
        certain,
    } = facts;
    let verdict = verdict_of_facts(alloc, open, &certain, log)?;
    let population = match verdict {
        Verdict::Impossible { .. } | Verdict::Complete { .. } => None,
        // each population lacks the absent UID, and has the unlisted one
        Verdict::Absent(_) | Verdict::Unlisted(_) => Some(choose(met, &None)?),
        Verdict::Unsettled(mask) => {
            // any possible UID may be added
            met.heard.push(mask.least_uid())?;
            Some(choose(met, &None)?)
        }
        Verdict::Doubtful(uid) => Some(choose(met, &Some(uid))?),
    };
    Ok(Explanation {
        verdict,
        population,
    })
}

/// The UIDs to be there, and of those that answer in each unread slot as many as it requires, the
/// one to avoid left out; in rising order.
fn choose(met: Met, avoid: &Option<Uid>) -> Result<Vec<Uid>, AllocError>
    ensures rising { IfOk result (λ v. IsStrictlyIncreasing v.items) }
    ensures members { IfOk result (λ v. SameMembers v.items (chosen_population avoid.now met)) }
{
    let Met {
        heard: mut uids,
        unread,
    } = met;
    for slot in &unread {
        add_chosen(&mut uids, slot, avoid)?;
    }
    Ok(RisingUids::of(uids).into_vec())
}

/// Adds as many UIDs as a slot requires, other than the one to avoid. That one isn't certain, so
/// there are enough without it.
fn add_chosen(uids: &mut Vec<Uid>, slot: &Answering, avoid: &Option<Uid>) -> Result<(), AllocError>
    ensures { OnOk result (uids.new.items ≡ uids.old.items ++ chosen avoid.now slot.now) }
{
    let mut left = slot.need;
    for uid in slot.uids.as_slice() {
        if left > 0 && *avoid != Some(*uid) {
            uids.push(*uid)?;
            left -= 1;
        }
    }
    Ok(())
}
