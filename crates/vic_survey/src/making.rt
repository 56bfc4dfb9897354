//! The survey of a log.

ghost use Rattle.std.specs.Prelude.{◌≡◌, ◌≢◌, ◌↔◌, ℕ, ◌<◌, true, IfOk, List, get_or, length};
ghost use Rattle.std.specs.List.{AllPairs, Contains};
ghost use Rattle.vic_frame.specs.declared.fault.FrameFault.TheVariants.{NotVicinity};
ghost use Rattle.vic_frame.specs.Masks.{BitMask};
ghost use Rattle.vic_frame.specs.Uids.{has};
ghost use Rattle.vic_log.specs.Names.{line_fault_name};
ghost use Rattle.vic_log.specs.Order.{entries};
ghost use Rattle.vic_log.specs.declared.entry.Entry.{Entry as EntryValue};
ghost use Rattle.vic_log.specs.declared.fault.LineFault.TheVariants.{Frame};
ghost use Rattle.vic_tree.specs.OpenMasks.{AreAll, ComesBefore, IsOpenMask};
ghost use Rattle.vic_tree.specs.Ranges.{is_open_in};
ghost use Rattle.vic_walk.specs.Steps.{AreLogParts};
ghost use Rattle.vic_verdict.specs.Facts.{AreFactsOf};
ghost use Rattle.vic_verdict.specs.Verdict.{IsVerdict};
ghost use Rattle.vic_verdict.specs.declared.judging.Verdict.TheVariants.{Impossible};
ghost use Rattle.vic_survey.specs.Making.{AreOpenMasksOf, IsFieldOf, AreFieldFactsOf};
ghost use Rattle.vic_survey.specs.Parts.{AreRisingMasks};
ghost use Rattle.vic_survey.specs.Surveys.{IsFieldInRange, AreFactsInRange};
ghost use Rattle.vic_survey.specs.inner.Kept.{AreKeptOf};

use crate::name::Name;
use crate::rising::{CertainUids, RisingMasks, comes_before};
use crate::survey::{FieldFacts, Survey, SurveyedField};
use std::alloc::{AllocError, Global};
use vic_frame::{FrameFault, Mask, Uid};
use vic_log::{LineFault, Log, LogFault, read_log};
use vic_margin::{Readings, Weakest, readings, weakest_besides};
use vic_report::lines_of_certain;
use vic_tree::{OpenSet, RangeSet, SortedKeys};
use vic_verdict::{Facts, facts_and_parts_of};
use vic_walk::LogParts;

impl Survey {
    /// The survey of the text of a log, under a name.
    pub fn of(alloc: Global, name: Name, text: &[u8]) -> Result<Survey, AllocError>
        ensures name { IfOk result (λ s. s.name ≡ name) }
        ensures field { IfOk result (λ s. IsFieldOf text.now s.field) }
    {
        let field = field_of(alloc, text)?;
        Ok(Survey::new(name, field))
    }
}

/// What the text of a log says.
fn field_of(alloc: Global, text: &[u8]) -> Result<SurveyedField, AllocError>
    ensures field { IfOk result (IsFieldOf text.now) }
    ensures valid { IfOk result IsFieldInRange }
{
    let log = match read_log(alloc, text) {
        Ok(log) => log,
        Err(LogFault::Line { line, fault }) => {
            return Ok(SurveyedField::Refused {
                line,
                fault: named_once(fault),
            });
        }
        Err(LogFault::Memory) => return Err(AllocError),
        Err(LogFault::Read | LogFault::Spent) => unreachable!(),
    };
    match facts_and_parts_of::<RangeSet>(alloc, &log)? {
        Ok((facts, log_parts)) => Ok(SurveyedField::Possible(field_facts(
            alloc, log, facts, log_parts,
        )?)),
        Err(line) => {
            // by its clause `log` a proof sees that the number is that of a line
            let _lines = log.lines();
            Ok(SurveyedField::Impossible { line })
        }
    }
}

/// The fault of a line, where it is one of a frame that has the same name.
fn named_once(fault: LineFault) -> LineFault
    ensures name { line_fault_name fault ≡ line_fault_name result }
    ensures once { result ≢ Frame NotVicinity }
{
    match fault {
        LineFault::Frame(FrameFault::NotVicinity) => LineFault::NotVicinity,
        fault => fault,
    }
}

/// What a possible log says.
fn field_facts(
    alloc: Global,
    log: Log,
    facts: Facts<RangeSet>,
    log_parts: LogParts,
) -> Result<FieldFacts, AllocError>
    requires facts { AreFactsOf (entries log.lines) (is_open_in facts.«open») facts.met
        facts.certain }
    requires parts { AreLogParts (entries log.lines) log_parts }
    ensures told { IfOk result (AreFieldFactsOf log.lines) }
    ensures valid { IfOk result AreFactsInRange }
{
    let shown = lines_of_certain(alloc, log.lines(), &facts.met, &facts.certain)?;
    let certain = CertainUids::of(shown);
    let open = open_masks(alloc, &facts)?;
    let answers = log.answers();
    let Weakest { margin, mask } = weakest_besides(
        alloc,
        &log,
        log_parts,
        facts.certain.as_slice(),
    )?;
    // by its clause `masks` a proof sees that they are in order
    let _masks = open.as_slice();
    let Readings { hidden, deaf } = readings(alloc, log, facts.open.ranges())?;
    Ok(FieldFacts {
        answers,
        certain,
        open,
        margin,
        weakest: mask,
        hidden,
        deaf,
    })
}

/// The open masks of the UIDs that a log leaves open, without those all of whose UIDs are certain.
fn open_masks(alloc: Global, facts: &Facts<RangeSet>) -> Result<RisingMasks, AllocError>
    ensures { IfOk result (λ ms. (es : List EntryValue) → AreFactsOf es
        (is_open_in facts.now.«open») facts.now.met facts.now.certain → AreOpenMasksOf es ms) }
{
    let masks = facts
        .open
        .all_open_masks_besides(alloc, &SortedKeys::none(alloc))?;
    let certain = masks_among(alloc, facts.certain.as_slice())?;
    masks_without(alloc, masks, &certain)
}

/// The masks all of whose UIDs are among some, and that aren't half of such a mask. An open mask
/// all of whose UIDs are certain is such a mask of the certain ones.
fn masks_among(alloc: Global, uids: &[Uid]) -> Result<Vec<Mask>, AllocError>
    ensures { IfOk result (λ masks. AreAll (IsOpenMask (has uids.now)) masks.items) }
{
    let keys = SortedKeys::of(alloc, uids)?;
    let others = RangeSet::everything(alloc)?.besides(alloc, &keys)?;
    let set = RangeSet::without(alloc, Vec::from_slice(alloc, others.ranges())?)?;
    set.all_open_masks_besides(alloc, &SortedKeys::none(alloc))
}

/// Masks without others, both in order.
fn masks_without(
    alloc: Global,
    masks: Vec<Mask>,
    others: &[Mask],
) -> Result<RisingMasks, AllocError>
    requires masks { AreRisingMasks masks.items }
    requires others { AllPairs ComesBefore others.now }
    ensures { IfOk result (λ ms. AreKeptOf (λ m. ¬ (Contains others.now m)) masks.items ms) }
{
    if others.is_empty() {
        return Ok(RisingMasks::of(masks));
    }
    let mut kept = Vec::new(alloc);
    let mut ahead = others;
    for mask in &masks {
        ahead = from_mask(ahead, mask);
        if !is_first(ahead, mask) {
            kept.push(*mask)?;
        }
    }
    Ok(RisingMasks::of(kept))
}

/// What is left of masks in order without those that come before a mask.
fn from_mask<'a>(masks: &'a [Mask], mask: &Mask) -> &'a [Mask]
    requires { AllPairs ComesBefore masks.now }
    ensures rising { AllPairs ComesBefore result.now }
    ensures first { (d : BitMask) → 0 < length result.now
        → ¬ (ComesBefore (get_or result.now 0 d) mask.now) }
    ensures same { (m : BitMask) → ¬ (ComesBefore m mask.now)
        → Contains result.now m ↔ Contains masks.now m }
{
    let mut ahead = masks;
    while let Some((first, others)) = ahead.split_first() {
        if !comes_before(first, mask) {
            return ahead;
        }
        ahead = others;
    }
    ahead
}

/// Whether a mask is the first of some in order, none of which comes before it.
fn is_first(masks: &[Mask], mask: &Mask) -> bool
    requires rising { AllPairs ComesBefore masks.now }
    requires first { (d : BitMask) → 0 < length masks.now
        → ¬ (ComesBefore (get_or masks.now 0 d) mask.now) }
    ensures { (result ≡ true) ↔ Contains masks.now mask.now }
{
    match masks.split_first() {
        Some((first, _)) => first == mask,
        None => false,
    }
}
