//! The plain reading of a log: its report, what it says of its field, and its margin.

ghost use Rattle.std.specs.Prelude.{◌≡◌, ◌≤◌, [], IfOk, IfSome, List, map};
ghost use Rattle.vic_log.specs.Order.{entries};
ghost use Rattle.vic_tree.specs.Keys.{AreKeysOf};
ghost use Rattle.vic_tree.specs.Ranges.{is_open_in};
ghost use Rattle.vic_walk.specs.Steps.{AreLogParts};
ghost use Rattle.vic_verdict.specs.Facts.{AreFactsOf};
ghost use Rattle.vic_report.specs.Reports.{IsReport, verdict_of};
ghost use Rattle.vic_object.specs.Told as spec;
ghost use Rattle.vic_object.specs.Asking.{asks_for};
ghost use Rattle.vic_object.specs.inner.Certain.{AreCertainKeys};
ghost use Rattle.vic_object.specs.inner.Collided.{AreCollided};
ghost use Rattle.vic_log.specs.declared.entry.Entry.{Entry as EntryValue};

use crate::asking::{Collisions, push_requests};
use crate::cautious::weakest_if_complete;
use crate::finding::MOST_TOLD;
use crate::told::{AskedMask, FieldTold};
use std::alloc::{AllocError, Global};
use vic_frame::{MAX_MASK_LEN_OF_SIXTEEN, Mask, Request};
use vic_log::{Entry, Log, PackedLine};
use vic_margin::Weakest;
use vic_report::{LogReport, find_conflict, report_of_facts};
use vic_tree::{CountedMasks, RangeSet, SortedKeys};
use vic_verdict::{Facts, facts_and_parts_of};
use vic_walk::LogParts;

/// What a log says as it stands: the report on it, what it says of its field, the keys of its
/// certain UIDs, if it is possible, and its margin and its parts, if its list is complete.
#[derive(Drop)]
pub(crate) struct PlainReading {
    pub report: LogReport,
    pub field: FieldTold,
    pub certain_keys: Option<SortedKeys>,
    pub weakest: Option<Weakest>,
    pub log_parts: Option<LogParts>,
}

/// The plain reading of a log. It judges once, and where the log is impossible once more, to try
/// the lines of the conflict.
pub(crate) fn plain_reading(alloc: Global, log: &Log) -> Result<PlainReading, AllocError>
    ensures report { IfOk result (λ plain. IsReport log.now.lines plain.report) }
    ensures field { IfOk result (λ plain. spec.IsFieldTold log.now.lines plain.field) }
    ensures certain_keys { IfOk result (λ plain. AreCertainKeys log.now.lines plain.certain_keys) }
    ensures weakest { IfOk result (λ plain. spec.IsWeakestIfComplete (entries log.now.lines)
        (verdict_of plain.report) plain.weakest) }
    ensures parts { IfOk result (λ plain. IfSome plain.log_parts
        (AreLogParts (entries log.now.lines))) }
{
    match facts_and_parts_of::<RangeSet>(alloc, log)? {
        Ok((facts, log_parts)) => plain_of_facts(alloc, log, facts, log_parts),
        Err(line) => {
            let conflict = find_conflict(alloc, log, line)?;
            Ok(PlainReading {
                report: LogReport::Impossible(conflict),
                field: no_field(alloc),
                certain_keys: None,
                weakest: None,
                log_parts: None,
            })
        }
    }
}

/// What an impossible log says of its field.
fn no_field(alloc: Global) -> FieldTold
    ensures certain { result.certain.items ≡ [] }
    ensures masks { result.masks ≡ 0 }
    ensures uids { result.uids ≡ 0 }
    ensures asked { result.asked.items ≡ [] }
{
    FieldTold {
        certain: Vec::new(alloc),
        masks: 0,
        uids: 0,
        asked: Vec::new(alloc),
    }
}

/// The plain reading of a possible log, by its facts.
fn plain_of_facts(
    alloc: Global,
    log: &Log,
    facts: Facts<RangeSet>,
    log_parts: LogParts,
) -> Result<PlainReading, AllocError>
    requires facts { AreFactsOf (entries log.now.lines) (is_open_in facts.«open») facts.met
        facts.certain }
    requires parts { AreLogParts (entries log.now.lines) log_parts }
    ensures report { IfOk result (λ plain. IsReport log.now.lines plain.report) }
    ensures field { IfOk result (λ plain. spec.IsFieldTold log.now.lines plain.field) }
    ensures certain_keys { IfOk result (λ plain. AreCertainKeys log.now.lines plain.certain_keys) }
    ensures weakest { IfOk result (λ plain. spec.IsWeakestIfComplete (entries log.now.lines)
        (verdict_of plain.report) plain.weakest) }
    ensures parts { IfOk result (λ plain. IfSome plain.log_parts
        (AreLogParts (entries log.now.lines))) }
{
    let certain_keys = SortedKeys::of(alloc, facts.certain.as_slice())?;
    let field = field_told(alloc, log, &facts, &certain_keys)?;
    let report = report_of_facts(alloc, facts, log)?;
    let (weakest, log_parts) = weakest_if_complete(alloc, &report.verdict(), log, log_parts)?;
    Ok(PlainReading {
        report,
        field,
        certain_keys: Some(certain_keys),
        weakest,
        log_parts,
    })
}

/// What a possible log says of its field, by its facts, and the keys of its certain UIDs.
fn field_told(
    alloc: Global,
    log: &Log,
    facts: &Facts<RangeSet>,
    certain_keys: &SortedKeys,
) -> Result<FieldTold, AllocError>
    requires facts { AreFactsOf (entries log.now.lines) (is_open_in facts.now.«open»)
        facts.now.met facts.now.certain }
    requires certain_keys { AreKeysOf certain_keys.now facts.now.certain }
    ensures { IfOk result (spec.IsFieldTold log.now.lines) }
{
    let CountedMasks { masks, count, uids } = facts
        .open
        .counted_masks_besides(alloc, certain_keys, MOST_TOLD)?;
    let collided = Collisions::of(alloc, log)?;
    Ok(FieldTold {
        certain: Vec::from_slice(alloc, facts.certain.as_slice())?,
        masks: count,
        uids,
        asked: asked_masks(alloc, &collided, link_of(log.lines()), &masks)?,
    })
}

/// The link of the first request of a log.
fn link_of(lines: &[PackedLine]) -> u8
    ensures link { result ≡ spec.link_of (entries lines.now) }
    ensures two_bits { result ≤ 3 }
{
    for line in lines {
        if let Entry::Sent(request) = line.item() {
            return link_in(&request);
        }
    }
    2
}

/// The link of a request.
fn link_in(request: &Request) -> u8
    ensures link { result ≡ spec.link_in request.now }
    ensures two_bits { result ≤ 3 }
{
    match *request {
        Request::Inventory { link, .. } | Request::StayQuiet { link, .. } => link % 4,
    }
}

/// Open masks, each with what asks for it.
fn asked_masks(
    alloc: Global,
    collided: &Collisions,
    link: u8,
    masks: &[Mask],
) -> Result<Vec<AskedMask>, AllocError>
    requires { link ≤ 3 }
    ensures masks { IfOk result (λ asked. map (λ a. a.mask) asked.items ≡ masks.now) }
    ensures requests { IfOk result (λ asked. (es : List EntryValue)
        → AreCollided es collided.now
        → map (λ a. a.requests.items) asked.items ≡ map (asks_for es link) masks.now) }
{
    let mut asked = Vec::new(alloc);
    for mask in masks {
        asked.push(asked_mask(alloc, collided, link, *mask)?)?;
    }
    Ok(asked)
}

/// An open mask with what asks for it.
fn asked_mask(
    alloc: Global,
    collided: &Collisions,
    link: u8,
    mask: Mask,
) -> Result<AskedMask, AllocError>
    requires { link ≤ 3 }
    ensures mask { IfOk result (λ a. a.mask ≡ mask) }
    ensures requests { IfOk result (λ a. (es : List EntryValue) → AreCollided es collided.now
        → a.requests.items ≡ asks_for es link mask) }
{
    let mut requests = Vec::new(alloc);
    let times = MAX_MASK_LEN_OF_SIXTEEN.saturating_sub(mask.len()) / 4;
    push_requests(&mut requests, collided, times, link, mask)?;
    Ok(AskedMask { mask, requests })
}
