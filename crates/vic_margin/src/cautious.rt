//! What a log leaves open beside itself if it is read more cautiously.

ghost use Rattle.std.specs.Prelude.{◌≡◌, ℕ, IfOk, List, false, length, slice_index};
ghost use Rattle.vic_frame.specs.Uids.{has};
ghost use Rattle.vic_log.specs.declared.entry.Entry.{Entry as EntryValue};
ghost use Rattle.vic_log.specs.Deaf.{hidden_entries};
ghost use Rattle.vic_log.specs.Order.{entries, listed, numbers};
ghost use Rattle.vic_log.specs.Slots.{is_open, slots_before, slots_of};
ghost use Rattle.vic_tree.specs.Keys.{AreKeysOf};
ghost use Rattle.vic_tree.specs.OpenSet.{SameUids};
ghost use Rattle.vic_tree.specs.Ranges.{in_ranges, is_open_in};
ghost use Rattle.vic_verdict.specs.Possible.{IsPossible};
ghost use Rattle.vic_verdict.specs.Verdict.{IsVerdict};
ghost use Rattle.vic_verdict.specs.declared.judging.Verdict.TheVariants.{Complete};
ghost use Rattle.vic_walk.specs.Borders.{part_count};
ghost use Rattle.vic_walk.specs.Walk.{AreEndsAt};
ghost use Rattle.vic_margin.specs.Readings.{AreReadings, AreReadingsIfComplete};
ghost use Rattle.vic_margin.specs.inner.Opened.{IsBehindAnswers, IsWidestOpened, end_before, is_opened};

use crate::answer::Readings;
use std::alloc::{AllocError, Global};
use vic_frame::Mask;
use vic_log::Log;
use vic_tree::{KeyRange, OpenSet, RangeSet, SortedKeys};
use vic_verdict::Verdict;
use vic_walk::{LogLines, LogWalk, Parts, closed_keys, walk_log};

/// What the hidden and the deaf reading of a possible log leave open beside the log itself, whose
/// open UIDs are handed in as the ranges of their keys. It walks over the hidden log, unless
/// neither reading can differ from the log.
pub fn readings(alloc: Global, log: Log, ranges: &[KeyRange]) -> Result<Readings, AllocError>
    requires possible { IsPossible (entries log.lines) }
    requires open { SameUids (is_open_in ranges.now) (is_open (slots_of (entries log.lines))) }
    ensures { IfOk result (AreReadings (entries log.lines)) }
{
    let (_hidden, readings) = readings_and_hidden(alloc, log, ranges)?;
    Ok(readings)
}

/// `readings`, and the hidden log: the same lines, with `H` for `R`.
fn readings_and_hidden(
    alloc: Global,
    log: Log,
    ranges: &[KeyRange],
) -> Result<(Log, Readings), AllocError>
    requires possible { IsPossible (entries log.lines) }
    requires open { SameUids (is_open_in ranges.now) (is_open (slots_of (entries log.lines))) }
    ensures entries { IfOk result (λ r. entries r.0.lines ≡ hidden_entries (entries log.lines)) }
    ensures numbers { IfOk result (λ r. numbers r.0.lines ≡ numbers log.lines) }
    ensures readings { IfOk result (λ r. AreReadings (entries log.lines) r.1) }
{
    let hides = log.has_heard_alone();
    let falls_silent = log.ends_silent();
    if !hides && !falls_silent {
        let readings = Readings {
            hidden: None,
            deaf: None,
        };
        return Ok((log.into_hidden(), readings));
    }
    let answered = behind_answers(&LogLines::of(&log));
    let hidden_log = log.into_hidden();
    let LogWalk {
        log_parts,
        mut ends,
        ..
    } = walk_log(alloc, &LogLines::of(&hidden_log))?;
    let hidden = opened_if(alloc, hides, &log_parts.parts, &ends, ranges)?;
    if !falls_silent {
        let deaf = hidden;
        return Ok((hidden_log, Readings { hidden, deaf }));
    }
    // what the deaf reading leaves open is what was open behind the last answer
    reopen(&mut ends, answered);
    let deaf = opened(alloc, &log_parts.parts, &ends, ranges)?;
    Ok((hidden_log, Readings { hidden, deaf }))
}

/// The position behind the last answer; 0 if there is none.
fn behind_answers(lines: &LogLines) -> usize
    ensures { IsBehindAnswers (entries lines.now) result }
{
    let mut behind = lines.len();
    while behind > 0 && !lines.entry(behind - 1).is_answer() {
        behind -= 1;
    }
    behind
}

/// Makes 0 each end of a part, the number of entries up to the one that ruled it out, that is
/// behind this position: as if no entry from there on ruled anything out.
fn reopen(ends: &mut Vec<u32>, position: usize)
    ensures size { length ends.new.items ≡ length ends.old.items }
    ensures each { (p : ℕ) → slice_index ends.new.items p
        ≡ end_before position (slice_index ends.old.items p) }
{
    for index in 0..ends.len() {
        if ends[index] as usize > position {
            ends[index] = 0;
        }
    }
}

/// `opened`, if the reading differs from the log; otherwise no mask, without looking: all UIDs that
/// are open have keys in the ranges.
fn opened_if(
    alloc: Global,
    differs: bool,
    parts: &Parts,
    ends: &[u32],
    ranges: &[KeyRange],
) -> Result<Option<Mask>, AllocError>
    requires { length ends.now ≡ part_count parts.now }
    ensures { IfOk result (λ mask. (es : List EntryValue) (i : ℕ)
        → AreEndsAt parts.now es i ends.now
        → (differs ≡ false → SameUids (is_open_in ranges.now) (is_open (slots_before es i)))
        → IsWidestOpened (is_opened es i ranges.now) mask) }
{
    if differs {
        opened(alloc, parts, ends, ranges)
    } else {
        Ok(None)
    }
}

/// The first mask of UIDs that are open by the ends of their parts, and have no key in some ranges.
fn opened(
    alloc: Global,
    parts: &Parts,
    ends: &[u32],
    ranges: &[KeyRange],
) -> Result<Option<Mask>, AllocError>
    requires { length ends.now ≡ part_count parts.now }
    ensures { IfOk result (λ mask. (es : List EntryValue) (i : ℕ)
        → AreEndsAt parts.now es i ends.now
        → IsWidestOpened (is_opened es i ranges.now) mask) }
{
    let mut closed = closed_keys(alloc, parts, ends)?;
    closed.extend_from_slice(ranges)?;
    let set = RangeSet::without(alloc, closed)?;
    Ok(set.widest())
}

/// What the readings of a log with this verdict leave unsettled, if its list is complete; the keys
/// are those of the listed UIDs.
pub(crate) fn readings_if_complete(
    alloc: Global,
    verdict: &Verdict,
    log: Log,
    keys: &SortedKeys,
) -> Result<Option<Readings>, AllocError>
    requires verdict { IsVerdict log.lines verdict.now }
    requires keys { AreKeysOf keys.now (listed (entries log.lines)) }
    ensures { IfOk result (AreReadingsIfComplete (entries log.lines) verdict.now) }
{
    match *verdict {
        Verdict::Complete { .. } => {
            let (_hidden, readings) = readings_of_complete(alloc, log, keys)?;
            Ok(Some(readings))
        }
        Verdict::Impossible { .. }
        | Verdict::Absent(_)
        | Verdict::Unlisted(_)
        | Verdict::Unsettled(_)
        | Verdict::Doubtful(_) => Ok(None),
    }
}

/// `readings`, and the hidden log, of one whose list is complete: its open UIDs are those that it
/// lists, whose keys are handed in.
pub fn readings_of_complete(
    alloc: Global,
    log: Log,
    keys: &SortedKeys,
) -> Result<(Log, Readings), AllocError>
    requires verdict { (count : ℕ) × IsVerdict log.lines (Complete count) }
    requires keys { AreKeysOf keys.now (listed (entries log.lines)) }
    ensures entries { IfOk result (λ r. entries r.0.lines ≡ hidden_entries (entries log.lines)) }
    ensures numbers { IfOk result (λ r. numbers r.0.lines ≡ numbers log.lines) }
    ensures readings { IfOk result (λ r. AreReadings (entries log.lines) r.1) }
{
    let ranges = ranges_of(alloc, keys)?;
    readings_and_hidden(alloc, log, &ranges)
}

/// A range for each key.
fn ranges_of(alloc: Global, keys: &SortedKeys) -> Result<Vec<KeyRange>, AllocError>
    ensures { IfOk result (λ ranges. (k : ℕ) → in_ranges ranges.items k ≡ has keys.now k) }
{
    let mut ranges = Vec::new(alloc);
    for key in keys.as_slice() {
        ranges.push(KeyRange::new(*key, *key))?;
    }
    Ok(ranges)
}
