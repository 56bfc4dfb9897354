//! A guess at the lines of a conflict, none of which can be left out.

ghost use Rattle.std.specs.Prelude.{◌≤◌, IfSome, length};

use crate::effects::{Effect, effects_of};
use crate::waiting::Waiting;
use std::alloc::{AllocError, Global};
use vic_log::PackedLine;
use vic_walk::{Answering, LogLines, LogWalk, Parts, Span, open_answers, walk_log};

/// A guess at lines that contradict each other, in a log that became impossible with its last line:
/// that one, and as few of those before it as needed. Their numbers, in no order. The front page of
/// the crate has an example.
pub fn guess_conflict(alloc: Global, log: &LogLines) -> Result<Vec<u32>, AllocError> {
    let LogWalk {
        log_parts,
        open,
        ends,
        broken,
    } = walk_log(alloc, log)?;
    let lines = log.as_slice();
    let effects = effects_of(alloc, lines, &log_parts)?;
    let mut numbers = match broken {
        Some(_) => match contradicted_line(lines, &effects, &ends) {
            Some(line) => vec![in alloc; line]?,
            None => Vec::new(alloc),
        },
        None => {
            let found = open_answers(alloc, log, &log_parts, open)?;
            lines_of_lack(alloc, lines, &effects, &log_parts.parts, &found)?
        }
    };
    if let Some(last) = lines.last() {
        numbers.push(last.number())?;
    }
    Ok(numbers)
}

/// The line that the last one contradicts, unless its reply doesn't fit its own slot: the first
/// that rules out the UID that it heard; else the first reply of a UID that it rules out.
fn contradicted_line(lines: &[PackedLine], effects: &[Effect], ends: &[u32]) -> Option<u32> {
    let (mask, last_heard) = match *effects.last()? {
        Effect::Ruling { mask, heard, .. } | Effect::Captured { mask, heard, .. } => (mask, heard),
        Effect::Quiet { .. } | Effect::Wake | Effect::Unread { .. } => return None,
    };
    if lines.last()?.item().heard().is_some() {
        if !mask.has(last_heard) {
            return None;
        }
        let end = *ends.get(last_heard)? as usize;
        if end > 0 {
            return Some(lines.get(end - 1)?.number());
        }
    }
    for effect in effects {
        if let Effect::Ruling { line, mask, heard }
        | Effect::Captured { line, mask, heard } = *effect
        {
            // a part was heard, and the last line ends it
            if heard < mask.to && *ends.get(heard)? as usize == lines.len() {
                return Some(line);
            }
        }
    }
    None
}

/// The line of the first slot with too few UIDs left, and those that rule out the UIDs that could
/// have answered there.
fn lines_of_lack(
    alloc: Global,
    lines: &[PackedLine],
    effects: &[Effect],
    parts: &Parts,
    found: &[Answering],
) -> Result<Vec<u32>, AllocError> {
    for slot in found {
        if slot.uids.len() < slot.need {
            let mut numbers = needed_rulings(alloc, effects, parts, slot)?;
            if let Some(line) = lines.get(slot.at) {
                numbers.push(line.number())?;
            }
            return Ok(numbers);
        }
    }
    Ok(Vec::new(alloc))
}

/// The lines that are needed so that fewer UIDs are left for an unread slot than it needs. One is
/// left out if those kept before it, and all after it, rule out enough: if the UIDs for which it is
/// the last line, and which wait even so, are no more than may be left over (`spare`).
fn needed_rulings(
    alloc: Global,
    effects: &[Effect],
    parts: &Parts,
    slot: &Answering,
) -> Result<Vec<u32>, AllocError> {
    let mut kept = Vec::new(alloc);
    let Some((index, mask)) = find_unread(effects, slot.at) else {
        return Ok(kept);
    };
    let mut waiting = Waiting::new(alloc, parts.count(), mask, &effects[..index])?;
    let last_lines = waiting.last_lines(alloc, effects)?;
    let mut spare = spare_uids(parts, &waiting, &last_lines, mask, slot.need);
    let by_last_line = parts_by_last_line(alloc, &waiting, &last_lines, mask)?;
    let mut quiet = Vec::new(alloc);
    let mut next = 0;
    for effect in effects {
        match *effect {
            Effect::Quiet { part } => {
                waiting.silence(part);
                quiet.push(part)?;
            }
            Effect::Wake => {
                waiting.wake_all(&quiet);
                quiet.clear();
            }
            Effect::Captured { .. } | Effect::Unread { .. } => {}
            Effect::Ruling { line, mask, heard } => {
                let (left, after) = left_by(line, &by_last_line, next, parts, &waiting);
                next = after;
                if left <= spare {
                    spare -= left;
                } else {
                    kept.push(line)?;
                    waiting.rule_out(alloc, mask, heard)?;
                }
            }
        }
    }
    Ok(kept)
}

/// The effect of the unread slot at a position: its index, and the parts of the slot's mask.
fn find_unread(effects: &[Effect], wanted: usize) -> Option<(usize, Span)>
    ensures { IfSome result (λ r. r.0 ≤ length effects.now) }
{
    for (index, effect) in effects.iter().enumerate() {
        if let Effect::Unread { position, mask } = *effect {
            if position == wanted {
                return Some((index, mask));
            }
        }
    }
    None
}

/// How many UIDs may be left over of those that lines rule out, so that the slot still has fewer
/// than it needs: those that wait and that no line rules out count first.
fn spare_uids(
    parts: &Parts,
    waiting: &Waiting,
    last_lines: &[u32],
    mask: Span,
    need: usize,
) -> usize {
    let mut spare = need.saturating_sub(1);
    for part in mask.from..mask.to {
        if waiting.has(part) && last_line_of(last_lines, part) == 0 {
            spare = spare.saturating_sub(one_or_two(parts, part));
        }
    }
    spare
}

/// The parts that wait and that some line rules out, each behind the last line that does, in the
/// order of these lines.
fn parts_by_last_line(
    alloc: Global,
    waiting: &Waiting,
    last_lines: &[u32],
    mask: Span,
) -> Result<Vec<(u32, usize)>, AllocError> {
    let mut ordered = Vec::new(alloc);
    for part in mask.from..mask.to {
        let line = last_line_of(last_lines, part);
        if waiting.has(part) && line > 0 {
            ordered.push((line, part))?;
        }
    }
    ordered.sort_unstable();
    Ok(ordered)
}

/// The last line that rules out a part; 0 if none does.
fn last_line_of(last_lines: &[u32], part: usize) -> u32 {
    match last_lines.get(part) {
        Some(line) => *line,
        None => 0,
    }
}

/// How many UIDs are left over without a line: those for which it is the last one, and which still
/// wait. Their parts begin at the index `start`; the index behind them is returned as well.
fn left_by(
    line: u32,
    by_last_line: &[(u32, usize)],
    start: usize,
    parts: &Parts,
    waiting: &Waiting,
) -> (usize, usize) {
    let mut left: usize = 0;
    let mut next = start;
    while next < by_last_line.len() && by_last_line[next].0 == line {
        let part = by_last_line[next].1;
        if waiting.has(part) {
            left = left.saturating_add(one_or_two(parts, part));
        }
        next += 1;
    }
    (left, next)
}

/// How many UIDs a part has, if it has one; else two: no slot requires more.
fn one_or_two(parts: &Parts, part: usize) -> usize {
    if part < parts.count() && parts.end_key(part).saturating_sub(parts.first_key(part)) > 1 {
        2
    } else {
        1
    }
}
