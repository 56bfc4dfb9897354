//! Why a log is impossible: slot lines that no population fits.

ghost use Rattle.std.specs.Prelude.{◌≡◌, ◌≤◌, IfOk, IfSome, true};
ghost use Rattle.std.specs.List.{All};
ghost use Rattle.vic_report.specs.Conflicts.{IsConflict, IsConflictAt, IsTellingLine};
ghost use Rattle.vic_verdict.specs.Rising.{IsListOf};
ghost use Rattle.vic_verdict.specs.Verdict.{IsVerdict};
ghost use Rattle.vic_verdict.specs.declared.judging.Verdict.TheVariants.{Impossible};
ghost use Rattle.vic_walk.specs.LogLines.{AreLogLines};

use crate::kept_log::KeptLog;
use crate::line_numbers::{LineNumbers, place_of};
use crate::silencer::silencer_of_line;
use std::alloc::{AllocError, Global};
use vic_guess::guess_conflict;
use vic_log::{Log, PackedLine};
use vic_verdict::is_possible;
use vic_walk::LogLines;

/// The first impossible line of a log, and slot lines up to it that no population fits.
#[derive(Drop)]
pub struct Conflict {
    /// The number of the first impossible line.
    pub line: u32,
    /// The numbers of slot lines that no population fits together, in rising order; `line` is the
    /// last. Each line counts with its mask and with the tags that are Quiet there. That none can
    /// be left out is only tested; if the guess at them fails, then all slot lines up to `line` are
    /// named, except unknown ones.
    pub lines: Vec<u32>,
    /// If `line` is a reply of a tag that is Quiet there, the number of the last Stay Quiet that
    /// silenced it.
    pub silenced_by: Option<u32>,
}

/// The conflict of an impossible log, `line` being the number of the first impossible line.
pub fn find_conflict(alloc: Global, log: &Log, line: u32) -> Result<Conflict, AllocError>
    requires { IsVerdict log.now.lines (Impossible line) }
    ensures { IfOk result (IsConflict log.now.lines) }
{
    let silenced_by = silencer_of_line(log, line);
    let lines = match silenced_by {
        // no population fits a reply of a Quiet tag: that line alone is the conflict
        Some(_) => vec![in alloc; line]?,
        None => match guessed_numbers(alloc, log, line)? {
            Some(guess) => guess.into_vec(),
            None => telling_numbers_to(alloc, log, line)?,
        },
    };
    Ok(Conflict {
        line,
        lines,
        silenced_by,
    })
}

/// The numbers that `vic_guess` guesses; `None` if they aren't those of a conflict: one isn't that
/// of a slot line that tells something, the last isn't `last`, or the log that keeps only these
/// lines is possible.
fn guessed_numbers(alloc: Global, log: &Log, last: u32) -> Result<Option<LineNumbers>, AllocError>
    ensures { IfOk result (λ guess. IfSome guess (IsConflictAt log.now.lines last)) }
{
    let lines = log.lines();
    let count = lines.partition_point(|line| line.number() <= last);
    let guess = guess_conflict(alloc, &LogLines::of(log).prefix(count))?;
    let numbers = LineNumbers::of(guess);
    if numbers.last() != Some(last) || !all_tell(lines, numbers.as_slice()) {
        return Ok(None);
    }
    let kept = KeptLog::of(alloc, log, &numbers)?;
    if is_possible(alloc, &kept.lines())? {
        return Ok(None);
    }
    Ok(Some(numbers))
}

/// Whether all numbers are those of slot lines that tell something: not of unknown ones.
fn all_tell(lines: &[PackedLine], numbers: &[u32]) -> bool
    ensures { result ≡ true → All (IsTellingLine lines.now) numbers.now }
{
    numbers.iter().all(|number| is_telling_line(lines, *number))
}

/// Whether a number is that of a slot line that tells something.
fn is_telling_line(lines: &[PackedLine], number: u32) -> bool
    ensures { result ≡ true → IsTellingLine lines.now number }
{
    match place_of(lines, number) {
        Some(place) => lines[place].item().tells(),
        None => false,
    }
}

/// The numbers of the slot lines up to the line with number `last` that tell something. They rise,
/// as those of all lines do. Clause `log` restates, for proofs, what holds of every `Log`.
fn telling_numbers_to(alloc: Global, log: &Log, last: u32) -> Result<Vec<u32>, AllocError>
    ensures numbers { IfOk result (λ numbers. IsListOf
        (λ m. (m ≤ last) × IsTellingLine log.now.lines m) numbers.items) }
    ensures log { AreLogLines log.now.lines }
{
    log.lines()
        .iter()
        .filter(|line| line.number() <= last && line.item().tells())
        .map(|line| line.number())
        .collect(alloc)
}
