//! The lines of a log.

ghost use Rattle.std.specs.Prelude.{◌≡◌, ◌+◌, ◌^◌, ◌<◌, ◌≤◌, Some, length, slice_get, take};
ghost use Rattle.vic_log.specs.Order.{entries};
ghost use Rattle.vic_walk.specs.LogLines.{AreLogLines};

use std::marker::Model;
use vic_log::{Entry, Log, PackedLine};

/// The lines of a log, or the first of them: entries in order, with valid requests, on lines whose
/// numbers rise.
#[derive(Drop)]
pub struct LogLines<'a> {
    lines: &'a [PackedLine],
}

impl<'a> Model for LogLines<'a> {
    ghost use Rattle.std.specs.Prelude.{List};
    ghost use Rattle.vic_log.specs.declared.entry.LogLine.{LogLine};
    ghost use Rattle.vic_walk.specs.LogLines.{AreLogLines};

    ghost Value = { List LogLine };

    ghost view = { λ l. l.lines.now };

    ghost invariant = { λ l. AreLogLines l.lines.now };
}

impl<'a> LogLines<'a> {
    /// Those of a log. Clause `log`, here and of other calls, tells a proof what is so of them.
    pub fn of(log: &'a Log) -> LogLines<'a>
        ensures value { result ≡ log.now.lines }
        ensures log { AreLogLines log.now.lines }
    {
        LogLines { lines: log.lines() }
    }

    /// Those of a log of which only the lines are known.
    pub fn new(lines: &'a [PackedLine]) -> LogLines<'a>
        requires { AreLogLines lines.now }
        ensures { result ≡ lines.now }
    {
        LogLines { lines }
    }

    /// The first ones, this many.
    pub fn prefix(&self, count: usize) -> LogLines<'a>
        requires { count ≤ length self.now }
        ensures { result ≡ take count self.now }
    {
        LogLines {
            lines: &self.lines[..count],
        }
    }

    /// The lines.
    pub fn as_slice(&self) -> &'a [PackedLine]
        ensures value { result.now ≡ self.now }
        ensures log { AreLogLines self.now }
    {
        self.lines
    }

    /// How many there are.
    pub fn len(&self) -> usize
        ensures { result ≡ length self.now }
    {
        self.lines.len()
    }

    /// The entry of a line. Its position fits 32 bits, since the numbers of lines rise.
    #[inline(always)]
    pub fn entry(&self, at: usize) -> Entry
        requires { at < length self.now }
        ensures here { slice_get (entries self.now) at ≡ Some result }
        ensures position { at + 1 < 2 ^ 32 }
        ensures log { AreLogLines self.now }
    {
        let lines = self.lines;
        item_of(lines[at])
    }
}

/// The entry of a line. By clause `number` a proof sees that its number fits 32 bits.
#[inline(always)]
fn item_of(line: PackedLine) -> Entry
    ensures value { result ≡ line.item }
    ensures number { line.number < 2 ^ 32 }
{
    line.item()
}
