//! A log read from its text, or from a device.

ghost use Rattle.std.specs.Prelude.{◌≡◌, ◌≢◌, ◌+◌, ◌≤◌, ◌↔◌, ◌++◌, ℕ, List, Bool, true, false, Err, MatchResult, IfErr, OnOk};
ghost use Rattle.vic_log.specs.Device.{HandsOut, TellsOn};
ghost use Rattle.vic_log.specs.Early.{ReadsAs, ReadsWhere};
ghost use Rattle.vic_log.specs.Lines.{lines_of_text};
ghost use Rattle.vic_log.specs.Text.{IsLogOf, Refuses};

use crate::fault::LogFault;
use crate::feed::{LogFeed, MAX_TEXT_LEN};
use crate::log::Log;
use crate::source::{PIECE, Source};
use std::alloc::Global;
use std::marker::Model;

/// How many times a source is read at most: for each byte of the longest log, and at its end.
pub const MAX_READS: u64 = 130_000_001;

const _: () = prove!(MAX_READS == MAX_TEXT_LEN + 1);

/// The log of a complete text, of the version that its first line names.
pub fn read_log(alloc: Global, text: &[u8]) -> Result<Log, LogFault>
    ensures { MatchResult result
        (IsLogOf (lines_of_text text.now))
        (Refuses text.now) }
{
    let mut fed = LogFeed::new(alloc);
    fed.feed(text)?;
    fed.finish()
}

/// Reads a source to its end, or to the first fault.
fn read_from<R: Source>(alloc: Global, source: &mut R) -> Result<Log, LogFault>
    requires { R.has_failed source.old ≡ false }
    ensures answer { (given : List ℕ) × HandsOut (R.left source.old) (R.left source.new) given
        × ReadsAs (R.left source.new) given result }
    ensures returned { (given : List ℕ)
        × (R.returned source.new ≡ R.returned source.old ++ given)
        × ReadsWhere (R.ended source.new ≡ true) given result }
    ensures tells { result ≢ Err LogFault.Read
        → TellsOn (R.left source.old) (R.left source.new) }
    ensures read { IfErr result (λ e.
        (e ≡ LogFault.Read) ↔ (R.has_failed source.new ≡ true)) }
    ensures works { OnOk result (R.has_failed source.new ≡ false) }
    ensures reads { R.reads source.new ≤ R.reads source.old + MAX_READS }
{
    let mut fed = LogFeed::new(alloc);
    let mut piece = [0; PIECE];
    let mut count = source.read(&mut piece)?;
    while count > 0 {
        fed.feed(&piece[..count])?;
        count = source.read(&mut piece)?;
    }
    fed.finish()
}

/// Reads one log, from a source that returns its text in pieces of any size.
#[derive(Drop)]
pub struct LogReader {
    alloc: Global,
    spent: bool,
}

impl Model for LogReader {
    ghost Value = { Bool };

    ghost view = { λ r. r.spent };
}

impl LogReader {
    /// A reader that has read nothing.
    pub fn new(alloc: Global) -> LogReader
        ensures { result ≡ false }
    {
        LogReader {
            alloc,
            spent: false,
        }
    }

    /// The log of a source's bytes, or its first fault: what `read_log` would return for all of
    /// them. A line is judged when its LF has been read, when it is too long whatever follows, when
    /// it is line 1,000,001, or at the end. A failed read is reported only if no line judged by
    /// then has a fault; only then may a source stop revealing its bytes. A second call returns
    /// `Spent` and reads nothing.
    pub fn read_all<R: Source>(&mut self, source: &mut R) -> Result<Log, LogFault>
        ensures answer { self.old ≡ false →
            (given : List ℕ) × HandsOut (R.left source.old) (R.left source.new) given
            × ReadsAs (R.left source.new) given result }
        // the same about the bytes that the reads returned, whether the source reveals its bytes or
        // not
        ensures returned { self.old ≡ false → (given : List ℕ)
            × (R.returned source.new ≡ R.returned source.old ++ given)
            × ReadsWhere (R.ended source.new ≡ true) given result }
        ensures tells { result ≢ Err LogFault.Read
            → TellsOn (R.left source.old) (R.left source.new) }
        ensures read { self.old ≡ false
            → IfErr result (λ e. (e ≡ LogFault.Read) ↔ (R.has_failed source.new ≡ true)) }
        ensures works { OnOk result (R.has_failed source.new ≡ false) }
        ensures reads { R.reads source.new ≤ R.reads source.old + MAX_READS }
        ensures spent { self.new ≡ true }
        ensures again { self.old ≡ true
            → (result ≡ Err LogFault.Spent) × (source.new ≡ source.old) }
        ensures untouched { R.has_failed source.old ≡ true → source.new ≡ source.old }
    {
        if self.spent {
            return Err(LogFault::Spent);
        }
        self.spent = true;
        if source.failed() {
            return Err(LogFault::Read);
        }
        read_from(self.alloc, source)
    }
}
