//! The run of a command that judges a log.

ghost use Rattle.std.specs.Prelude.{◌≡◌, ℕ, List, IfOk};
ghost use Rattle.vic_answer.specs.Answered as spec;
ghost use Rattle.vic_answer.specs.CheckText.{IsCommandText, check_status};
ghost use Rattle.vic_answer.specs.Runs.{LeavesSink, LeavesSource, RunsOver, RunsOverRevealed, Writes};
ghost use Rattle.vic_answer.specs.declared.answered.Answered.{Answered as AnsweredValue};

use crate::answered::{Answered, Judgement, answer_of, find_in_read, find_in_text};
use crate::input::read_source;
use crate::lines::check_status;
use crate::status::{RunFault, Status};
use std::alloc::{AllocError, Global};
use vic_log::{Sink, Source, ToWrite};

/// What a command finds that judges a log, and how the command writes it.
pub trait LogCommand: Judgement + Drop {
    // what the command writes for what it found, or for a fault of the text
    ghost text_of: { AnsweredValue Self → List ℕ };

    /// Writes that text, and flushes.
    fn write<W: Sink>(answered: &Answered<Self>, sink: &mut W) -> Result<(), RunFault>
        ensures { Writes W.Sink sink.old sink.new (text_of answered.now) result };
}

/// Judges the log that is read from a source, writes what the command writes for it, and flushes.
/// The status is that of `check`. It reads to the end or an early fault.
pub(crate) fn run_judged<J: LogCommand, R: Source, W: Sink>(
    alloc: Global,
    source: &mut R,
    sink: &mut W,
) -> Result<Status, RunFault>
    ensures answer { RunsOver (IsCommandText J.IsOf J.verdict_of J.text_of) R.Source W.Sink
        source.old source.new sink.old sink.new result }
    ensures answer_revealed { RunsOverRevealed (IsCommandText J.IsOf J.verdict_of J.text_of)
        R.Source W.Sink source.old source.new sink.old sink.new result }
    ensures leaves_source { LeavesSource R.Source source.old source.new result }
    ensures leaves_sink { LeavesSink W.Sink sink.old sink.new result }
{
    let read = read_source(alloc, source)?;
    let answered = find_in_read::<J>(alloc, read)?;
    write_answered(&answered, sink)
}

/// Writes the text of a command, and flushes; returns its status.
fn write_answered<J: LogCommand, W: Sink>(
    answered: &Answered<J>,
    sink: &mut W,
) -> Result<Status, RunFault>
    ensures status { IfOk result (λ s.
        s ≡ check_status (spec.answer_of J.verdict_of answered.now)) }
    ensures written { Writes W.Sink sink.old sink.new (J.text_of answered.now) result }
{
    J::write(answered, sink)?;
    Ok(check_status(&answer_of(answered)))
}

/// What a command writes, and its status.
#[derive(Drop)]
pub struct WrittenText {
    pub text: Vec<u8>,
    pub status: Status,
}

/// What a command writes for a text in memory. It fails only if memory is refused.
pub fn written_text<J: LogCommand>(alloc: Global, text: &[u8]) -> Result<WrittenText, AllocError>
    ensures { IfOk result (λ w. IsCommandText J.IsOf J.verdict_of J.text_of
        text.now w.text.items w.status) }
{
    let answered = find_in_text::<J>(alloc, text)?;
    let mut sink = ToWrite::new(Vec::new(alloc));
    match write_answered(&answered, &mut sink) {
        Ok(status) => Ok(WrittenText {
            text: sink.into_inner(),
            status,
        }),
        // a write to memory fails only if memory is refused
        Err(_) => Err(AllocError),
    }
}
