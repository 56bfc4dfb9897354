//! The command `simulate`.

ghost use Rattle.std.specs.Prelude.{◌≡◌, ℕ, List, IfOk};
ghost use Rattle.vic_answer.specs.SimulateText.{IsSimulated, IsSimulatedText, IsSimulationOf, simulated_text, simulated_status};
ghost use Rattle.vic_answer.specs.Answered.{IsReadAs};
ghost use Rattle.vic_answer.specs.Runs.{RunsOver, RunsOverRevealed, LeavesSource, LeavesSink, Writes};

use crate::answered::{Answered, read_text};
use crate::input::read_source;
use crate::lines::{refusal_line, refused_at};
use crate::output::write_and_flush;
use crate::run::WrittenText;
use crate::status::{RunFault, Status};
use crate::text::ShortText;
use std::alloc::{AllocError, Global};
use vic_field::{SimFault, simulate};
use vic_log::{LineFault, Log, MAX_LINES, Sink, Source, ToWrite, write_log};

/// The first line number beyond `MAX_LINES`.
const LINE_TOO_MANY: u32 = MAX_LINES + 1;

/// What becomes of a log.
#[derive(Drop)]
pub(crate) enum Simulated {
    /// It has its slots filled in.
    Filled(Log),
    /// It has slot lines already; this is the first.
    OutcomeGiven { line: u32 },
    /// Filled in, it would have too many lines.
    TooManyLines,
}

/// The log of a text, with its slots filled in as the listed tags would answer: what `run_simulate`
/// writes for it. It fails only if memory is refused.
pub fn simulate_text(alloc: Global, text: &[u8]) -> Result<WrittenText, AllocError>
    ensures { IfOk result (λ s. IsSimulationOf text.now s.text.items s.status) }
{
    let read = read_text(alloc, text)?;
    let simulated = simulate_read(alloc, read)?;
    let mut sink = ToWrite::new(Vec::new(alloc));
    match write_simulated(simulated, &mut sink) {
        Ok(status) => Ok(WrittenText {
            text: sink.into_inner(),
            status,
        }),
        // a write to memory fails only if memory is refused
        Err(_) => Err(AllocError),
    }
}

/// Fills in the slots of the log that is read from a source, as the tags that it lists would
/// answer, writes the log's text, or the one line of a refusal, and flushes it. It reads to the end
/// or an early fault.
pub fn run_simulate<R: Source, W: Sink>(
    alloc: Global,
    source: &mut R,
    sink: &mut W,
) -> Result<Status, RunFault>
    // over the bytes that the reads returned and the writes accepted
    ensures answer { RunsOver IsSimulationOf R.Source W.Sink
        source.old source.new sink.old sink.new result }
    // the same over the bytes that source and sink reveal
    ensures answer_revealed { RunsOverRevealed IsSimulationOf R.Source W.Sink
        source.old source.new sink.old sink.new result }
    ensures leaves_source { LeavesSource R.Source source.old source.new result }
    ensures leaves_sink { LeavesSink W.Sink sink.old sink.new result }
{
    let read = read_source(alloc, source)?;
    let simulated = simulate_read(alloc, read)?;
    write_simulated(simulated, sink)
}

/// What becomes of a text, by its log or first fault.
fn simulate_read(alloc: Global, read: Answered<Log>) -> Result<Answered<Simulated>, AllocError>
    ensures { IfOk result (λ s. (text : List ℕ)
        → IsReadAs text read → IsSimulatedText text s) }
{
    match read {
        Answered::Found(log) => Ok(Answered::Found(simulate_log(alloc, &log)?)),
        Answered::RefusedAt { line, fault } => Ok(Answered::RefusedAt { line, fault }),
    }
}

/// What becomes of a log.
fn simulate_log(alloc: Global, given: &Log) -> Result<Simulated, AllocError>
    ensures { IfOk result (IsSimulated given.now) }
{
    match simulate(alloc, given) {
        Ok(filled) => {
            // `lines` ensures that they are those of a log, which `IsSimulated` asks for
            let _lines = filled.lines();
            Ok(Simulated::Filled(filled))
        }
        Err(SimFault::OutcomeGiven(line)) => Ok(Simulated::OutcomeGiven { line }),
        Err(SimFault::TooManyLines) => Ok(Simulated::TooManyLines),
        Err(SimFault::Memory) => Err(AllocError),
    }
}

/// Writes the line of a refusal, and flushes.
fn refuse<W: Sink>(line: &ShortText, sink: &mut W) -> Result<Status, RunFault>
    ensures status { IfOk result (λ s. s ≡ Status.Refused) }
    ensures written { Writes W.Sink sink.old sink.new line.now.items result }
{
    write_and_flush(sink, line.as_slice())?;
    Ok(Status::Refused)
}

/// Writes the log that was filled in, or the line of a refusal, and flushes.
fn write_simulated<W: Sink>(
    simulated: Answered<Simulated>,
    sink: &mut W,
) -> Result<Status, RunFault>
    ensures status { IfOk result (λ s. s ≡ simulated_status simulated) }
    ensures written { Writes W.Sink sink.old sink.new (simulated_text simulated) result }
{
    match simulated {
        Answered::Found(Simulated::Filled(log)) => match write_log(&log, sink) {
            Ok(()) => Ok(Status::Whole),
            Err(_) => Err(RunFault::Write),
        },
        Answered::Found(Simulated::OutcomeGiven { line }) => {
            refuse(&refused_at(line, "OutcomeGiven"), sink)
        }
        Answered::Found(Simulated::TooManyLines) => {
            refuse(&refusal_line(LINE_TOO_MANY, &LineFault::TooManyLines), sink)
        }
        Answered::RefusedAt { line, fault } => refuse(&refusal_line(line, &fault), sink),
    }
}
