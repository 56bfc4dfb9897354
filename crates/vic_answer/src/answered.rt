//! What is answered to a text: what was found in its log, or its first fault.

ghost use Rattle.std.specs.Prelude.{◌≡◌, ℕ, List, IfOk};
ghost use Rattle.vic_log.specs.declared.entry.LogLine.{LogLine as LogLineValue};
ghost use Rattle.vic_verdict.specs.Verdict.{IsVerdict};
ghost use Rattle.vic_verdict.specs.declared.judging.Verdict.{Verdict as VerdictValue};
ghost use Rattle.vic_verdict.specs.declared.judging.Verdict.TheVariants.{Complete};
ghost use Rattle.vic_answer.specs.Answered as spec;
ghost use Rattle.vic_answer.specs.CheckText.{HasCompleteList};

use std::alloc::{AllocError, Global};
use vic_log::{LineFault, Log, LogFault, read_log};
use vic_verdict::Verdict;

/// What a text is answered by: what is found in its log, or its first fault.
#[derive(Clone, Copy, Debug, Drop, PartialEq, Eq)]
pub enum Answered<T> {
    /// The text has a log, and this was found in it.
    Found(T),
    /// The text has no log: this is the first line with a fault.
    RefusedAt { line: u32, fault: LineFault },
}

/// The answer of `check`: the verdict on the log of a text, or the text's first fault.
pub type Answer = Answered<Verdict>;

/// What has the verdict on a log among what it says.
pub trait HasVerdict {
    ghost verdict_of: { Self → VerdictValue };

    /// The verdict on the log.
    fn verdict_in(&self) -> Verdict
        ensures { result ≡ verdict_of self.now };
}

/// What a judge finds in a log: the verdict, and perhaps more.
pub trait Judgement: HasVerdict {
    // what it has to be, for the lines of the log
    ghost IsOf: { List LogLineValue → Self → Type 0 };

    /// What is found in a log. It fails only if memory is refused.
    fn found_in(alloc: Global, log: Log) -> Result<Self, AllocError>
        ensures { IfOk result (IsOf log.lines) };

    // the verdict in it is right
    ghost tells: { (lines : List LogLineValue) (found : Self)
        → IsOf lines found → IsVerdict lines (Self.verdict_of found) };
}

/// The answer of `check` to the same text, by the verdict in what was found.
pub fn answer_of<T: HasVerdict>(answered: &Answered<T>) -> Answer
    ensures { result ≡ spec.answer_of T.verdict_of answered.now }
{
    match answered {
        Answered::Found(found) => Answered::Found(found.verdict_in()),
        Answered::RefusedAt { line, fault } => Answered::RefusedAt {
            line: *line,
            fault: *fault,
        },
    }
}

/// The log of a text in memory, or its first fault. It fails only if memory is refused.
pub fn read_text(alloc: Global, text: &[u8]) -> Result<Answered<Log>, AllocError>
    ensures { IfOk result (spec.IsReadAs text.now) }
{
    match read_log(alloc, text) {
        Ok(log) => Ok(Answered::Found(log)),
        Err(LogFault::Line { line, fault }) => Ok(Answered::RefusedAt { line, fault }),
        Err(LogFault::Memory) => Err(AllocError),
        Err(LogFault::Read) | Err(LogFault::Spent) => unreachable!(),
    }
}

/// What is found in the log of a text, if it was read as one.
pub(crate) fn find_in_read<T: Judgement>(
    alloc: Global,
    read: Answered<Log>,
) -> Result<Answered<T>, AllocError>
    ensures { IfOk result (λ a. (text : List ℕ)
        → spec.IsReadAs text read → spec.IsAnswered T.IsOf text a) }
{
    match read {
        Answered::Found(log) => Ok(Answered::Found(T::found_in(alloc, log)?)),
        Answered::RefusedAt { line, fault } => Ok(Answered::RefusedAt { line, fault }),
    }
}

/// What is found in the log of a text in memory, or the text's first fault: a `Verdict`, as `check`
/// answers, an `Explanation` with a population that shows it, a `LogReport` with every finding, or
/// a `Margin`. It fails only if memory is refused.
pub fn find_in_text<T: Judgement>(alloc: Global, text: &[u8]) -> Result<Answered<T>, AllocError>
    ensures found { IfOk result (spec.IsAnswered T.IsOf text.now) }
    ensures answer { IfOk result (λ a.
        spec.IsAnswered IsVerdict text.now (spec.answer_of T.verdict_of a)) }
    // if it is `complete`, the list of the log is complete and has `count` UIDs
    ensures whole { IfOk result (λ a. (count : ℕ)
        → spec.answer_of T.verdict_of a ≡ Answered.Found (Complete count)
        → HasCompleteList text.now count) }
{
    let read = read_text(alloc, text)?;
    find_in_read(alloc, read)
}
