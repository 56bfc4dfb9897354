//! The command `margin`.

ghost use Rattle.std.specs.Prelude.{◌≡◌, ◌+◌, ◌*◌, ◌<◌, ◌≤◌, ◌++◌};
ghost use Rattle.arrayvec.specs.ArrayVec.{array_vec_len};
ghost use Rattle.vic_answer.specs.CompleteRun.{IsCompleteWhereWrittenFirst};
ghost use Rattle.vic_answer.specs.MarginText.{IsMarginOf, IsMarginOfLines, mask_or_none, measured_text, readings_text, weakest_text};
ghost use Rattle.vic_answer.specs.Runs.{LeavesSink, LeavesSource, RunsOver, RunsOverRevealed};

use crate::answered::{Answered, HasVerdict, Judgement, answer_of};
use crate::lines::check_text;
use crate::output::write_and_flush;
use crate::run::{LogCommand, run_judged};
use crate::status::{RunFault, Status};
use crate::text::{ANSWER_ROOM, MASK_LEN, ShortText, TEXT_ROOM, push_decimal, push_mask, push_str};
use std::alloc::{AllocError, Global};
use vic_frame::Mask;
use vic_log::{Log, Sink, Source};
use vic_margin::{Margin, Readings, Weakest, margin};
use vic_verdict::Verdict;

impl HasVerdict for Margin {
    ghost verdict_of = { λ m. m.verdict };

    fn verdict_in(&self) -> Verdict {
        self.verdict
    }
}

/// What `margin` finds.
impl Judgement for Margin {
    ghost IsOf = { IsMarginOfLines };

    fn found_in(alloc: Global, log: Log) -> Result<Margin, AllocError> {
        margin(alloc, log)
    }

    ghost tells = { λ lines m h. h.verdict };
}

/// What `margin` writes.
impl LogCommand for Margin {
    ghost text_of = { measured_text };

    fn write<W: Sink>(answered: &Answered<Margin>, sink: &mut W) -> Result<(), RunFault> {
        write_and_flush(sink, measured_text(answered).as_slice())
    }
}

/// Judges the log that is read from a source and writes the line of `check`; if it is `complete`,
/// also the margin of the log, its weakest mask, and what its hidden and its deaf reading leave
/// unsettled, each on a line; and flushes. The status is that of `check`. It reads to the end or an
/// early fault.
pub fn run_margin<R: Source, W: Sink>(
    alloc: Global,
    source: &mut R,
    sink: &mut W,
) -> Result<Status, RunFault>
    // over the bytes that the reads returned and the writes accepted
    ensures answer { RunsOver IsMarginOf R.Source W.Sink
        source.old source.new sink.old sink.new result }
    // if it wrote `complete N`, the list of the log is complete and has N UIDs
    ensures complete { IsCompleteWhereWrittenFirst R.Source W.Sink
        source.old source.new sink.old sink.new result }
    // the same over the bytes that source and sink reveal
    ensures answer_revealed { RunsOverRevealed IsMarginOf R.Source W.Sink
        source.old source.new sink.old sink.new result }
    ensures leaves_source { LeavesSource R.Source source.old source.new result }
    ensures leaves_sink { LeavesSink W.Sink sink.old sink.new result }
{
    run_judged::<Margin, R, W>(alloc, source, sink)
}

/// The lines of an answer: after that of `check` the margin, the weakest mask and the two readings,
/// if it is `complete`.
fn measured_text(measured: &Answered<Margin>) -> ShortText
    ensures { result.items ≡ measured_text measured.now }
{
    let mut text = check_text(&answer_of(measured));
    if let Answered::Found(margin) = measured {
        if let Verdict::Complete { .. } = margin.verdict {
            push_weakest(&mut text, &margin.weakest);
            push_readings(&mut text, &margin.readings);
        }
    }
    text
}

/// Appends the lines of the margin of a log and of its weakest mask, if it has them.
fn push_weakest(text: &mut ShortText, weakest: &Option<Weakest>)
    requires { array_vec_len text.old < ANSWER_ROOM }
    ensures items { text.new.items ≡ text.old.items ++ weakest_text weakest.now }
    ensures len { array_vec_len text.new < 2 * ANSWER_ROOM }
{
    if let Some(Weakest { margin, mask }) = weakest {
        push_str(text, "margin ");
        push_decimal(text, *margin);
        push_str(text, "\nweakest ");
        push_mask(text, mask);
        push_str(text, "\n");
    }
}

/// Appends the lines of the hidden and of the deaf reading of a log, if it has them.
fn push_readings(text: &mut ShortText, readings: &Option<Readings>)
    requires { array_vec_len text.old < 2 * ANSWER_ROOM }
    ensures { text.new.items ≡ text.old.items ++ readings_text readings.now }
{
    if let Some(Readings { hidden, deaf }) = readings {
        push_str(text, "hidden ");
        push_mask_or_none(text, hidden);
        push_str(text, "\ndeaf ");
        push_mask_or_none(text, deaf);
        push_str(text, "\n");
    }
}

/// Appends a mask, or `-` if there is none.
fn push_mask_or_none(text: &mut ShortText, mask: &Option<Mask>)
    requires { array_vec_len text.old + MASK_LEN ≤ TEXT_ROOM }
    ensures items { text.new.items ≡ text.old.items ++ mask_or_none mask.now }
    ensures len { array_vec_len text.new ≤ array_vec_len text.old + MASK_LEN }
{
    match mask {
        Some(mask) => push_mask(text, mask),
        None => push_str(text, "-"),
    }
}
