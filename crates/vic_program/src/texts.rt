//! Texts that are read to their end, and answers that are written.

ghost use Rattle.std.specs.Prelude.{◌≡◌, ◌↔◌, ℕ, List, IfErr, IfOk, true, false};
ghost use Rattle.vic_log.specs.Device.{Grows};
ghost use Rattle.vic_log.specs.declared.source.ReadFault.TheVariants.{Read};
ghost use Rattle.vic_answer.specs.Status.{fault_text};
ghost use Rattle.vic_answer.specs.declared.status.RunFault.TheVariants.{Write};
ghost use Rattle.vic_program.specs.Each.{IsTextOf, IsUnreadable};
ghost use Rattle.vic_program.specs.Ends.{line_of};
ghost use Rattle.vic_program.specs.FilesView.{files_view};
ghost use Rattle.vic_program.specs.Single.{IsInputText, IsInputUnfinished};
ghost use Rattle.vic_program.specs.Written.{IsCut, IsOut};

use crate::files::Files;
use crate::no_answer::{NoAnswer, no_answer_for_source};
use std::alloc::Global;
use vic_answer::{RunFault, Status, WrittenText};
use vic_log::{ReadFault, Sink, Source, write_whole};

/// How many bytes are requested at once.
const PIECE: usize = 16384;

/// The text of the file with a name.
pub(crate) fn file_text<'a, F: Files>(
    alloc: Global,
    files: &F,
    name: &'a str,
) -> Result<Vec<u8>, NoAnswer<'a>>
    ensures text { IfOk result (λ text. IsTextOf (files_view F.Files F.File.Source files.now)
        name.entry.now text.items) }
    ensures unread { IfErr result (λ why. IsUnreadable (files_view F.Files F.File.Source files.now)
        name.entry.now (line_of why)) }
{
    match files.open(name) {
        Ok(mut file) => match text_of(alloc, &mut file) {
            Ok(text) => Ok(text),
            Err(fault) => Err(no_answer_for_source(fault)),
        },
        Err(_) => Err(NoAnswer::CannotOpen(name)),
    }
}

/// The text of standard input. If that has failed, it isn't read.
pub(crate) fn input_text<'a, I: Source>(
    alloc: Global,
    input: &mut I,
) -> Result<Vec<u8>, NoAnswer<'a>>
    ensures text { IfOk result (λ text. IsInputText I.Source
        input.old input.new text.items) }
    ensures unread { IfErr result (λ why. IsInputUnfinished I.Source
        input.old input.new (line_of why)) }
{
    if input.failed() {
        return Err(NoAnswer::Run(RunFault::Read));
    }
    match text_of(alloc, input) {
        Ok(text) => Ok(text),
        Err(fault) => Err(no_answer_for_source(fault)),
    }
}

/// The bytes of a source, to its end.
fn text_of<R: Source>(alloc: Global, source: &mut R) -> Result<Vec<u8>, ReadFault>
    requires { R.has_failed source.old ≡ false }
    ensures returned { IfOk result (λ text.
        Grows (R.returned source.old) (R.returned source.new) text.items) }
    ensures part { IfErr result (λ _. (text : List ℕ)
        × Grows (R.returned source.old) (R.returned source.new) text) }
    ensures ended { IfOk result (λ _. R.ended source.new ≡ true) }
    ensures works { IfOk result (λ _. R.has_failed source.new ≡ false) }
    ensures read { IfErr result (λ e. (e ≡ Read) ↔ (R.has_failed source.new ≡ true)) }
{
    let mut text = Vec::new(alloc);
    let mut piece = [0; PIECE];
    for _turn in 0..u64::MAX {
        let count = source.read(&mut piece)?;
        if count == 0 {
            return Ok(text);
        }
        text.extend_from_slice(&piece[..count])?;
    }
    // no memory holds so many bytes
    Err(ReadFault::Memory)
}

/// Writes an answer and flushes it. A sink that has failed isn't written to again.
pub(crate) fn write_answer<'a, O: Sink>(
    answer: &WrittenText,
    output: &mut O,
) -> Result<Status, NoAnswer<'a>>
    ensures status { IfOk result (λ s. s ≡ answer.now.status) }
    ensures out { IfOk result (λ _. IsOut O.Sink
        output.old output.new answer.now.text.items) }
    ensures cut { IfErr result (λ _. IsCut O.Sink
        output.old output.new answer.now.text.items) }
    ensures fault { IfErr result (λ why. line_of why ≡ fault_text Write) }
{
    if write_whole(output, answer.text.as_slice()).is_err() || output.flush().is_err() {
        return Err(NoAnswer::Run(RunFault::Write));
    }
    Ok(answer.status)
}
