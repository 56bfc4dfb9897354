//! What is done for a command that reads one text to its end, before it writes anything.

ghost use Rattle.std.specs.Prelude.{option_copied};
ghost use Rattle.vic_object.specs.Object.{IsJsonOf};
ghost use Rattle.vic_program.specs.Ends.{end_of};
ghost use Rattle.vic_program.specs.Single.{OverFileText, OverInputText, OverText, WritesFor};
ghost use Rattle.vic_program.specs.FilesView.{files_view};

use crate::files::Files;
use crate::no_answer::NoAnswer;
use crate::texts::{file_text, input_text, write_answer};
use std::alloc::Global;
use vic_answer::{RunFault, Status};
use vic_log::{Sink, Source};
use vic_object::object_of;

/// Writes the object of the log in the file with a name, or of standard input.
pub(crate) fn run_json<'a, F: Files, I: Source, O: Sink>(
    alloc: Global,
    file: Option<&'a str>,
    files: &F,
    input: &mut I,
    output: &mut O,
) -> Result<Status, NoAnswer<'a>>
    ensures { OverText (files_view F.Files F.File.Source files.now) I.Source O.Sink
        IsJsonOf (option_copied file.entry)
        input.old input.new output.old output.new (end_of result) }
{
    match file {
        Some(name) => write_file_object(alloc, files, name, output),
        None => write_input_object(alloc, input, output),
    }
}

/// Writes the object of the log in the file with a name.
fn write_file_object<'a, F: Files, O: Sink>(
    alloc: Global,
    files: &F,
    name: &'a str,
    output: &mut O,
) -> Result<Status, NoAnswer<'a>>
    ensures { OverFileText (files_view F.Files F.File.Source files.now) O.Sink
        IsJsonOf name.entry.now output.old output.new (end_of result) }
{
    match file_text(alloc, files, name) {
        Ok(text) => write_object(alloc, text.as_slice(), output),
        Err(why) => Err(why),
    }
}

/// Writes the object of the log that standard input has.
fn write_input_object<'a, I: Source, O: Sink>(
    alloc: Global,
    input: &mut I,
    output: &mut O,
) -> Result<Status, NoAnswer<'a>>
    ensures { OverInputText I.Source O.Sink
        IsJsonOf input.old input.new output.old output.new (end_of result) }
{
    match input_text(alloc, input) {
        Ok(text) => write_object(alloc, text.as_slice(), output),
        Err(why) => Err(why),
    }
}

/// Writes the object of a text, and flushes it.
fn write_object<'a, O: Sink>(
    alloc: Global,
    text: &[u8],
    output: &mut O,
) -> Result<Status, NoAnswer<'a>>
    ensures { WritesFor O.Sink
        IsJsonOf text.now output.old output.new (end_of result) }
{
    match object_of(alloc, text) {
        Ok(object) => write_answer(&object, output),
        Err(_) => Err(NoAnswer::Run(RunFault::Memory)),
    }
}
