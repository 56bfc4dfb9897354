//! What is done for what the words ask for.

ghost use Rattle.std.specs.Prelude.{map, string_bytes};
ghost use Rattle.vic_answer.specs.Tasks.{file_of};
ghost use Rattle.vic_program.specs.Each.{OverEach};
ghost use Rattle.vic_program.specs.Ends.{end_of};
ghost use Rattle.vic_program.specs.Runs.{OverFile, RunsAsked, RunsTask, writes_of};
ghost use Rattle.vic_program.specs.FilesView.{files_view};

use crate::each::run_over_each;
use crate::files::Files;
use crate::no_answer::{NoAnswer, end_of_run};
use crate::single::run_json;
use std::alloc::Global;
use vic_answer::{Status, Task, do_task};
use vic_commands::{TakenForLines, TakenForObject, TakenForTable, TakenLogs};
use vic_log::{Sink, Source};
use vic_words::{Asked, FilesCommand};

/// Does what the words ask for. Nothing but the files that they name is opened.
pub fn run_asked<'a, F: Files, I: Source, O: Sink>(
    alloc: Global,
    asked: &'a Asked,
    files: &F,
    input: &mut I,
    output: &mut O,
) -> Result<Status, NoAnswer<'a>>
    ensures { RunsAsked (files_view F.Files F.File.Source files.now) I.Source O.Sink
        asked.entry.now input.old input.new output.old output.new (end_of result) }
{
    match asked {
        Asked::Task(task) => run_task(alloc, task, files, input, output),
        Asked::Json(file) => {
            let name = file.as_ref().map(|name| name.as_str());
            run_json(alloc, name, files, input, output)
        }
        Asked::Files(command, names) => {
            run_files_command(alloc, *command, files, names.as_slice(), output)
        }
    }
}

/// Does a task over the file that it names, or over standard input.
fn run_task<'a, F: Files, I: Source, O: Sink>(
    alloc: Global,
    task: &'a Task,
    files: &F,
    input: &mut I,
    output: &mut O,
) -> Result<Status, NoAnswer<'a>>
    ensures { RunsTask (files_view F.Files F.File.Source files.now) I.Source O.Sink
        task.entry.now (file_of task.entry.now)
        input.old input.new output.old output.new (end_of result) }
{
    match task.file() {
        Some(name) => run_over_file(alloc, task, files, name, output),
        None => end_of_run(do_task(alloc, task, input, output)),
    }
}

/// Does a task over the file with a name.
fn run_over_file<'a, F: Files, O: Sink>(
    alloc: Global,
    task: &Task,
    files: &F,
    name: &'a str,
    output: &mut O,
) -> Result<Status, NoAnswer<'a>>
    ensures { OverFile (files_view F.Files F.File.Source files.now) O.Sink
        task.now name.entry.now output.old output.new (end_of result) }
{
    match files.open(name) {
        Ok(mut file) => end_of_run(do_task(alloc, task, &mut file, output)),
        Err(_) => Err(NoAnswer::CannotOpen(name)),
    }
}

/// Does a command over the files with these names, one after the other.
fn run_files_command<'a, F: Files, O: Sink>(
    alloc: Global,
    command: FilesCommand,
    files: &F,
    names: &'a [String],
    output: &mut O,
) -> Result<Status, NoAnswer<'a>>
    ensures { OverEach (files_view F.Files F.File.Source files.now) O.Sink
        (writes_of command) (map string_bytes names.entry.now)
        output.old output.new (end_of result) }
{
    match command {
        FilesCommand::Reconcile => run_over_each::<TakenForLines, F, O>(
            alloc, files, names, output,
        ),
        FilesCommand::Survey => run_over_each::<TakenLogs, F, O>(alloc, files, names, output),
        FilesCommand::Collection => run_over_each::<TakenForTable, F, O>(
            alloc, files, names, output,
        ),
        FilesCommand::JsonCollection => {
            run_over_each::<TakenForObject, F, O>(alloc, files, names, output)
        }
    }
}
