//! The program, from its words to its exit status.

ghost use Rattle.std.specs.Prelude.{◌≡◌, MatchResult, map, string_bytes};
ghost use Rattle.vic_program.specs.Ends.{end_of, exit_code, line_of, words_line};
ghost use Rattle.vic_program.specs.Lines.{Says};
ghost use Rattle.vic_program.specs.Program.{DoesNothing, Ends, RunsWords};
ghost use Rattle.vic_program.specs.FilesView.{files_view};

use crate::files::Files;
use crate::no_answer::{NO_ANSWER, NoAnswer};
use crate::run::run_asked;
use std::alloc::Global;
use vic_answer::{RunFault, Status};
use vic_log::{Sink, Source};
use vic_words::{WordsFault, read_words};

/// Reads the words, of which the first is the program's name, or is told why there are none. Does
/// what they ask for, and returns the exit status: 0 to 3 with an answer on `output`, or 4 with a
/// line on `errors`.
pub fn run_program<F: Files, I: Source, O: Sink, E: Sink>(
    alloc: Global,
    words: Result<Vec<String>, WordsFault>,
    files: &F,
    input: &mut I,
    output: &mut O,
    errors: &mut E,
) -> u8
    ensures { Ends (λ end. MatchResult words
        (λ w. RunsWords (files_view F.Files F.File.Source files.now) I.Source O.Sink
        (map string_bytes w.items) input.old input.new output.old output.new end)
        (λ fault. DoesNothing (words_line fault) input.old input.new output.old output.new end))
        result (λ end. Says E.Sink end errors.old errors.new) }
{
    match words {
        Ok(words) => run_words(alloc, words, files, input, output, errors),
        Err(fault) => say_end(Err(no_answer_for_words(fault)), errors),
    }
}

/// Does what the words ask for, and returns the exit status.
fn run_words<F: Files, I: Source, O: Sink, E: Sink>(
    alloc: Global,
    words: Vec<String>,
    files: &F,
    input: &mut I,
    output: &mut O,
    errors: &mut E,
) -> u8
    ensures { Ends (RunsWords (files_view F.Files F.File.Source files.now) I.Source O.Sink
        (map string_bytes words.items) input.old input.new output.old output.new) result
        (λ end. Says E.Sink end errors.old errors.new) }
{
    match read_words(alloc, words) {
        Ok(asked) => say_end(run_asked(alloc, &asked, files, input, output), errors),
        Err(fault) => say_end(Err(no_answer_for_words(fault)), errors),
    }
}

/// Says why there is no answer, if there is none, and returns the exit status.
fn say_end<E: Sink>(ended: Result<Status, NoAnswer<'_>>, errors: &mut E) -> u8
    ensures code { result ≡ exit_code (end_of ended.entry) }
    ensures says { Says E.Sink (end_of ended.entry) errors.old errors.new }
{
    match ended {
        Ok(status) => status.code(),
        Err(why) => {
            why.say(errors);
            NO_ANSWER
        }
    }
}

/// Why there is no answer to words that ask for nothing, or couldn't be read.
fn no_answer_for_words(fault: WordsFault) -> NoAnswer<'static>
    ensures { line_of result ≡ words_line fault }
{
    match fault {
        WordsFault::Usage => NoAnswer::Usage,
        WordsFault::Memory => NoAnswer::Run(RunFault::Memory),
    }
}
