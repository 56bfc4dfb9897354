//! What is done for a command that takes one file after the other.

ghost use Rattle.std.specs.Prelude.{◌≡◌, ◌↔◌, ◌⊎◌, IfErr, IfOk, true, map, string_bytes};
ghost use Rattle.std.specs.List.{All};
ghost use Rattle.vic_answer.specs.Status.{fault_text};
ghost use Rattle.vic_answer.specs.declared.status.RunFault.TheVariants.{Memory};
ghost use Rattle.vic_survey.specs.Names.{IsName};
ghost use Rattle.vic_program.specs.Each.{OverEach, ReadsEach, StopsEarly};
ghost use Rattle.vic_program.specs.Ends.{end_of, line_of};
ghost use Rattle.vic_program.specs.FilesView.{files_view};

use crate::files::Files;
use crate::no_answer::NoAnswer;
use crate::texts::{file_text, write_answer};
use std::alloc::{AllocError, Global};
use vic_answer::Status;
use vic_commands::{Gather, Output};
use vic_log::Sink;
use vic_survey::Name;

/// Does a command over the files with these names. Each is read to its end before the next is
/// opened, and nothing is written before all are read.
pub(crate) fn run_over_each<'a, G: Gather, F: Files, O: Sink>(
    alloc: Global,
    files: &F,
    names: &'a [String],
    output: &mut O,
) -> Result<Status, NoAnswer<'a>>
    ensures { OverEach (files_view F.Files F.File.Source files.now) O.Sink
        G.Writes (map string_bytes names.entry.now) output.old output.new (end_of result) }
{
    if !are_names(alloc, names)? {
        return Err(NoAnswer::Usage);
    }
    let taken = taken_from::<G, F>(alloc, files, names)?;
    match taken.finish(alloc)? {
        Output::Answer(answer) => write_answer(&answer, output),
        Output::Usage => Err(NoAnswer::Usage),
    }
}

/// Whether all are names of logs.
fn are_names(alloc: Global, names: &[String]) -> Result<bool, AllocError>
    ensures { IfOk result (λ are. (are ≡ true) ↔ All IsName (map string_bytes names.now)) }
{
    for name in names {
        if !is_name(alloc, name.as_str())? {
            return Ok(false);
        }
    }
    Ok(true)
}

/// Whether a text is the name of a log.
fn is_name(alloc: Global, text: &str) -> Result<bool, AllocError>
    ensures { IfOk result (λ is. (is ≡ true) ↔ IsName text.now) }
{
    match Name::new(String::from_str(alloc, text)?) {
        Some(_) => Ok(true),
        None => Ok(false),
    }
}

/// What a command has taken of the files with these names.
fn taken_from<'a, G: Gather, F: Files>(
    alloc: Global,
    files: &F,
    names: &'a [String],
) -> Result<G, NoAnswer<'a>>
    ensures taken { IfOk result (λ taken. ReadsEach (files_view F.Files F.File.Source files.now)
        (map string_bytes names.entry.now) (λ texts. G.HasTaken (map string_bytes names.entry.now)
        texts taken)) }
    ensures stops { IfErr result (λ why. StopsEarly (files_view F.Files F.File.Source files.now)
        (map string_bytes names.entry.now) (line_of why) ⊎ (line_of why ≡ fault_text Memory)) }
{
    let mut taken = G::begin(alloc);
    for name in names {
        let text = file_text(alloc, files, name.as_str())?;
        taken = taken.add(alloc, name.as_str(), text)?;
    }
    Ok(taken)
}
