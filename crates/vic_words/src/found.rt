//! What is asked for, by what clap found among the words.

ghost use Rattle.std.specs.Prelude.{◌≡◌, map, option_map, string_bytes, IfErr, IfOk, MatchOption};
ghost use Rattle.clap.specs.Words.{first_of, found_of, rows_of, subcommand_rows_of};
ghost use Rattle.vic_words.specs.Words.{files_name};
ghost use Rattle.vic_words.specs.inner.Found.{FileAsks, RowsAsk, SubcommandAsks, TaskAsks, words_found};
ghost use Rattle.vic_words.specs.declared.asked.WordsFault.TheVariants.{Usage};

use crate::asked::{Asked, FilesCommand, WordsFault};
use clap::ArgMatches;
use std::alloc::{AllocError, Global};
use vic_answer::Task;

/// What the words ask for, by what was found.
pub(crate) fn asked_by(alloc: Global, matches: &ArgMatches<'_>) -> Result<Asked, WordsFault>
    ensures asked { IfOk result (SubcommandAsks (subcommand_rows_of matches.now)) }
    ensures usage { IfErr result (λ e. e ≡ Usage
        → (asked : _) → SubcommandAsks (subcommand_rows_of matches.now) asked → ⊥) }
{
    match matches.subcommand() {
        Some((name, given)) => asked_for(alloc, name, given),
        None => Err(WordsFault::Usage),
    }
}

/// What a command asks for, by its name and what it was given.
fn asked_for(alloc: Global, name: &str, given: &ArgMatches<'_>) -> Result<Asked, WordsFault>
    ensures asked { IfOk result (RowsAsk name.now (rows_of (found_of given.now))) }
    ensures usage { IfErr result (λ e. e ≡ Usage
        → (asked : _) → RowsAsk name.now (rows_of (found_of given.now)) asked → ⊥) }
{
    if let Some(command) = files_command(name) {
        return Ok(Asked::Files(command, given_words(alloc, given)?));
    }
    if name == "json" {
        return Ok(Asked::Json(operand(alloc, given, "file")?));
    }
    Ok(Asked::Task(task_of(alloc, name, given)?))
}

/// The command with a name, if it takes one file after the other.
fn files_command(name: &str) -> Option<FilesCommand>
    ensures { MatchOption result
        ((command : _) → name.now ≡ files_name command → ⊥)
        (λ command. name.now ≡ files_name command) }
{
    match name {
        "reconcile" => Some(FilesCommand::Reconcile),
        "survey" => Some(FilesCommand::Survey),
        "collection" => Some(FilesCommand::Collection),
        "json-collection" => Some(FilesCommand::JsonCollection),
        _ => None,
    }
}

/// What a command with one text asks for, by its name and what it was given.
fn task_of(alloc: Global, name: &str, given: &ArgMatches<'_>) -> Result<Task, WordsFault>
    ensures asked { IfOk result (TaskAsks name.now (rows_of (found_of given.now))) }
    ensures usage { IfErr result (λ e. e ≡ Usage
        → (task : _) → TaskAsks name.now (rows_of (found_of given.now)) task → ⊥) }
{
    match name {
        "frame" => match operand(alloc, given, "hex")? {
            Some(word) => Ok(Task::Frame(word)),
            None => Err(WordsFault::Usage),
        },
        "spell" => Ok(Task::Spell(given_words(alloc, given)?)),
        _ => file_task_of(name, operand(alloc, given, "file")?),
    }
}

/// What a command with a file asks for, by its name.
fn file_task_of(name: &str, file: Option<String>) -> Result<Task, WordsFault>
    ensures asked { IfOk result (FileAsks name.now (option_map string_bytes file)) }
    ensures usage { IfErr result (λ _. (task : _)
        → FileAsks name.now (option_map string_bytes file) task → ⊥) }
{
    match name {
        "check" => Ok(Task::Check(file)),
        "simulate" => Ok(Task::Simulate(file)),
        "explain" => Ok(Task::Explain(file)),
        "report" => Ok(Task::Report(file)),
        "margin" => Ok(Task::Margin(file)),
        _ => Err(WordsFault::Usage),
    }
}

/// The text of an operand, if it was given.
fn operand(alloc: Global, given: &ArgMatches<'_>, id: &str) -> Result<Option<String>, AllocError>
    ensures { IfOk result (λ found.
        option_map string_bytes found ≡ first_of id.now (rows_of (found_of given.now))) }
{
    match given.get_str(id) {
        Some(text) => Ok(Some(String::from_str(alloc, text)?)),
        None => Ok(None),
    }
}

/// The words that a command was given.
fn given_words(alloc: Global, given: &ArgMatches<'_>) -> Result<Vec<String>, AllocError>
    ensures { IfOk result (λ words.
        map string_bytes words.items ≡ words_found (rows_of (found_of given.now))) }
{
    match given.get_strs("words") {
        Some(words) => copies(alloc, words),
        None => Ok(Vec::new(alloc)),
    }
}

/// Copies of some texts.
fn copies(alloc: Global, texts: &[&str]) -> Result<Vec<String>, AllocError>
    ensures { IfOk result (λ copies.
        map string_bytes copies.items ≡ map (λ text. text.now) texts.now) }
{
    let mut copies = Vec::new(alloc);
    for text in texts {
        copies.push(String::from_str(alloc, text)?)?;
    }
    Ok(copies)
}
