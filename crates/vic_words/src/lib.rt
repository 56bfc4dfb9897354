//! What a command line asks for.
#![tactic(auto)]

ghost use Rattle.std.specs.Prelude.{◌≡◌, ◌≢◌, [], map, string_bytes, IfErr, IfOk};
ghost use Rattle.clap.specs.Words.{fault_of, subcommand_of, subcommand_rows_of};
ghost use Rattle.vic_words.specs.Words.{Ask};
ghost use Rattle.vic_words.specs.inner.Commands as declared;
ghost use Rattle.vic_words.specs.inner.Found.{clap_words, lacks_end_of_options};
ghost use Rattle.vic_words.specs.declared.asked.WordsFault.TheVariants.{Usage};

mod asked;
mod commands;
mod found;

use crate::commands::commands;
use crate::found::asked_by;
pub use asked::{Asked, FilesCommand, WordsFault};
use clap::ArgMatches;
use std::alloc::{AllocError, Global};

/// What a command line asks for. The first word is the program's name.
pub fn read_words(alloc: Global, words: Vec<String>) -> Result<Asked, WordsFault>
    ensures asked { IfOk result (Ask (map string_bytes words.items)) }
    ensures usage { IfErr result (λ e. e ≡ Usage
        → (asked : _) → Ask (map string_bytes words.items) asked → ⊥) }
{
    let words = for_clap(alloc, words)?;
    asked_by(alloc, &matches_of(alloc, words.as_slice())?)
}

/// What clap finds among the words.
fn matches_of<'a>(alloc: Global, words: &'a [String]) -> Result<ArgMatches<'a>, WordsFault>
    ensures none { IfOk result (λ _.
        fault_of declared.commands (map string_bytes words.now) ≡ []) }
    ensures found { IfOk result (λ m. subcommand_rows_of m
        ≡ subcommand_of declared.commands (map string_bytes words.now)) }
    ensures usage { IfErr result (λ e. e ≡ Usage
        → fault_of declared.commands (map string_bytes words.now) ≢ []) }
{
    Ok(commands(alloc)?.try_get_matches_from(words)?)
}

/// The words as clap is given them: with `--` before those of `spell`, of which none is an option.
fn for_clap(alloc: Global, mut words: Vec<String>) -> Result<Vec<String>, AllocError>
    ensures { IfOk result (λ given.
        map string_bytes given.items ≡ clap_words (map string_bytes words.items)) }
{
    if lacks_end_of_options(words.as_slice()) {
        words.insert(2, String::from_str(alloc, "--")?)?;
    }
    Ok(words)
}

/// Whether the words are of `spell`, and no `--` stands before the first.
fn lacks_end_of_options(words: &[String]) -> bool
    ensures { result ≡ lacks_end_of_options (map string_bytes words.now) }
{
    match words {
        [] | [_] => false,
        [_, name] => name.as_str() == "spell",
        [_, name, first, ..] => name.as_str() == "spell" && first.as_str() != "--",
    }
}
