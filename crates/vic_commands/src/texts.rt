//! What the program writes for texts in memory, and their names.

ghost use Rattle.std.specs.Prelude.{◌≡◌, ◌≤◌, [], ◌∷◌, ℕ, List, IfOk, MatchOption, length, map, string_bytes};
ghost use Rattle.std.specs.List.{All};
ghost use Rattle.std.specs.Str.{IsUtf8};
ghost use Rattle.vic_answer.specs.CheckText.{IsCommandText};
ghost use Rattle.vic_answer.specs.SimulateText.{IsSimulationOf};
ghost use Rattle.vic_object.specs.Object.{IsJsonOf};
ghost use Rattle.vic_commands.specs.Commands as spec;

use crate::collected::{TakenForLines, TakenForObject, TakenForTable};
use crate::commands::{Command, Output};
use crate::gathering::Gather;
use crate::surveyed::TakenLogs;
use std::alloc::{AllocError, Global};
use vic_answer::{
    LogCommand, RunFault, Status, WrittenText, run_frame, run_spell, simulate_text, written_text,
};
use vic_log::ToWrite;
use vic_margin::Margin;
use vic_object::object_of;
use vic_report::LogReport;
use vic_verdict::{Explanation, Verdict};

/// What the program writes for texts in memory, which have these names: the bytes of its standard
/// output, and its status. It fails only if memory is refused.
pub fn output_of(
    alloc: Global,
    command: Command,
    names: &[String],
    texts: &[&[u8]],
) -> Result<Output, AllocError>
    ensures { IfOk result (spec.IsOutputBy (spec.Writes command
        (map string_bytes names.now) (map (λ t. t.now) texts.now))) }
{
    match command {
        Command::Check => output_of_log::<Verdict>(alloc, texts),
        Command::Explain => output_of_log::<Explanation>(alloc, texts),
        Command::Report => output_of_log::<LogReport>(alloc, texts),
        Command::Margin => output_of_log::<Margin>(alloc, texts),
        Command::Simulate => output_of_simulate(alloc, texts),
        Command::Reconcile => output_over_files::<TakenForLines>(alloc, names, texts),
        Command::Frame => output_of_frame(alloc, texts),
        Command::Spell => output_of_spell(alloc, texts),
        Command::Survey => output_over_files::<TakenLogs>(alloc, names, texts),
        Command::Collection => output_over_files::<TakenForTable>(alloc, names, texts),
        Command::Json => output_of_json(alloc, texts),
        Command::JsonCollection => output_over_files::<TakenForObject>(alloc, names, texts),
    }
}

/// What a command that judges a log writes for texts.
fn output_of_log<J: LogCommand>(alloc: Global, texts: &[&[u8]]) -> Result<Output, AllocError>
    ensures { IfOk result (spec.IsOutputBy (spec.OfOnly
        (IsCommandText J.IsOf J.verdict_of J.text_of) (map (λ t. t.now) texts.now))) }
{
    match only(texts) {
        Some(text) => Ok(Output::Answer(written_text::<J>(alloc, text)?)),
        None => Ok(Output::Usage),
    }
}

/// What `simulate` writes for texts.
fn output_of_simulate(alloc: Global, texts: &[&[u8]]) -> Result<Output, AllocError>
    ensures { IfOk result (spec.IsOutputBy (spec.OfOnly IsSimulationOf
        (map (λ t. t.now) texts.now))) }
{
    match only(texts) {
        Some(text) => Ok(Output::Answer(simulate_text(alloc, text)?)),
        None => Ok(Output::Usage),
    }
}

/// What `json` writes for texts.
fn output_of_json(alloc: Global, texts: &[&[u8]]) -> Result<Output, AllocError>
    ensures { IfOk result (spec.IsOutputBy (spec.OfOnly IsJsonOf
        (map (λ t. t.now) texts.now))) }
{
    match only(texts) {
        Some(text) => Ok(Output::Answer(object_of(alloc, text)?)),
        None => Ok(Output::Usage),
    }
}

/// What `frame` writes for texts.
fn output_of_frame(alloc: Global, texts: &[&[u8]]) -> Result<Output, AllocError>
    ensures { IfOk result (spec.IsOutputBy (spec.OfOnly spec.IsFrameOf
        (map (λ t. t.now) texts.now))) }
{
    let Some(word) = only(texts) else {
        return Ok(Output::Usage);
    };
    if str::from_utf8(word).is_err() {
        return Ok(Output::Usage);
    }
    let mut sink = ToWrite::new(Vec::new(alloc));
    let status = in_memory(run_frame(word, &mut sink))?;
    Ok(Output::Answer(WrittenText {
        text: sink.into_inner(),
        status,
    }))
}

/// What `spell` writes for texts.
fn output_of_spell(alloc: Global, texts: &[&[u8]]) -> Result<Output, AllocError>
    ensures { IfOk result (spec.IsOutputBy (spec.IsSpellingOf (map (λ t. t.now) texts.now))) }
{
    let Some(words) = words_of(alloc, texts)? else {
        return Ok(Output::Usage);
    };
    if words.is_empty() {
        return Ok(Output::Usage);
    }
    let mut sink = ToWrite::new(Vec::new(alloc));
    let status = in_memory(run_spell(&words, &mut sink))?;
    Ok(Output::Answer(WrittenText {
        text: sink.into_inner(),
        status,
    }))
}

/// What a command over many files writes for texts with these names.
fn output_over_files<G: Gather>(
    alloc: Global,
    names: &[String],
    texts: &[&[u8]],
) -> Result<Output, AllocError>
    ensures { IfOk result (spec.IsOutputBy (spec.OfNamed G.Writes
        (map string_bytes names.now) (map (λ t. t.now) texts.now))) }
{
    if names.len() != texts.len() {
        return Ok(Output::Usage);
    }
    let mut taken = G::begin(alloc);
    for (i, text) in texts.iter().enumerate() {
        taken = taken.add(alloc, names[i].as_str(), Vec::from_slice(alloc, text)?)?;
    }
    taken.finish(alloc)
}

/// The only one of texts.
fn only<'a>(texts: &[&'a [u8]]) -> Option<&'a [u8]>
    ensures { MatchOption result
        ((t : List ℕ) → map (λ t. t.now) texts.now ≡ t ∷ [] → ⊥)
        (λ text. map (λ t. t.now) texts.now ≡ text.now ∷ []) }
{
    if texts.len() == 1 {
        Some(texts[0])
    } else {
        None
    }
}

/// A write to memory fails only if memory is refused.
fn in_memory(written: Result<Status, RunFault>) -> Result<Status, AllocError>
    ensures ok { IfOk result (λ s. written ≡ Ok s) }
{
    match written {
        Ok(status) => Ok(status),
        Err(_) => Err(AllocError),
    }
}

/// Texts as words; none if one of them isn't UTF-8.
fn words_of(alloc: Global, texts: &[&[u8]]) -> Result<Option<Vec<String>>, AllocError>
    ensures { IfOk result (λ w. MatchOption w
        (All IsUtf8 (map (λ t. t.now) texts.now) → ⊥)
        (λ words. (map string_bytes words.items ≡ map (λ t. t.now) texts.now)
        × All IsUtf8 (map (λ t. t.now) texts.now))) }
{
    let mut words = Vec::with_capacity(alloc, texts.len())?;
    for text in texts {
        let Ok(word) = str::from_utf8(text) else {
            return Ok(None);
        };
        words.push(String::from_str(alloc, word)?)?;
    }
    Ok(Some(words))
}
