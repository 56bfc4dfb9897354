//! The text of surveys.

ghost use Rattle.std.specs.Prelude.{◌≡◌, ◌+◌, ◌^◌, ◌<◌, ◌++◌, ◌∷◌, [], OnOk, IfOk, codes, decimal, length, map};
ghost use Rattle.vic_log.specs.Lines.{lf};
ghost use Rattle.vic_log.specs.Writing.{joined};
ghost use Rattle.vic_text.specs.Digits.{hex_bytes, mask_text};
ghost use Rattle.vic_survey.specs.SurveyText as spec;

use crate::survey::{FieldFacts, Survey, SurveyedField};
use std::alloc::AllocError;
use vic_frame::{Mask, crc};
use vic_report::ShownUid;
use vic_text::{push_bytes, push_decimal, push_mask, push_uid};

/// Appends the text of a survey: it may stand behind others.
pub fn push_survey(text: &mut Vec<u8>, survey: &Survey) -> Result<(), AllocError>
    ensures { OnOk result
        (text.new.items ≡ text.old.items ++ joined (spec.survey_lines survey.now)) }
{
    let start = text.as_slice().len();
    let count = push_lines(text, survey)?;
    let crc = crc(&text[start..]);
    push_seal(text, count + 1, crc)
}

/// Appends the lines of a survey before its seal, and says how many they are.
fn push_lines(text: &mut Vec<u8>, survey: &Survey) -> Result<u64, AllocError>
    ensures text { OnOk result
        (text.new.items ≡ text.old.items ++ joined (spec.lines_before survey.now)) }
    ensures count { IfOk result (λ n. n ≡ length (spec.lines_before survey.now)) }
    ensures few { IfOk result (λ n. n < 2 ^ 63) }
{
    push_line(
        text,
        b"vicinity-survey 1 ",
        survey.name().as_str().as_bytes(),
    )?;
    match survey.field() {
        SurveyedField::Refused { line, fault } => push_refused(text, *line, fault.name())?,
        SurveyedField::Impossible { line } => push_counted(text, b"impossible at line ", *line)?,
        SurveyedField::Possible(facts) => return push_facts(text, facts),
    }
    Ok(2)
}

/// Appends a line of two parts.
fn push_line(text: &mut Vec<u8>, words: &[u8], more: &[u8]) -> Result<(), AllocError>
    ensures { OnOk result
        (text.new.items ≡ text.old.items ++ (words.now ++ more.now) ++ lf ∷ []) }
{
    text.extend_from_slice(words)?;
    text.extend_from_slice(more)?;
    text.extend_from_slice(b"\n")
}

/// Appends why a text has no log.
fn push_refused(text: &mut Vec<u8>, line: u32, name: &str) -> Result<(), AllocError>
    ensures { OnOk result (text.new.items ≡ text.old.items
        ++ (codes "refused at line " ++ decimal line ++ codes ": " ++ name.now) ++ lf ∷ []) }
{
    text.extend_from_slice(b"refused at line ")?;
    push_decimal(text, u64::from(line))?;
    text.extend_from_slice(b": ")?;
    text.extend_from_slice(name.as_bytes())?;
    text.extend_from_slice(b"\n")
}

/// Appends a line of words and a number.
fn push_counted(text: &mut Vec<u8>, words: &[u8], number: u32) -> Result<(), AllocError>
    ensures { OnOk result
        (text.new.items ≡ text.old.items ++ (words.now ++ decimal number) ++ lf ∷ []) }
{
    text.extend_from_slice(words)?;
    push_decimal(text, u64::from(number))?;
    text.extend_from_slice(b"\n")
}

/// Appends a line of words and a mask.
fn push_masked(text: &mut Vec<u8>, words: &[u8], mask: &Mask) -> Result<(), AllocError>
    ensures { OnOk result
        (text.new.items ≡ text.old.items ++ (words.now ++ mask_text mask.now) ++ lf ∷ []) }
{
    text.extend_from_slice(words)?;
    push_mask(text, mask)?;
    text.extend_from_slice(b"\n")
}

/// Appends a line of words and a mask, `-` if there is none.
fn push_found(text: &mut Vec<u8>, words: &[u8], mask: &Option<Mask>) -> Result<(), AllocError>
    ensures { OnOk result
        (text.new.items ≡ text.old.items ++ (words.now ++ spec.found_text mask.now) ++ lf ∷ []) }
{
    match mask {
        Some(mask) => push_masked(text, words, mask),
        None => {
            text.extend_from_slice(words)?;
            text.extend_from_slice(b"-\n")
        }
    }
}

/// Appends what a possible log says, and says how many lines a survey has with it.
fn push_facts(text: &mut Vec<u8>, facts: &FieldFacts) -> Result<u64, AllocError>
    ensures text { OnOk result (text.new.items ≡ text.old.items
        ++ joined (codes "possible" ∷ spec.facts_lines facts.now)) }
    ensures count { IfOk result (λ n. n ≡ 2 + length (spec.facts_lines facts.now)) }
    ensures few { IfOk result (λ n. n < 2 ^ 63) }
{
    push_line(text, b"possible", b"")?;
    push_counted(text, b"answers ", facts.answers)?;
    push_certain(text, facts.certain.as_slice())?;
    push_open(text, facts.open.as_slice())?;
    push_counted(text, b"margin ", facts.margin)?;
    push_masked(text, b"weakest ", &facts.weakest)?;
    push_found(text, b"hidden ", &facts.hidden)?;
    push_found(text, b"deaf ", &facts.deaf)?;
    Ok(7 + (facts.certain.as_slice().len() + facts.open.as_slice().len()) as u64)
}

/// Appends certain UIDs, each with its line.
fn push_certain(text: &mut Vec<u8>, certain: &[ShownUid]) -> Result<(), AllocError>
    ensures { OnOk result (text.new.items
        ≡ text.old.items ++ joined (map spec.certain_line certain.now)) }
{
    for one in certain {
        push_one_certain(text, one)?;
    }
    Ok(())
}

/// Appends a certain UID and its line.
fn push_one_certain(text: &mut Vec<u8>, one: &ShownUid) -> Result<(), AllocError>
    ensures { OnOk result (text.new.items
        ≡ text.old.items ++ spec.certain_line one.now ++ lf ∷ []) }
{
    text.extend_from_slice(b"certain ")?;
    push_uid(text, one.uid)?;
    text.extend_from_slice(b" by line ")?;
    push_decimal(text, u64::from(one.line))?;
    text.extend_from_slice(b"\n")
}

/// Appends open masks.
fn push_open(text: &mut Vec<u8>, masks: &[Mask]) -> Result<(), AllocError>
    ensures { OnOk result (text.new.items
        ≡ text.old.items ++ joined (map spec.open_line masks.now)) }
{
    for mask in masks {
        push_masked(text, b"open ", mask)?;
    }
    Ok(())
}

/// Appends a seal.
fn push_seal(text: &mut Vec<u8>, count: u64, crc: u16) -> Result<(), AllocError>
    ensures { OnOk result (text.new.items ≡ text.old.items
        ++ (codes "end " ++ decimal count ++ codes " " ++ hex_bytes 2 crc) ++ lf ∷ []) }
{
    text.extend_from_slice(b"end ")?;
    push_decimal(text, count)?;
    text.extend_from_slice(b" ")?;
    push_bytes(text, 2, u64::from(crc))?;
    text.extend_from_slice(b"\n")
}
