//! The line of the answer of a collection, and its status.

ghost use Rattle.std.specs.Prelude.{◌≡◌, ◌++◌, OnOk, codes, decimal};
ghost use Rattle.vic_text.specs.Digits.{mask_text, uid_text};
ghost use Rattle.vic_collection.specs.Findings.{AreFindings};
ghost use Rattle.vic_result.specs.Answered.{IsAnswerStatus, answer_line, answer_status, not_possible_line, not_possible_status};

use crate::names::name_at;
use std::alloc::AllocError;
use vic_collection::{Collection, CollectionAnswer, Findings};
use vic_frame::{Mask, Uid};
use vic_survey::SurveyedField;
use vic_text::{push_decimal, push_mask, push_uid};

/// What is written of a collection, with the status of its answer.
#[derive(Drop)]
pub struct ResultText {
    pub text: Vec<u8>,
    /// From 0 to 3.
    pub status: u8,
}

/// Appends the line of an answer, without an end.
pub fn push_answer_line(
    text: &mut Vec<u8>,
    collection: &Collection,
    answer: &CollectionAnswer<'_>,
) -> Result<(), AllocError>
    ensures { OnOk result
        (text.new.items ≡ text.old.items ++ answer_line collection.now answer.now) }
{
    match answer {
        CollectionAnswer::NotPossible { log } => push_not_possible_at(text, collection, *log),
        CollectionAnswer::Absent { uid } => push_words_uid(text, b"absent ", *uid),
        CollectionAnswer::Unlisted { uid } => push_words_uid(text, b"unlisted ", *uid),
        CollectionAnswer::Unsettled { mask } => push_words_mask(text, b"unsettled ", mask),
        CollectionAnswer::Doubtful { uid } => push_words_uid(text, b"doubtful ", *uid),
        CollectionAnswer::Misplaced { uid } => push_words_uid(text, b"misplaced ", *uid),
        CollectionAnswer::Returned { uid } => push_words_uid(text, b"returned ", *uid),
        CollectionAnswer::NotCounted { uid } => push_words_uid(text, b"not counted ", *uid),
        CollectionAnswer::WithoutLog { place } => push_words(text, b"no log of ", place),
        CollectionAnswer::LeftOver { log } => {
            push_words(text, b"left over ", name_at(collection.surveys(), *log))
        }
        CollectionAnswer::Complete { count } => push_words_count(text, b"complete ", *count),
    }
}

/// The status of an answer.
pub fn answer_status(collection: &Collection, answer: &CollectionAnswer<'_>) -> u8
    ensures { result ≡ answer_status collection.now answer.now }
{
    match answer {
        CollectionAnswer::NotPossible { log } => match collection.surveys().get(*log) {
            Some(survey) => not_possible_status(survey.field()),
            None => 3,
        },
        CollectionAnswer::Complete { .. } => 0,
        _ => 1,
    }
}

/// The status of the collection that has these findings.
pub(crate) fn status_by(collection: &Collection, findings: &Findings<'_>) -> u8
    requires { AreFindings collection.now findings.now }
    ensures { IsAnswerStatus collection.now result }
{
    answer_status(collection, &findings.answer())
}

/// The status of a log that isn't possible. No possible one is asked for it: its 3 means nothing.
fn not_possible_status(field: &SurveyedField) -> u8
    ensures { result ≡ not_possible_status field.now }
{
    match field {
        SurveyedField::Refused { .. } => 3,
        SurveyedField::Impossible { .. } => 2,
        SurveyedField::Possible(_) => 3,
    }
}

/// Appends why the log at a position isn't possible.
fn push_not_possible_at(
    text: &mut Vec<u8>,
    collection: &Collection,
    log: usize,
) -> Result<(), AllocError>
    ensures { OnOk result (text.new.items ≡ text.old.items
        ++ answer_line collection.now (CollectionAnswer.NotPossible log)) }
{
    match collection.surveys().get(log) {
        Some(survey) => {
            push_not_possible(text, survey.name().as_str().as_bytes(), survey.field())
        }
        None => Ok(()),
    }
}

/// Appends why a log isn't possible.
fn push_not_possible(
    text: &mut Vec<u8>,
    name: &[u8],
    field: &SurveyedField,
) -> Result<(), AllocError>
    ensures { OnOk result
        (text.new.items ≡ text.old.items ++ not_possible_line name.now field.now) }
{
    match field {
        SurveyedField::Refused { line, fault } => {
            push_line_of_log(text, b"refused at line ", *line, name)?;
            text.extend_from_slice(b": ")?;
            text.extend_from_slice(fault.name().as_bytes())
        }
        SurveyedField::Impossible { line } => push_line_of_log(
            text,
            b"impossible at line ",
            *line,
            name,
        ),
        SurveyedField::Possible(_) => Ok(()),
    }
}

/// Appends words, the number of a line and a name.
fn push_line_of_log(
    text: &mut Vec<u8>,
    words: &[u8],
    line: u32,
    name: &[u8],
) -> Result<(), AllocError>
    ensures { OnOk result (text.new.items
        ≡ text.old.items ++ (words.now ++ decimal line ++ codes " of " ++ name.now)) }
{
    text.extend_from_slice(words)?;
    push_decimal(text, u64::from(line))?;
    text.extend_from_slice(b" of ")?;
    text.extend_from_slice(name)
}

/// Appends words and a text.
pub(crate) fn push_words(text: &mut Vec<u8>, words: &[u8], more: &[u8]) -> Result<(), AllocError>
    ensures { OnOk result (text.new.items ≡ text.old.items ++ (words.now ++ more.now)) }
{
    text.extend_from_slice(words)?;
    text.extend_from_slice(more)
}

/// Appends words and a UID.
pub(crate) fn push_words_uid(text: &mut Vec<u8>, words: &[u8], uid: Uid) -> Result<(), AllocError>
    ensures { OnOk result (text.new.items ≡ text.old.items ++ (words.now ++ uid_text uid)) }
{
    text.extend_from_slice(words)?;
    push_uid(text, uid)
}

/// Appends words and a mask.
pub(crate) fn push_words_mask(
    text: &mut Vec<u8>,
    words: &[u8],
    mask: &Mask,
) -> Result<(), AllocError>
    ensures { OnOk result (text.new.items ≡ text.old.items ++ (words.now ++ mask_text mask.now)) }
{
    text.extend_from_slice(words)?;
    push_mask(text, mask)
}

/// Appends words and a count.
fn push_words_count(text: &mut Vec<u8>, words: &[u8], count: usize) -> Result<(), AllocError>
    ensures { OnOk result (text.new.items ≡ text.old.items ++ (words.now ++ decimal count)) }
{
    text.extend_from_slice(words)?;
    push_decimal(text, count as u64)
}
