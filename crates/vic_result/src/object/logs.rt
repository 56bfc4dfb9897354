//! The logs of an object.

ghost use Rattle.std.specs.Prelude.{◌≡◌, ◌<◌, ◌++◌, OnOk, IfOk, IsSomeAnd, decimal, length, slice_get};
ghost use Rattle.std.specs.Option.{option_map};
ghost use Rattle.vic_result.specs.ResultObject.{field_json, field_line, is_shared, log_head_json, log_json, open_masks_json, seen_counts_json, seen_reach_json, shared_count};

use crate::object::values::push_optional_string;
use std::alloc::{AllocError, Global};
use vic_collection::Collection;
use vic_frame::Uid;
use vic_report::ShownUid;
use vic_survey::{FieldFacts, Survey, SurveyedField};
use vic_text::{ToJson, push_decimal, push_json_list, push_json_string};
use vic_tree::OpenMasks;

/// What a log says of its field, in a line.
fn field_line(alloc: Global, field: &SurveyedField) -> Result<Vec<u8>, AllocError>
    ensures { IfOk result (λ line. line.items ≡ field_line field.now) }
{
    let mut line = Vec::new(alloc);
    match field {
        SurveyedField::Refused {
            line: number,
            fault,
        } => {
            push_words_number(&mut line, b"refused at line ", *number)?;
            line.extend_from_slice(b": ")?;
            line.extend_from_slice(fault.name().as_bytes())?;
        }
        SurveyedField::Impossible { line: number } => {
            push_words_number(&mut line, b"impossible at line ", *number)?;
        }
        SurveyedField::Possible(_) => line.extend_from_slice(b"possible")?,
    }
    Ok(line)
}

/// Appends words and a number.
fn push_words_number(text: &mut Vec<u8>, words: &[u8], number: u32) -> Result<(), AllocError>
    ensures { OnOk result (text.new.items ≡ text.old.items ++ (words.now ++ decimal number)) }
{
    text.extend_from_slice(words)?;
    push_decimal(text, u64::from(number))
}

/// Appends the name of a log, its place, whether it is left over, and what it says of its field.
fn push_log_head(
    text: &mut Vec<u8>,
    name: &[u8],
    place: Option<&[u8]>,
    left_over: bool,
    field: &[u8],
) -> Result<(), AllocError>
    ensures { OnOk result (text.new.items ≡ text.old.items ++ log_head_json
        name.now (option_map (λ p. p.now) place.entry) left_over field.now) }
{
    text.extend_from_slice(b"{\"name\":")?;
    push_json_string(text, name)?;
    text.extend_from_slice(b",\"place\":")?;
    push_optional_string(text, place)?;
    text.extend_from_slice(b",\"left_over\":")?;
    left_over.push_json(text)?;
    text.extend_from_slice(b",\"field\":")?;
    push_json_string(text, field)
}

/// Whether a UID is certain in more logs than one.
fn is_shared(collection: &Collection, uid: Uid) -> bool
    ensures { result ≡ is_shared collection.now uid }
{
    collection.certain_in(uid).len() > 1
}

/// How many of some UIDs are certain in more logs than one.
fn shared_count(collection: &Collection, certain: &[ShownUid]) -> usize
    ensures { result ≡ shared_count collection.now certain.now }
{
    certain
        .iter()
        .filter(|shown| is_shared(collection, shown.uid))
        .count()
}

/// Appends how many answers a possible log has, how many UIDs are certain, and how many of these in
/// other logs.
fn push_log_counts(
    text: &mut Vec<u8>,
    answers: u32,
    certain: usize,
    shared: usize,
) -> Result<(), AllocError>
    ensures { OnOk result
        (text.new.items ≡ text.old.items ++ seen_counts_json answers certain shared) }
{
    text.extend_from_slice(b",\"answers\":")?;
    push_decimal(text, u64::from(answers))?;
    text.extend_from_slice(b",\"certain\":")?;
    push_decimal(text, certain as u64)?;
    text.extend_from_slice(b",\"shared\":")?;
    push_decimal(text, shared as u64)
}

/// Appends the first open masks of a log, and whether there are more.
fn push_log_masks(text: &mut Vec<u8>, masks: &OpenMasks) -> Result<(), AllocError>
    ensures { OnOk result (text.new.items ≡ text.old.items ++ open_masks_json masks.now) }
{
    text.extend_from_slice(b",\"open\":")?;
    push_json_list(text, masks.masks.as_slice())?;
    text.extend_from_slice(b",\"more\":")?;
    masks.more.push_json(text)
}

/// Appends the margin of a log, its weakest mask, and what its hidden and its deaf reading open.
fn push_log_margin(text: &mut Vec<u8>, facts: &FieldFacts) -> Result<(), AllocError>
    ensures { OnOk result (text.new.items ≡ text.old.items ++ seen_reach_json facts.now) }
{
    text.extend_from_slice(b",\"margin\":")?;
    facts.margin.push_json(text)?;
    text.extend_from_slice(b",\"weakest\":")?;
    facts.weakest.push_json(text)?;
    text.extend_from_slice(b",\"hidden\":")?;
    facts.hidden.push_json(text)?;
    text.extend_from_slice(b",\"deaf\":")?;
    facts.deaf.push_json(text)
}

/// Appends what a possible log says.
fn push_field_facts(
    text: &mut Vec<u8>,
    collection: &Collection,
    masks: &OpenMasks,
    facts: &FieldFacts,
) -> Result<(), AllocError>
    ensures { OnOk result (text.new.items ≡ text.old.items
        ++ field_json collection.now masks.now (SurveyedField.Possible facts.now)) }
{
    let certain = facts.certain.as_slice();
    let shared = shared_count(collection, certain);
    push_log_counts(text, facts.answers, certain.len(), shared)?;
    push_log_masks(text, masks)?;
    push_log_margin(text, facts)?;
    Ok(())
}

/// Appends what a log says of its field, if it is possible.
fn push_field(
    text: &mut Vec<u8>,
    collection: &Collection,
    masks: &OpenMasks,
    field: &SurveyedField,
) -> Result<(), AllocError>
    ensures { OnOk result
        (text.new.items ≡ text.old.items ++ field_json collection.now masks.now field.now) }
{
    match field {
        SurveyedField::Refused { .. } | SurveyedField::Impossible { .. } => Ok(()),
        SurveyedField::Possible(facts) => push_field_facts(text, collection, masks, facts),
    }
}

/// Appends a log, with its first open masks.
pub(crate) fn push_log(
    alloc: Global,
    text: &mut Vec<u8>,
    collection: &Collection,
    masks: &OpenMasks,
    index: usize,
) -> Result<(), AllocError>
    requires { index < length collection.now.surveys }
    ensures { OnOk result (IsSomeAnd (slice_get collection.now.surveys index) (λ s.
        text.new.items ≡ text.old.items ++ log_json collection.now masks.now s)) }
{
    let survey = &collection.surveys()[index];
    let line = field_line(alloc, survey.field())?;
    let name = survey.name().as_str().as_bytes();
    let place = collection.place_of_log(index);
    let left_over = collection.is_left_over(index);
    push_log_head(text, name, place, left_over, line.as_slice())?;
    push_field(text, collection, masks, survey.field())?;
    text.extend_from_slice(b"}")?;
    Ok(())
}
