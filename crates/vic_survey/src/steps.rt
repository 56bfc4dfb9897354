//! What one more line makes of a survey that was begun.

ghost use Rattle.std.specs.Prelude.{◌≡◌, ◌++◌, ◌∷◌, [], IfOk, Some};
ghost use Rattle.vic_survey.specs.Names.{IsName};
ghost use Rattle.vic_survey.specs.Surveys.{AreFactsInRange};
ghost use Rattle.vic_survey.specs.declared.begun.Begun.TheVariants.{Named, UpTo};
ghost use Rattle.vic_survey.specs.inner.Steps as spec;
ghost use Rattle.vic_survey.specs.declared.begun.Part.TheVariants as part;
ghost use Rattle.vic_survey.specs.inner.Values.{name_in};

use crate::begun::{Begun, Part, StepFault};
use crate::name::Name;
use crate::survey::{FieldFacts, Survey, SurveyedField};
use crate::values::{certain_after, count_after, field_in, found_after, mask_after};
use std::alloc::Global;

/// The name in the first line of a survey.
pub(crate) fn read_name(alloc: Global, line: &[u8]) -> Result<Name, StepFault>
    ensures { spec.Gives result (name_in line.now) }
{
    let Some(name) = line.strip_prefix(b"vicinity-survey 1 ") else {
        return Err(StepFault::Wrong);
    };
    let Ok(text) = std::str::from_utf8(name) else {
        return Err(StepFault::Wrong);
    };
    match Name::new(String::from_str(alloc, text)?) {
        Some(name) => Ok(name),
        None => Err(StepFault::Wrong),
    }
}

/// What a line makes of a survey of which the name was read.
pub(crate) fn after_name(alloc: Global, name: Name, line: &[u8]) -> Result<Begun, StepFault>
    requires { IsName name }
    ensures read { spec.Gives result (spec.after_name name line.now) }
    ensures more { IfOk result (λ b.
        spec.lines_of (Some b) ≡ spec.lines_of (Some (Named name)) ++ line.now ∷ []) }
{
    if line == b"possible".as_slice() {
        return Ok(Begun::UpTo(name, FieldFacts::nothing(alloc), Part::Possible));
    }
    match field_in(line) {
        Some(field) => Ok(Begun::Unsealed(Survey::new(name, field))),
        None => Err(StepFault::Wrong),
    }
}

/// What a line makes of what a possible log says.
pub(crate) fn next_part(
    name: Name,
    facts: FieldFacts,
    part: Part,
    line: &[u8],
) -> Result<Begun, StepFault>
    requires name { IsName name }
    requires facts { AreFactsInRange facts }
    requires at { spec.IsAt part facts }
    ensures read { spec.Gives result (spec.next_part name facts part line.now) }
    ensures more { IfOk result (λ b.
        spec.lines_of (Some b) ≡ spec.lines_of (Some (UpTo name facts part)) ++ line.now ∷ []) }
{
    after_part(name, facts, part, line)
}

/// The same, part by part.
fn after_part(name: Name, facts: FieldFacts, part: Part, line: &[u8]) -> Result<Begun, StepFault>
    requires { AreFactsInRange facts }
    ensures { spec.Gives result (spec.next_part name facts part line.now) }
{
    match part {
        Part::Possible => after_possible(name, facts, line),
        Part::Lists => in_lists(name, facts, line),
        Part::Margin => after_margin(name, facts, line),
        Part::Weakest => after_weakest(name, facts, line),
        Part::Hidden => after_hidden(name, facts, line),
    }
}

/// The number of answers.
fn after_possible(name: Name, facts: FieldFacts, line: &[u8]) -> Result<Begun, StepFault>
    ensures { spec.Gives result (spec.next_part name facts part.Possible line.now) }
{
    let Some(answers) = count_after(b"answers ", line) else {
        return Err(StepFault::Wrong);
    };
    let mut facts = facts;
    facts.answers = answers;
    Ok(Begun::UpTo(name, facts, Part::Lists))
}

/// One more certain UID or open mask, or the margin.
fn in_lists(name: Name, facts: FieldFacts, line: &[u8]) -> Result<Begun, StepFault>
    ensures { spec.Gives result (spec.next_part name facts part.Lists line.now) }
{
    let mut facts = facts;
    if let Some(one) = certain_after(line) {
        if facts.open.is_empty() && facts.certain.is_above(one.uid) {
            facts.certain.push(one)?;
            return Ok(Begun::UpTo(name, facts, Part::Lists));
        }
    }
    if let Some(mask) = mask_after(b"open ", line) {
        if facts.open.is_behind(&mask) {
            facts.open.push(mask)?;
            return Ok(Begun::UpTo(name, facts, Part::Lists));
        }
    }
    let Some(margin) = count_after(b"margin ", line) else {
        return Err(StepFault::Wrong);
    };
    facts.margin = margin;
    Ok(Begun::UpTo(name, facts, Part::Margin))
}

/// The weakest mask.
fn after_margin(name: Name, facts: FieldFacts, line: &[u8]) -> Result<Begun, StepFault>
    ensures { spec.Gives result (spec.next_part name facts part.Margin line.now) }
{
    let Some(weakest) = mask_after(b"weakest ", line) else {
        return Err(StepFault::Wrong);
    };
    let mut facts = facts;
    facts.weakest = weakest;
    Ok(Begun::UpTo(name, facts, Part::Weakest))
}

/// What hidden replies leave open.
fn after_weakest(name: Name, facts: FieldFacts, line: &[u8]) -> Result<Begun, StepFault>
    ensures { spec.Gives result (spec.next_part name facts part.Weakest line.now) }
{
    let Some(hidden) = found_after(b"hidden ", line) else {
        return Err(StepFault::Wrong);
    };
    let mut facts = facts;
    facts.hidden = hidden;
    Ok(Begun::UpTo(name, facts, Part::Hidden))
}

/// What a deaf reader leaves open.
fn after_hidden(name: Name, facts: FieldFacts, line: &[u8]) -> Result<Begun, StepFault>
    requires { AreFactsInRange facts }
    ensures { spec.Gives result (spec.next_part name facts part.Hidden line.now) }
{
    let Some(deaf) = found_after(b"deaf ", line) else {
        return Err(StepFault::Wrong);
    };
    let mut facts = facts;
    facts.deaf = deaf;
    Ok(Begun::Unsealed(Survey::new(name, SurveyedField::Possible(facts))))
}
