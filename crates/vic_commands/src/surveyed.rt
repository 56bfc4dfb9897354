//! The command `survey`: of each log only the text of its survey is kept.

ghost use Rattle.std.specs.Prelude.{◌≡◌, [], ◌∷◌, ◌++◌, List, IfOk};
ghost use Rattle.vic_survey.specs.Surveys.{SurveyValue};
ghost use Rattle.vic_commands.specs.Surveyed as spec;
ghost use Rattle.vic_commands.specs.Taken.{HasTakenLogs};

use crate::commands::Output;
use crate::gathering::Gather;
use std::alloc::{AllocError, Global};
use vic_answer::{Status, WrittenText};
use vic_survey::{Name, Survey, SurveyedField, push_survey};

/// What `survey` keeps of the logs that it has taken.
#[derive(Drop)]
pub enum TakenLogs {
    /// The text of their surveys, and its status.
    Surveyed(WrittenText),
    /// One has a name that no log could have.
    Unnamed,
}

impl Gather for TakenLogs {
    ghost Writes = { spec.IsSurveyRun };

    ghost HasTaken = { HasTakenLogs };

    fn begin(alloc: Global) -> TakenLogs {
        TakenLogs::Surveyed(WrittenText {
            text: Vec::new(alloc),
            status: Status::Whole,
        })
    }

    fn add(self, alloc: Global, name: &str, text: Vec<u8>) -> Result<TakenLogs, AllocError> {
        let Some(name) = Name::new(String::from_str(alloc, name)?) else {
            return Ok(TakenLogs::Unnamed);
        };
        match self {
            TakenLogs::Surveyed(before) => {
                let survey = Survey::of(alloc, name, text.as_slice())?;
                Ok(TakenLogs::Surveyed(with_survey(before, &survey)?))
            }
            TakenLogs::Unnamed => Ok(TakenLogs::Unnamed),
        }
    }

    fn finish(self, _alloc: Global) -> Result<Output, AllocError> {
        match self {
            TakenLogs::Surveyed(written) => {
                if written.text.as_slice().is_empty() {
                    Ok(Output::Usage)
                } else {
                    Ok(Output::Answer(written))
                }
            }
            TakenLogs::Unnamed => Ok(Output::Usage),
        }
    }
}

/// What is written for surveys and one more.
fn with_survey(before: WrittenText, survey: &Survey) -> Result<WrittenText, AllocError>
    ensures { IfOk result (λ more. (surveys : List SurveyValue)
        → spec.AreWrittenAs surveys before.text.items before.status
        → spec.AreWrittenAs (surveys ++ survey.now ∷ []) more.text.items more.status) }
{
    let WrittenText { mut text, status } = before;
    push_survey(&mut text, survey)?;
    let status = status_with(status, survey.field());
    Ok(WrittenText { text, status })
}

/// The status of surveys and of one more that says this.
fn status_with(before: Status, field: &SurveyedField) -> Status
    ensures { (surveys : List SurveyValue) (more : SurveyValue)
        → before ≡ spec.status_of surveys → more.field ≡ field.now
        → result ≡ spec.status_of (surveys ++ more ∷ []) }
{
    match (before, field) {
        (Status::Refused, _) | (_, SurveyedField::Refused { .. }) => Status::Refused,
        (Status::Impossible, _) | (_, SurveyedField::Impossible { .. }) => Status::Impossible,
        (_, SurveyedField::Possible(_)) => before,
    }
}
