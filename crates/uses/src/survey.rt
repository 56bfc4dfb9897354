//! Uses of `vic_survey`.

ghost use Rattle.std.specs.Prelude.{◌≡◌, IfOk};
ghost use Rattle.vic_survey.specs.SurveyText.{text_of};

use std::alloc::{AllocError, Global};
use vic_survey::{Survey, SurveysFault, push_survey, read_surveys};

/// The text of surveys.
pub fn surveys_text(alloc: Global, surveys: &[Survey]) -> Result<Vec<u8>, AllocError>
    ensures { IfOk result (λ text. text.items ≡ text_of surveys.now) }
{
    let mut text = Vec::new(alloc);
    for survey in surveys {
        push_survey(&mut text, survey)?;
    }
    Ok(text)
}

/// A text of surveys that is read, and written again: it is the same text.
pub fn written_again(alloc: Global, text: &[u8]) -> Result<Vec<u8>, SurveysFault>
    ensures { IfOk result (λ again. again.items ≡ text.now) }
{
    let surveys = read_surveys(alloc, text)?;
    let again = surveys_text(alloc, surveys.as_slice())?;
    Ok(again)
}
