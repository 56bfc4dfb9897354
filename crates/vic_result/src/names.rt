//! The names of logs.

ghost use Rattle.std.specs.Prelude.{◌≡◌};
ghost use Rattle.vic_result.specs.NamesAt.{name_at};

use vic_survey::Survey;

/// The name of the log at a position.
pub(crate) fn name_at(surveys: &[Survey], log: usize) -> &[u8]
    ensures { result.now ≡ name_at surveys.now log }
{
    match surveys.get(log) {
        Some(survey) => survey.name().as_str().as_bytes(),
        None => &[],
    }
}
