//! The least margin of the logs of a collection.

ghost use Rattle.std.specs.Prelude.{◌≡◌, Some};
ghost use Rattle.vic_result.specs.LeastMargin.{least_margin, lesser, margin_of};

use vic_frame::Mask;
use vic_survey::{Survey, SurveyedField};

/// The margin of a log, its weakest mask, and the position of the log.
#[derive(Clone, Copy, Debug)]
pub struct LogMargin {
    pub margin: u32,
    pub weakest: Mask,
    pub log: usize,
}

/// The margin of a log at a position.
fn margin_of(log: usize, field: &SurveyedField) -> Option<LogMargin>
    ensures { result ≡ margin_of log field.now }
{
    match field {
        SurveyedField::Refused { .. } | SurveyedField::Impossible { .. } => None,
        SurveyedField::Possible(facts) => Some(LogMargin {
            margin: facts.margin,
            weakest: facts.weakest,
            log,
        }),
    }
}

/// The lesser of two margins, the first if they are the same.
fn lesser(first: Option<LogMargin>, other: Option<LogMargin>) -> Option<LogMargin>
    ensures { result ≡ lesser first other }
{
    match first {
        Some(one) => Some(lesser_of(one, other)),
        None => other,
    }
}

/// The lesser of a margin and another, if there is one.
fn lesser_of(first: LogMargin, other: Option<LogMargin>) -> LogMargin
    ensures { lesser (Some first) other ≡ Some result }
{
    match other {
        Some(two) => {
            if first.margin <= two.margin {
                first
            } else {
                two
            }
        }
        None => first,
    }
}

/// The least margin of some logs, and the first of them that has it.
pub(crate) fn least_margin(surveys: &[Survey]) -> Option<LogMargin>
    ensures { result ≡ least_margin 0 surveys.now }
{
    let mut least = None;
    let mut index = surveys.len();
    while index > 0 {
        index -= 1;
        least = lesser(margin_of(index, surveys[index].field()), least);
    }
    least
}
