//! What a log says of its field.

ghost use Rattle.std.specs.Prelude.{◌≡◌};
ghost use Rattle.vic_survey.specs.Surveys.{IsFieldInRange, IsSurvey};
ghost use Rattle.vic_survey.specs.inner.Steps.{nothing};

use crate::name::Name;
use crate::rising::{CertainUids, RisingMasks};
use std::alloc::Global;
use std::marker::Model;
use vic_frame::Mask;
use vic_log::{LineFault, MAX_LINES};

/// The greatest number of answers, and the greatest margin.
pub const MAX_COUNT: u32 = 999_999;

const _: () = prove!(MAX_COUNT + 1 == MAX_LINES);

/// What a log says of its field.
#[derive(Drop)]
pub enum SurveyedField {
    /// The text is no log: this line has its first fault. A fault that a line and a frame have by
    /// the same name is that of the line.
    Refused { line: u32, fault: LineFault },
    /// No population could have produced the lines up to this one, and it is the first such line.
    Impossible { line: u32 },
    /// The log is possible.
    Possible(FieldFacts),
}

/// What a possible log says of its field.
#[derive(Drop)]
pub struct FieldFacts {
    /// How many of its slot lines say that tags answered.
    pub answers: u32,
    /// The UIDs that are in every population that could have produced it, each with a line that
    /// shows it.
    pub certain: CertainUids,
    /// The masks of at most 56 bits all of whose UIDs are possible, and that aren't half of such a
    /// mask, without those all of whose UIDs are certain.
    pub open: RisingMasks,
    /// The margin of the log, with the certain UIDs as its list.
    pub margin: u32,
    /// The first mask, by length, then by value, all of whose UIDs have that margin and aren't
    /// certain.
    pub weakest: Mask,
    /// The first mask, by length, then by value, of at most 56 bits, all of whose UIDs would be
    /// possible if replies had hidden others, and aren't.
    pub hidden: Option<Mask>,
    /// The same if besides the reader had gone deaf after its last answer.
    pub deaf: Option<Mask>,
}

impl FieldFacts {
    /// What a log says of which nothing was read.
    pub(crate) fn nothing(alloc: Global) -> FieldFacts
        ensures { result ≡ nothing }
    {
        FieldFacts {
            answers: 0,
            certain: CertainUids::none(alloc),
            open: RisingMasks::none(alloc),
            margin: 0,
            weakest: Mask::default(),
            hidden: None,
            deaf: None,
        }
    }
}

/// The name of a log, and what it says of its field.
#[derive(Drop)]
pub struct Survey {
    name: Name,
    field: SurveyedField,
}

impl Model for Survey {
    ghost use Rattle.vic_survey.specs.Surveys.{SurveyValue, IsSurvey};

    ghost Value = { SurveyValue };

    ghost view = { λ a. record { name = a.name; field = a.field } };

    ghost invariant = { λ a. IsSurvey (record { name = a.name; field = a.field }) };
}

impl Survey {
    /// The survey of a log with this name that says so.
    pub fn new(name: Name, field: SurveyedField) -> Survey
        requires { IsFieldInRange field }
        ensures { result ≡ record { name = name; field = field } }
    {
        Survey { name, field }
    }

    /// The name of the log.
    pub fn name(&self) -> &Name
        ensures value { result.now ≡ self.now.name }
        ensures survey { IsSurvey self.now }
    {
        &self.name
    }

    /// What the log says.
    pub fn field(&self) -> &SurveyedField
        ensures value { result.now ≡ self.now.field }
        ensures survey { IsSurvey self.now }
    {
        &self.field
    }
}
