//! Reading a text of surveys.

ghost use Rattle.std.specs.Prelude.{◌≡◌, ◌+◌, ◌^◌, ◌<◌, ◌≤◌, ◌++◌, ◌∷◌, List, [], IfErr, IfOk, IfSome, None, Some, length, codes, decimal};
ghost use Rattle.arrayvec.specs.ArrayVec.{array_vec_len};
ghost use Rattle.vic_frame.specs.Crc.{crc};
ghost use Rattle.vic_log.specs.Writing.{joined};
ghost use Rattle.vic_text.specs.Digits.{hex_bytes};
ghost use Rattle.vic_survey.specs.Surveys.{AreSurveys, SurveyValue};
ghost use Rattle.vic_survey.specs.SurveyReading as texts;
ghost use Rattle.vic_survey.specs.SurveyText.{lines_before, text_of};
ghost use Rattle.vic_survey.specs.declared.begun.Begun.TheVariants.{Unsealed};
ghost use Rattle.vic_survey.specs.inner.States.{GivesState, state_of};
ghost use Rattle.vic_survey.specs.inner.Steps as spec;

use crate::begun::{Begun, StepFault};
use crate::fault::SurveysFault;
use crate::steps::{after_name, next_part, read_name};
use crate::survey::Survey;
use crate::values::parted;
use arrayvec::ArrayVec;
use itoa::Buffer;
use std::alloc::Global;
use vic_frame::crc;
use vic_text::hex_digits;

/// The greatest length of a seal.
const SEAL_ROOM: usize = 48;

/// The surveys that were read, and what was read of one more.
#[derive(Drop)]
struct ReadSoFar {
    surveys: Vec<Survey>,
    begun: Option<Begun>,
    /// How many lines of the last one were read.
    count: usize,
}

/// The surveys of a text; a text of no surveys is refused at its first wrong line.
pub fn read_surveys(alloc: Global, text: &[u8]) -> Result<Vec<Survey>, SurveysFault>
    ensures found { IfOk result (λ v. text.now ≡ text_of v.items) }
    ensures valid { IfOk result (λ v. AreSurveys v.items) }
    ensures only { (ss : List SurveyValue) → AreSurveys ss → text.now ≡ text_of ss
        → IfOk result (λ v. v.items ≡ ss) }
    ensures refused { IfErr result (texts.Refuses text.now) }
{
    let mut reading = ReadSoFar {
        surveys: Vec::new(alloc),
        begun: None,
        count: 0,
    };
    // so the numbers of lines fit: each line has a byte
    let _lines = text.len() + 1;
    // the text from the first line of the survey that was begun on
    let mut first = text;
    let mut rest = text;
    let mut number = 0;
    'lines: while let Some((line, more)) = parted(b'\n', rest) {
        let before = &first[..first.len() - rest.len()];
        reading = match take_line(alloc, reading, line, before) {
            Ok(next) => next,
            Err(StepFault::Wrong) => return Err(SurveysFault::Line { line: number + 1 }),
            Err(StepFault::Memory) => return Err(SurveysFault::Memory),
        };
        if reading.begun.is_none() {
            first = more;
        }
        rest = more;
        number += 1;
    }
    if rest.is_empty() && reading.begun.is_none() {
        Ok(reading.surveys)
    } else {
        Err(SurveysFault::Line { line: number + 1 })
    }
}

/// Takes one more line, where the lines before it of its survey have these bytes.
fn take_line(
    alloc: Global,
    reading: ReadSoFar,
    line: &[u8],
    before: &[u8],
) -> Result<ReadSoFar, StepFault>
    requires valid { spec.IsBegun reading.begun }
    requires before { before.now ≡ joined (spec.lines_of reading.begun) }
    requires counted { reading.count ≡ length (spec.lines_of reading.begun) }
    requires room { reading.count + 1 < 2 ^ 64 }
    ensures taken { GivesState result (spec.step (state_of reading) line.now) }
    ensures more { IfOk result (λ r. IfSome r.begun (λ b.
        spec.lines_of (Some b) ≡ spec.lines_of reading.begun ++ line.now ∷ [])) }
    ensures counted { IfOk result (λ r. r.count ≡ length (spec.lines_of r.begun)) }
{
    let ReadSoFar {
        surveys,
        begun,
        count,
    } = reading;
    let more = match begun {
        None => Begun::Named(read_name(alloc, line)?),
        Some(Begun::Named(name)) => after_name(alloc, name, line)?,
        Some(Begun::UpTo(name, facts, part)) => next_part(name, facts, part, line)?,
        Some(Begun::Unsealed(survey)) => return end_survey(surveys, survey, count, line, before),
    };
    Ok(ReadSoFar {
        surveys,
        begun: Some(more),
        count: count + 1,
    })
}

/// Ends a survey by its seal.
fn end_survey(
    surveys: Vec<Survey>,
    survey: Survey,
    count: usize,
    line: &[u8],
    before: &[u8],
) -> Result<ReadSoFar, StepFault>
    requires before { before.now ≡ joined (lines_before survey) }
    requires counted { count ≡ length (lines_before survey) }
    requires room { count + 1 < 2 ^ 64 }
    ensures taken { GivesState result
        (spec.step_of surveys.items (Some (Unsealed survey)) line.now) }
    ensures none { IfOk result (λ r. r.begun ≡ None) }
    ensures counted { IfOk result (λ r. r.count ≡ 0) }
{
    if seal_of(count as u64 + 1, before).as_slice() != line {
        return Err(StepFault::Wrong);
    }
    let mut surveys = surveys;
    surveys.push(survey)?;
    Ok(ReadSoFar {
        surveys,
        begun: None,
        count: 0,
    })
}

/// The seal of that many lines, of which those before it have these bytes.
fn seal_of(count: u64, before: &[u8]) -> ArrayVec<u8, SEAL_ROOM>
    ensures { result.items
        ≡ codes "end " ++ decimal count ++ codes " " ++ hex_bytes 2 (crc before.now) }
{
    let mut text = ArrayVec::new();
    put(&mut text, b"end ");
    put(&mut text, Buffer::new().format(count).as_bytes());
    put(&mut text, b" ");
    put(&mut text, hex_digits(2, u64::from(crc(before))).as_slice());
    text
}

/// Appends a text.
fn put(text: &mut ArrayVec<u8, SEAL_ROOM>, word: &[u8])
    requires { array_vec_len text.old + length word.now ≤ SEAL_ROOM }
    ensures items { text.new.items ≡ text.old.items ++ word.now }
    ensures len { array_vec_len text.new ≡ array_vec_len text.old + length word.now }
{
    let Ok(()) = text.try_extend_from_slice(word) else {
        unreachable!()
    };
}
