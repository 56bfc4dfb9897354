//! One file of a collection.

ghost use Rattle.std.specs.Prelude.{◌≡◌, IfOk, MatchResult};
ghost use Rattle.vic_survey.specs.SurveyText.{text_of};
ghost use Rattle.vic_survey.specs.Surveys.{AreSurveys};
ghost use Rattle.vic_operands.specs.Files.{AreSurveysBy, File as FileValue};
ghost use Rattle.vic_operands.specs.Kinds.{kind_behind_list, kind_of};
ghost use Rattle.vic_operands.specs.Lists.{IsRightBehindList};
ghost use Rattle.vic_operands.specs.declared.kind.Kind.{Kind as KindValue};
ghost use Rattle.vic_operands.specs.inner.Kept as spec;

use crate::fault::OperandFault;
use crate::kind::{Kind, kind_behind_list, kind_of};
use std::alloc::{AllocError, AllocFailed, Global};
use vic_survey::{Name, Survey, SurveysFault, read_surveys};
use vic_table::{Catalogue, Places, Table, TableFault, read_table};

/// A catalogue, and the name of its file.
#[derive(Drop)]
pub(crate) struct NamedCatalogue {
    pub(crate) name: String,
    pub(crate) catalogue: Catalogue,
}

/// What a file of a collection has.
#[derive(Drop)]
pub(crate) enum Operand {
    Surveys(Vec<Survey>),
    Catalogue(NamedCatalogue),
    Places(Places),
}

/// Why a file isn't read.
#[derive(Clone, Copy, Debug, PartialEq, Eq)]
pub(crate) enum FileFault {
    /// The first line with a fault.
    Line { line: u64, fault: OperandFault },
    Memory,
}

impl From<AllocError> for FileFault {
    ghost use Rattle.vic_operands.specs.declared.operand.FileFault.{FileFault};

    ghost from_gives = { λ _ e. e ≡ FileFault.Memory };

    fn from(_: AllocError) -> FileFault {
        FileFault::Memory
    }
}

impl<T: Drop> From<AllocFailed<T>> for FileFault {
    ghost use Rattle.vic_operands.specs.declared.operand.FileFault.{FileFault};

    ghost from_gives = { λ _ e. e ≡ FileFault.Memory };

    fn from(_: AllocFailed<T>) -> FileFault {
        FileFault::Memory
    }
}

/// Reads a file, which has this name.
pub(crate) fn read_operand(alloc: Global, name: Name, text: Vec<u8>) -> Result<Operand, FileFault>
    ensures { let file : FileValue = record { name = name; text = text.items } in
        MatchResult result (spec.IsOperandOf file) (spec.Refuses file) }
{
    match kind_of(text.as_slice()) {
        Kind::Surveys => Ok(Operand::Surveys(surveys_in(alloc, text.as_slice())?)),
        Kind::Log => Ok(Operand::Surveys(survey_of(alloc, name, text.as_slice())?)),
        Kind::Table => table_in(alloc, &name, text),
    }
}

/// Reads a file behind a list of what is expected.
pub(crate) fn read_behind_list(
    alloc: Global,
    name: Name,
    text: &[u8],
) -> Result<Vec<Survey>, FileFault>
    ensures { let file : FileValue = record { name = name; text = text.now } in
        MatchResult result
        (λ surveys. IsRightBehindList file
        × AreSurveysBy (kind_behind_list file.text) file surveys.items)
        (spec.RefusesBy (kind_behind_list file.text) file.text) }
{
    match kind_behind_list(text) {
        Kind::Surveys => surveys_in(alloc, text),
        _ => Ok(survey_of(alloc, name, text)?),
    }
}

/// The surveys of a text of surveys.
fn surveys_in(alloc: Global, text: &[u8]) -> Result<Vec<Survey>, FileFault>
    ensures { MatchResult result
        (λ surveys. AreSurveys surveys.items × (text_of surveys.items ≡ text.now))
        (spec.RefusesBy KindValue.Surveys text.now) }
{
    match read_surveys(alloc, text) {
        Ok(surveys) => Ok(surveys),
        Err(SurveysFault::Line { line }) => Err(FileFault::Line {
            line: line as u64,
            fault: OperandFault::Survey,
        }),
        Err(SurveysFault::Memory) => Err(FileFault::Memory),
    }
}

/// The survey of a log.
fn survey_of(alloc: Global, name: Name, text: &[u8]) -> Result<Vec<Survey>, AllocError>
    ensures { IfOk result (λ surveys. AreSurveysBy KindValue.Log
        (record { name = name; text = text.now }) surveys.items) }
{
    let mut surveys = Vec::with_capacity(alloc, 1)?;
    surveys.push(Survey::of(alloc, name, text)?)?;
    Ok(surveys)
}

/// The catalogue or the places of a table.
fn table_in(alloc: Global, name: &Name, text: Vec<u8>) -> Result<Operand, FileFault>
    requires { kind_of text.items ≡ KindValue.Table }
    ensures { let file : FileValue = record { name = name.now; text = text.items } in
        MatchResult result (spec.IsOperandOf file) (spec.Refuses file) }
{
    match read_table(text) {
        Ok(Table::Catalogue(catalogue)) => {
            let name = String::from_str(alloc, name.as_str())?;
            Ok(Operand::Catalogue(NamedCatalogue { name, catalogue }))
        }
        Ok(Table::Places(places)) => Ok(Operand::Places(places)),
        Err(TableFault::Line { line, fault }) => Err(FileFault::Line {
            line: u64::from(line),
            fault: OperandFault::Table(fault),
        }),
        Err(TableFault::Memory) => Err(FileFault::Memory),
    }
}
