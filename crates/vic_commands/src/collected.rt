//! The commands about a collection: a catalogue, a table of places, logs and surveys.

ghost use Rattle.std.specs.Prelude.{◌≡◌, ◌≤◌, [], ◌∷◌, ◌++◌, ℕ, List, IfOk};
ghost use Rattle.vic_operands.specs.Gathered.{IsGathered};
ghost use Rattle.vic_answer.specs.Status.{status_code};
ghost use Rattle.vic_result.specs.Answered.{IsAnswerStatus};
ghost use Rattle.vic_commands.specs.Collected as spec;
ghost use Rattle.vic_commands.specs.Commands.{IsOutputBy};
ghost use Rattle.vic_commands.specs.Taken.{HasTakenFiles, HasTakenForLines, HasTakenForObject, HasTakenForTable};
ghost use Rattle.vic_commands.specs.inner.Output.{IsOutputOf};

use crate::commands::Output;
use crate::gathering::Gather;
use std::alloc::{AllocError, Global};
use vic_answer::{Status, WrittenText};
use vic_collection::Collection;
use vic_operands::{Gathered, Operands, ReconcileOperands, Refusal};
use vic_result::{ResultText, lines_text, object_text, table_text};
use vic_text::push_decimal;

/// In which form a collection is written.
#[derive(Clone, Copy, Debug, PartialEq, Eq)]
pub enum Form {
    Table,
    Object,
    Lines,
}

/// What `collection` knows of the files that it has taken.
#[derive(Drop)]
pub struct TakenForTable {
    pub(crate) operands: Operands,
}

/// What `json-collection` knows of the files that it has taken.
#[derive(Drop)]
pub struct TakenForObject {
    pub(crate) operands: Operands,
}

/// What `reconcile` knows of the files that it has taken.
#[derive(Drop)]
pub struct TakenForLines {
    pub(crate) operands: ReconcileOperands,
}

impl Gather for TakenForTable {
    ghost Writes = { spec.IsCollectionRun };

    ghost HasTaken = { HasTakenForTable };

    fn begin(alloc: Global) -> TakenForTable {
        let operands = Operands::begin(alloc);
        TakenForTable { operands }
    }

    fn add(self, alloc: Global, name: &str, text: Vec<u8>) -> Result<TakenForTable, AllocError> {
        let operands = with_file(alloc, self.operands, name, text)?;
        Ok(TakenForTable { operands })
    }

    fn finish(self, alloc: Global) -> Result<Output, AllocError> {
        output_of_files(alloc, self.operands, Form::Table)
    }
}

impl Gather for TakenForObject {
    ghost Writes = { spec.IsJsonCollectionRun };

    ghost HasTaken = { HasTakenForObject };

    fn begin(alloc: Global) -> TakenForObject {
        let operands = Operands::begin(alloc);
        TakenForObject { operands }
    }

    fn add(self, alloc: Global, name: &str, text: Vec<u8>) -> Result<TakenForObject, AllocError> {
        let operands = with_file(alloc, self.operands, name, text)?;
        Ok(TakenForObject { operands })
    }

    fn finish(self, alloc: Global) -> Result<Output, AllocError> {
        output_of_files(alloc, self.operands, Form::Object)
    }
}

impl Gather for TakenForLines {
    ghost Writes = { spec.IsReconcileRun };

    ghost HasTaken = { HasTakenForLines };

    fn begin(_alloc: Global) -> TakenForLines {
        TakenForLines {
            operands: ReconcileOperands::begin(),
        }
    }

    fn add(self, alloc: Global, name: &str, text: Vec<u8>) -> Result<TakenForLines, AllocError> {
        let operands = self.operands.add(alloc, name, text)?;
        Ok(TakenForLines { operands })
    }

    fn finish(self, alloc: Global) -> Result<Output, AllocError> {
        let gathered = self.operands.finish(alloc)?;
        output_of_gathered(alloc, gathered, Form::Lines)
    }
}

/// Files, and one more.
#[tactic(auto, using(crate::proofs::CollectedLaws::more_files))]
fn with_file(
    alloc: Global,
    operands: Operands,
    name: &str,
    text: Vec<u8>,
) -> Result<Operands, AllocError>
    ensures { IfOk result (λ more. (names texts : List (List ℕ))
        → HasTakenFiles names texts operands
        → HasTakenFiles (names ++ name.now ∷ []) (texts ++ text.items ∷ []) more) }
{
    operands.add(alloc, name, text)
}

/// What is written for files.
fn output_of_files(alloc: Global, operands: Operands, form: Form) -> Result<Output, AllocError>
    ensures { IfOk result (λ output. (names texts : List (List ℕ))
        → HasTakenFiles names texts operands
        → IsOutputBy (spec.IsCollected IsGathered form names texts) output) }
{
    let gathered = operands.finish(alloc)?;
    output_of_gathered(alloc, gathered, form)
}

/// What is written for files, by what they are together.
fn output_of_gathered(alloc: Global, gathered: Gathered, form: Form) -> Result<Output, AllocError>
    ensures { IfOk result (IsOutputOf form gathered) }
{
    match gathered {
        Gathered::Usage => Ok(Output::Usage),
        Gathered::Refused(refusal) => Ok(Output::Answer(WrittenText {
            text: refusal_line(alloc, &refusal)?,
            status: Status::Refused,
        })),
        Gathered::Collection(collection) => {
            Ok(Output::Answer(written_of(alloc, &collection, form)?))
        }
    }
}

/// The line of files that are refused.
fn refusal_line(alloc: Global, refusal: &Refusal) -> Result<Vec<u8>, AllocError>
    ensures { IfOk result (λ text. text.items ≡ spec.refusal_line refusal.now) }
{
    let mut text = Vec::new(alloc);
    text.extend_from_slice(b"refused at line ")?;
    push_decimal(&mut text, refusal.line)?;
    text.extend_from_slice(b" of ")?;
    text.extend_from_slice(refusal.name.as_str().as_bytes())?;
    text.extend_from_slice(b": ")?;
    text.extend_from_slice(refusal.fault.name().as_bytes())?;
    text.extend_from_slice(b"\n")?;
    Ok(text)
}

/// What is written of a collection, and its status.
fn written_of(alloc: Global, collection: &Collection, form: Form) -> Result<WrittenText, AllocError>
    ensures text { IfOk result (λ w. spec.IsFormOf form collection.now w.text.items) }
    ensures status { IfOk result (λ w. spec.IsStatusOf collection.now w.status) }
{
    let written = text_in(alloc, collection, form)?;
    let status = status_of(written.status);
    Ok(WrittenText {
        text: written.text,
        status,
    })
}

/// A collection in a form, with the code of its status.
fn text_in(alloc: Global, collection: &Collection, form: Form) -> Result<ResultText, AllocError>
    ensures text { IfOk result (λ r. spec.IsFormOf form collection.now r.text.items) }
    ensures status { IfOk result (λ r. IsAnswerStatus collection.now r.status) }
{
    match form {
        Form::Table => table_text(alloc, collection),
        Form::Lines => lines_text(alloc, collection),
        Form::Object => object_line(alloc, collection),
    }
}

/// The object of a collection, in a line.
fn object_line(alloc: Global, collection: &Collection) -> Result<ResultText, AllocError>
    ensures text { IfOk result (λ r. spec.IsFormOf Form.Object collection.now r.text.items) }
    ensures status { IfOk result (λ r. IsAnswerStatus collection.now r.status) }
{
    let mut object = object_text(alloc, collection)?;
    object.text.extend_from_slice(b"\n")?;
    Ok(object)
}

/// The status with a code.
fn status_of(code: u8) -> Status
    requires { code ≤ 3 }
    ensures { status_code result ≡ code }
{
    match code {
        0 => Status::Whole,
        1 => Status::NotWhole,
        2 => Status::Impossible,
        _ => Status::Refused,
    }
}
