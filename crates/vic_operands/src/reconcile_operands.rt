//! The operands of `reconcile`, one after the other: a list of what is expected and logs, or the
//! files of a collection.

ghost use Rattle.std.specs.Prelude.{◌≡◌, [], ◌∷◌, ◌++◌, true, false, List, IfOk};
ghost use Rattle.vic_survey.specs.Names.{IsName};
ghost use Rattle.vic_operands.specs.Files.{File as FileValue};
ghost use Rattle.vic_operands.specs.Kinds.{is_list};
ghost use Rattle.vic_operands.specs.Lists.{IsGatheredToReconcile};
ghost use Rattle.vic_operands.specs.Taken.{HasTakenToReconcile};
ghost use Rattle.vic_operands.specs.inner.Lists.{HasTakenToReconcileBy};

use crate::fault::Refusal;
use crate::gathered::Gathered;
use crate::kind::is_list;
use crate::list::read_list;
use crate::operand::{FileFault, read_behind_list};
use crate::operands::Operands;
use std::alloc::{AllocError, Global};
use vic_collection::Collection;
use vic_survey::{Name, Survey};
use vic_table::Catalogue;

/// What is known of the operands of `reconcile` that were taken so far.
#[derive(Drop)]
pub struct ReconcileOperands {
    state: ReconcileState,
}

#[derive(Drop)]
enum ReconcileState {
    /// None was taken.
    Nothing,
    /// One has a name that no log could have.
    Unnamed,
    /// The list has a fault, or of the files behind it the first that has one has this one.
    Refused(Refusal),
    /// The first is a list, and no file has a fault.
    Listed(Listed),
    /// They are the files of a collection.
    Collected(Operands),
}

/// The catalogue of a list, and the surveys of the files behind it.
#[derive(Drop)]
struct Listed {
    catalogue: Catalogue,
    surveys: Vec<Survey>,
}

impl ReconcileOperands {
    /// Before the first file.
    pub fn begin() -> ReconcileOperands
        ensures { HasTakenToReconcile [] result }
    {
        ReconcileOperands {
            state: ReconcileState::Nothing,
        }
    }

    /// Takes one more file. It fails only if memory is refused.
    pub fn add(
        self,
        alloc: Global,
        name: &str,
        text: Vec<u8>,
    ) -> Result<ReconcileOperands, AllocError>
        ensures { IfOk result (λ more. (files : List FileValue) → HasTakenToReconcile files self
            → HasTakenToReconcile (files ++ record { name = name.now; text = text.items } ∷ [])
            more) }
    {
        let Some(log_name) = Name::new(String::from_str(alloc, name)?) else {
            return Ok(ReconcileOperands {
                state: ReconcileState::Unnamed,
            });
        };
        Ok(ReconcileOperands {
            state: state_with(alloc, self.state, log_name, text)?,
        })
    }

    /// What the files are together. It fails only if memory is refused.
    pub fn finish(self, alloc: Global) -> Result<Gathered, AllocError>
        ensures { IfOk result (λ gathered. (files : List FileValue)
            → HasTakenToReconcile files self → IsGatheredToReconcile files gathered) }
    {
        gather_state(alloc, self.state)
    }
}

/// What files are together, by what is known of them.
fn gather_state(alloc: Global, state: ReconcileState) -> Result<Gathered, AllocError>
    ensures { IfOk result (λ gathered. (files : List FileValue)
        → HasTakenToReconcileBy files state → IsGatheredToReconcile files gathered) }
{
    match state {
        ReconcileState::Nothing => Ok(Gathered::Usage),
        ReconcileState::Unnamed => Ok(Gathered::Usage),
        ReconcileState::Refused(refusal) => Ok(Gathered::Refused(refusal)),
        ReconcileState::Listed(listed) => gather_behind_list(alloc, listed),
        ReconcileState::Collected(operands) => operands.finish(alloc),
    }
}

/// What is known of files and one more.
fn state_with(
    alloc: Global,
    before: ReconcileState,
    name: Name,
    text: Vec<u8>,
) -> Result<ReconcileState, AllocError>
    ensures { IfOk result (λ more. (files : List FileValue) → HasTakenToReconcileBy files before
        → IsName name
        → HasTakenToReconcileBy (files ++ record { name = name; text = text.items } ∷ []) more) }
{
    match before {
        ReconcileState::Nothing => with_first(alloc, name, text),
        ReconcileState::Unnamed => Ok(ReconcileState::Unnamed),
        ReconcileState::Refused(refusal) => Ok(ReconcileState::Refused(refusal)),
        ReconcileState::Listed(listed) => with_log(alloc, listed, name, text.as_slice()),
        ReconcileState::Collected(operands) => {
            let more = operands.add(alloc, name.as_str(), text)?;
            Ok(ReconcileState::Collected(more))
        }
    }
}

/// What is known of the first file.
fn with_first(alloc: Global, name: Name, text: Vec<u8>) -> Result<ReconcileState, AllocError>
    ensures { IfOk result (λ one. IsName name
        → HasTakenToReconcileBy (record { name = name; text = text.items } ∷ []) one) }
{
    if is_list(text.as_slice()) {
        return with_list(alloc, name, text.as_slice());
    }
    let operands = Operands::begin(alloc).add(alloc, name.as_str(), text)?;
    Ok(ReconcileState::Collected(operands))
}

/// What is known of a list.
fn with_list(alloc: Global, name: Name, text: &[u8]) -> Result<ReconcileState, AllocError>
    requires { is_list text.now ≡ true }
    ensures { IfOk result (λ one. IsName name
        → HasTakenToReconcileBy (record { name = name; text = text.now } ∷ []) one) }
{
    match read_list(alloc, text) {
        Ok(catalogue) => Ok(ReconcileState::Listed(Listed {
            catalogue,
            surveys: Vec::new(alloc),
        })),
        Err(FileFault::Line { line, fault }) => Ok(ReconcileState::Refused(Refusal {
            name: String::from_str(alloc, name.as_str())?,
            line,
            fault,
        })),
        Err(FileFault::Memory) => Err(AllocError),
    }
}

/// What is known of a list, files behind it and one more.
fn with_log(
    alloc: Global,
    listed: Listed,
    name: Name,
    text: &[u8],
) -> Result<ReconcileState, AllocError>
    ensures { IfOk result (λ more. (files : List FileValue)
        → HasTakenToReconcileBy files (ReconcileState.Listed listed) → IsName name
        → HasTakenToReconcileBy (files ++ record { name = name; text = text.now } ∷ []) more) }
{
    let mut listed = listed;
    let file = String::from_str(alloc, name.as_str())?;
    match read_behind_list(alloc, name, text) {
        Ok(more) => {
            let mut more = more;
            listed.surveys.append(&mut more)?;
            Ok(ReconcileState::Listed(listed))
        }
        Err(FileFault::Line { line, fault }) => Ok(ReconcileState::Refused(Refusal {
            name: file,
            line,
            fault,
        })),
        Err(FileFault::Memory) => Err(AllocError),
    }
}

/// What a list and the files behind it are together.
fn gather_behind_list(alloc: Global, listed: Listed) -> Result<Gathered, AllocError>
    ensures { IfOk result (λ gathered. (files : List FileValue)
        → HasTakenToReconcileBy files (ReconcileState.Listed listed)
        → IsGatheredToReconcile files gathered) }
{
    let Listed { catalogue, surveys } = listed;
    let collection = Collection::new(alloc, catalogue, None, surveys)?;
    Ok(Gathered::Collection(collection))
}
