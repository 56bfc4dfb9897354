//! The files of a collection, one after the other.

ghost use Rattle.std.specs.Prelude.{◌≡◌, [], ◌∷◌, ◌++◌, List, ◌&&◌, ◌<◌, IfOk, IsSomeAnd, filter, is_none, is_some, length, map, slice_get, string_bytes};
ghost use Rattle.vic_survey.specs.Names.{IsName};
ghost use Rattle.vic_collection.specs.Alike.{AreUnlike};
ghost use Rattle.vic_operands.specs.Files.{is_catalogue};
ghost use Rattle.vic_operands.specs.Files.{File as FileValue};
ghost use Rattle.vic_operands.specs.Gathered as spec;
ghost use Rattle.vic_operands.specs.Taken.{HasTaken};
ghost use Rattle.vic_operands.specs.inner.Kept.{HaveKept, IsOperandOf};
ghost use Rattle.vic_operands.specs.inner.States.{HasTakenBy};

use crate::fault::{OperandFault, Refusal};
use crate::gathered::Gathered;
use crate::operand::{FileFault, NamedCatalogue, Operand, read_operand};
use std::alloc::{AllocError, Global};
use vic_collection::Collection;
use vic_survey::{Name, Survey};
use vic_table::{Catalogue, Places, TableLineFault};

/// What is known of the files of a collection that were taken so far.
#[derive(Drop)]
pub struct Operands {
    state: State,
}

#[derive(Drop)]
enum State {
    /// One has a name that no log could have.
    Unnamed,
    /// Of the first that has a fault, this is the first.
    Refused(Refusal),
    /// None has a fault.
    Kept(Kept),
}

/// What files have that have no fault.
#[derive(Drop)]
struct Kept {
    catalogues: Vec<NamedCatalogue>,
    places: Vec<Places>,
    surveys: Vec<Survey>,
}

impl Operands {
    /// Before the first file.
    pub fn begin(alloc: Global) -> Operands
        ensures { HasTaken [] result }
    {
        Operands {
            state: State::Kept(Kept {
                catalogues: Vec::new(alloc),
                places: Vec::new(alloc),
                surveys: Vec::new(alloc),
            }),
        }
    }

    /// Takes one more file. It fails only if memory is refused.
    pub fn add(self, alloc: Global, name: &str, text: Vec<u8>) -> Result<Operands, AllocError>
        ensures { IfOk result (λ more. (files : List FileValue) → HasTaken files self
            → HasTaken (files ++ record { name = name.now; text = text.items } ∷ []) more) }
    {
        let Some(log_name) = Name::new(String::from_str(alloc, name)?) else {
            return Ok(Operands {
                state: State::Unnamed,
            });
        };
        Ok(Operands {
            state: state_with(alloc, self.state, log_name, text)?,
        })
    }

    /// What the files are together. It fails only if memory is refused.
    pub fn finish(self, alloc: Global) -> Result<Gathered, AllocError>
        ensures { IfOk result (λ gathered. (files : List FileValue) → HasTaken files self
            → spec.IsGathered files gathered) }
    {
        match self.state {
            State::Unnamed => Ok(Gathered::Usage),
            State::Refused(refusal) => Ok(Gathered::Refused(refusal)),
            State::Kept(kept) => gather_kept(alloc, kept),
        }
    }
}

/// What is known of files and one more.
fn state_with(alloc: Global, state: State, name: Name, text: Vec<u8>) -> Result<State, AllocError>
    ensures { IfOk result (λ more. (files : List FileValue) → HasTakenBy files state → IsName name
        → HasTakenBy (files ++ record { name = name; text = text.items } ∷ []) more) }
{
    match state {
        State::Unnamed => Ok(State::Unnamed),
        State::Refused(refusal) => Ok(State::Refused(refusal)),
        State::Kept(kept) => with_file(alloc, kept, name, text),
    }
}

/// What files and one more are.
fn with_file(alloc: Global, kept: Kept, name: Name, text: Vec<u8>) -> Result<State, AllocError>
    ensures { IfOk result (λ more. (files : List FileValue) → HasTakenBy files (State.Kept kept)
        → HasTakenBy (files ++ record { name = name; text = text.items } ∷ []) more) }
{
    let file = String::from_str(alloc, name.as_str())?;
    match read_operand(alloc, name, text) {
        Ok(operand) => Ok(State::Kept(with_operand(kept, operand)?)),
        Err(FileFault::Line { line, fault }) => Ok(State::Refused(Refusal {
            name: file,
            line,
            fault,
        })),
        Err(FileFault::Memory) => Err(AllocError),
    }
}

/// What files and one more have.
fn with_operand(kept: Kept, operand: Operand) -> Result<Kept, AllocError>
    ensures { IfOk result (λ more. (files : List FileValue) (file : FileValue)
        → HaveKept files kept → IsOperandOf file operand → HaveKept (files ++ file ∷ []) more) }
{
    let mut kept = kept;
    match operand {
        Operand::Surveys(more) => {
            let mut more = more;
            kept.surveys.append(&mut more)?;
            Ok(kept)
        }
        Operand::Catalogue(catalogue) => {
            kept.catalogues.push(catalogue)?;
            Ok(kept)
        }
        Operand::Places(rows) => {
            kept.places.push(rows)?;
            Ok(kept)
        }
    }
}

/// What files are together that have no fault: a collection, if there is one catalogue, and at most
/// one table of places.
fn gather_kept(alloc: Global, kept: Kept) -> Result<Gathered, AllocError>
    ensures { IfOk result (λ gathered. (files : List FileValue) → spec.AreNamed files
        → HaveKept files kept → spec.IsGathered files gathered) }
{
    let Kept {
        mut catalogues,
        mut places,
        surveys,
    } = kept;
    if catalogues.as_slice().len() != 1 {
        return Ok(Gathered::Usage);
    }
    if places.as_slice().len() > 1 {
        return Ok(Gathered::Usage);
    }
    match catalogues.pop() {
        Some(catalogue) => gather_parts(alloc, catalogue, places.pop(), surveys),
        None => Ok(Gathered::Usage),
    }
}

/// What a catalogue, a table of places and surveys are together: refused, if two logs can't be told
/// apart.
fn gather_parts(
    alloc: Global,
    catalogue: NamedCatalogue,
    rows: Option<Places>,
    surveys: Vec<Survey>,
) -> Result<Gathered, AllocError>
    ensures { IfOk result (λ gathered. (files : List FileValue) → spec.AreNamed files
        → spec.AreTogether files
        (record { catalogue = catalogue.catalogue; rows = rows; surveys = surveys.items })
        → map (λ f. f.name) (filter is_catalogue files) ≡ string_bytes catalogue.name ∷ []
        → spec.IsGathered files gathered) }
{
    let NamedCatalogue { name, catalogue } = catalogue;
    let unasked = has_unasked_places(&catalogue, &rows);
    let collection = Collection::new(alloc, catalogue, rows, surveys)?;
    match collection.first_alike(alloc)? {
        Some(index) => {
            let refusal = refusal_of_same_name(alloc, collection.surveys(), index)?;
            Ok(Gathered::Refused(refusal))
        }
        None => Ok(told_apart(name, unasked, collection)),
    }
}

/// Refuses the log at this index: it is known by what a log before it is known by.
fn refusal_of_same_name(
    alloc: Global,
    surveys: &[Survey],
    index: usize,
) -> Result<Refusal, AllocError>
    requires { index < length surveys.now }
    ensures name { IfOk result (λ r. IsSomeAnd (slice_get surveys.now index)
        (λ s. string_bytes r.name ≡ s.name)) }
    ensures line { IfOk result (λ r. r.line ≡ 1) }
    ensures fault { IfOk result (λ r. r.fault ≡ OperandFault.SameName) }
{
    Ok(Refusal {
        name: String::from_str(alloc, surveys[index].name().as_str())?,
        line: 1,
        fault: OperandFault::SameName,
    })
}

/// What files are together whose logs can be told apart: refused, if their places aren't asked for.
fn told_apart(name: String, unasked: bool, collection: Collection) -> Gathered
    ensures { (files : List FileValue) → spec.AreNamed files → spec.AreTogether files collection
        → map (λ f. f.name) (filter is_catalogue files) ≡ string_bytes name ∷ []
        → AreUnlike collection
        → unasked ≡ (is_some collection.rows && is_none collection.catalogue.columns.place)
        → spec.IsGathered files result }
{
    if unasked {
        Gathered::Refused(Refusal {
            name,
            line: 1,
            fault: OperandFault::Table(TableLineFault::Columns),
        })
    } else {
        Gathered::Collection(collection)
    }
}

/// Whether there is a table of places, but the catalogue has no column of places.
fn has_unasked_places(catalogue: &Catalogue, rows: &Option<Places>) -> bool
    ensures { result ≡ (is_some rows.now && is_none catalogue.now.columns.place) }
{
    rows.is_some() && catalogue.columns().place.is_none()
}
