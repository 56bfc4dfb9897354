//! Which log is of which place.

ghost use Rattle.std.specs.Prelude.{◌≡◌, ℕ, [], List, map, IfOk};
ghost use Rattle.std.specs.Option.{option_map};
ghost use Rattle.vic_collection.specs.Collections.{CollectionValue};
ghost use Rattle.vic_collection.specs.Found.{found_by};
ghost use Rattle.vic_collection.specs.Joins.{first_place, place_by_name, place_in_rows, place_of_items, place_of_log};
ghost use Rattle.vic_collection.specs.inner.NameSets.{lead};

use crate::found::{base_of, stem_of};
use std::alloc::{AllocError, Global};
use std::collections::BTreeMap;
use vic_survey::Survey;
use vic_table::{Catalogue, Places};

/// The place of each log.
pub(crate) fn places_of_logs(
    alloc: Global,
    catalogue: &Catalogue,
    rows: &Option<Places>,
    surveys: &[Survey],
) -> Result<Vec<Option<Vec<u8>>>, AllocError>
    ensures { let c : CollectionValue = record {
      catalogue = catalogue.now;
      rows = rows.now;
      surveys = surveys.now;
    } in IfOk result (λ places. map (option_map (λ place. place.items)) places.items
        ≡ map (place_of_log c) surveys.now) }
{
    let leads = all_leads(alloc, catalogue, rows)?;
    let mut places = Vec::with_capacity(alloc, surveys.len())?;
    for survey in surveys {
        let place = place_of_name(&leads, survey.name().as_str().as_bytes());
        places.push(owned(alloc, place)?)?;
    }
    Ok(places)
}

/// A place with its bytes.
fn owned(alloc: Global, place: Option<&[u8]>) -> Result<Option<Vec<u8>>, AllocError>
    ensures { IfOk result (λ owned. option_map (λ bytes. bytes.items) owned
        ≡ option_map (λ bytes. bytes.now) place.entry) }
{
    match place {
        Some(bytes) => Ok(Some(bytes.to_vec(alloc)?)),
        None => Ok(None),
    }
}

/// The place of the log with a name.
fn place_of_name<'a>(leads: &BTreeMap<&'a [u8], &'a [u8]>, name: &[u8]) -> Option<&'a [u8]>
    ensures { option_map (λ place. place.now) result
        ≡ first_place (lead leads.now) (found_by name.now) }
{
    if let Some(place) = lead(leads, name) {
        return Some(place);
    }
    let base = base_of(name);
    if let Some(place) = lead(leads, base) {
        return Some(place);
    }
    lead(leads, stem_of(base))
}

/// Where a name leads.
pub(crate) fn lead<'a>(leads: &BTreeMap<&'a [u8], &'a [u8]>, name: &[u8]) -> Option<&'a [u8]>
    ensures { option_map (λ place. place.now) result ≡ lead leads.now name.now }
{
    leads.get(name).copied()
}

/// The places to which names lead, where places are asked for.
pub(crate) fn all_leads<'a>(
    alloc: Global,
    catalogue: &'a Catalogue,
    rows: &'a Option<Places>,
) -> Result<BTreeMap<&'a [u8], &'a [u8]>, AllocError>
    ensures { IfOk result (λ leads. (name : List ℕ)
        → lead leads name ≡ place_by_name
        (record { catalogue = catalogue.now; rows = rows.now; surveys = [] }) name) }
{
    if catalogue.columns().place.is_none() {
        return Ok(BTreeMap::new(alloc));
    }
    match rows {
        Some(rows) => leads_of_rows(alloc, rows),
        None => leads_of_items(alloc, catalogue),
    }
}

/// The places to which names lead by a table of places.
fn leads_of_rows(alloc: Global, rows: &Places) -> Result<BTreeMap<&[u8], &[u8]>, AllocError>
    ensures { IfOk result (λ leads. (name : List ℕ)
        → lead leads name ≡ place_in_rows rows.now name) }
{
    let mut leads = BTreeMap::new(alloc);
    for index in 0..rows.len() {
        let log = rows.log(index);
        if !leads.contains_key(log) {
            leads.insert(log, rows.place(index))?;
        }
    }
    Ok(leads)
}

/// The places to which names lead without one: those of items, by their own names.
fn leads_of_items(
    alloc: Global,
    catalogue: &Catalogue,
) -> Result<BTreeMap<&[u8], &[u8]>, AllocError>
    ensures { IfOk result (λ leads. (name : List ℕ)
        → lead leads name ≡ place_of_items catalogue.now.items name) }
{
    let mut leads = BTreeMap::new(alloc);
    for index in 0..catalogue.len() {
        if let Some(place) = catalogue.place(index) {
            leads.insert(place, place)?;
        }
    }
    Ok(leads)
}
