//! Items whose place has no log.

ghost use Rattle.std.specs.Prelude.{◌≡◌, ℕ, true, Option, List, is_some, map, IfOk};
ghost use Rattle.std.specs.List.{list_any};
ghost use Rattle.std.specs.Option.{option_map};
ghost use Rattle.vic_collection.specs.Joins.{is_text};
ghost use Rattle.vic_collection.specs.inner.NameSets.{has_name};
ghost use Rattle.vic_collection.specs.inner.Placed.{is_without_log_among};

use std::alloc::{AllocError, Global};
use std::collections::BTreeSet;
use vic_table::Catalogue;

/// For each item whether no log is of its place, where places are asked for.
pub(crate) fn items_without_log(
    alloc: Global,
    catalogue: &Catalogue,
    places: &[Option<Vec<u8>>],
) -> Result<Vec<bool>, AllocError>
    ensures { IfOk result (λ without_log. without_log.items ≡ map (λ item. is_without_log_among
        (is_some catalogue.now.columns.place)
        (map (option_map (λ p. p.items)) places.now) item.place) catalogue.now.items) }
{
    let asks = catalogue.columns().place.is_some();
    let counted = places_with_log(alloc, places)?;
    let mut without_log = Vec::with_capacity(alloc, catalogue.len())?;
    for index in 0..catalogue.len() {
        let without = asks && is_without_log_among(&counted, catalogue.place(index));
        without_log.push(without)?;
    }
    Ok(without_log)
}

/// Whether a place isn't among some.
fn is_without_log_among(places: &BTreeSet<&[u8]>, place: Option<&[u8]>) -> bool
    ensures { (all : List (Option (List ℕ)))
        → ((q : List ℕ) → has_name places.now q ≡ list_any (is_text q) all)
        → result ≡ is_without_log_among true all (option_map (λ p. p.now) place.entry) }
{
    match place {
        Some(place) => !places.contains(place),
        None => false,
    }
}

/// The places of which there is a log.
pub(crate) fn places_with_log(
    alloc: Global,
    places: &[Option<Vec<u8>>],
) -> Result<BTreeSet<&[u8]>, AllocError>
    ensures { IfOk result (λ set. (q : List ℕ) → has_name set q
        ≡ list_any (is_text q) (map (option_map (λ p. p.items)) places.now)) }
{
    let mut set = BTreeSet::new(alloc);
    for place in places {
        if let Some(place) = place {
            set.insert(place.as_slice())?;
        }
    }
    Ok(set)
}
