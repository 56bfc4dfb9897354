//! The places without a log.

ghost use Rattle.std.specs.Prelude.{◌≡◌, ◌<◌, [], ◌∷◌, length, slice_get, map, option_to_list, IfOk, IsSomeAnd, OnOk};
ghost use Rattle.std.specs.List.{flat_map};
ghost use Rattle.std.specs.Option.{option_map};
ghost use Rattle.vic_collection.specs.Joins.{place_if_expected, places_without_log};
ghost use Rattle.vic_collection.specs.inner.Without.{AreAdded};

use crate::collection::Collection;
use crate::items_without_log::places_with_log;
use std::alloc::{AllocError, Global};
use std::collections::BTreeSet;
use vic_table::{Catalogue, Places};

impl Collection {
    /// The places without a log, each once: those of items by their rows, then those of the table
    /// of places.
    pub fn places_without_log(&self, alloc: Global) -> Result<Vec<&[u8]>, AllocError>
        ensures { IfOk result (λ places.
            map (λ place. place.now) places.items ≡ places_without_log self.now) }
    {
        let mut without = Vec::new(alloc);
        if self.catalogue.columns().place.is_none() {
            return Ok(without);
        }
        let mut known = places_with_log(alloc, &self.places)?;
        add_items(&mut known, &mut without, &self.catalogue)?;
        if let Some(rows) = &self.rows {
            add_rows(&mut known, &mut without, rows)?;
        }
        Ok(without)
    }
}

/// Adds the places of expected items that aren't known.
fn add_items<'a>(
    known: &mut BTreeSet<&'a [u8]>,
    without: &mut Vec<&'a [u8]>,
    catalogue: &'a Catalogue,
) -> Result<(), AllocError>
    ensures { OnOk result (AreAdded known.old known.new (map (λ place. place.now) without.old.items)
        (map (λ place. place.now) without.new.items)
        (flat_map place_if_expected catalogue.now.items)) }
{
    for index in 0..catalogue.len() {
        if let Some(place) = expected_place(catalogue, index) {
            add(known, without, place)?;
        }
    }
    Ok(())
}

/// The place of an item, if the item is expected.
fn expected_place(catalogue: &Catalogue, index: usize) -> Option<&[u8]>
    requires { index < length catalogue.now.items }
    ensures { IsSomeAnd (slice_get catalogue.now.items index) (λ item.
        option_to_list (option_map (λ place. place.now) result) ≡ place_if_expected item) }
{
    if catalogue.uid(index).is_some() && !catalogue.is_away(index) {
        catalogue.place(index)
    } else {
        None
    }
}

/// Adds the places of rows that aren't known.
fn add_rows<'a>(
    known: &mut BTreeSet<&'a [u8]>,
    without: &mut Vec<&'a [u8]>,
    rows: &'a Places,
) -> Result<(), AllocError>
    ensures { OnOk result (AreAdded known.old known.new (map (λ place. place.now) without.old.items)
        (map (λ place. place.now) without.new.items) (map (λ row. row.place) rows.now)) }
{
    for index in 0..rows.len() {
        add(known, without, rows.place(index))?;
    }
    Ok(())
}

/// Adds a place that isn't known.
fn add<'a>(
    known: &mut BTreeSet<&'a [u8]>,
    without: &mut Vec<&'a [u8]>,
    place: &'a [u8],
) -> Result<(), AllocError>
    ensures { OnOk result (AreAdded known.old known.new (map (λ place. place.now) without.old.items)
        (map (λ place. place.now) without.new.items) (place.now ∷ [])) }
{
    if known.insert(place)? {
        without.push(place)?;
    }
    Ok(())
}
