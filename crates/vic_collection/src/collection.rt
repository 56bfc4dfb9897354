//! A collection, and the state of each of its items.

ghost use Rattle.std.specs.Prelude.{◌≡◌, ◌<◌, length, map, slice_get, IfOk, IsSomeAnd};
ghost use Rattle.std.specs.List.{list_any};
ghost use Rattle.std.specs.Option.{option_map};
ghost use Rattle.vic_collection.specs.Collections.{certain_logs, is_certain_somewhere, is_possible_somewhere};
ghost use Rattle.vic_collection.specs.Joins.{is_left_over, place_of_log};
ghost use Rattle.vic_collection.specs.States.{is_certain_at, state_of};
ghost use Rattle.vic_collection.specs.inner.Placed.{is_placed, state_by_place};

use crate::items_without_log::items_without_log;
use crate::joins::places_of_logs;
use crate::state::State;
use crate::told::Told;
use std::alloc::{AllocError, Global};
use std::marker::Model;
use vic_frame::Uid;
use vic_survey::Survey;
use vic_table::{Catalogue, Places};
use vic_tree::OpenSet;

/// A catalogue, a table of places if there is one, and a survey of each log.
#[derive(Drop)]
pub struct Collection {
    pub(crate) catalogue: Catalogue,
    pub(crate) rows: Option<Places>,
    surveys: Vec<Survey>,
    /// The place of each log.
    pub(crate) places: Vec<Option<Vec<u8>>>,
    /// For each item whether no log is of its place, where places are asked for.
    without_log: Vec<bool>,
    pub(crate) told: Told,
}

impl Model for Collection {
    ghost use Rattle.std.specs.Prelude.{◌≡◌, map};
    ghost use Rattle.std.specs.Option.{option_map};
    ghost use Rattle.vic_collection.specs.Collections.{CollectionValue, asks_for_places};
    ghost use Rattle.vic_collection.specs.Joins.{place_of_log};
    ghost use Rattle.vic_collection.specs.inner.Placed.{is_without_log_among};
    ghost use Rattle.vic_collection.specs.inner.Told.{IsToldBy};

    ghost Value = { CollectionValue };

    ghost view = { λ a. record {
      catalogue = a.catalogue;
      rows = a.rows;
      surveys = a.surveys.items;
    } };

    ghost invariant = { λ a.
        let c : CollectionValue = record {
          catalogue = a.catalogue;
          rows = a.rows;
          surveys = a.surveys.items;
        } in
        (map (option_map (λ place. place.items)) a.places.items
        ≡ map (place_of_log c) a.surveys.items)
        × (a.without_log.items ≡ map (λ item. is_without_log_among (asks_for_places c)
        (map (option_map (λ place. place.items)) a.places.items) item.place) c.catalogue.items)
        × IsToldBy a.surveys.items a.told };
}

impl Collection {
    /// The collection of these.
    pub fn new(
        alloc: Global,
        catalogue: Catalogue,
        rows: Option<Places>,
        surveys: Vec<Survey>,
    ) -> Result<Collection, AllocError>
        ensures { IfOk result (λ c. c ≡ record {
          catalogue = catalogue;
          rows = rows;
          surveys = surveys.items;
        }) }
    {
        let places = places_of_logs(alloc, &catalogue, &rows, &surveys)?;
        let without_log = items_without_log(alloc, &catalogue, &places)?;
        let told = Told::by(alloc, &surveys)?;
        Ok(Collection {
            catalogue,
            rows,
            surveys,
            places,
            without_log,
            told,
        })
    }

    /// The catalogue.
    pub fn catalogue(&self) -> &Catalogue
        ensures { result.now ≡ self.now.catalogue }
    {
        &self.catalogue
    }

    /// The table of places, if there is one.
    pub fn rows(&self) -> Option<&Places>
        ensures { option_map (λ rows. rows.now) result ≡ self.now.rows }
    {
        self.rows.as_ref()
    }

    /// A survey of each log.
    pub fn surveys(&self) -> &[Survey]
        ensures { result.now ≡ self.now.surveys }
    {
        &self.surveys
    }

    /// The place of a log; `None` if it is of no place, or places aren't asked for.
    pub fn place_of_log(&self, index: usize) -> Option<&[u8]>
        requires { index < length self.now.surveys }
        ensures { IsSomeAnd (slice_get self.now.surveys index)
            (λ s. option_map (λ place. place.now) result ≡ place_of_log self.now s) }
    {
        match &self.places[index] {
            Some(place) => Some(place.as_slice()),
            None => None,
        }
    }

    /// Whether a log is of no place, where places are asked for.
    pub fn is_left_over(&self, index: usize) -> bool
        requires { index < length self.now.surveys }
        ensures { IsSomeAnd (slice_get self.now.surveys index)
            (λ s. result ≡ is_left_over self.now s) }
    {
        let place = self.place_of_log(index);
        self.catalogue.columns().place.is_some() && place.is_none()
    }

    /// The logs in which a UID is certain, by their positions, in their order.
    pub fn certain_in(&self, uid: Uid) -> &[usize]
        ensures { result.now ≡ certain_logs self.now uid }
    {
        self.told.certain.logs_of(uid)
    }

    /// The state of an item of the catalogue.
    pub fn state(&self, index: usize) -> State
        requires { index < length self.now.catalogue.items }
        ensures { IsSomeAnd (slice_get self.now.catalogue.items index)
            (λ item. result ≡ state_of self.now item) }
    {
        match self.catalogue.uid(index) {
            Some(uid) => {
                let place = self.catalogue.place(index);
                self.state_by_place(
                    place,
                    self.catalogue.is_away(index),
                    self.without_log[index],
                    uid,
                )
            }
            None => State::NoTag,
        }
    }

    /// The state of an item of a place with a UID.
    fn state_by_place(&self, place: Option<&[u8]>, away: bool, without_log: bool, uid: Uid) -> State
        ensures { result ≡ state_by_place self.now (option_map (λ p. p.now) place.entry)
            away without_log uid }
    {
        let logs = self.certain_in(uid);
        let certain = self.is_certain_in_some(uid, logs);
        if away && certain {
            return State::Returned;
        }
        if self.is_certain_at(place, uid, logs) {
            return State::InPlace;
        }
        if certain {
            return if place.is_some() {
                State::Misplaced
            } else {
                State::There
            };
        }
        if self.is_possible_somewhere(uid, certain) {
            return State::Doubtful;
        }
        if away {
            return State::Away;
        }
        if without_log {
            State::NotCounted
        } else {
            State::Absent
        }
    }

    /// Whether a UID, which is certain in these logs, is certain in some log.
    fn is_certain_in_some(&self, uid: Uid, logs: &[usize]) -> bool
        requires { logs.now ≡ certain_logs self.now uid }
        ensures { result ≡ is_certain_somewhere self.now uid }
    {
        !logs.is_empty()
    }

    /// Whether a UID, which is certain in some log or not, is possible in some log.
    fn is_possible_somewhere(&self, uid: Uid, certain: bool) -> bool
        requires { certain ≡ is_certain_somewhere self.now uid }
        ensures { result ≡ is_possible_somewhere self.now uid }
    {
        certain || self.told.may_have(uid)
    }

    /// Whether a UID, which is certain in these logs, is certain in a log of a place.
    fn is_certain_at(&self, place: Option<&[u8]>, uid: Uid, logs: &[usize]) -> bool
        requires { logs.now ≡ certain_logs self.now uid }
        ensures { result ≡ is_certain_at self.now (option_map (λ p. p.now) place.entry) uid }
    {
        match place {
            Some(place) => any_placed(&self.places, place, logs),
            None => false,
        }
    }
}

/// Whether one of the logs at some positions is of a place.
fn any_placed(places: &[Option<Vec<u8>>], place: &[u8], logs: &[usize]) -> bool
    ensures { result ≡ list_any
        (is_placed (map (option_map (λ p. p.items)) places.now) place.now) logs.now }
{
    logs.iter().any(|log| is_placed(places, place, *log))
}

/// Whether the log at a position is of a place.
fn is_placed(places: &[Option<Vec<u8>>], place: &[u8], log: usize) -> bool
    ensures { result ≡ is_placed (map (option_map (λ p. p.items)) places.now) place.now log }
{
    match places.get(log) {
        Some(Some(other)) => other.as_slice() == place,
        _ => false,
    }
}
