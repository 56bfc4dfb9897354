//! A table of places: which log is of which place.

ghost use Rattle.std.specs.Prelude.{◌≡◌, ◌<◌, List, length, slice_get, IsSomeAnd};
ghost use Rattle.vic_table.specs.Values.{PlaceRowValue};

use crate::place_rows::PlaceRow;
use std::marker::Model;

/// A table of places. Its value is its rows, counted from 0 in their order.
#[derive(Drop)]
pub struct Places {
    rows: Vec<PlaceRow>,
}

impl Model for Places {
    ghost Value = { List PlaceRowValue };

    ghost view = { λ p. p.rows.items };
}

impl Places {
    pub(crate) fn new(rows: Vec<PlaceRow>) -> Places
        ensures { result ≡ rows.items }
    {
        Places { rows }
    }

    /// How many rows it has.
    pub fn len(&self) -> usize
        ensures { result ≡ length self.now }
    {
        self.rows.len()
    }

    /// The number of a row's line.
    pub fn line(&self, index: usize) -> u32
        requires { index < length self.now }
        ensures { IsSomeAnd (slice_get self.now index) (λ row. result ≡ row.line) }
    {
        self.rows[index].line()
    }

    /// The place of a row.
    pub fn place(&self, index: usize) -> &[u8]
        requires { index < length self.now }
        ensures { IsSomeAnd (slice_get self.now index) (λ row. result.now ≡ row.place) }
    {
        self.rows[index].place()
    }

    /// The log of a row.
    pub fn log(&self, index: usize) -> &[u8]
        requires { index < length self.now }
        ensures { IsSomeAnd (slice_get self.now index) (λ row. result.now ≡ row.log) }
    {
        self.rows[index].log()
    }
}
