//! A catalogue: what should be there.

ghost use Rattle.std.specs.Prelude.{◌≡◌, ◌<◌, ◌≤◌, length, slice_get, slice_range, IsSomeAnd};
ghost use Rattle.std.specs.List.{All};
ghost use Rattle.std.specs.Option.{option_map};
ghost use Rattle.vic_log.specs.Lines.{ends_with, lf};
ghost use Rattle.vic_table.specs.Lines.{has_mark};
ghost use Rattle.vic_table.specs.Values.{CatalogueValue};
ghost use Rattle.vic_table.specs.inner.Kept.{item_values, IsWithinText};

use crate::columns::CatalogueColumns;
use crate::item_list::ItemList;
use crate::lines::{LineAt, has_mark};
use std::marker::Model;
use vic_frame::Uid;

/// A catalogue with its text. Its items are its rows, counted from 0 in their order.
#[derive(Drop)]
pub struct Catalogue {
    text: Vec<u8>,
    head: LineAt,
    columns: CatalogueColumns,
    items: ItemList,
}

impl Model for Catalogue {
    ghost Value = { CatalogueValue };

    ghost view = { λ c. record {
      text = c.text.items;
      head = slice_range c.text.items c.head.start c.head.end;
      head_end = slice_range c.text.items c.head.end c.head.next;
      columns = c.columns;
      items = item_values c.text.items c.items;
    } };

    ghost invariant = { λ c. (c.head.start ≤ c.head.end) × (c.head.end ≤ c.head.next)
        × (c.head.next ≤ length c.text.items)
        × All (IsWithinText (length c.text.items)) c.items };
}

impl Catalogue {
    /// Items within a text.
    pub(crate) fn new(
        text: Vec<u8>,
        head: LineAt,
        columns: CatalogueColumns,
        items: ItemList,
    ) -> Catalogue
        requires low { head.start ≤ head.end }
        requires high { head.end ≤ head.next }
        requires bound { head.next ≤ length text.items }
        requires within { All (IsWithinText (length text.items)) items }
        ensures { result ≡ record {
          text = text.items;
          head = slice_range text.items head.start head.end;
          head_end = slice_range text.items head.end head.next;
          columns = columns;
          items = item_values text.items items;
        } }
    {
        Catalogue {
            text,
            head,
            columns,
            items,
        }
    }

    /// Its text.
    pub fn text(&self) -> &[u8]
        ensures { result.now ≡ self.now.text }
    {
        self.text.as_slice()
    }

    /// Whether its text begins with the mark of UTF-8.
    pub fn has_mark(&self) -> bool
        ensures { result ≡ has_mark self.now.text }
    {
        has_mark(self.text.as_slice())
    }

    /// Whether its text ends by LF.
    pub fn ends_by_lf(&self) -> bool
        ensures { result ≡ ends_with lf self.now.text }
    {
        match self.text.last() {
            Some(byte) => *byte == b'\n',
            None => false,
        }
    }

    /// Its first line, without the line's end.
    pub fn head(&self) -> &[u8]
        ensures { result.now ≡ self.now.head }
    {
        &self.text[self.head.start..self.head.end]
    }

    /// The end of its first line: LF, or CR and LF.
    pub fn head_end(&self) -> &[u8]
        ensures { result.now ≡ self.now.head_end }
    {
        &self.text[self.head.end..self.head.next]
    }

    /// Its columns.
    pub fn columns(&self) -> CatalogueColumns
        ensures { result ≡ self.now.columns }
    {
        self.columns
    }

    /// How many items it has.
    pub fn len(&self) -> usize
        ensures { result ≡ length self.now.items }
    {
        self.items.len()
    }

    /// The number of an item's line.
    pub fn line(&self, index: usize) -> u32
        requires { index < length self.now.items }
        ensures { IsSomeAnd (slice_get self.now.items index) (λ item. result ≡ item.line) }
    {
        self.items.line(index)
    }

    /// An item's line, without the line's end.
    pub fn row(&self, index: usize) -> &[u8]
        requires { index < length self.now.items }
        ensures { IsSomeAnd (slice_get self.now.items index) (λ item. result.now ≡ item.row) }
    {
        &self.text[self.items.start(index)..self.items.end(index)]
    }

    /// An item's UID; `None` if it has no tag.
    pub fn uid(&self, index: usize) -> Option<Uid>
        requires { index < length self.now.items }
        ensures { IsSomeAnd (slice_get self.now.items index) (λ item. result ≡ item.uid) }
    {
        self.items.uid(index)
    }

    /// An item's place; `None` if it belongs nowhere.
    pub fn place(&self, index: usize) -> Option<&[u8]>
        requires { index < length self.now.items }
        ensures { IsSomeAnd (slice_get self.now.items index)
            (λ item. option_map (λ place. place.now) result ≡ item.place) }
    {
        self.items.place(index)
    }

    /// Whether an item is away, and so should be in no field.
    pub fn is_away(&self, index: usize) -> bool
        requires { index < length self.now.items }
        ensures { IsSomeAnd (slice_get self.now.items index) (λ item. result ≡ item.away) }
    {
        self.items.is_away(index)
    }
}
