//! Items as they are kept, with the bytes of all their places in one piece.

ghost use Rattle.std.specs.Prelude.{◌≡◌, ◌<◌, ◌≤◌, ◌++◌, ◌∷◌, [], List, length, slice_get, IfOk, OnOk, IsSomeAnd};
ghost use Rattle.std.specs.List.{All};
ghost use Rattle.std.specs.Option.{ForSome, option_map};
ghost use Rattle.vic_table.specs.declared.cells.Span.{Span};
ghost use Rattle.vic_table.specs.inner.Kept.{ItemAt, HasPlace, item_at, kept_items};
ghost use Rattle.vic_table.specs.inner.Spans.{IsWithin, span_bytes};

use crate::cells::Span;
use std::alloc::{AllocError, Global};
use std::marker::Model;
use vic_frame::Uid;

/// An item of a catalogue.
#[derive(Drop)]
pub(crate) struct Item {
    /// The number of its line.
    pub(crate) line: u32,
    /// The offsets in the text at which its line begins and ends, without the line's end.
    pub(crate) start: usize,
    pub(crate) end: usize,
    /// `None` if it has no tag.
    pub(crate) uid: Option<Uid>,
    /// `None` if it belongs nowhere.
    pub(crate) place: Option<Vec<u8>>,
    pub(crate) away: bool,
}

/// The same, and where its place is among the bytes of all places.
#[derive(Clone, Copy)]
struct KeptItem {
    line: u32,
    start: usize,
    end: usize,
    uid: Option<Uid>,
    place: Option<Span>,
    away: bool,
}

/// Items, counted from 0 in their order.
#[derive(Drop)]
pub(crate) struct ItemList {
    items: Vec<KeptItem>,
    /// The bytes of all places.
    places: Vec<u8>,
}

impl Model for ItemList {
    ghost Value = { List ItemAt };

    ghost view = { λ l. kept_items l.places.items l.items.items };

    ghost invariant = { λ l. All (HasPlace (length l.places.items)) l.items.items };
}

/// Puts a place, if there is one, behind the bytes of others.
fn keep_place(places: &mut Vec<u8>, place: &Option<Vec<u8>>) -> Result<Option<Span>, AllocError>
    ensures others { (s : Span) → IsWithin (length places.old.items) s
        → IsWithin (length places.new.items) s
        × (span_bytes places.new.items s ≡ span_bytes places.old.items s) }
    ensures within { IfOk result (λ kept. ForSome kept (IsWithin (length places.new.items))) }
    ensures value { IfOk result (λ kept. option_map (span_bytes places.new.items) kept
        ≡ option_map (λ p. p.items) place.now) }
{
    let Some(place) = place else {
        return Ok(None);
    };
    let start = places.len();
    places.extend_from_slice(place.as_slice())?;
    let end = places.len();
    Ok(Some(Span { start, end }))
}

impl ItemList {
    /// No items.
    pub(crate) fn new(alloc: Global) -> ItemList
        ensures { result ≡ [] }
    {
        ItemList {
            items: Vec::new(alloc),
            places: Vec::new(alloc),
        }
    }

    /// Adds an item.
    pub(crate) fn push(&mut self, item: &Item) -> Result<(), AllocError>
        ensures { OnOk result (self.new ≡ self.old ++ item_at item.now ∷ []) }
    {
        let place = keep_place(&mut self.places, &item.place)?;
        let kept = KeptItem {
            line: item.line,
            start: item.start,
            end: item.end,
            uid: item.uid,
            place,
            away: item.away,
        };
        Ok(self.items.push(kept)?)
    }

    /// How many they are.
    pub(crate) fn len(&self) -> usize
        ensures { result ≡ length self.now }
    {
        self.items.len()
    }

    /// The number of an item's line.
    pub(crate) fn line(&self, index: usize) -> u32
        requires { index < length self.now }
        ensures { IsSomeAnd (slice_get self.now index) (λ item. result ≡ item.line) }
    {
        self.items[index].line
    }

    /// Where an item's row begins.
    pub(crate) fn start(&self, index: usize) -> usize
        requires { index < length self.now }
        ensures { IsSomeAnd (slice_get self.now index) (λ item. result ≡ item.start) }
    {
        self.items[index].start
    }

    /// Where an item's row ends.
    pub(crate) fn end(&self, index: usize) -> usize
        requires { index < length self.now }
        ensures { IsSomeAnd (slice_get self.now index) (λ item. result ≡ item.end) }
    {
        self.items[index].end
    }

    /// An item's UID.
    pub(crate) fn uid(&self, index: usize) -> Option<Uid>
        requires { index < length self.now }
        ensures { IsSomeAnd (slice_get self.now index) (λ item. result ≡ item.uid) }
    {
        self.items[index].uid
    }

    /// An item's place.
    pub(crate) fn place(&self, index: usize) -> Option<&[u8]>
        requires { index < length self.now }
        ensures { IsSomeAnd (slice_get self.now index)
            (λ item. option_map (λ place. place.now) result ≡ item.place) }
    {
        match self.items[index].place {
            Some(span) => Some(&self.places[span.start..span.end]),
            None => None,
        }
    }

    /// Whether an item is away.
    pub(crate) fn is_away(&self, index: usize) -> bool
        requires { index < length self.now }
        ensures { IsSomeAnd (slice_get self.now index) (λ item. result ≡ item.away) }
    {
        self.items[index].away
    }
}
