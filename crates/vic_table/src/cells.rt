//! The cells of a line.

ghost use Rattle.std.specs.Prelude.{◌≡◌, ◌<◌, ℕ, List, [], ◌∷◌, Some, None, length, slice_get, IfOk, MatchBool};
ghost use Rattle.std.specs.List.{All};
ghost use Rattle.vic_table.specs.Cells.{cells_of, cells_from};
ghost use Rattle.vic_table.specs.inner.Spans.{IsWithin, span_cells, after_step};

use std::alloc::{AllocError, Global};
use std::marker::Model;

/// The cells of one line after another, without their quotes. Its value is the cells of the line
/// split last.
#[derive(Drop)]
pub struct LineCells {
    /// The bytes of all cells.
    bytes: Vec<u8>,
    spans: Vec<Span>,
}

impl Model for LineCells {
    ghost Value = { List (List ℕ) };

    ghost view = { λ c. span_cells c.bytes.items c.spans.items };

    ghost invariant = { λ c. All (IsWithin (length c.bytes.items)) c.spans.items };
}

impl LineCells {
    /// No cells.
    pub fn new(alloc: Global) -> LineCells
        ensures { result ≡ [] }
    {
        LineCells {
            bytes: Vec::new(alloc),
            spans: Vec::new(alloc),
        }
    }

    /// Makes it the cells of a line under a separator; false if a quote of the line is wrong.
    pub fn split(&mut self, separator: u8, line: &[u8]) -> Result<bool, AllocError>
        ensures { IfOk result (λ right. MatchBool right
            (cells_of separator line.now ≡ Some self.new)
            (cells_of separator line.now ≡ None)) }
    {
        self.bytes.clear();
        self.spans.clear();
        fill(&mut self.bytes, &mut self.spans, separator, line)
    }

    /// How many they are.
    pub fn len(&self) -> usize
        ensures { result ≡ length self.now }
    {
        self.spans.len()
    }

    /// One of them, counted from 0.
    pub fn get(&self, index: usize) -> &[u8]
        requires { index < length self.now }
        ensures { slice_get self.now index ≡ Some result.now }
    {
        let span = self.spans[index];
        &self.bytes[span.start..span.end]
    }
}

/// Where the bytes of a cell are.
#[derive(Clone, Copy, Debug)]
pub(crate) struct Span {
    pub(crate) start: usize,
    pub(crate) end: usize,
}

/// Puts the cells of a line into bytes and spans that have none.
fn fill(
    bytes: &mut Vec<u8>,
    spans: &mut Vec<Span>,
    separator: u8,
    line: &[u8],
) -> Result<bool, AllocError>
    requires no_bytes { bytes.old.items ≡ [] }
    requires no_spans { spans.old.items ≡ [] }
    ensures within { All (IsWithin (length bytes.new.items)) spans.new.items }
    ensures cells { IfOk result (λ right. MatchBool right
        (cells_of separator line.now ≡ Some (span_cells bytes.new.items spans.new.items))
        (cells_of separator line.now ≡ None)) }
{
    let mut spot = Spot::Begin;
    let mut start = 0;
    for byte in line {
        match step_of(separator, spot, *byte) {
            Step::Skips(next) => spot = next,
            Step::Keeps(next) => {
                bytes.push(*byte)?;
                spot = next;
            }
            Step::Ends => {
                let end = bytes.len();
                spans.push(Span { start, end })?;
                start = end;
                spot = Spot::Begin;
            }
            Step::Wrong => return Ok(false),
        }
    }
    if spot == Spot::Quoted {
        return Ok(false);
    }
    let end = bytes.len();
    spans.push(Span { start, end })?;
    Ok(true)
}

/// Where in a line the next byte is.
#[derive(Clone, Copy, Debug, PartialEq, Eq)]
pub(crate) enum Spot {
    /// Where a cell begins.
    Begin,
    /// In a cell without quotes.
    Plain,
    /// Between the quotes of a cell.
    Quoted,
    /// Behind a quote that closes the cell, or is the first of two.
    Closed,
}

/// What a byte does to the cell that it is in.
#[derive(Clone, Copy, Debug)]
enum Step {
    /// It isn't part of the cell.
    Skips(Spot),
    /// It is part of the cell.
    Keeps(Spot),
    /// It ends the cell.
    Ends,
    /// It can't stand there.
    Wrong,
}

/// What a byte of a line does.
#[inline(always)]
fn step_of(separator: u8, spot: Spot, byte: u8) -> Step
    ensures { (line : List ℕ) → cells_from separator spot (byte ∷ line)
        ≡ after_step separator byte result line }
{
    match spot {
        Spot::Quoted if byte == QUOTE => Step::Skips(Spot::Closed),
        Spot::Quoted => Step::Keeps(Spot::Quoted),
        Spot::Begin if byte == QUOTE => Step::Skips(Spot::Quoted),
        Spot::Closed if byte == QUOTE => Step::Keeps(Spot::Quoted),
        Spot::Plain if byte == QUOTE => Step::Wrong,
        _ if byte == separator => Step::Ends,
        Spot::Begin | Spot::Plain => Step::Keeps(Spot::Plain),
        Spot::Closed => Step::Wrong,
    }
}

const QUOTE: u8 = b'"';
