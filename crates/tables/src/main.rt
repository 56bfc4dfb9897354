//! Reads tables from standard input, each behind a line with its length, and prints for each what
//! it is, in one line: its items, its rows, or its first fault. `tests/test_tables.py` runs it.
#![tactic(auto)]

use std::alloc::Global;
use std::io;
use std::io::{BufRead, BufReader, BufWriter, Read, Write};
use vic_table::{Catalogue, Places, Table, TableFault, read_table};

/// The length of the text that is next; `None` at the end of the input.
fn next_len<R: BufRead>(input: &mut R, alloc: Global) -> io::Result<Option<usize>> {
    let mut line = Vec::new(alloc);
    input.read_until(b'\n', &mut line)?;
    let Some(digits) = line.as_slice().strip_suffix(b"\n") else {
        return Ok(None);
    };
    match std::str::from_utf8(digits) {
        Ok(digits) => Ok(digits.parse().ok()),
        Err(_) => Ok(None),
    }
}

/// The text that is next, in memory of its length alone.
fn next_text<R: BufRead>(input: &mut R, alloc: Global) -> io::Result<Option<Vec<u8>>> {
    let Some(len) = next_len(input, alloc)? else {
        return Ok(None);
    };
    let mut text = vec![in alloc; 0; len]?;
    input.read_exact(text.as_mut_slice())?;
    Ok(Some(text))
}

/// Bytes as hex digits.
fn put_hex<W: Write>(out: &mut W, bytes: &[u8]) -> io::Result<()> {
    for byte in bytes {
        write!(out, "{byte:02X}")?;
    }
    Ok(())
}

/// An item: its line, its UID, its place, whether it is away.
fn put_item<W: Write>(out: &mut W, catalogue: &Catalogue, index: usize) -> io::Result<()> {
    if index >= catalogue.len() {
        return Ok(());
    }
    let line = catalogue.line(index);
    write!(out, " {line}:")?;
    match catalogue.uid(index) {
        Some(uid) => {
            let number = uid.number();
            write!(out, "{number:016X}:")?;
        }
        None => out.write_all(b"none:")?,
    }
    match catalogue.place(index) {
        Some(place) => put_hex(out, place)?,
        None => out.write_all(b"any")?,
    }
    out.write_all(if catalogue.is_away(index) {
        b":away"
    } else {
        b":here"
    })
}

fn put_catalogue<W: Write>(out: &mut W, catalogue: &Catalogue) -> io::Result<()> {
    out.write_all(b"catalogue")?;
    for index in 0..catalogue.len() {
        put_item(out, catalogue, index)?;
    }
    Ok(())
}

fn put_places<W: Write>(out: &mut W, places: &Places) -> io::Result<()> {
    out.write_all(b"places")?;
    for index in 0..places.len() {
        let line = places.line(index);
        write!(out, " {line}:")?;
        put_hex(out, places.place(index))?;
        out.write_all(b":")?;
        put_hex(out, places.log(index))?;
    }
    Ok(())
}

/// What a text is.
fn put_table<W: Write>(out: &mut W, text: Vec<u8>) -> io::Result<()> {
    match read_table(text) {
        Ok(Table::Catalogue(catalogue)) => put_catalogue(out, &catalogue)?,
        Ok(Table::Places(places)) => put_places(out, &places)?,
        Err(TableFault::Line { line, fault }) => write!(out, "refused {line} {fault}")?,
        Err(TableFault::Memory) => out.write_all(b"memory")?,
    }
    out.write_all(b"\n")
}

fn main(rt: HostRuntime) -> io::Result<()> {
    let mut input = BufReader::new(rt.alloc(), rt.stdin())?;
    let mut out = BufWriter::new(rt.alloc(), rt.stdout())?;
    for _ in 0..u64::MAX {
        let Some(text) = next_text(&mut input, rt.alloc())? else {
            break;
        };
        put_table(&mut out, text)?;
    }
    out.flush()
}
