//! The lines of a table.

ghost use Rattle.std.specs.Prelude.{◌≡◌, ◌≤◌, [], take, drop, length, not, IfSome, IfNone};
ghost use Rattle.std.specs.Str.{is_utf8};
ghost use Rattle.vic_frame.specs.Uids.{has};
ghost use Rattle.vic_log.specs.Lines.{cr, without_last};
ghost use Rattle.vic_table.specs.Lines.{bytes_fault, has_mark, is_text, without_mark};
ghost use Rattle.vic_table.specs.inner.Reading.{IsLineAt};

use crate::fault::TableLineFault;
use bstr::ByteSlice;

/// The greatest number of lines of a table.
pub const MAX_TABLE_LINES: u32 = 1_000_000;

/// The greatest length of a line, without its end.
pub const MAX_TABLE_LINE_LEN: usize = 16_384;

/// The mark of UTF-8 at a text's start.
const MARK: [u8; 3] = [0xEF, 0xBB, 0xBF];

/// The offsets of a line in a text.
#[derive(Clone, Copy, Debug)]
pub(crate) struct LineAt {
    pub(crate) start: usize,
    /// That at which its end begins.
    pub(crate) end: usize,
    /// That behind its end.
    pub(crate) next: usize,
}

/// Whether a text begins with the mark of UTF-8.
pub(crate) fn has_mark(text: &[u8]) -> bool
    ensures { result ≡ has_mark text.now }
{
    text.starts_with(MARK.as_slice())
}

/// Where the first line begins: behind the mark of UTF-8, if there is one.
pub(crate) fn first_start(text: &[u8]) -> usize
    ensures bound { result ≤ length text.now }
    ensures lines { drop result text.now ≡ without_mark text.now }
{
    if has_mark(text) { MARK.len() } else { 0 }
}

/// The length of a line without a CR at its end.
fn len_without_cr(line: &[u8]) -> usize
    ensures bound { result ≤ length line.now }
    ensures value { take result line.now ≡ without_last cr line.now }
{
    match line.strip_suffix(b"\r") {
        Some(content) => content.len(),
        None => line.len(),
    }
}

/// The line that begins at an offset of a text; `None` at its end.
pub(crate) fn line_at(text: &[u8], start: usize) -> Option<LineAt>
    requires { start ≤ length text.now }
    ensures end { IfNone result (drop start text.now ≡ []) }
    ensures line { IfSome result (IsLineAt text.now start) }
{
    let rest = &text[start..];
    if rest.is_empty() {
        return None;
    }
    match rest.find_byte(b'\n') {
        Some(len) => Some(LineAt {
            start,
            end: start + len_without_cr(&rest[..len]),
            next: start + len + 1,
        }),
        None => Some(LineAt {
            start,
            end: text.len(),
            next: text.len(),
        }),
    }
}

/// Whether a line is UTF-8.
fn is_utf8(line: &[u8]) -> bool
    ensures { result ≡ is_utf8 line.now }
{
    std::str::from_utf8(line).is_ok()
}

/// Whether a byte isn't in a line.
fn lacks(line: &[u8], byte: u8) -> bool
    ensures { result ≡ not (has line.now byte) }
{
    line.find_byte(byte).is_none()
}

/// Whether a line is UTF-8 without a zero byte and without CR.
fn is_text(line: &[u8]) -> bool
    ensures { result ≡ is_text line.now }
{
    is_utf8(line) && lacks(line, 0) && lacks(line, b'\r')
}

/// The first fault of the line behind so many lines that any line may have.
pub(crate) fn bytes_fault(before: u32, line: &[u8]) -> Option<TableLineFault>
    ensures { result ≡ bytes_fault before line.now }
{
    if before >= MAX_TABLE_LINES {
        Some(TableLineFault::TooManyLines)
    } else if line.len() > MAX_TABLE_LINE_LEN {
        Some(TableLineFault::LineTooLong)
    } else if is_text(line) {
        None
    } else {
        Some(TableLineFault::Utf8)
    }
}
