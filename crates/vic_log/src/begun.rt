//! A text that is read in pieces: the lines judged so far, and the line begun.

ghost use Rattle.std.specs.Prelude.{◌≡◌, ◌+◌, ◌<◌, ◌≤◌, ◌++◌, ◌∷◌, [], ℕ, List, false, None, length, MatchResult, IfErr, OnOk, IsTrue, MatchOption};
ghost use Rattle.bstr.specs.Find.{IsFirstByte, is_byte};
ghost use Rattle.vic_frame.specs.Uids.{has};
ghost use Rattle.vic_log.specs.Begun.{IsShort, IsSplit, HasTaken, spare_of};
ghost use Rattle.vic_log.specs.Early.{IsLong, IsEarly};
ghost use Rattle.vic_log.specs.Lines.{lf, cr, without_last, lines_of_text};
ghost use Rattle.vic_log.specs.Text.{IsLogOf, Refuses};
ghost use Rattle.vic_log.specs.inner.Text.{RefusesNext, next_fault, after_line};

use crate::entry::{MAX_LINE_LEN, MAX_LINES};
use crate::fault::{LineFault, LogFault};
use crate::log::Log;
use crate::read::{ReadLines, take_line};
use arrayvec::ArrayVec;
use bstr::ByteSlice;
use std::simd::prelude::*;

/// The greatest length of a line with its end, CR and LF.
pub(crate) const LINE_ROOM: usize = 130;

const _: () = prove!(LINE_ROOM == MAX_LINE_LEN + 2);

/// What has been read so far of a text whose pieces may end anywhere in a line.
#[derive(Drop)]
pub(crate) struct Begun {
    /// The lines judged.
    pub(crate) read: ReadLines,
    /// The bytes of the line begun.
    pub(crate) line: ArrayVec<u8, LINE_ROOM>,
}

/// A line without a CR at its end.
fn without_cr(line: &[u8]) -> &[u8]
    ensures { result.now ≡ without_last cr line.now }
{
    match line.strip_suffix(b"\r") {
        Some(content) => content,
        None => line,
    }
}

/// Whether a line that has no LF yet is too long, whatever follows.
fn is_too_long(line: &ArrayVec<u8, LINE_ROOM>) -> bool
    ensures long { IsTrue result → IsLong line.now.items }
    ensures short { result ≡ false → IsShort line.now.items }
{
    line.len() == LINE_ROOM || (line.len() > MAX_LINE_LEN && line[MAX_LINE_LEN] != b'\r')
}

/// The place of the first LF. Most lines end among the first 32 bytes, which one vector tests.
#[inline(always)]
fn find_lf(bytes: &[u8]) -> Option<usize>
    ensures { IsFirstByte (is_byte lf) bytes.now result }
{
    if bytes.len() >= 32 {
        let ends = u8x32::from_slice(bytes).simd_eq(u8x32::splat(b'\n'));
        let marks = ends.to_bitmask();
        if marks != 0 {
            return Some(marks.trailing_zeros() as usize);
        }
    }
    bytes.find_byte(b'\n')
}

/// The first line of some bytes, without its LF, and what follows that LF.
fn split_line(bytes: &[u8]) -> Option<(&[u8], &[u8])>
    ensures { MatchOption result
        (has bytes.now lf ≡ false)
        (λ p. IsSplit bytes.now p.0.now p.1.now) }
{
    // A line of one byte needs no search, and most slots are told by one.
    if bytes.len() > 1 && bytes[0] != b'\n' && bytes[1] == b'\n' {
        return Some((&bytes[..1], &bytes[2..]));
    }
    match find_lf(bytes) {
        Some(place) => Some((&bytes[..place], &bytes[place + 1..])),
        None => None,
    }
}

/// Judges a line whose LF has been read.
#[inline(always)]
fn end_line(read: &mut ReadLines, line: &[u8]) -> Result<(), LogFault>
    ensures answer { MatchResult result
        (λ _. next_fault read.old.log (read.old.number + 1) (without_last cr line.now) ≡ None)
        (RefusesNext read.old.log (read.old.number + 1) (without_last cr line.now)) }
    ensures log { OnOk result
        (read.new.log ≡ after_line read.old.log (read.old.number + 1) (without_last cr line.now)) }
    ensures number { OnOk result (read.new.number ≡ read.old.number + 1) }
{
    take_line(read, without_cr(line))
}

/// Takes the last bytes of the line begun, up to its LF, and the LF: the line is complete, and is
/// judged.
fn take_end(begun: &mut Begun, bytes: &[u8]) -> Result<(), LogFault>
    requires { has bytes.now lf ≡ false }
    ensures ok { OnOk result ((text : List ℕ) → HasTaken text begun.old
        → HasTaken (text ++ (bytes.now ++ lf ∷ [])) begun.new) }
    ensures err { IfErr result (λ e. (text more : List ℕ) → HasTaken text begun.old
        → IsEarly e (text ++ (bytes.now ++ lf ∷ more))) }
    ensures less { OnOk result (spare_of begun.new + length bytes.now + 1 ≤ spare_of begun.old) }
{
    if begun.read.number == MAX_LINES {
        return Err(LogFault::Line {
            line: MAX_LINES + 1,
            fault: LineFault::TooManyLines,
        });
    }
    if begun.line.is_empty() {
        return end_line(&mut begun.read, bytes);
    }
    if begun.line.try_extend_from_slice(bytes).is_err() {
        return Err(LogFault::Line {
            line: begun.read.number + 1,
            fault: LineFault::LineTooLong,
        });
    }
    end_line(&mut begun.read, begun.line.as_slice())?;
    begun.line.clear();
    Ok(())
}

/// Takes more bytes of the line begun, whose LF hasn't been read yet: it is judged only if it is
/// too long, or one too many.
fn take_begun(begun: &mut Begun, bytes: &[u8]) -> Result<(), LogFault>
    requires { has bytes.now lf ≡ false }
    ensures ok { OnOk result ((text : List ℕ) → HasTaken text begun.old
        → HasTaken (text ++ bytes.now) begun.new) }
    ensures err { IfErr result (λ e. (text : List ℕ) → HasTaken text begun.old
        → IsEarly e (text ++ bytes.now)) }
    ensures less { OnOk result (spare_of begun.new + length bytes.now ≤ spare_of begun.old) }
{
    if bytes.is_empty() {
        return Ok(());
    }
    if begun.read.number == MAX_LINES {
        return Err(LogFault::Line {
            line: MAX_LINES + 1,
            fault: LineFault::TooManyLines,
        });
    }
    let fits = begun.line.try_extend_from_slice(bytes).is_ok();
    if !fits || is_too_long(&begun.line) {
        return Err(LogFault::Line {
            line: begun.read.number + 1,
            fault: LineFault::LineTooLong,
        });
    }
    Ok(())
}

/// Takes more bytes of the text. A line that is complete in them is judged in place.
pub(crate) fn take_piece(begun: &mut Begun, bytes: &[u8]) -> Result<(), LogFault>
    ensures ok { OnOk result ((text : List ℕ) → HasTaken text begun.old
        → HasTaken (text ++ bytes.now) begun.new) }
    ensures err { IfErr result (λ e. (text : List ℕ) → HasTaken text begun.old
        → IsEarly e (text ++ bytes.now)) }
    ensures less { OnOk result (spare_of begun.new + length bytes.now ≤ spare_of begun.old) }
{
    let mut rest = bytes;
    while let Some((line, behind)) = split_line(rest) {
        take_end(begun, line)?;
        rest = behind;
    }
    take_begun(begun, rest)
}

/// Judges what is left at the end of the text.
pub(crate) fn end_text(begun: Begun) -> Result<Log, LogFault>
    ensures { (text : List ℕ) → HasTaken text begun →
        MatchResult result (IsLogOf (lines_of_text text)) (Refuses text) }
{
    let Begun { mut read, line } = begun;
    if !line.is_empty() {
        take_line(&mut read, line.as_slice())?;
        return Ok(read.log);
    }
    if read.number == 0 {
        return Err(LogFault::Line {
            line: 1,
            fault: LineFault::Header,
        });
    }
    Ok(read.log)
}
