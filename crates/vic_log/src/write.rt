//! Writing a log as its text.

ghost use Rattle.std.specs.Prelude.{◌≡◌, ◌+◌, ◌*◌, ◌≤◌, ◌++◌, ◌∷◌, [], true, length};
ghost use Rattle.std.specs.Prelude.{is_err, OnErr, OnOk};
ghost use Rattle.std.specs.Str.{byte};
ghost use Rattle.std.specs.Io.KnownBytes.{Appends};
ghost use Rattle.arrayvec.specs.ArrayVec.{array_vec_len};
ghost use Rattle.hex.specs.Hex.{encode_upper};
ghost use Rattle.vic_log.specs.Device.{HasTakenBut, HasTakenPrefix, HasWrittenBut, HasWrittenPrefix};
ghost use Rattle.vic_log.specs.Lines.{lf};
ghost use Rattle.vic_log.specs.Log.{IsValidEntry};
ghost use Rattle.vic_log.specs.Text.{header};
ghost use Rattle.vic_log.specs.Writing.{entry_text, listed_text, text_of};

use crate::digits::push_hex;
use crate::entry::{Entry, Version};
use crate::fault::WriteFault;
use crate::log::Log;
use crate::sink::{Sink, write_whole};
use crate::source::DeviceFault;
use arrayvec::ArrayVec;
use vic_frame::{Uid, write_request, write_response};

/// How many bytes are written at once, at most.
pub const WRITTEN_AT_ONCE: usize = 4096;

/// How many bytes an entry's line has at most, LF included.
const LONGEST_LINE: usize = 29;

/// Bytes that wait to be written at once.
type Piece = ArrayVec<u8, WRITTEN_AT_ONCE>;

/// Writes the text of a log, and flushes: the header of its version, and each entry on a line, with
/// upper-case digits and LF line ends. A sink that has failed isn't written to again.
pub fn write_log<W: Sink>(log: &Log, sink: &mut W) -> Result<(), WriteFault>
    ensures all { OnOk result (Appends (W.taken sink.old) (W.taken sink.new) (text_of log.now)) }
    ensures flushed { OnOk result (W.is_flushed sink.new ≡ true) }
    ensures prefix { HasTakenPrefix (W.taken sink.old) (W.taken sink.new) (text_of log.now) }
    ensures written { OnOk result
        (W.written sink.new ≡ W.written sink.old ++ text_of log.now) }
    ensures part { HasWrittenPrefix (W.written sink.old) (W.written sink.new) (text_of log.now) }
    ensures state { W.has_failed sink.new ≡ is_err result }
    ensures untouched { W.has_failed sink.old ≡ true → sink.new ≡ sink.old }
{
    let lines = log.lines();
    let mut piece = with_header(log.version());
    for line in lines {
        put_entry(&mut piece, &line.item(), sink)?;
    }
    write_last(&piece, sink)?;
    Ok(())
}

/// Writes an opening, after it each UID on a line as a log lists it, and flushes. A sink that has
/// failed isn't written to again.
pub fn write_listed<W: Sink>(opening: &[u8], uids: &[Uid], sink: &mut W) -> Result<(), WriteFault>
    requires { length opening.now ≤ WRITTEN_AT_ONCE }
    ensures all { OnOk result (Appends (W.taken sink.old) (W.taken sink.new)
        (opening.now ++ listed_text uids.now)) }
    ensures flushed { OnOk result (W.is_flushed sink.new ≡ true) }
    ensures prefix { HasTakenPrefix (W.taken sink.old) (W.taken sink.new)
        (opening.now ++ listed_text uids.now) }
    ensures written { OnOk result (W.written sink.new
        ≡ W.written sink.old ++ (opening.now ++ listed_text uids.now)) }
    ensures part { HasWrittenPrefix (W.written sink.old) (W.written sink.new)
        (opening.now ++ listed_text uids.now) }
    ensures state { W.has_failed sink.new ≡ is_err result }
    ensures untouched { W.has_failed sink.old ≡ true → sink.new ≡ sink.old }
{
    let mut piece = beginning(opening);
    for uid in uids {
        put_entry(&mut piece, &Entry::Listed(*uid), sink)?;
    }
    write_last(&piece, sink)?;
    Ok(())
}

/// A piece that begins with a text.
fn beginning(text: &[u8]) -> Piece
    requires { length text.now ≤ WRITTEN_AT_ONCE }
    ensures { result.items ≡ text.now }
{
    let mut piece = ArrayVec::new();
    let Ok(()) = piece.try_extend_from_slice(text) else {
        unreachable!()
    };
    piece
}

/// A piece that begins with the header.
fn with_header(version: Version) -> Piece
    ensures items { result.items ≡ header version ++ lf ∷ [] }
{
    let line = match version {
        Version::V1 => b"vicinity-log 1\n".as_slice(),
        Version::V2 => b"vicinity-log 2\n".as_slice(),
        Version::V3 => b"vicinity-log 3\n".as_slice(),
    };
    beginning(line)
}

/// Adds an entry's line to the bytes that wait; these are written first if the line may not fit.
fn put_entry<W: Sink>(piece: &mut Piece, item: &Entry, sink: &mut W) -> Result<(), DeviceFault>
    requires { IsValidEntry item.now }
    ensures told { OnOk result (HasTakenBut (W.taken sink.old) (W.taken sink.new) piece.new.items
        (piece.old.items ++ (entry_text item.now ++ lf ∷ []))) }
    ensures prefix { OnErr result
        (HasTakenPrefix (W.taken sink.old) (W.taken sink.new) piece.old.items) }
    ensures written { OnOk result
        (HasWrittenBut (W.written sink.old) (W.written sink.new) piece.new.items
        (piece.old.items ++ (entry_text item.now ++ lf ∷ []))) }
    ensures part { OnErr result
        (HasWrittenPrefix (W.written sink.old) (W.written sink.new) piece.old.items) }
    ensures failed { OnErr result (W.has_failed sink.new ≡ true) }
    ensures untouched { W.has_failed sink.old ≡ true → sink.new ≡ sink.old }
{
    if piece.len() + LONGEST_LINE > WRITTEN_AT_ONCE {
        write_whole(sink, piece.as_slice())?;
        piece.clear();
    }
    push_entry(piece, item);
    Ok(())
}

/// Writes what waits, and flushes.
fn write_last<W: Sink>(piece: &Piece, sink: &mut W) -> Result<(), DeviceFault>
    ensures all { OnOk result (Appends (W.taken sink.old) (W.taken sink.new) piece.now.items) }
    ensures flushed { OnOk result (W.is_flushed sink.new ≡ true) }
    ensures prefix { HasTakenPrefix (W.taken sink.old) (W.taken sink.new) piece.now.items }
    ensures written { OnOk result
        (W.written sink.new ≡ W.written sink.old ++ piece.now.items) }
    ensures part { HasWrittenPrefix (W.written sink.old) (W.written sink.new) piece.now.items }
    ensures state { W.has_failed sink.new ≡ is_err result }
    ensures untouched { W.has_failed sink.old ≡ true → sink.new ≡ sink.old }
{
    write_whole(sink, piece.as_slice())?;
    sink.flush()
}

/// Adds an entry's line, LF included.
fn push_entry(piece: &mut Piece, item: &Entry)
    requires room { array_vec_len piece.old + LONGEST_LINE ≤ WRITTEN_AT_ONCE }
    requires valid { IsValidEntry item.now }
    ensures items { piece.new.items ≡ piece.old.items ++ entry_text item.now ++ lf ∷ [] }
{
    match *item {
        Entry::Sent(request) => push_bytes(piece, b'T', write_request(&request).as_slice()),
        Entry::Silent => piece.push(b'S'),
        Entry::Collision => piece.push(b'C'),
        Entry::Heard(response) => push_bytes(piece, b'R', write_response(&response).as_slice()),
        Entry::Listed(uid) => push_bytes(piece, b'U', uid.number().to_be_bytes().as_slice()),
        Entry::Garbled => piece.push(b'D'),
        Entry::FieldCycle => piece.push(b'F'),
        Entry::Captured(response) => push_bytes(piece, b'H', write_response(&response).as_slice()),
        Entry::Unknown => piece.push(b'N'),
    }
    piece.push(b'\n');
}

/// Adds a letter, a space, and bytes as upper-case hex digits.
fn push_bytes(piece: &mut Piece, letter: u8, bytes: &[u8])
    requires { array_vec_len piece.old + 2 + 2 * length bytes.now ≤ WRITTEN_AT_ONCE }
    ensures items { piece.new.items
        ≡ piece.old.items ++ letter ∷ byte " " ∷ encode_upper bytes.now }
    ensures len { array_vec_len piece.new ≡ array_vec_len piece.old + 2 + 2 * length bytes.now }
{
    piece.push(letter);
    piece.push(b' ');
    push_hex(piece, bytes);
}
