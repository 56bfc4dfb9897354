//! Lines of a log's text for C.

ghost use Rattle.std.specs.Prelude.{◌≡◌, ◌≤◌, ◌+◌, ◌*◌, ◌∷◌, [], codes, length};
ghost use Rattle.vicinity_c.specs.Lines as spec;

use crate::frames::TOO_LONG;
use arrayvec::ArrayVec;
use vic_log::{MAX_LINE_LEN, push_hex};

/// The size of the buffer for a line, its LF and a zero.
pub const LINE_ROOM: usize = 132;

/// The fault of a letter with which no line begins.
pub const WRONG_LETTER: u32 = 207;

/// A line, or why there is none; then `len` and `text` are 0.
#[repr(C)]
#[derive(Clone, Copy, Debug, PartialEq, Eq)]
pub struct VicinityLine {
    /// 0, or why there is no line.
    pub fault: u32,
    pub len: u32,
    /// The line, LF included, with zeros after it.
    pub text: [u8; LINE_ROOM],
}

/// Writes one line of a log's text, LF included: `letter` and `bytes` for a frame that was sent
/// (T), heard (R) or captured (H); U and `uid` for a listed UID; only the letter for a slot that
/// was silent (S), had a collision (C), was garbled (D) or is unknown (N), and for a field cycle
/// (F). What the letter doesn't need isn't looked at, and the bytes aren't judged. The result is 0
/// or the fault: the letter is another one, or there are more than 63 bytes.
#[unsafe(no_mangle)]
pub extern "C" fn vicinity_write_line(
    letter: u8,
    bytes: &[u8],
    uid: u64,
    line: &mut VicinityLine,
) -> u32
    ensures line { line.new ≡ spec.line_of letter bytes.now uid }
    ensures fault { result ≡ line.new.fault }
{
    *line = line_of(letter, bytes, uid);
    line.fault
}

/// The line that begins with a letter, or no line.
fn line_of(letter: u8, bytes: &[u8], uid: u64) -> VicinityLine
    ensures { result ≡ spec.line_of letter bytes.now uid }
{
    match letter {
        b'T' | b'R' | b'H' => {
            if bytes.len() <= (MAX_LINE_LEN - 2) / 2 {
                lined(bytes_line(letter, bytes).as_slice())
            } else {
                no_line(TOO_LONG)
            }
        }
        b'U' => lined(bytes_line(letter, &uid.to_be_bytes()).as_slice()),
        b'S' | b'C' | b'D' | b'F' | b'N' => lined(&[letter, b'\n']),
        _ => no_line(WRONG_LETTER),
    }
}

/// A letter, a space, bytes in hex digits and LF.
pub(crate) fn bytes_line(letter: u8, bytes: &[u8]) -> ArrayVec<u8, LINE_ROOM>
    requires { 2 + 2 * length bytes.now ≤ MAX_LINE_LEN }
    ensures items { result.items ≡ spec.bytes_line letter bytes.now }
{
    let mut line = ArrayVec::new();
    line.push(letter);
    line.push(b' ');
    push_hex(&mut line, bytes);
    line.push(b'\n');
    line
}

/// A line with zeros after it.
fn lined(text: &[u8]) -> VicinityLine
    requires { length text.now ≤ LINE_ROOM }
    ensures { result ≡ spec.lined text.now }
{
    let mut room = [0; LINE_ROOM];
    room[..text.len()].copy_from_slice(text);
    VicinityLine {
        fault: 0,
        len: text.len() as u32,
        text: room,
    }
}

/// No line, and why.
fn no_line(fault: u32) -> VicinityLine
    ensures { result ≡ spec.no_line fault }
{
    VicinityLine {
        fault,
        len: 0,
        text: [0; LINE_ROOM],
    }
}
