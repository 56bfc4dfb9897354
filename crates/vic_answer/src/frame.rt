//! The command `frame`.

ghost use Rattle.std.specs.Prelude.{◌≡◌, ◌*◌, ◌≤◌, length, take, IfOk, Ok, Some, None, MatchResult};
ghost use Rattle.arrayvec.specs.ArrayVec.{array_vec_len};
ghost use Rattle.hex.specs.Hex.{decode_of};
ghost use Rattle.vic_answer.specs.FrameText.{frame_status, frame_text, bytes_status, bytes_text, request_line, response_line};
ghost use Rattle.vic_answer.specs.Runs.{Writes};

use crate::lines::refused_word;
use crate::output::write_and_flush;
use crate::status::{RunFault, Status};
use crate::text::{ShortText, TEXT_ROOM, push_bytes, push_decimal, push_mask, push_str, push_uid};
use arrayvec::ArrayVec;
use vic_frame::{FrameFault, Request, Response, read_request, read_response};
use vic_log::{MAX_LINE_LEN, Sink};

/// Writes the two readings of a word of hex digits, as a request and as a reply, or why it isn't a
/// frame, and flushes. A word longer than a line of a log may be is refused. It allocates no
/// memory.
pub fn run_frame<W: Sink>(word: &[u8], sink: &mut W) -> Result<Status, RunFault>
    ensures status { IfOk result (λ s. s ≡ frame_status word.now) }
    ensures written { Writes W.Sink sink.old sink.new (frame_text word.now) result }
{
    let (text, status) = text_and_status(word);
    write_and_flush(sink, text.as_slice())?;
    Ok(status)
}

/// The text and the status for a word.
fn text_and_status(word: &[u8]) -> (ShortText, Status)
    ensures text { result.0.items ≡ frame_text word.now }
    ensures status { result.1 ≡ frame_status word.now }
{
    if word.len() > MAX_LINE_LEN {
        (refused_word("LineTooLong"), Status::Refused)
    } else {
        decoded(word)
    }
}

/// The text and the status for a word that is short enough.
fn decoded(word: &[u8]) -> (ShortText, Status)
    requires { length word.now ≤ MAX_LINE_LEN }
    ensures text { result.0.items ≡ bytes_text (decode_of word.now) }
    ensures status { result.1 ≡ bytes_status (decode_of word.now) }
{
    let mut room = [0; MAX_LINE_LEN / 2];
    let Some(count) = decode(word, &mut room) else {
        return (refused_word("Hex"), Status::Refused);
    };
    of_bytes(&room[..count])
}

/// Pushes the bytes that hex digits spell at the start of a buffer, and returns how many there are.
fn decode(digits: &[u8], room: &mut [u8]) -> Option<usize>
    requires { length digits.now ≤ 2 * length room.old }
    ensures { MatchResult (decode_of digits.now)
        (λ bytes. (result ≡ Some (length bytes)) × (take (length bytes) room.new ≡ bytes))
        (λ _. result ≡ None) }
{
    let count = digits.len() / 2;
    match hex::decode_to_slice(digits, &mut room[..count]) {
        Ok(()) => Some(count),
        Err(_) => None,
    }
}

/// The text and the status for some bytes: `Whole` if they are a request or a reply.
fn of_bytes(bytes: &[u8]) -> (ShortText, Status)
    ensures text { result.0.items ≡ bytes_text (Ok bytes.now) }
    ensures status { result.1 ≡ bytes_status (Ok bytes.now) }
{
    let request = read_request(bytes);
    let response = read_response(bytes);
    let mut text = request_line(&request);
    let line = response_line(&response);
    let Ok(()) = text.try_extend_from_slice(line.as_slice()) else {
        unreachable!()
    };
    let status = if request.is_ok() || response.is_ok() {
        Status::Whole
    } else {
        Status::Refused
    };
    (text, status)
}

/// The line of a reading as a request.
fn request_line(reading: &Result<Request, FrameFault>) -> ShortText
    ensures items { result.items ≡ request_line reading.now }
    ensures len { 2 * array_vec_len result ≤ TEXT_ROOM }
{
    let mut text = ArrayVec::new();
    match reading {
        Ok(request) => match *request {
            Request::Inventory { link, mask, .. } => {
                push_str(&mut text, "request inventory link ");
                push_decimal(&mut text, u32::from(link));
                push_str(&mut text, " slots ");
                push_decimal(&mut text, u32::from(request.slots()));
                push_str(&mut text, " mask ");
                push_mask(&mut text, &mask);
            }
            Request::StayQuiet { link, uid } => {
                push_str(&mut text, "request stay-quiet link ");
                push_decimal(&mut text, u32::from(link));
                push_str(&mut text, " uid ");
                push_uid(&mut text, uid);
            }
        },
        Err(fault) => {
            push_str(&mut text, "request refused ");
            push_str(&mut text, fault.name());
        }
    }
    push_str(&mut text, "\n");
    text
}

/// The line of a reading as a reply.
fn response_line(reading: &Result<Response, FrameFault>) -> ShortText
    ensures items { result.items ≡ response_line reading.now }
    ensures len { 2 * array_vec_len result ≤ TEXT_ROOM }
{
    let mut text = ArrayVec::new();
    match reading {
        Ok(response) => {
            push_str(&mut text, "response flags ");
            push_bytes(&mut text, 1, u64::from(response.flags()));
            push_str(&mut text, " dsfid ");
            push_bytes(&mut text, 1, u64::from(response.dsfid()));
            push_str(&mut text, " uid ");
            push_uid(&mut text, response.uid().number());
        }
        Err(fault) => {
            push_str(&mut text, "response refused ");
            push_str(&mut text, fault.name());
        }
    }
    push_str(&mut text, "\n");
    text
}
