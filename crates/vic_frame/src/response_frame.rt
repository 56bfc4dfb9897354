//! Replies as frames.

ghost use Rattle.std.specs.Prelude.{◌≡◌, Ok, Err, IfOk, IfErr, Some};
ghost use Rattle.vic_frame.specs.Replies.{Reply, SpellsReply, reply_spelling};
ghost use Rattle.vic_frame.specs.Faults.{first_fault, reply_faults};
ghost use Rattle.vic_frame.specs.Reading.{reply_reading};

use crate::bytes::{bit, number_of, push_number};
use crate::checksum::{CRC_LEN, crc, crc_right};
use crate::fault::FrameFault;
use crate::response::Response;
use crate::uid::Uid;
use arrayvec::ArrayVec;

/// How many bytes a reply has.
pub const RESPONSE_LEN: usize = 12;

/// The reply that the bytes spell, or the first fault of a reply that applies.
///
/// `ISO/IEC 15693-3, Inventory response`.
#[inline(always)]
pub fn read_response(bytes: &[u8]) -> Result<Response, FrameFault>
    ensures reading { result ≡ reply_reading bytes.now }
    ensures found { IfOk result (λ r. SpellsReply bytes.now r) }
    ensures only { (r : Reply) → SpellsReply bytes.now r → result ≡ Ok r }
    ensures fault { IfErr result (λ e. first_fault (reply_faults bytes.now) ≡ Some e) }
{
    read_fields(bytes)
}

/// The fields of a reply, or the first fault that applies.
#[inline(always)]
fn read_fields(bytes: &[u8]) -> Result<Response, FrameFault>
    ensures { result ≡ reply_reading bytes.now }
{
    if bytes.len() != RESPONSE_LEN {
        return Err(FrameFault::Length);
    }
    if !crc_right(bytes) {
        return Err(FrameFault::Crc);
    }
    let flags = bytes[0];
    if bit(flags, 1) {
        return Err(FrameFault::ErrorFlag);
    }
    let Some(uid) = Uid::new(number_of(&bytes[2..10])) else {
        return Err(FrameFault::NotVicinity);
    };
    // Error_flag is 0, as was tested above.
    let Some(response) = Response::new(flags, bytes[1], uid) else {
        unreachable!()
    };
    Ok(response)
}

/// The one spelling of a reply.
///
/// `ISO/IEC 15693-3, Inventory response`.
pub fn write_response(response: &Response) -> [u8; RESPONSE_LEN]
    ensures spells { SpellsReply result response.now }
    ensures items { result ≡ reply_spelling response.now }
{
    let mut out: ArrayVec<u8, RESPONSE_LEN> = ArrayVec::new();
    out.push(response.flags());
    out.push(response.dsfid());
    push_number(&mut out, 8, response.uid().number());
    let code = crc(out.as_slice());
    push_number(&mut out, CRC_LEN, u64::from(code));
    let mut bytes = [0; RESPONSE_LEN];
    bytes.copy_from_slice(out.as_slice());
    bytes
}
