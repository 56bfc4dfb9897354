//! Frames for C: requests, replies and bytes written with their CRC.

ghost use Rattle.std.specs.Prelude.{◌≡◌, ◌+◌, ◌≤◌, length, MatchOption};
ghost use Rattle.vic_frame.specs.Crc.{with_crc};
ghost use Rattle.vic_frame.specs.Replies.{reply_spelling};
ghost use Rattle.vicinity_c.specs.Frames as spec;

use crate::inventory::{WRONG_LINK, inventory};
use arrayvec::ArrayVec;
use vic_answer::MAX_LINK;
use vic_frame::{Request, Response, Uid, crc, write_request, write_response};

/// The size of the buffer for a frame: a request has at most 13 bytes.
pub const FRAME_ROOM: usize = 16;

/// The fault of numbers that aren't those of a reply.
pub const WRONG_REPLY: u32 = 205;

/// The fault of bytes that are too many for a frame.
pub const TOO_LONG: u32 = 206;

/// A frame, or why there is none; then `len` and `bytes` are 0.
#[repr(C)]
#[derive(Clone, Copy, Debug, PartialEq, Eq)]
pub struct VicinityFrame {
    /// 0, or why there is no frame.
    pub fault: u32,
    pub len: u32,
    /// The frame, with zeros after it.
    pub bytes: [u8; FRAME_ROOM],
}

/// Writes the frame of an Inventory request, CRC included. The result is 0 or the fault: `link` is
/// above 3, `slots` is neither 1 nor 16, `mask_len` is above 64, or above 60 with 16 slots, or
/// `mask_value` has a bit above its length.
#[unsafe(no_mangle)]
pub extern "C" fn vicinity_write_inventory(
    link: u32,
    slots: u32,
    mask_len: u32,
    mask_value: u64,
    frame: &mut VicinityFrame,
) -> u32
    ensures frame { frame.new ≡ spec.inventory_frame link slots mask_len mask_value }
    ensures fault { result ≡ frame.new.fault }
{
    *frame = match inventory(link, slots, mask_len, mask_value) {
        Ok(request) => framed(write_request(&request).as_slice()),
        Err(fault) => no_frame(fault),
    };
    frame.fault
}

/// Writes the frame of a Stay Quiet request, CRC included. The result is 0 or the fault: `link` is
/// above 3.
#[unsafe(no_mangle)]
pub extern "C" fn vicinity_write_stay_quiet(link: u32, uid: u64, frame: &mut VicinityFrame) -> u32
    ensures frame { frame.new ≡ spec.stay_quiet_frame link uid }
    ensures fault { result ≡ frame.new.fault }
{
    *frame = if link > u32::from(MAX_LINK) {
        no_frame(WRONG_LINK)
    } else {
        let link = link as u8;
        framed(write_request(&Request::StayQuiet { link, uid }).as_slice())
    };
    frame.fault
}

/// Writes the frame of a reply, CRC included. The result is 0 or the fault: `flags` or `dsfid` is
/// above 255, the lowest bit of `flags`, Error_flag, is 1, or the most significant byte of `uid`
/// isn't E0.
#[unsafe(no_mangle)]
pub extern "C" fn vicinity_write_response(
    flags: u32,
    dsfid: u32,
    uid: u64,
    frame: &mut VicinityFrame,
) -> u32
    ensures frame { frame.new ≡ spec.reply_frame flags dsfid uid }
    ensures fault { result ≡ frame.new.fault }
{
    *frame = match reply(flags, dsfid, uid) {
        Some(reply) => framed(&write_response(&reply)),
        None => no_frame(WRONG_REPLY),
    };
    frame.fault
}

/// Writes bytes with their CRC after them: a frame whose CRC the reader's chip removed. The result
/// is 0 or the fault: there are more than 14 bytes.
#[unsafe(no_mangle)]
pub extern "C" fn vicinity_add_crc(bytes: &[u8], frame: &mut VicinityFrame) -> u32
    ensures frame { frame.new ≡ spec.crc_frame bytes.now }
    ensures fault { result ≡ frame.new.fault }
{
    *frame = if bytes.len() > FRAME_ROOM - 2 {
        no_frame(TOO_LONG)
    } else {
        with_crc(bytes)
    };
    frame.fault
}

/// The reply with some numbers, if there is one.
fn reply(flags: u32, dsfid: u32, uid: u64) -> Option<Response>
    ensures { MatchOption result (spec.reply_frame flags dsfid uid ≡ spec.no_frame WRONG_REPLY)
        (λ r. spec.reply_frame flags dsfid uid ≡ spec.framed (reply_spelling r)) }
{
    let Ok(flags) = u8::try_from(flags) else {
        return None;
    };
    let Ok(dsfid) = u8::try_from(dsfid) else {
        return None;
    };
    Response::new(flags, dsfid, Uid::new(uid)?)
}

/// A frame with zeros after it.
fn framed(bytes: &[u8]) -> VicinityFrame
    requires { length bytes.now ≤ FRAME_ROOM }
    ensures { result ≡ spec.framed bytes.now }
{
    let mut room = [0; FRAME_ROOM];
    room[..bytes.len()].copy_from_slice(bytes);
    VicinityFrame {
        fault: 0,
        len: bytes.len() as u32,
        bytes: room,
    }
}

/// No frame, and why.
fn no_frame(fault: u32) -> VicinityFrame
    ensures { result ≡ spec.no_frame fault }
{
    VicinityFrame {
        fault,
        len: 0,
        bytes: [0; FRAME_ROOM],
    }
}

/// Bytes with their CRC after them.
fn with_crc(bytes: &[u8]) -> VicinityFrame
    requires { length bytes.now + 2 ≤ FRAME_ROOM }
    ensures { result ≡ spec.framed (with_crc bytes.now) }
{
    let code = crc(bytes);
    let mut frame: ArrayVec<u8, FRAME_ROOM> = ArrayVec::new();
    let Ok(()) = frame.try_extend_from_slice(bytes) else {
        unreachable!()
    };
    frame.push((code % 256) as u8);
    frame.push((code / 256) as u8);
    framed(frame.as_slice())
}
