//! The fields of frames for C.

ghost use Rattle.std.specs.Prelude.{◌≡◌};
ghost use Rattle.vic_frame.specs.Reading.{request_reading, reply_reading};
ghost use Rattle.vicinity_c.specs.Fields as spec;

use vic_frame::{FrameFault, Request, Response, read_request, read_response};
use vic_numbers::frame_fault_number;

/// The fields of a request, or why bytes aren't a request; then the others are 0.
#[repr(C)]
#[derive(Clone, Copy, Debug, PartialEq, Eq)]
pub struct VicinityRequest {
    /// 0, or the frame's fault.
    pub fault: u32,
    pub link: u32,
    /// 1 or 16 for an Inventory request, 0 for a Stay Quiet request.
    pub slots: u32,
    pub mask_len: u32,
    pub mask_value: u64,
    /// The UID of a Stay Quiet request.
    pub uid: u64,
}

/// The fields of a reply, or why bytes aren't a reply; then the others are 0.
#[repr(C)]
#[derive(Clone, Copy, Debug, PartialEq, Eq)]
pub struct VicinityReply {
    /// 0, or the frame's fault.
    pub fault: u32,
    pub flags: u16,
    pub dsfid: u16,
    pub uid: u64,
}

/// Reads the frame of a request. The result is 0 or its fault.
#[unsafe(no_mangle)]
pub extern "C" fn vicinity_read_request(bytes: &[u8], request: &mut VicinityRequest) -> u32
    ensures request { request.new ≡ spec.request_fields (request_reading bytes.now) }
    ensures fault { result ≡ request.new.fault }
{
    *request = request_fields(&read_request(bytes));
    request.fault
}

/// Reads the frame of a reply. The result is 0 or its fault.
#[unsafe(no_mangle)]
pub extern "C" fn vicinity_read_response(bytes: &[u8], reply: &mut VicinityReply) -> u32
    ensures reply { reply.new ≡ spec.reply_fields (reply_reading bytes.now) }
    ensures fault { result ≡ reply.new.fault }
{
    *reply = reply_fields(&read_response(bytes));
    reply.fault
}

/// The fields of a request that was read.
fn request_fields(reading: &Result<Request, FrameFault>) -> VicinityRequest
    ensures { result ≡ spec.request_fields reading.now }
{
    match reading {
        Ok(request) => match *request {
            Request::Inventory { link, mask, .. } => VicinityRequest {
                fault: 0,
                link: u32::from(link),
                slots: u32::from(request.slots()),
                mask_len: u32::from(mask.len()),
                mask_value: mask.value(),
                uid: 0,
            },
            Request::StayQuiet { link, uid } => VicinityRequest {
                fault: 0,
                link: u32::from(link),
                slots: 0,
                mask_len: 0,
                mask_value: 0,
                uid,
            },
        },
        Err(fault) => VicinityRequest {
            fault: frame_fault_number(fault),
            link: 0,
            slots: 0,
            mask_len: 0,
            mask_value: 0,
            uid: 0,
        },
    }
}

/// The fields of a reply that was read.
fn reply_fields(reading: &Result<Response, FrameFault>) -> VicinityReply
    ensures { result ≡ spec.reply_fields reading.now }
{
    match reading {
        Ok(reply) => VicinityReply {
            fault: 0,
            flags: u16::from(reply.flags()),
            dsfid: u16::from(reply.dsfid()),
            uid: reply.uid().number(),
        },
        Err(fault) => VicinityReply {
            fault: frame_fault_number(fault),
            flags: 0,
            dsfid: 0,
            uid: 0,
        },
    }
}
