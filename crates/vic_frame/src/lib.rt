//! The UIDs of vicinity tags, the masks by which a reader selects them, and the frames on the air.
//!
//! A UID is a number, a mask the low bits that a UID must have, a request what a reader sends, a
//! reply what one tag answers. A frame is the bytes of a request or a reply with its CRC; the
//! caller says which of the two it is. No call allocates memory.
#![tactic(auto)]

mod bytes;
mod checksum;
mod fault;
pub mod laws;
pub mod low_bits_first;
mod mask;
pub mod mask_laws;
mod request;
mod request_frame;
mod response;
mod response_frame;
mod uid;

pub use checksum::{crc, crc_right};
pub use fault::FrameFault;
pub use mask::{MAX_MASK_LEN, MAX_MASK_LEN_OF_SIXTEEN, Mask, without_top_byte};
pub use request::Request;
pub use request_frame::{MAX_REQUEST_LEN, read_request, write_request};
pub use response::Response;
pub use response_frame::{RESPONSE_LEN, read_response, write_response};
pub use uid::{UID_BITS, Uid};
