//! Requests as frames.

ghost use Rattle.std.specs.Prelude.{◌≡◌, ◌≤◌, Ok, Err, IfOk, IfErr, Some, length};
ghost use Rattle.vic_frame.specs.Requests.{IsInRange, IsValid, SpellsRequest};
ghost use Rattle.vic_frame.specs.Requests.{byte_count, request_body, request_spelling};
ghost use Rattle.vic_frame.specs.Faults.{first_fault, head_faults};
ghost use Rattle.vic_frame.specs.Faults.{inventory_faults, stay_quiet_faults, request_faults};
ghost use Rattle.vic_frame.specs.Reading.{fault_or, inventory_in, stay_quiet_in, request_reading};
ghost use Rattle.arrayvec.specs.ArrayVec.{array_vec_len};

use crate::bytes::{bit, number_of, push_number};
use crate::checksum::{CRC_LEN, crc, crc_right};
use crate::fault::FrameFault;
use crate::mask::{MAX_MASK_LEN, MAX_MASK_LEN_OF_SIXTEEN, Mask};
use crate::request::Request;
use arrayvec::ArrayVec;

/// How many bytes a request has at most: an Inventory request with a mask of 64 bits.
pub const MAX_REQUEST_LEN: usize = 13;

/// How many bytes any request has at least: flags, command and CRC.
const MIN_REQUEST_LEN: usize = 4;

/// How many bytes a Stay Quiet request has.
const STAY_QUIET_LEN: usize = 12;

/// The command of an Inventory request.
const INVENTORY: u8 = 0x01;

/// The command of a Stay Quiet request.
const STAY_QUIET: u8 = 0x02;

/// The request that the bytes spell, or the first fault of a request that applies.
///
/// `ISO/IEC 15693-3, Inventory request` and `.. Stay Quiet`.
#[inline(always)]
pub fn read_request(bytes: &[u8]) -> Result<Request, FrameFault>
    ensures reading { result ≡ request_reading bytes.now }
    ensures found { IfOk result (λ q. SpellsRequest bytes.now q) }
    ensures only { (q : Request) → SpellsRequest bytes.now q → result ≡ Ok q }
    ensures fault { IfErr result (λ e. first_fault (request_faults bytes.now) ≡ Some e) }
{
    read_fields(bytes)
}

/// The fields of a request, or the first fault that applies.
#[inline(always)]
fn read_fields(bytes: &[u8]) -> Result<Request, FrameFault>
    ensures { result ≡ request_reading bytes.now }
{
    if let Some(fault) = head_fault(bytes) {
        return Err(fault);
    }
    if bytes[1] == INVENTORY {
        read_inventory(bytes)
    } else {
        read_stay_quiet(bytes)
    }
}

/// The first fault that applies, of those that a request with any command can have.
#[inline(always)]
fn head_fault(bytes: &[u8]) -> Option<FrameFault>
    ensures { result ≡ first_fault (head_faults bytes.now) }
{
    if bytes.len() < MIN_REQUEST_LEN {
        return Some(FrameFault::Short);
    }
    if !crc_right(bytes) {
        return Some(FrameFault::Crc);
    }
    let flags = bytes[0];
    let command = bytes[1];
    if bit(flags, 4) {
        return Some(FrameFault::Extension);
    }
    if bit(flags, 8) {
        return Some(FrameFault::Reserved);
    }
    if bit(flags, 7) {
        return Some(FrameFault::OptionFlag);
    }
    if command != INVENTORY && command != STAY_QUIET {
        return Some(FrameFault::OtherCommand);
    }
    if bit(flags, 3) != (command == INVENTORY) {
        return Some(FrameFault::InventoryFlag);
    }
    None
}

/// The fields of an Inventory request, or the first fault of its own that applies.
#[inline(always)]
fn read_inventory(bytes: &[u8]) -> Result<Request, FrameFault>
    requires { MIN_REQUEST_LEN ≤ length bytes.now }
    ensures { result
        ≡ fault_or (first_fault (inventory_faults bytes.now)) (inventory_in bytes.now) }
{
    let flags = bytes[0];
    if bit(flags, 5) {
        return Err(FrameFault::Afi);
    }
    if bytes.len() == MIN_REQUEST_LEN {
        return Err(FrameFault::Length);
    }
    let one_slot = bit(flags, 6);
    let len = bytes[2];
    let longest = if one_slot {
        MAX_MASK_LEN
    } else {
        MAX_MASK_LEN_OF_SIXTEEN
    };
    if len > longest {
        return Err(FrameFault::MaskTooLong);
    }
    if bytes.len() != 3 + byte_count(len) + CRC_LEN {
        return Err(FrameFault::Length);
    }
    let value = number_of(&bytes[3..bytes.len() - CRC_LEN]);
    let Some(mask) = Mask::new(len, value) else {
        return Err(FrameFault::MaskPadding);
    };
    Ok(Request::Inventory {
        link: flags % 4,
        sixteen: !one_slot,
        mask,
    })
}

/// The fields of a Stay Quiet request, or the first fault of its own that applies.
#[inline(always)]
fn read_stay_quiet(bytes: &[u8]) -> Result<Request, FrameFault>
    requires { MIN_REQUEST_LEN ≤ length bytes.now }
    ensures { result
        ≡ fault_or (first_fault (stay_quiet_faults bytes.now)) (stay_quiet_in bytes.now) }
{
    let flags = bytes[0];
    if bit(flags, 5) {
        return Err(FrameFault::SelectFlag);
    }
    if !bit(flags, 6) {
        return Err(FrameFault::NotAddressed);
    }
    if bytes.len() != STAY_QUIET_LEN {
        return Err(FrameFault::Length);
    }
    Ok(Request::StayQuiet {
        link: flags % 4,
        uid: number_of(&bytes[2..10]),
    })
}

/// The one spelling of a valid request: 5 to 13 bytes for Inventory, 12 for Stay Quiet.
///
/// `ISO/IEC 15693-3, Inventory request` and `.. Stay Quiet`.
pub fn write_request(request: &Request) -> ArrayVec<u8, MAX_REQUEST_LEN>
    requires { IsValid request.now }
    ensures spells { SpellsRequest result.items request.now }
    ensures items { result.items ≡ request_spelling request.now }
{
    let mut out = body(request);
    let code = crc(out.as_slice());
    push_number(&mut out, CRC_LEN, u64::from(code));
    out
}

/// The bytes before the CRC.
fn body(request: &Request) -> ArrayVec<u8, MAX_REQUEST_LEN>
    requires { IsValid request.now }
    ensures items { result.items ≡ request_body request.now }
    ensures len { array_vec_len result ≤ 11 }
    ensures in_range { IsInRange request.now }
{
    let mut out = ArrayVec::new();
    match *request {
        Request::Inventory {
            link,
            sixteen,
            mask,
        } => {
            let flags: u8 = if sixteen { 0x04 } else { 0x24 };
            let len = mask.len();
            out.push(flags + link);
            out.push(INVENTORY);
            out.push(len);
            push_number(&mut out, byte_count(len), mask.value());
        }
        Request::StayQuiet { link, uid } => {
            out.push(0x20 + link);
            out.push(STAY_QUIET);
            push_number(&mut out, 8, uid);
        }
    }
    out
}

/// How many bytes that many bits of a mask take.
fn byte_count(bits: u8) -> usize
    requires { bits ≤ MAX_MASK_LEN }
    ensures { result ≡ byte_count bits }
{
    usize::from((bits + 7) / 8)
}
