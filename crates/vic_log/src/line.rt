//! One line.

ghost use Rattle.std.specs.Prelude.{◌≡◌, ◌≤◌, IfOk, IfSome, length};
ghost use Rattle.vic_log.specs.Log.{IsValidEntry};
ghost use Rattle.vic_log.specs.FirstVersion.{IsOfFirstVersion};
ghost use Rattle.vic_log.specs.SecondVersion.{IsOfSecondVersion};
ghost use Rattle.vic_frame.specs.Reading.{request_reading, reply_reading};
ghost use Rattle.vic_log.specs.declared.entry.Version.TheVariants.{V1, V2};
ghost use Rattle.vic_log.specs.LineReading.{line_reading, with_digits, one_letter, sent, heard, captured, listed_uid};

use crate::decoding::decode;
use crate::entry::{Entry, MAX_LINE_LEN, Version};
use crate::fault::LineFault;
use vic_frame::{Uid, read_request, read_response};

/// The entry of a line with only a letter. `D` and `F` belong to version 2 and 3, `N` to 3.
#[inline(always)]
fn letter_entry(version: Version, letter: u8) -> Result<Option<Entry>, LineFault>
    ensures reading { result ≡ one_letter version letter }
    ensures valid { IfOk result (λ entry. IfSome entry IsValidEntry) }
    ensures first_version { version ≡ V1
        → IfOk result (λ entry. IfSome entry IsOfFirstVersion) }
    ensures second_version { version ≡ V2
        → IfOk result (λ entry. IfSome entry IsOfSecondVersion) }
{
    match (version, letter) {
        (_, b'S') => Ok(Some(Entry::Silent)),
        (_, b'C') => Ok(Some(Entry::Collision)),
        (Version::V2 | Version::V3, b'D') => Ok(Some(Entry::Garbled)),
        (Version::V2 | Version::V3, b'F') => Ok(Some(Entry::FieldCycle)),
        (Version::V3, b'N') => Ok(Some(Entry::Unknown)),
        _ => Err(LineFault::UnknownEntry),
    }
}

/// The entry of a sent frame.
#[inline(always)]
fn request_entry(bytes: &[u8]) -> Result<Option<Entry>, LineFault>
    ensures reading { result ≡ sent (request_reading bytes.now) }
    ensures valid { IfOk result (λ entry. IfSome entry IsValidEntry) }
    ensures first_version { IfOk result (λ entry. IfSome entry IsOfFirstVersion) }
    ensures second_version { IfOk result (λ entry. IfSome entry IsOfSecondVersion) }
{
    match read_request(bytes) {
        Ok(request) => Ok(Some(Entry::Sent(request))),
        Err(fault) => Err(LineFault::Frame(fault)),
    }
}

/// The entry of a reply's frame.
#[inline(always)]
fn reply_entry(bytes: &[u8]) -> Result<Option<Entry>, LineFault>
    ensures reading { result ≡ heard (reply_reading bytes.now) }
    ensures valid { IfOk result (λ entry. IfSome entry IsValidEntry) }
    ensures first_version { IfOk result (λ entry. IfSome entry IsOfFirstVersion) }
    ensures second_version { IfOk result (λ entry. IfSome entry IsOfSecondVersion) }
{
    match read_response(bytes) {
        Ok(response) => Ok(Some(Entry::Heard(response))),
        Err(fault) => Err(LineFault::Frame(fault)),
    }
}

/// The entry of a captured reply's frame.
#[inline(always)]
fn captured_entry(bytes: &[u8]) -> Result<Option<Entry>, LineFault>
    ensures reading { result ≡ captured (reply_reading bytes.now) }
    ensures valid { IfOk result (λ entry. IfSome entry IsValidEntry) }
{
    match read_response(bytes) {
        Ok(response) => Ok(Some(Entry::Captured(response))),
        Err(fault) => Err(LineFault::Frame(fault)),
    }
}

/// The entry of a listed UID's eight bytes, most significant first.
#[inline(always)]
fn uid_entry(bytes: &[u8]) -> Result<Option<Entry>, LineFault>
    ensures reading { result ≡ listed_uid bytes.now }
    ensures valid { IfOk result (λ entry. IfSome entry IsValidEntry) }
    ensures first_version { IfOk result (λ entry. IfSome entry IsOfFirstVersion) }
    ensures second_version { IfOk result (λ entry. IfSome entry IsOfSecondVersion) }
{
    if bytes.len() != 8 {
        return Err(LineFault::ListedLength);
    }
    let number = u64::from_be_bytes([
        bytes[0], bytes[1], bytes[2], bytes[3], bytes[4], bytes[5], bytes[6], bytes[7],
    ]);
    match Uid::new(number) {
        Some(uid) => Ok(Some(Entry::Listed(uid))),
        None => Err(LineFault::NotVicinity),
    }
}

/// The entry of a letter with hex digits after it.
#[inline(always)]
fn digits_entry(version: Version, letter: u8, digits: &[u8]) -> Result<Option<Entry>, LineFault>
    requires { length digits.now ≤ 126 }
    ensures reading { result ≡ with_digits version letter digits.now }
    ensures valid { IfOk result (λ entry. IfSome entry IsValidEntry) }
    ensures first_version { version ≡ V1
        → IfOk result (λ entry. IfSome entry IsOfFirstVersion) }
    ensures second_version { version ≡ V2
        → IfOk result (λ entry. IfSome entry IsOfSecondVersion) }
{
    let known = match letter {
        b'T' | b'R' | b'U' => true,
        b'H' => version == Version::V3,
        _ => false,
    };
    if !known {
        return Err(LineFault::UnknownEntry);
    }
    let mut room = [0; 63];
    let bytes = decode(digits, &mut room)?;
    match letter {
        b'T' => request_entry(bytes),
        b'R' => reply_entry(bytes),
        b'U' => uid_entry(bytes),
        _ => captured_entry(bytes),
    }
}

/// The entry on one line after the header of a log of this version, without its line end; `None` if
/// the line is ignored.
#[inline(always)]
pub fn line_entry_of(version: Version, line: &[u8]) -> Result<Option<Entry>, LineFault>
    ensures reading { result ≡ line_reading version line.now }
    ensures valid { IfOk result (λ entry. IfSome entry IsValidEntry) }
    ensures first_version { version ≡ V1
        → IfOk result (λ entry. IfSome entry IsOfFirstVersion) }
    ensures second_version { version ≡ V2
        → IfOk result (λ entry. IfSome entry IsOfSecondVersion) }
{
    if line.len() > MAX_LINE_LEN {
        return Err(LineFault::LineTooLong);
    }
    if line.is_empty() || line[0] == b'#' {
        return Ok(None);
    }
    if line.len() == 1 {
        return letter_entry(version, line[0]);
    }
    if line[1] != b' ' {
        return Err(LineFault::UnknownEntry);
    }
    digits_entry(version, line[0], &line[2..])
}

/// The entry on one line after the header of a log of version 1, without its line end; `None` if
/// the line is ignored.
pub fn line_entry(line: &[u8]) -> Result<Option<Entry>, LineFault>
    ensures reading { result ≡ line_reading V1 line.now }
    ensures valid { IfOk result (λ entry. IfSome entry IsValidEntry) }
    ensures first_version { IfOk result (λ entry. IfSome entry IsOfFirstVersion) }
{
    line_entry_of(Version::V1, line)
}
