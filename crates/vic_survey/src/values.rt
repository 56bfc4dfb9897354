//! The values in the lines of surveys, from their texts.

ghost use Rattle.std.specs.Prelude.{◌≡◌, ◌≤◌, None, Some, MatchOption};
ghost use Rattle.vic_survey.specs.inner.Values as spec;
ghost use Rattle.vic_survey.specs.inner.Steps as steps;

use crate::fault_names::fault_named;
use crate::rising::MAX_LINE_NUMBER;
use crate::survey::{MAX_COUNT, SurveyedField};
use bstr::ByteSlice;
use vic_frame::{Mask, UID_BITS, Uid};
use vic_report::ShownUid;
use vic_text::{hex_number_in, number_in, value_in};

/// How many digits a UID has.
const UID_LEN: usize = 16;

/// What stands before the first such byte, and behind it.
pub(crate) fn parted(byte: u8, bytes: &[u8]) -> Option<(&[u8], &[u8])>
    ensures { MatchOption result (spec.parted byte bytes.now ≡ None)
        (λ p. spec.parted byte bytes.now ≡ Some (p.0.now, p.1.now)) }
{
    match bytes.find_byte(byte) {
        Some(place) => Some((&bytes[..place], &bytes[place + 1..])),
        None => None,
    }
}

/// The number, up to a greatest one, that digits spell in decimal.
fn number_up_to(most: u32, digits: &[u8]) -> Option<u32>
    ensures { result ≡ spec.number_up_to most digits.now }
{
    let number = number_in(digits)?;
    if number <= u64::from(most) {
        Some(number as u32)
    } else {
        None
    }
}

/// The number of a line.
fn line_number_in(digits: &[u8]) -> Option<u32>
    ensures { result ≡ spec.line_number_in digits.now }
{
    let number = number_up_to(MAX_LINE_NUMBER, digits)?;
    if number > 0 { Some(number) } else { None }
}

/// A UID.
fn uid_in(digits: &[u8]) -> Option<Uid>
    ensures { result ≡ spec.uid_in digits.now }
{
    let number = hex_number_in(8, digits)?;
    Uid::new(number)
}

/// A mask of `len` bits.
fn mask_of(len: u8, text: &[u8]) -> Option<Mask>
    requires { len ≤ UID_BITS }
    ensures { result ≡ spec.mask_of len text.now }
{
    let value = value_in(len, text)?;
    Mask::new(len, value)
}

/// A mask of at most 56 bits.
fn mask_in(text: &[u8]) -> Option<Mask>
    ensures { result ≡ spec.mask_in text.now }
{
    let (digits, value) = parted(b' ', text)?;
    let len = number_up_to(u32::from(UID_BITS), digits)?;
    mask_of(len as u8, value)
}

/// A mask, or `-`.
fn found_in(text: &[u8]) -> Option<Option<Mask>>
    ensures { result ≡ spec.found_in text.now }
{
    if text == b"-".as_slice() {
        return Some(None);
    }
    let mask = mask_in(text)?;
    Some(Some(mask))
}

/// A UID, and the line that shows it.
fn certain_in(text: &[u8]) -> Option<ShownUid>
    ensures { result ≡ spec.certain_in text.now }
{
    if text.len() < UID_LEN {
        return None;
    }
    let (digits, rest) = text.split_at(UID_LEN);
    let uid = uid_in(digits)?;
    let line = line_after(b" by line ", rest)?;
    Some(ShownUid { uid, line })
}

/// A UID, and the line that shows it, behind the word.
pub(crate) fn certain_after(line: &[u8]) -> Option<ShownUid>
    ensures { result ≡ steps.certain_after line.now }
{
    certain_in(line.strip_prefix(b"certain ")?)
}

/// What a log says that isn't possible.
pub(crate) fn field_in(line: &[u8]) -> Option<SurveyedField>
    ensures { result ≡ steps.field_in line.now }
{
    if let Some(line) = line_after(b"impossible at line ", line) {
        return Some(SurveyedField::Impossible { line });
    }
    refused_in(line.strip_prefix(b"refused at line ")?)
}

/// Why a text has no log.
fn refused_in(text: &[u8]) -> Option<SurveyedField>
    ensures { result ≡ spec.refused_in text.now }
{
    let (digits, rest) = parted(b':', text)?;
    let line = line_number_in(digits)?;
    let name = rest.strip_prefix(b" ")?;
    let fault = fault_named(name)?;
    Some(SurveyedField::Refused { line, fault })
}

/// The number behind words.
pub(crate) fn count_after(words: &[u8], line: &[u8]) -> Option<u32>
    ensures { result ≡ steps.count_after words.now line.now }
{
    number_up_to(MAX_COUNT, line.strip_prefix(words)?)
}

/// The number of a line behind words.
fn line_after(words: &[u8], line: &[u8]) -> Option<u32>
    ensures { result ≡ steps.line_after words.now line.now }
{
    line_number_in(line.strip_prefix(words)?)
}

/// The mask behind words.
pub(crate) fn mask_after(words: &[u8], line: &[u8]) -> Option<Mask>
    ensures { result ≡ steps.mask_after words.now line.now }
{
    mask_in(line.strip_prefix(words)?)
}

/// The mask behind words, or `-`.
pub(crate) fn found_after(words: &[u8], line: &[u8]) -> Option<Option<Mask>>
    ensures { result ≡ steps.found_after words.now line.now }
{
    found_in(line.strip_prefix(words)?)
}
