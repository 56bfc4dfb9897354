//! Values in JSON behind a text.

ghost use Rattle.std.specs.Prelude.{◌≡◌, ◌++◌, ◌∷◌, [], List, ℕ, OnOk, codes, decimal, map};
ghost use Rattle.std.specs.List.{flat_map};
ghost use Rattle.vic_text.specs.Json as spec;

use crate::digits::{push_bytes, push_decimal, push_uid, push_value};
use std::alloc::AllocError;
use vic_frame::{Mask, Uid};

/// What has a form in JSON.
pub trait ToJson {
    /// Its text.
    ghost json_of: { Self → List ℕ };

    /// Appends it. It fails only if memory is refused.
    fn push_json(&self, text: &mut Vec<u8>) -> Result<(), AllocError>
        ensures { OnOk result (text.new.items ≡ text.old.items ++ json_of self.now) };
}

impl ToJson for Uid {
    ghost json_of = { spec.json_uid };

    fn push_json(&self, text: &mut Vec<u8>) -> Result<(), AllocError> {
        text.extend_from_slice(b"\"")?;
        push_uid(text, *self)?;
        text.extend_from_slice(b"\"")
    }
}

impl ToJson for Mask {
    ghost json_of = { spec.json_mask };

    fn push_json(&self, text: &mut Vec<u8>) -> Result<(), AllocError> {
        text.extend_from_slice(b"{")?;
        push_mask_members(text, self)?;
        text.extend_from_slice(b"}")
    }
}

impl ToJson for u32 {
    ghost json_of = { decimal };

    fn push_json(&self, text: &mut Vec<u8>) -> Result<(), AllocError> {
        push_decimal(text, u64::from(*self))
    }
}

impl ToJson for bool {
    ghost json_of = { spec.json_bool };

    fn push_json(&self, text: &mut Vec<u8>) -> Result<(), AllocError> {
        if *self {
            text.extend_from_slice(b"true")
        } else {
            text.extend_from_slice(b"false")
        }
    }
}

impl<T: ToJson> ToJson for Option<T> {
    ghost json_of = { spec.json_option T.json_of };

    fn push_json(&self, text: &mut Vec<u8>) -> Result<(), AllocError> {
        match self {
            Some(value) => value.push_json(text),
            None => text.extend_from_slice(b"null"),
        }
    }
}

/// Appends the members of a mask's object: its length and its value.
pub fn push_mask_members(text: &mut Vec<u8>, mask: &Mask) -> Result<(), AllocError>
    ensures { OnOk result (text.new.items ≡ text.old.items ++ spec.mask_members mask.now) }
{
    text.extend_from_slice(b"\"mask_len\":")?;
    push_decimal(text, u64::from(mask.len()))?;
    text.extend_from_slice(b",\"mask_value\":\"")?;
    push_value(text, mask)?;
    text.extend_from_slice(b"\"")
}

/// Appends a string with some bytes, which are UTF-8.
pub fn push_json_string(text: &mut Vec<u8>, bytes: &[u8]) -> Result<(), AllocError>
    ensures { OnOk result (text.new.items ≡ text.old.items ++ spec.json_string bytes.now) }
{
    text.extend_from_slice(b"\"")?;
    push_string_bytes(text, bytes)?;
    text.extend_from_slice(b"\"")
}

/// Appends the bytes of a string.
fn push_string_bytes(text: &mut Vec<u8>, bytes: &[u8]) -> Result<(), AllocError>
    ensures { OnOk result
        (text.new.items ≡ text.old.items ++ flat_map spec.json_byte bytes.now) }
{
    for byte in bytes {
        push_string_byte(text, *byte)?;
    }
    Ok(())
}

/// Appends a byte of a string.
fn push_string_byte(text: &mut Vec<u8>, byte: u8) -> Result<(), AllocError>
    ensures { OnOk result (text.new.items ≡ text.old.items ++ spec.json_byte byte) }
{
    if byte == b'"' {
        text.extend_from_slice(b"\\\"")
    } else if byte == b'\\' {
        text.extend_from_slice(b"\\\\")
    } else if byte < b' ' {
        text.extend_from_slice(b"\\u00")?;
        push_bytes(text, 1, u64::from(byte))
    } else {
        text.extend_from_slice(&[byte])
    }
}

/// Appends a list of values.
pub fn push_json_list<T: ToJson>(text: &mut Vec<u8>, values: &[T]) -> Result<(), AllocError>
    ensures { OnOk result
        (text.new.items ≡ text.old.items ++ spec.json_list (map T.json_of values.now)) }
{
    text.extend_from_slice(b"[")?;
    push_joined(text, values)?;
    text.extend_from_slice(b"]")
}

/// Appends values with a comma between any two.
fn push_joined<T: ToJson>(text: &mut Vec<u8>, values: &[T]) -> Result<(), AllocError>
    ensures { OnOk result
        (text.new.items ≡ text.old.items ++ spec.comma_joined (map T.json_of values.now)) }
{
    let Some((first, others)) = values.split_first() else {
        return Ok(());
    };
    first.push_json(text)?;
    push_behind_commas(text, others)
}

/// Appends values, each behind a comma.
fn push_behind_commas<T: ToJson>(text: &mut Vec<u8>, values: &[T]) -> Result<(), AllocError>
    ensures { OnOk result (text.new.items ≡ text.old.items
        ++ flat_map (λ v. codes "," ++ v) (map T.json_of values.now)) }
{
    for value in values {
        text.extend_from_slice(b",")?;
        value.push_json(text)?;
    }
    Ok(())
}
