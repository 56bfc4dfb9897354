//! How numbers, UIDs, masks and JSON values are written behind a text, and numbers read from one.
#![tactic(auto)]

mod digits;
mod json;
mod values;

pub use digits::{HEX_LEN, hex_digits, push_bytes, push_decimal, push_mask, push_uid, push_value};
pub use json::{ToJson, push_json_list, push_json_string, push_mask_members};
pub use values::{hex_number_in, number_in, value_in};
