//! The names of logs.

ghost use Rattle.std.specs.Prelude.{◌≡◌, ◌↔◌, true, SomeIff, string_bytes};
ghost use Rattle.std.specs.List.{All};
ghost use Rattle.vic_survey.specs.Names.{IsName, IsVisible};

use std::marker::Model;

/// The greatest length of a name.
pub const MAX_NAME_LEN: usize = 4096;

/// The name of a log: a text of 1 to 4,096 bytes without control characters, that is, without the
/// bytes below 20 and 7F (hex).
#[derive(Drop)]
pub struct Name {
    text: String,
}

impl Model for Name {
    ghost use Rattle.std.specs.Prelude.{ℕ, List, string_bytes};
    ghost use Rattle.vic_survey.specs.Names.{IsName};

    ghost Value = { List ℕ };

    ghost view = { λ a. string_bytes a.text };

    ghost invariant = { λ a. IsName (string_bytes a.text) };
}

impl Name {
    /// The name with this text; `None` if it is no name.
    pub fn new(text: String) -> Option<Name>
        ensures { SomeIff result (IsName (string_bytes text)) (string_bytes text) }
    {
        if is_name(text.as_str()) {
            Some(Name { text })
        } else {
            None
        }
    }

    /// Its text.
    pub fn as_str(&self) -> &str
        ensures value { result.now ≡ self.now }
        ensures name { IsName self.now }
    {
        self.text.as_str()
    }
}

/// Whether a text is a name.
fn is_name(text: &str) -> bool
    ensures { (result ≡ true) ↔ IsName text.now }
{
    !text.is_empty() && text.len() <= MAX_NAME_LEN && are_visible(text.as_bytes())
}

/// Whether no byte is a control character.
pub(crate) fn are_visible(bytes: &[u8]) -> bool
    ensures { (result ≡ true) ↔ All IsVisible bytes.now }
{
    bytes.iter().all(|byte| *byte >= 0x20 && *byte != 0x7F)
}
