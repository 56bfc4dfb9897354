//! What a file of a collection is.

ghost use Rattle.std.specs.Prelude.{◌≡◌};
ghost use Rattle.vic_table.specs.Lines.{without_mark};
ghost use Rattle.vic_operands.specs.Kinds as spec;

/// The mark of UTF-8, which may stand before a log or a table.
const MARK: &[u8; 3] = b"\xEF\xBB\xBF";

/// What a file of a collection is, by its first bytes.
#[derive(Clone, Copy, Debug, PartialEq, Eq)]
pub enum Kind {
    /// A text of surveys.
    Surveys,
    /// The text of a log.
    Log,
    /// A catalogue, or a table of places.
    Table,
}

/// What a text is, by its first bytes.
pub fn kind_of(text: &[u8]) -> Kind
    ensures { result ≡ spec.kind_of text.now }
{
    if text.starts_with(b"vicinity-survey ") {
        Kind::Surveys
    } else if text.is_empty() || without_mark(text).starts_with(b"vicinity-") {
        Kind::Log
    } else {
        Kind::Table
    }
}

/// Whether the first operand of `reconcile` is a list of what is expected, by how it begins; any
/// other is of a collection.
pub(crate) fn is_list(text: &[u8]) -> bool
    ensures { result ≡ spec.is_list text.now }
{
    text.is_empty() || text.starts_with(b"vicinity-")
}

/// What a file behind a list of what is expected is: a text of surveys, or else a log.
pub(crate) fn kind_behind_list(text: &[u8]) -> Kind
    ensures { result ≡ spec.kind_behind_list text.now }
{
    if text.starts_with(b"vicinity-survey ") {
        Kind::Surveys
    } else {
        Kind::Log
    }
}

/// A text without the mark of UTF-8 at its start.
fn without_mark(text: &[u8]) -> &[u8]
    ensures { result.now ≡ without_mark text.now }
{
    if text.starts_with(MARK.as_slice()) {
        &text[3..]
    } else {
        text
    }
}
