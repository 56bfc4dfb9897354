//! What stands in a cell.

ghost use Rattle.std.specs.Prelude.{◌≡◌, map};
ghost use Rattle.std.specs.Char.{to_ascii_lowercase};
ghost use Rattle.vic_table.specs.Contents.{is_space, is_blank, trimmed, trimmed_start, trimmed_end, is_word};

/// A space or a tab.
pub(crate) fn is_space(byte: u8) -> bool
    ensures { result ≡ is_space byte }
{
    byte == b' ' || byte == b'\t'
}

/// Whether nothing but spaces and tabs is in a cell.
pub fn is_blank(cell: &[u8]) -> bool
    ensures { result ≡ is_blank cell.now }
{
    cell.iter().all(|byte| is_space(*byte))
}

/// A cell without spaces and tabs at its start.
fn trimmed_start(cell: &[u8]) -> &[u8]
    ensures { result.now ≡ trimmed_start cell.now }
{
    let mut rest = cell;
    while let Some((first, others)) = rest.split_first() {
        if !is_space(*first) {
            return rest;
        }
        rest = others;
    }
    rest
}

/// A cell without spaces and tabs at its end.
fn trimmed_end(cell: &[u8]) -> &[u8]
    ensures { result.now ≡ trimmed_end cell.now }
{
    let mut rest = cell;
    while let Some((last, others)) = rest.split_last() {
        if !is_space(*last) {
            return rest;
        }
        rest = others;
    }
    rest
}

/// A cell without spaces and tabs at its ends.
pub fn trimmed(cell: &[u8]) -> &[u8]
    ensures { result.now ≡ trimmed cell.now }
{
    trimmed_end(trimmed_start(cell))
}

/// Whether a cell is a word, without regard to the case of ASCII letters. The word is given in
/// lower case.
pub(crate) fn is_word(cell: &[u8], word: &[u8]) -> bool
    requires { map to_ascii_lowercase word.now ≡ word.now }
    ensures { result ≡ is_word word.now cell.now }
{
    trimmed(cell).eq_ignore_ascii_case(word)
}
