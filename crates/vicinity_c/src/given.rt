//! Texts and their names, cut out of the bytes that C hands over.

ghost use Rattle.std.specs.Prelude.{◌≡◌, ◌≤◌, ℕ, List, IfOk, MatchOption, length, map, string_bytes};
ghost use Rattle.vicinity_c.specs.Run.{AreNames, AreTexts};

use std::alloc::{AllocError, Global};

/// The names in some lines, each with LF after it; `None` if they aren't such.
pub(crate) fn names_in(alloc: Global, bytes: &[u8]) -> Result<Option<Vec<String>>, AllocError>
    ensures { IfOk result (λ found. MatchOption found
        ((names : List (List ℕ)) → AreNames bytes.now names → ⊥)
        (λ names. AreNames bytes.now (map string_bytes names.items))) }
{
    let Ok(mut rest) = str::from_utf8(bytes) else {
        return Ok(None);
    };
    let mut names = Vec::new(alloc);
    while let Some((name, others)) = rest.split_once('\n') {
        names.push(String::from_str(alloc, name)?)?;
        rest = others;
    }
    if rest.is_empty() {
        Ok(Some(names))
    } else {
        Ok(None)
    }
}

/// The texts of these lengths, one behind the other; `None` if they have fewer or more bytes.
pub(crate) fn texts_in<'a>(
    alloc: Global,
    bytes: &'a [u8],
    lengths: &[usize],
) -> Result<Option<Vec<&'a [u8]>>, AllocError>
    ensures { IfOk result (λ found. MatchOption found
        ((texts : List (List ℕ)) → AreTexts bytes.now lengths.now texts → ⊥)
        (λ texts. AreTexts bytes.now lengths.now (map (λ t. t.now) texts.items))) }
{
    let mut texts = Vec::with_capacity(alloc, lengths.len())?;
    let mut rest = bytes;
    for length in lengths {
        if *length > rest.len() {
            return Ok(None);
        }
        let (text, others) = rest.split_at(*length);
        texts.push(text)?;
        rest = others;
    }
    if rest.is_empty() {
        Ok(Some(texts))
    } else {
        Ok(None)
    }
}
