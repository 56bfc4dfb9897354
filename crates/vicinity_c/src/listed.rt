//! The text of a log, and a list of UIDs beside it.

ghost use Rattle.std.specs.Prelude.{◌≡◌, IfOk};
ghost use Rattle.vic_log.specs.Lines.{ends_with, lf};
ghost use Rattle.vicinity_c.specs.Beside.{with_listed};

use crate::lines::bytes_line;
use std::alloc::{AllocError, Global};

/// A text with a list of UIDs after it, each on a line, and with LF after its own last line.
pub(crate) fn with_listed(alloc: Global, text: &[u8], uids: &[u64]) -> Result<Vec<u8>, AllocError>
    ensures { IfOk result (λ whole. whole.items ≡ with_listed text.now uids.now) }
{
    let mut whole = Vec::from_slice(alloc, text)?;
    if !ends_with_lf(text) {
        whole.push(b'\n')?;
    }
    for uid in uids {
        whole.extend_from_slice(bytes_line(b'U', &uid.to_be_bytes()).as_slice())?;
    }
    Ok(whole)
}

/// Whether a text has LF after its last line.
fn ends_with_lf(text: &[u8]) -> bool
    ensures { result ≡ ends_with lf text.now }
{
    match text.last() {
        Some(byte) => *byte == b'\n',
        None => false,
    }
}
