//! How many lines a text has.

ghost use Rattle.std.specs.Prelude.{◌≡◌, if◌then◌else◌, length};
ghost use Rattle.vic_log.specs.Lines.{cut};

/// How many lines a text has; the last may lack its LF.
pub(crate) fn line_count(text: &[u8]) -> u64
    ensures { result ≡ length (cut text.now) }
{
    let mut count = 0;
    let mut is_begun = false;
    for byte in text {
        count += new_lines(is_begun);
        is_begun = *byte != b'\n';
    }
    count
}

/// How many lines begin with a byte, one or none, by whether its line is begun.
fn new_lines(is_begun: bool) -> u64
    ensures { result ≡ (if is_begun then 0 else 1) }
{
    if is_begun { 0 } else { 1 }
}
