//! By what a log is found.

ghost use Rattle.std.specs.Prelude.{◌≡◌};
ghost use Rattle.vic_collection.specs.Found.{base_of, is_slash, stem_of};

/// What follows the last `/` or `\` in a name.
pub fn base_of(name: &[u8]) -> &[u8]
    ensures { result.now ≡ base_of name.now }
{
    let mut start = 0;
    for (index, byte) in name.iter().enumerate() {
        if is_slash(*byte) {
            start = index + 1;
        }
    }
    &name[start..]
}

/// A name without its last `.` and what follows it, unless the name begins with this `.`.
pub fn stem_of(name: &[u8]) -> &[u8]
    ensures { result.now ≡ stem_of name.now }
{
    let mut end = 0;
    for (index, byte) in name.iter().enumerate() {
        if *byte == b'.' {
            end = index;
        }
    }
    if end == 0 { name } else { &name[..end] }
}

/// Whether a byte parts the folders of a path.
fn is_slash(byte: u8) -> bool
    ensures { result ≡ is_slash byte }
{
    byte == b'/' || byte == b'\\'
}
