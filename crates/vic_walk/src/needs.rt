//! How many tags a slot line requires without naming them.

ghost use Rattle.std.specs.Prelude.{◌≡◌};
ghost use Rattle.vic_walk.specs.Needs.{needs};

use vic_log::Entry;

/// How many tags, at least, answered in a slot without being named by its line.
#[inline(always)]
pub(crate) fn needs(entry: &Entry) -> usize
    ensures { result ≡ needs entry.now }
{
    match *entry {
        Entry::Collision => 2,
        Entry::Garbled => 1,
        Entry::Sent(_)
        | Entry::Silent
        | Entry::Heard(_)
        | Entry::Captured(_)
        | Entry::Unknown
        | Entry::Listed(_)
        | Entry::FieldCycle => 0,
    }
}
