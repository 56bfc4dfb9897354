//! Where the list of a log begins. Its other entries all come before it, so that a walk can end
//! there.

ghost use Rattle.std.specs.Prelude.{◌≡◌, ◌≤◌, true, false, length};
ghost use Rattle.vic_log.specs.Order.{entries};
ghost use Rattle.vic_walk.specs.Listing.{IsBeforeList, IsListFrom, IsListing};

use crate::lines::LogLines;
use vic_log::Entry;

/// The position of the first UID that a log lists, which is the number of its lines if it lists
/// none. All entries from there on list UIDs, so it is searched by halving.
pub fn list_start(lines: &LogLines) -> usize
    ensures within { result ≤ length lines.now }
    ensures before { IsBeforeList (entries lines.now) result }
    ensures list { IsListFrom (entries lines.now) result }
{
    let mut low = 0;
    let mut high = lines.len();
    while low < high {
        let middle = low + (high - low) / 2;
        let entry = lines.entry(middle);
        if is_listing(&entry) {
            high = middle;
        } else {
            low = middle + 1;
        }
    }
    low
}

/// Whether an entry lists a UID.
fn is_listing(entry: &Entry) -> bool
    ensures listing { result ≡ true → IsListing entry.now }
    ensures other { result ≡ false → IsListing entry.now → ⊥ }
{
    match *entry {
        Entry::Listed(_) => true,
        Entry::Sent(_)
        | Entry::Silent
        | Entry::Collision
        | Entry::Heard(_)
        | Entry::Garbled
        | Entry::Captured(_)
        | Entry::Unknown
        | Entry::FieldCycle => false,
    }
}
