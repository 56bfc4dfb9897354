//! The answer of a collection.

use vic_frame::{Mask, Uid};

/// The answer of a collection: the first of these that applies.
#[derive(Clone, Copy, Debug)]
pub enum CollectionAnswer<'a> {
    /// The log at this position is refused or impossible, and it is the first one.
    NotPossible { log: usize },
    /// The least UID of an item that is missing.
    Absent { uid: Uid },
    /// The least UID that is certain in some log and of no item.
    Unlisted { uid: Uid },
    /// The first mask, by length, then by value, of at most 56 bits, all of whose UIDs may be
    /// somewhere and may be nowhere, and are of no item.
    Unsettled { mask: Mask },
    /// The least UID of an item that isn't provable.
    Doubtful { uid: Uid },
    /// The least UID of an item that is misplaced.
    Misplaced { uid: Uid },
    /// The least UID of an item that should be away and isn't.
    Returned { uid: Uid },
    /// The least UID of an item whose place has no log.
    NotCounted { uid: Uid },
    /// The first place without a log.
    WithoutLog { place: &'a [u8] },
    /// The position of the first log of no place.
    LeftOver { log: usize },
    /// Everything that should be there is there, each thing in its place, and nothing else: so many
    /// items.
    Complete { count: usize },
}
