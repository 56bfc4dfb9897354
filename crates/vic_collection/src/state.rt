//! The state of an item.

/// What the logs of a collection say of an item. The first that applies is its state.
#[derive(Clone, Copy, Debug, PartialEq, Eq)]
pub enum State {
    /// It has no tag.
    NoTag,
    /// It should be away, and is certain in some log.
    Returned,
    /// It is certain in a log of its place.
    InPlace,
    /// It has a place, and is certain in some log.
    Misplaced,
    /// It has no place, and is certain in some log.
    There,
    /// It is possible somewhere.
    Doubtful,
    /// It is away.
    Away,
    /// No log is of its place.
    NotCounted,
    /// It was in none of the fields.
    Absent,
}
