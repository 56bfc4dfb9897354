//! What the files of a collection are together.

use crate::fault::Refusal;
use vic_collection::Collection;

/// What the files of a collection are together.
#[derive(Drop)]
pub enum Gathered {
    /// They are no operands: no log could have one's name, or there isn't one catalogue, or more
    /// than one table of places.
    Usage,
    /// One of them is refused, or they can't be told apart.
    Refused(Refusal),
    /// A catalogue, a table of places if there is one, and a survey of each log.
    Collection(Collection),
}
