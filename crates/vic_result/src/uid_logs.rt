//! In which logs a UID is.

ghost use Rattle.std.specs.Prelude.{◌≡◌, ◌<◌, true, IsSomeAnd, length, slice_get};
ghost use Rattle.vic_collection.specs.Collections.{certain_logs, is_named, undecided_logs};
ghost use Rattle.vic_result.specs.ResultTable.{logs_by};
ghost use Rattle.vic_result.specs.inner.ItemLogs.{AreUndecidedLogs};

use vic_collection::{Collection, LogsByUid};
use vic_frame::Uid;

/// In which logs a UID is: the positions of those in which it is certain, and of those in which it
/// is possible and not certain.
#[derive(Clone, Copy)]
pub(crate) struct UidLogs<'a> {
    pub(crate) certain: &'a [usize],
    /// Those that tables and objects name as the ones in which it may be.
    pub(crate) undecided: &'a [usize],
}

/// In which logs a UID is.
pub(crate) fn logs_of_uid<'a>(
    collection: &'a Collection,
    undecided: &'a LogsByUid,
    uid: Uid,
) -> UidLogs<'a>
    requires undecided { AreUndecidedLogs collection.now undecided.now }
    requires named { is_named collection.now uid ≡ true }
    ensures certain { result.certain.now ≡ certain_logs collection.now uid }
    ensures undecided { result.undecided.now ≡ undecided_logs collection.now uid }
{
    UidLogs {
        certain: collection.certain_in(uid),
        undecided: undecided.logs_of(uid),
    }
}

/// In which logs the UID of an item is.
pub(crate) fn logs_of_item<'a>(
    collection: &'a Collection,
    undecided: &'a LogsByUid,
    index: usize,
) -> UidLogs<'a>
    requires bound { index < length collection.now.catalogue.items }
    requires undecided { AreUndecidedLogs collection.now undecided.now }
    ensures certain { IsSomeAnd (slice_get collection.now.catalogue.items index) (λ item.
        result.certain.now ≡ logs_by (certain_logs collection.now) item.uid) }
    ensures undecided { IsSomeAnd (slice_get collection.now.catalogue.items index) (λ item.
        result.undecided.now ≡ logs_by (undecided_logs collection.now) item.uid) }
{
    match collection.catalogue().uid(index) {
        Some(uid) => logs_of_uid(collection, undecided, uid),
        None => UidLogs {
            certain: &[],
            undecided: &[],
        },
    }
}
