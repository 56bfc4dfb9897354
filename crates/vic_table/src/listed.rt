//! A list of UIDs as a catalogue.

ghost use Rattle.std.specs.Prelude.{◌≡◌, [], IfOk};
ghost use Rattle.vic_table.specs.Listed.{IsListCatalogue};
ghost use Rattle.vic_table.specs.inner.Kept.{item_at, listed_at};

use crate::catalogue::Catalogue;
use crate::columns::{CatalogueColumns, Separator};
use crate::item_list::{Item, ItemList};
use crate::lines::LineAt;
use std::alloc::{AllocError, Global};
use vic_frame::Uid;

impl Catalogue {
    /// The catalogue of a list of UIDs: an item for each, in their order, which belongs nowhere and
    /// isn't away. Its text is empty.
    pub fn of_uids(alloc: Global, uids: &[Uid]) -> Result<Catalogue, AllocError>
        ensures listed { IfOk result (λ c. IsListCatalogue c uids.now) }
        ensures empty { IfOk result (λ c. c.text ≡ []) }
    {
        let mut items = ItemList::new(alloc);
        for uid in uids {
            items.push(&listed_item(*uid))?;
        }
        let head = LineAt {
            start: 0,
            end: 0,
            next: 0,
        };
        let columns = CatalogueColumns {
            separator: Separator::Comma,
            count: 1,
            uid: 0,
            place: None,
            away: None,
        };
        Ok(Catalogue::new(Vec::new(alloc), head, columns, items))
    }
}

/// The item of a UID in a list. It has no line.
fn listed_item(uid: Uid) -> Item
    ensures { item_at result ≡ listed_at uid }
{
    Item {
        line: 0,
        start: 0,
        end: 0,
        uid: Some(uid),
        place: None,
        away: false,
    }
}
