//! A catalogue against what many logs say of their fields: which log is of which place, and the
//! state of each item.
//!
//! A `Collection` has a catalogue, a table of places if there is one, and a survey of each log. The
//! state of an item is the first of nine that applies. A log that is refused or impossible tells
//! nothing: any tag may have been in its field.
#![tactic(auto)]

mod alike;
mod answer;
mod collection;
mod findings;
mod found;
mod found_items;
mod items_without_log;
mod joins;
pub mod laws;
mod left_to_ask;
mod logs_by_uid;
mod state;
mod told;
mod uids;
mod undecided_logs;
mod unlisted;
mod without_log;

pub use answer::CollectionAnswer;
pub use collection::Collection;
pub use findings::Findings;
pub use found::{base_of, stem_of};
pub use found_items::FoundItem;
pub use logs_by_uid::{LogOfUid, LogsByUid};
pub use state::State;
pub use unlisted::UnlistedUid;
