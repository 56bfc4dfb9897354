//! What a reader hears of tags in a row.

ghost use Rattle.std.specs.Prelude.{◌≡◌};
ghost use Rattle.vic_field.specs.Keys.{ready_between};
ghost use Rattle.vic_field.specs.Rows.{entries};
ghost use Rattle.vic_field.specs.Tags.{heard};

use crate::outcome::Outcome;
use crate::row::Row;
use vic_frame::low_bits_first::uid_at;

/// What a reader hears of the Ready tags from the key `first` to the key `last`.
pub(crate) fn hear(row: &Row, first: u64, last: u64) -> Outcome
    ensures { result ≡ heard (ready_between first last (entries row.now)) }
{
    let Some(one) = row.next_ready(row.position_of(first), last) else {
        return Outcome::Silent;
    };
    match row.next_ready(one + 1, last) {
        Some(_) => Outcome::Several,
        None => Outcome::Lone(uid_at(row.keys[one])),
    }
}
