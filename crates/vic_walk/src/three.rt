//! The UIDs of some parts, at most three.

ghost use Rattle.std.specs.Prelude.{ℕ, ◌+◌, ◌<◌, ◌≤◌, Bool, slice_index};
ghost use Rattle.vic_tree.specs.Gathering.{Gathers};
ghost use Rattle.vic_tree.specs.OpenSet.{UpToThree};
ghost use Rattle.vic_walk.specs.Borders.{AreBorders, part_count};
ghost use Rattle.vic_walk.specs.inner.PartUids.{AreUidsOf, HasKey};

use crate::marks::Marks;
use crate::parts::Parts;
use crate::steps::Span;
use arrayvec::ArrayVec;
use vic_frame::Uid;
use vic_frame::low_bits_first::uid_at;
use vic_tree::gather::gather_one;

/// UIDs of the marked parts of a span: all of them if there are fewer than three, otherwise three.
pub(crate) fn up_to_three(parts: &Parts, marks: &Marks, span: Span) -> ArrayVec<Uid, 3>
    requires { span.to ≤ part_count parts.now }
    ensures { (test : ℕ → Bool) → AreBorders parts.now → AreUidsOf parts.now marks.now span test
        → UpToThree test result.items }
{
    let mut found = ArrayVec::new();
    let mut from = span.from;
    while let Some(part) = marks.first(from, span.to) {
        gather_part(&mut found, parts, part);
        if found.is_full() {
            return found;
        }
        from = part + 1;
    }
    found
}

/// Appends the UIDs of a part, until there are three.
fn gather_part(found: &mut ArrayVec<Uid, 3>, parts: &Parts, part: usize)
    requires { part < part_count parts.now }
    ensures { Gathers (HasKey (slice_index parts.now part) (slice_index parts.now (part + 1)))
        found.old.items found.new.items }
{
    for key in parts.first_key(part)..parts.end_key(part) {
        if found.is_full() {
            return;
        }
        gather_one(found, &[], uid_at(key));
    }
}
