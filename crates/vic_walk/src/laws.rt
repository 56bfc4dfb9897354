//! Laws of the definitions, proved.

ghost use Rattle.std.specs.Prelude.{◌≡◌, ◌≤◌, ◌==◌, ◌||◌, ℕ, List, nat_lt};
ghost use Rattle.vic_log.specs.declared.entry.Entry.{Entry as EntryValue};
ghost use Rattle.vic_log.specs.Slots.{slots_before, is_open};
ghost use Rattle.vic_walk.specs.Cuts.{AreCut, AreTogether, AreAlikeAt};
ghost use Rattle.vic_walk.specs.Walk.{IsEnd};

/// A log treats the UIDs of a part alike, at each of its positions.
pub fn parts_are_alike()
    ensures { (borders : List ℕ) (es : List EntryValue) (i u v : ℕ) → AreCut borders es
        → AreTogether borders u v → AreAlikeAt es i u v }
{}

/// The end of a UID tells where it was open: before entry `i` exactly if its end is 0 or above `i`.
pub fn open_up_to_its_end()
    ensures { (es : List EntryValue) (n u end i : ℕ) → IsEnd es n u end → i ≤ n
        → is_open (slots_before es i) u ≡ (end == 0 || nat_lt i end) }
{}
