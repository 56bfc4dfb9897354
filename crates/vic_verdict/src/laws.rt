//! Laws about the definitions. The functions do nothing: each stands for what its clauses say.

#![tactic(auto, using(crate::proofs::Versions::law_lemmas))]

ghost use Rattle.std.specs.Prelude.{◌≡◌, ◌↔◌, ℕ, List, ◌∷◌, ◌++◌, true, false, length};
ghost use Rattle.vic_frame.specs.Uids.{IsUid, has};
ghost use Rattle.vic_log.specs.Populations.{IsPopulation, CouldHaveGiven};
ghost use Rattle.vic_verdict.specs.Possible.{IsPossible, IsPossibleUid, IsCertainUid};
ghost use Rattle.vic_log.specs.Slots.{slots_of, is_open, IsForcedBy, SuppliesAll};
ghost use Rattle.vic_log.specs.Order.{entries, listed, IsRisingFrom};
ghost use Rattle.vic_verdict.specs.Verdict.{IsVerdict, IsUnsettled, IsWhole};
ghost use Rattle.vic_verdict.specs.Versions.{IsWholeFirst, IsWholeSecond, IsWholeThird};
ghost use Rattle.vic_log.specs.FirstVersion.{AreOfFirstVersion};
ghost use Rattle.vic_log.specs.Overlooked.{IsNeverOverlooked};
ghost use Rattle.vic_log.specs.SecondVersion.{AreOfSecondVersion};
ghost use Rattle.vic_log.specs.Weaker.{AreWeaker};
ghost use Rattle.vic_log.specs.declared.entry.Entry.{Entry};
ghost use Rattle.vic_log.specs.declared.entry.LogLine.{LogLine};
ghost use Rattle.vic_frame.specs.Masks.{BitMask};
ghost use Rattle.vic_verdict.specs.declared.judging.Verdict.{Verdict};
ghost use Rattle.vic_verdict.specs.declared.judging.Verdict.TheVariants.{Complete};

/// Entries are possible if and only if their open UIDs supply what each slot requires.
pub fn possible_entries()
    ensures { (es : List Entry)
        → IsPossible es ↔ SuppliesAll (is_open (slots_of es)) (slots_of es) }
{}

/// In possible entries, a UID is possible if and only if it is open, and certain if and only if
/// some slot forces it.
pub fn possible_and_certain_uids()
    ensures possible { (es : List Entry) (u : ℕ) → IsPossible es
        → IsPossibleUid es u ↔ (is_open (slots_of es) u ≡ true) }
    ensures certain { (es : List Entry) (u : ℕ) → IsPossible es
        → IsCertainUid es u ↔ IsForcedBy (is_open (slots_of es)) (slots_of es) u }
{}

/// Impossible entries stay impossible when entries follow.
pub fn impossible_stays()
    ensures { (es more : List Entry) → (IsPossible es → ⊥)
        → IsPossible (es ++ more) → ⊥ }
{}

/// Adding a possible UID to a population that could have produced the entries yields another one.
pub fn one_possible_uid_more()
    ensures { (es : List Entry) (p : List ℕ) (u : ℕ) → IsPopulation p → CouldHaveGiven p es
        → IsPossibleUid es u → has p u ≡ false
        → IsPopulation (u ∷ p) × CouldHaveGiven (u ∷ p) es }
{}

/// Each log has exactly one verdict. If lines didn't rise, those up to a number needn't be the
/// first ones, and several could be the first impossible line.
pub fn exactly_one_verdict()
    ensures some { (lines : List LogLine) → (v : Verdict) × IsVerdict lines v }
    ensures one { (lines : List LogLine) → IsRisingFrom 0 lines → (v w : Verdict)
        → IsVerdict lines v → IsVerdict lines w → v ≡ w }
{}

/// Some mask is unsettled if and only if some UID that isn't listed is possible.
pub fn unsettled_if_another_is_possible()
    ensures { (es : List Entry) → ((m : BitMask) × IsUnsettled es m)
        ↔ ((u : ℕ) × IsPossibleUid es u × (has (listed es) u ≡ false)) }
{}

/// The verdict is `Complete` if and only if the list is complete.
pub fn complete_is_whole()
    ensures sound { (lines : List LogLine) (count : ℕ) → IsVerdict lines (Complete count)
        → IsWhole (entries lines) }
    ensures exact { (lines : List LogLine) → IsWhole (entries lines)
        → IsVerdict lines (Complete (length (listed (entries lines)))) }
{}

/// The main theorem says the same in the words of each version: in those of version 3 for all
/// entries, in those of versions 1 and 2 for entries of that version.
pub fn one_headline()
    ensures third { (es : List Entry) → IsWhole es ↔ IsWholeThird es }
    ensures second { (es : List Entry) → AreOfSecondVersion es
        → IsWholeSecond es ↔ IsWholeThird es }
    ensures first { (es : List Entry) → AreOfFirstVersion es
        → IsWholeFirst es ↔ IsWholeSecond es }
{}

/// Weaker entries are possible if the stronger ones are. If the list of the weaker entries is
/// complete and the stronger are possible, the list of the stronger is complete.
pub fn stronger_is_complete()
    ensures possible { (ds es : List Entry) → AreWeaker ds es → IsPossible es → IsPossible ds }
    ensures whole { (ds es : List Entry) → AreWeaker ds es → IsPossible es → IsWhole ds
        → IsWhole es }
{}

/// A complete list has every UID that was never overlooked, whatever is true of other tags.
pub fn never_overlooked_is_listed()
    ensures complete { (lines : List LogLine) (count u : ℕ) → IsVerdict lines (Complete count)
        → IsUid u → IsNeverOverlooked (entries lines) u → has (listed (entries lines)) u ≡ true }
    ensures whole { (es : List Entry) (u : ℕ) → IsWhole es → IsUid u → IsNeverOverlooked es u
        → has (listed es) u ≡ true }
{}
