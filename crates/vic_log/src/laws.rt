//! Laws about logs and their text.

ghost use Rattle.std.specs.Prelude.{◌≡◌, ◌≢◌, ◌<◌, ◌≤◌, ◌++◌, ◌∷◌, ◌↔◌, ◌⊎◌, ℕ, true, false, [], List, slice_get, Some, None, Ok, Result};
ghost use Rattle.vic_frame.specs.Uids.{IsUid};
ghost use Rattle.vic_log.specs.declared.entry.Entry.{Entry};
ghost use Rattle.vic_log.specs.declared.entry.Entry.TheVariants.{Silent, Unknown};
ghost use Rattle.vic_log.specs.declared.fault.LineFault.{LineFault};
ghost use Rattle.vic_log.specs.declared.fault.LogFault.{LogFault};
ghost use Rattle.vic_log.specs.Deaf.{IsLastAnswer, answers, hidden_entries, has_heard_alone, deaf_entries, ends_silent, ArePartlyHidden, ArePartlyDeaf};
ghost use Rattle.vic_log.specs.Early.{IsEarlyFault, ReadsAs, Judges};
ghost use Rattle.vic_log.specs.FirstVersion.{IsOfFirstVersion, AreOfFirstVersion, opener_in_first, is_quiet_in_first, FitsFirst, CouldHaveGivenFirst, IsInOrderFirst};
ghost use Rattle.vic_log.specs.declared.entry.Version.{Version};
ghost use Rattle.vic_log.specs.Grammar.{SpellsEntry, IsPassedOver};
ghost use Rattle.vic_log.specs.LineReading.{line_reading};
ghost use Rattle.vic_log.specs.Lines.{lines_of_text};
ghost use Rattle.vic_log.specs.Log.{IsLog, LogValue};
ghost use Rattle.vic_log.specs.Order.{IsInOrder, listed, refusal};
ghost use Rattle.vic_log.specs.Overlooked.{IsNeverOverlooked};
ghost use Rattle.vic_log.specs.Populations.{Fits, CouldHaveGiven, outcome_of};
ghost use Rattle.vic_log.specs.SecondVersion.{IsOfSecondVersion, AreOfSecondVersion, FitsSecond, IsInOrderSecond, CouldHaveGivenOutcomes};
ghost use Rattle.vic_log.specs.Slots.{is_open, slots_of};
ghost use Rattle.vic_log.specs.Quiet.{is_quiet, IsSilenced};
ghost use Rattle.vic_log.specs.Rounds.{is_slot, opener};
ghost use Rattle.vic_log.specs.Text.{IsLogOf, IsFirstFault};
ghost use Rattle.vic_log.specs.Weaker.{AreWeaker, FitsMore, is_weaker};
ghost use Rattle.vic_log.specs.Writing.{text_of, renumbered};

/// A line is read as an entry if and only if it spells it, and is ignored if and only if it is
/// empty or begins with `#`.
pub fn read_where_spelled()
    ensures entry { (version : Version) (line : List ℕ) (e : Entry)
        → (line_reading version line ≡ Ok (Some e)) ↔ SpellsEntry version line e }
    ensures passed_over { (version : Version) (line : List ℕ)
        → (line_reading version line ≡ Ok None) ↔ IsPassedOver line }
{}

/// The text of a log reads as a log of the same version with the same entries, on the lines 2, 3, 4
/// and so on.
pub fn text_reads_back()
    ensures { (log : LogValue) → IsLog log.version log.lines
        → IsLogOf (lines_of_text (text_of log)) (renumbered log) }
{}

/// A text has a log or a first fault, never both, and never two.
pub fn one_answer()
    ensures some { (lines : List (List ℕ))
        → ((n : ℕ) × (f : LineFault) × IsFirstFault lines n f)
        ⊎ ((log : LogValue) × IsLogOf lines log) }
    ensures fault { (lines : List (List ℕ)) (n m : ℕ) (f g : LineFault)
        → IsFirstFault lines n f → IsFirstFault lines m g → (n ≡ m) × (f ≡ g) }
    ensures log { (lines : List (List ℕ)) (n : ℕ) (f : LineFault) (log : LogValue)
        → IsFirstFault lines n f → IsLogOf lines log → ⊥ }
{}

/// An early fault of some bytes is the fault of every text that begins with them.
pub fn early_fault_stays()
    ensures { (text more : List ℕ) (n : ℕ) (f : LineFault) → IsEarlyFault text n f
        → IsFirstFault (lines_of_text (text ++ more)) n f }
{}

/// What is read from a source in pieces is what its complete text says: the bytes already returned,
/// and those that it has left.
pub fn pieces_give_the_whole()
    ensures { (given left : List ℕ) (r : Result LogValue LogFault)
        → ReadsAs (Some left) given r → Judges (given ++ left) r }
{}

/// Entries in order stay in order with one more if and only if nothing refuses it.
pub fn push_keeps_order()
    ensures { (es : List Entry) (e : Entry) → IsInOrder es
        → IsInOrder (es ++ e ∷ []) ↔ (refusal es e ≡ None) }
{}

/// A tag is Quiet at a position if and only if a Stay Quiet with its UID comes before it, with no
/// field cycle in between.
pub fn quiet_since_stay_quiet()
    ensures { (es : List Entry) (i u : ℕ) → (is_quiet es i u ≡ true) ↔ IsSilenced es i u }
{}

/// For entries of version 1, the rules of later versions agree with those of version 1: on rounds,
/// Quiet tags, outcomes, the order of entries, and what a population could have produced.
pub fn first_version_is_kept()
    ensures opener { (es : List Entry) → AreOfFirstVersion es
        → (i : ℕ) → opener es i ≡ opener_in_first es i }
    ensures quiet { (es : List Entry) → AreOfFirstVersion es
        → (i u : ℕ) → is_quiet es i u ≡ is_quiet_in_first es i u }
    ensures fits { (e : Entry) → IsOfFirstVersion e
        → (us : List ℕ) → Fits e us ↔ FitsFirst e (outcome_of us) }
    ensures order { (es : List Entry) → AreOfFirstVersion es
        → IsInOrder es ↔ IsInOrderFirst es }
    ensures given { (es : List Entry) → AreOfFirstVersion es
        → (p : List ℕ) → CouldHaveGiven p es ↔ CouldHaveGivenFirst p es }
{}

/// For entries of version 2, the rules of version 3 agree with those of version 2: on outcomes, the
/// order of entries, and what a population could have produced.
pub fn second_version_is_kept()
    ensures fits { (e : Entry) → IsOfSecondVersion e
        → (us : List ℕ) → Fits e us ↔ FitsSecond e (outcome_of us) }
    ensures order { (es : List Entry) → AreOfSecondVersion es
        → IsInOrder es ↔ IsInOrderSecond es }
    ensures given { (es : List Entry) → AreOfSecondVersion es
        → (p : List ℕ) → CouldHaveGiven p es ↔ CouldHaveGivenOutcomes p es }
{}

/// A slot line is weaker than another if and only if every list of UIDs that fits the other fits
/// it.
pub fn weaker_fits_more()
    ensures { (d e : Entry) → is_slot d ≡ true → is_slot e ≡ true
        → (is_weaker d e ≡ true) ↔ FitsMore d e }
{}

/// A population that could have produced entries could have produced all that are weaker; these
/// list the same UIDs.
pub fn weaker_entries_keep_populations()
    ensures given { (ds es : List Entry) → AreWeaker ds es
        → (p : List ℕ) → CouldHaveGiven p es → CouldHaveGiven p ds }
    ensures listed { (ds es : List Entry) → AreWeaker ds es → listed ds ≡ listed es }
{}

/// A UID that is overlooked nowhere is open.
pub fn never_overlooked_is_open()
    ensures { (es : List Entry) (u : ℕ) → IsUid u
        → IsNeverOverlooked es u ↔ (is_open (slots_of es) u ≡ true) }
{}

/// The hidden entries are weaker than the entries, and the deaf ones weaker than the hidden ones.
pub fn deaf_is_weakest()
    ensures hidden { (es : List Entry) → AreWeaker (hidden_entries es) es }
    ensures deaf { (es : List Entry) → AreWeaker (deaf_entries es) (hidden_entries es) }
{}

/// The deaf entries are the hidden ones, but for silent slots that come behind the last answer, or
/// where there is none: of these nothing is known.
pub fn deaf_behind_the_last_answer()
    ensures behind { (es : List Entry) (i j : ℕ) → IsLastAnswer es i → i < j
        → slice_get es j ≡ Some Silent → slice_get (deaf_entries es) j ≡ Some Unknown }
    ensures before { (es : List Entry) (i j : ℕ) → IsLastAnswer es i → j ≤ i
        → slice_get (deaf_entries es) j ≡ slice_get (hidden_entries es) j }
    ensures never { (es : List Entry) (j : ℕ) → answers es ≡ 0
        → slice_get es j ≡ Some Silent → slice_get (deaf_entries es) j ≡ Some Unknown }
    ensures others { (es : List Entry) (j : ℕ) → slice_get es j ≢ Some Silent
        → slice_get (deaf_entries es) j ≡ slice_get (hidden_entries es) j }
{}

/// A population that could have produced entries in which some replies may have hidden others could
/// have produced the hidden ones. One that could have produced them where, besides, nothing is
/// known of some silent slots behind the last answer, as of those from some moment on, could have
/// produced the deaf ones.
pub fn hidden_and_deaf_keep_populations()
    ensures hidden { (ds es : List Entry) → ArePartlyHidden ds es
        → (p : List ℕ) → CouldHaveGiven p ds → CouldHaveGiven p (hidden_entries es) }
    ensures deaf { (ds es : List Entry) → ArePartlyDeaf ds es
        → (p : List ℕ) → CouldHaveGiven p ds → CouldHaveGiven p (deaf_entries es) }
{}

/// Entries without a reply that was heard alone are their own hidden ones; where no silent slot
/// comes behind the last answer, the deaf entries are the hidden ones. The deaf entries of the
/// hidden ones are the deaf ones.
pub fn hidden_and_deaf_may_be_the_same()
    ensures hidden { (es : List Entry) → has_heard_alone es ≡ false → hidden_entries es ≡ es }
    ensures deaf { (es : List Entry) → ends_silent es ≡ false
        → deaf_entries es ≡ hidden_entries es }
    ensures both { (es : List Entry) → deaf_entries (hidden_entries es) ≡ deaf_entries es }
{}
