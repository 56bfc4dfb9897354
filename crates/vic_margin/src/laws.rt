//! Laws of the definitions, proved. The functions do nothing: each stands for what its clauses say.

ghost use Rattle.std.specs.Prelude.{◌≡◌, ◌↔◌, ◌<◌, ◌≤◌, ◌+◌, ℕ, Bool, true, false, None, List, ◌++◌, length, map};
ghost use Rattle.vic_frame.specs.Masks.{BitMask};
ghost use Rattle.vic_frame.specs.Uids.{IsUid, has};
ghost use Rattle.vic_log.specs.declared.entry.Entry.{Entry};
ghost use Rattle.vic_log.specs.declared.entry.Version.{Version};
ghost use Rattle.vic_log.specs.Deaf.{deaf_entries, hidden_entries};
ghost use Rattle.vic_log.specs.Log.{IsLog};
ghost use Rattle.vic_log.specs.Quiet.{is_quiet};
ghost use Rattle.vic_log.specs.declared.entry.Entry.TheVariants.{Listed};
ghost use Rattle.vic_log.specs.declared.entry.LogLine.{LogLine};
ghost use Rattle.vic_log.specs.Order.{entries, listed};
ghost use Rattle.vic_log.specs.Overlooked.{IsNeverOverlooked};
ghost use Rattle.vic_log.specs.Populations.{CouldHaveGiven, IsPopulation};
ghost use Rattle.vic_log.specs.Weaker.{AreWeaker};
ghost use Rattle.vic_verdict.specs.Possible.{IsPossible, IsPossibleUid};
ghost use Rattle.vic_verdict.specs.Verdict.{IsLeast, IsVerdict};
ghost use Rattle.vic_verdict.specs.declared.judging.Verdict.{Verdict};
ghost use Rattle.vic_verdict.specs.declared.judging.Verdict.TheVariants.{Complete, Unsettled};
ghost use Rattle.vic_margin.specs.Differing.{DifferOnlyAt, IsPossibleWithout};
ghost use Rattle.vic_margin.specs.Margins.{IsMargin, IsWeakest};
ghost use Rattle.vic_margin.specs.Readings.{AreReadings, IsFirstOpened};
ghost use Rattle.vic_margin.specs.SilentRounds.{silent_round};
ghost use Rattle.vic_margin.specs.declared.answer.Readings.{Readings};
ghost use Rattle.vic_margin.specs.UidMargins.{margin_of};
ghost use Rattle.vic_margin.specs.declared.answer.Weakest.{Weakest};

/// Each UID that was overlooked less often than the margin is listed.
pub fn seldom_overlooked_is_listed()
    ensures { (es : List Entry) (n u : ℕ) → IsMargin es n → IsUid u → margin_of es u < n
        → has (listed es) u ≡ true }
{}

/// The margin of a UID is 0 exactly if it is overlooked nowhere.
pub fn never_overlooked_has_no_margin()
    ensures { (es : List Entry) (u : ℕ) → (margin_of es u ≡ 0) ↔ IsNeverOverlooked es u }
{}

/// The margin of a possible log is 0 exactly if some UID is possible and not listed.
pub fn no_margin_if_another_is_possible()
    ensures { (es : List Entry) → IsPossible es → IsMargin es 0
        ↔ ((u : ℕ) × IsPossibleUid es u × (has (listed es) u ≡ false)) }
{}

/// The margin of a complete log is at least 1.
pub fn complete_has_a_margin()
    ensures { (lines : List LogLine) (count n : ℕ) → IsVerdict lines (Complete count)
        → IsMargin (entries lines) n → 1 ≤ n }
{}

/// If the verdict is `Unsettled`, the margin is 0, and the weakest mask is the unsettled one.
pub fn unsettled_is_weakest()
    ensures margin { (lines : List LogLine) (m : BitMask) (w : Weakest)
        → IsVerdict lines (Unsettled m) → IsWeakest (entries lines) w → w.margin ≡ 0 }
    ensures mask { (lines : List LogLine) (m : BitMask) (w : Weakest)
        → IsVerdict lines (Unsettled m) → IsWeakest (entries lines) w → w.mask ≡ m }
{}

/// A population that could have produced entries which differ in fewer slot lines than the margin,
/// in whatever way, has only listed UIDs.
pub fn few_wrong_lines_hide_no_tag()
    ensures { (es ds : List Entry) (n : ℕ) (places p : List ℕ) → IsMargin es n
        → DifferOnlyAt places es ds → length places < n → IsPopulation p → CouldHaveGiven p ds
        → (u : ℕ) → has p u ≡ true → has (listed es) u ≡ true }
{}

/// The margin of a UID is exact: in possible entries, it is the least number of slots of which
/// nothing must be known so that the UID is possible.
pub fn margin_is_exact()
    ensures { (es : List Entry) (u : ℕ) → IsPossible es → IsUid u
        → IsLeast (IsPossibleWithout es u) (margin_of es u) }
{}

/// Weaker entries have no greater margins.
pub fn weaker_has_no_greater_margin()
    ensures uid { (ds es : List Entry) (u : ℕ) → AreWeaker ds es
        → margin_of ds u ≤ margin_of es u }
    ensures log { (ds es : List Entry) (m n : ℕ) → AreWeaker ds es → IsMargin ds m
        → IsMargin es n → m ≤ n }
{}

/// Entries behind all others, and before the list, never lower a margin, nor do more listed UIDs:
/// these leave the margin of each UID as it is.
pub fn more_never_lowers_the_margin()
    ensures uid { (es more : List Entry) (u : ℕ) → margin_of es u ≤ margin_of (es ++ more) u }
    ensures uid_listed { (es : List Entry) (us : List ℕ) (u : ℕ)
        → margin_of (es ++ map Listed us) u ≡ margin_of es u }
    ensures entries { (es more : List Entry) (us : List ℕ) (m n : ℕ)
        → IsMargin (es ++ map Listed us) m → IsMargin (es ++ more ++ map Listed us) n → m ≤ n }
    ensures listed { (es : List Entry) (us : List ℕ) (m n : ℕ) → IsMargin es m
        → IsMargin (es ++ map Listed us) n → m ≤ n }
{}

/// Each log has a margin and a weakest mask.
pub fn always_a_weakest_mask()
    ensures { (version : Version) (lines : List LogLine) → IsLog version lines
        → (w : Weakest) × IsWeakest (entries lines) w }
{}

/// One more silent round over all tags, in one slot or sixteen, adds one to the margin of each UID
/// that isn't Quiet; so, where each Quiet UID is listed, to that of the log.
pub fn one_silent_round_more()
    ensures uid { (es : List Entry) (link : ℕ) (sixteen : Bool) (u : ℕ)
        → is_quiet es (length es) u ≡ false
        → margin_of (es ++ silent_round link sixteen) u ≡ margin_of es u + 1 }
    ensures log { (es : List Entry) (link : ℕ) (sixteen : Bool) (us : List ℕ) (n : ℕ)
        → ((u : ℕ) → IsUid u → is_quiet es (length es) u ≡ true
        → has (listed (es ++ map Listed us)) u ≡ true)
        → IsMargin (es ++ map Listed us) n
        → IsMargin (es ++ silent_round link sixteen ++ map Listed us) (n + 1) }
{}

/// Where the hidden or the deaf reading of possible entries opens no UID, exactly the same
/// populations could have produced it. Where the deaf one opens none, the hidden one opens none.
pub fn nothing_opened()
    ensures hidden { (es : List Entry) → IsPossible es → IsFirstOpened (hidden_entries es) es None
        → (p : List ℕ) → IsPopulation p
        → CouldHaveGiven p (hidden_entries es) ↔ CouldHaveGiven p es }
    ensures deaf { (es : List Entry) → IsPossible es → IsFirstOpened (deaf_entries es) es None
        → (p : List ℕ) → IsPopulation p
        → CouldHaveGiven p (deaf_entries es) ↔ CouldHaveGiven p es }
    ensures both { (es : List Entry) (r : Readings) → AreReadings es r → r.deaf ≡ None
        → r.hidden ≡ None }
{}

/// So the verdict stays: where the hidden or the deaf reading of a possible log opens no UID, a log
/// with the entries of that reading has exactly the verdict of the log.
pub fn nothing_opened_keeps_the_verdict()
    ensures hidden { (version other : Version) (lines read : List LogLine) (v : Verdict)
        → IsLog version lines → IsPossible (entries lines)
        → IsFirstOpened (hidden_entries (entries lines)) (entries lines) None
        → IsLog other read → entries read ≡ hidden_entries (entries lines)
        → IsVerdict read v ↔ IsVerdict lines v }
    ensures deaf { (version other : Version) (lines read : List LogLine) (v : Verdict)
        → IsLog version lines → IsPossible (entries lines)
        → IsFirstOpened (deaf_entries (entries lines)) (entries lines) None
        → IsLog other read → entries read ≡ deaf_entries (entries lines)
        → IsVerdict read v ↔ IsVerdict lines v }
{}
