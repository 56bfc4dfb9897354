//! Laws of the definitions. The functions do nothing: each stands for what its clauses say.

ghost use Rattle.std.specs.Prelude.{◌≡◌, ◌↔◌, ◌++◌, ◌∷◌, [], ℕ, true, List, length, slice_get, MatchOption};
ghost use Rattle.std.specs.List.{AllZip, Any};
ghost use Rattle.std.specs.List.Sorted.{IsPermutation};
ghost use Rattle.vic_frame.specs.Uids.{IsUid, has};
ghost use Rattle.vic_tree.specs.declared.open_masks.OpenMasks.{OpenMasks};
ghost use Rattle.vic_log.specs.Lines.{lines_of_text};
ghost use Rattle.vic_log.specs.Log.{LogValue};
ghost use Rattle.vic_log.specs.Order.{entries, listed};
ghost use Rattle.vic_log.specs.Text.{IsLogOf};
ghost use Rattle.vic_verdict.specs.Possible as one;
ghost use Rattle.vic_verdict.specs.Rising.{IsListOf};
ghost use Rattle.vic_verdict.specs.Verdict as verdict;
ghost use Rattle.vic_report.specs.declared.findings.Findings.{Findings as LogFindings};
ghost use Rattle.vic_report.specs.Reports as report;
ghost use Rattle.vic_survey.specs.Surveys.{AreSurveys, SurveyValue};
ghost use Rattle.vic_table.specs.Listed.{IsListCatalogue};
ghost use Rattle.vic_table.specs.Values.{ItemValue};
ghost use Rattle.vic_collection.specs.Against as against;
ghost use Rattle.vic_collection.specs.Against.{Agree, AgreeWithReport, AreFindingsAgainst, AreOfNoPlace, AreUids, HaveUids, IsDoubtful, IsFirstLogWith, IsLogWith, IsUndecidedIn, IsWhole};
ghost use Rattle.vic_collection.specs.Answers.{IsAnswer};
ghost use Rattle.vic_collection.specs.Collections.{CollectionValue, certain_logs, is_certain_in, is_certain_somewhere, is_of_item, is_possible_in, is_possible_somewhere, undecided_logs};
ghost use Rattle.vic_collection.specs.Complete.{IsComplete, IsSurveyOf};
ghost use Rattle.vic_collection.specs.Families.{IsCertainIn, IsCertainUid, IsPossibleIn, IsPossibleUid};
ghost use Rattle.vic_collection.specs.Findings.{AreFindings, AreOpenMasksOfSurvey};
ghost use Rattle.vic_collection.specs.States.{is_looked_for, state_of};
ghost use Rattle.vic_collection.specs.declared.answer.CollectionAnswer.TheVariants.{Complete};
ghost use Rattle.vic_collection.specs.declared.findings.Findings.{Findings};

/// A UID is possible of logs if it is possible in some log, and certain if it is certain in some
/// log.
pub fn possible_and_certain_in_some_log()
    ensures possible { (texts : List (List ℕ)) (u : ℕ)
        → IsPossibleUid texts u ↔ Any (IsPossibleIn u) texts }
    ensures certain { (texts : List (List ℕ)) (u : ℕ)
        → IsCertainUid texts u ↔ Any (IsCertainIn u) texts }
{}

/// Of one possible log alone, its UIDs are possible and certain as they are in the log. Its own
/// list has the findings of its report, and is complete against it exactly where the list is
/// complete.
pub fn one_log()
    ensures possible { (text : List ℕ) (log : LogValue) (u : ℕ)
        → IsLogOf (lines_of_text text) log → one.IsPossible (entries log.lines)
        → IsPossibleUid (text ∷ []) u ↔ one.IsPossibleUid (entries log.lines) u }
    ensures certain { (text : List ℕ) (log : LogValue) (u : ℕ)
        → IsLogOf (lines_of_text text) log → one.IsPossible (entries log.lines)
        → IsCertainUid (text ∷ []) u ↔ one.IsCertainUid (entries log.lines) u }
    ensures report { (text : List ℕ) (log : LogValue) (f : Findings) (g : LogFindings)
        → IsLogOf (lines_of_text text) log → one.IsPossible (entries log.lines)
        → AreFindingsAgainst (has (listed (entries log.lines))) (has (listed (entries log.lines)))
        (text ∷ []) f
        → report.AreFindings log.lines g → AgreeWithReport f g }
    ensures open_masks { (text : List ℕ) (log : LogValue) (o : OpenMasks)
        → IsLogOf (lines_of_text text) log → one.IsPossible (entries log.lines)
        → against.AreOpenMasksOfLog (text ∷ []) text o ↔ report.AreOpenMasks (entries log.lines) o }
    ensures whole { (text : List ℕ) (log : LogValue) → IsLogOf (lines_of_text text) log
        → IsWhole (listed (entries log.lines)) (text ∷ [])
        ↔ verdict.IsWhole (entries log.lines) }
{}

/// One log more makes no possible UID impossible, and no certain one uncertain.
pub fn one_log_more()
    ensures possible { (texts : List (List ℕ)) (text : List ℕ) (u : ℕ)
        → IsPossibleUid texts u → IsPossibleUid (texts ++ text ∷ []) u }
    ensures certain { (texts : List (List ℕ)) (text : List ℕ) (u : ℕ)
        → IsCertainUid texts u → IsCertainUid (texts ++ text ∷ []) u }
{}

/// In whatever order the logs come, they say the same, and so do their surveys: the states are the
/// same, and of the findings only which logs they name changes.
pub fn any_order()
    ensures possible { (texts others : List (List ℕ)) (u : ℕ) → IsPermutation texts others
        → IsPossibleUid texts u ↔ IsPossibleUid others u }
    ensures certain { (texts others : List (List ℕ)) (u : ℕ) → IsPermutation texts others
        → IsCertainUid texts u ↔ IsCertainUid others u }
    ensures states { (c d : CollectionValue) (item : ItemValue) → c.catalogue ≡ d.catalogue
        → c.rows ≡ d.rows → IsPermutation c.surveys d.surveys
        → state_of c item ≡ state_of d item }
    ensures findings { (c d : CollectionValue) (f g : Findings) → c.catalogue ≡ d.catalogue
        → c.rows ≡ d.rows → IsPermutation c.surveys d.surveys
        → AreFindings c f → AreFindings d g → Agree f g }
{}

/// What surveys say is what their logs say: which UIDs are certain in a log, and which possible;
/// which are somewhere in each family that may have been in the fields, and which in some; and in
/// which logs.
pub fn surveys_say_what_logs_say()
    ensures certain_in { (text : List ℕ) (s : SurveyValue) (u : ℕ) → IsSurveyOf text s
        → (is_certain_in s u ≡ true) ↔ IsCertainIn u text }
    ensures possible_in { (text : List ℕ) (s : SurveyValue) (u : ℕ) → IsSurveyOf text s
        → IsUid u → (is_possible_in s u ≡ true) ↔ IsPossibleIn u text }
    ensures certain { (c : CollectionValue) (texts : List (List ℕ)) (u : ℕ)
        → AllZip IsSurveyOf texts c.surveys
        → (is_certain_somewhere c u ≡ true) ↔ IsCertainUid texts u }
    ensures possible { (c : CollectionValue) (texts : List (List ℕ)) (u : ℕ)
        → AllZip IsSurveyOf texts c.surveys → IsUid u
        → (is_possible_somewhere c u ≡ true) ↔ IsPossibleUid texts u }
    ensures certain_logs { (c : CollectionValue) (texts : List (List ℕ)) (u : ℕ)
        → AllZip IsSurveyOf texts c.surveys
        → IsListOf (IsLogWith (IsCertainIn u) texts) (certain_logs c u) }
    ensures undecided_logs { (c : CollectionValue) (texts : List (List ℕ)) (u : ℕ)
        → AllZip IsSurveyOf texts c.surveys → IsUid u
        → IsListOf (IsLogWith (IsUndecidedIn u) texts) (undecided_logs c u) }
{}

/// The findings of a collection are those of its logs, over all families that may have been in
/// their fields.
pub fn findings_are_of_logs()
    ensures findings { (c : CollectionValue) (texts : List (List ℕ)) (f : Findings)
        → AllZip IsSurveyOf texts c.surveys → HaveUids c → AreFindings c f
        → AreFindingsAgainst (is_looked_for c) (is_of_item c) texts f }
    ensures doubtful_first { (c : CollectionValue) (texts : List (List ℕ)) (u : ℕ)
        → AllZip IsSurveyOf texts c.surveys → IsDoubtful (is_of_item c) texts u
        → MatchOption (slice_get (undecided_logs c u) 0) ⊥
        (IsFirstLogWith (IsPossibleIn u) texts) }
    ensures open_masks { (c : CollectionValue) (texts : List (List ℕ)) (text : List ℕ)
        (s : SurveyValue) (o : OpenMasks) → AllZip IsSurveyOf texts c.surveys
        → IsSurveyOf text s → AreOpenMasksOfSurvey c s o → against.AreOpenMasksOfLog texts text o }
{}

/// Against a list of UIDs, what is found is how the list differs from the logs, and nothing else.
/// The answer is `Complete` exactly where everything on the list is somewhere, and nothing else.
pub fn findings_of_lists()
    ensures findings { (c : CollectionValue) (texts : List (List ℕ)) (expected : List ℕ)
        (f : Findings) → AllZip IsSurveyOf texts c.surveys
        → IsListCatalogue c.catalogue expected → AreUids expected → AreFindings c f
        → AreFindingsAgainst (has expected) (has expected) texts f }
    ensures no_place { (c : CollectionValue) (expected : List ℕ) (f : Findings)
        → IsListCatalogue c.catalogue expected → AreFindings c f → AreOfNoPlace f }
    ensures complete { (c : CollectionValue) (texts : List (List ℕ)) (expected : List ℕ)
        (count : ℕ) → AllZip IsSurveyOf texts c.surveys
        → IsListCatalogue c.catalogue expected → AreUids expected
        → IsAnswer c (Complete count)
        ↔ (IsWhole expected texts × (count ≡ length expected)) }
    ensures same_lists { (c d : CollectionValue) (expected others : List ℕ) (f g : Findings)
        → c.surveys ≡ d.surveys → IsListCatalogue c.catalogue expected
        → IsListCatalogue d.catalogue others → IsPermutation expected others
        → AreFindings c f → AreFindings d g → Agree f g }
    ensures same_unlisted { (c d : CollectionValue) (expected others : List ℕ) (f g : Findings)
        → c.surveys ≡ d.surveys → AreSurveys c.surveys → IsListCatalogue c.catalogue expected
        → IsListCatalogue d.catalogue others → IsPermutation expected others
        → AreFindings c f → AreFindings d g → f.unlisted.items ≡ g.unlisted.items }
    ensures same_open_masks { (c d : CollectionValue) (s : SurveyValue) (o : OpenMasks)
        → c.surveys ≡ d.surveys → AreOpenMasksOfSurvey c s o → AreOpenMasksOfSurvey d s o }
{}

/// Where the answer is `Complete`, and each survey is what the text of its log says, everything
/// that should be there is there, each thing in a field of its place, and nothing else.
pub fn complete_is_true()
    ensures { (c : CollectionValue) (texts : List (List ℕ)) (count : ℕ)
        → AllZip IsSurveyOf texts c.surveys → IsAnswer c (Complete count)
        → IsComplete c texts count }
{}
