//! Laws of the definitions. The functions do nothing: each stands for what its clauses say.

ghost use Rattle.std.specs.Prelude.{◌≡◌, ℕ, List};
ghost use Rattle.vic_survey.specs.Surveys.{AreSurveys, SurveyValue};
ghost use Rattle.vic_survey.specs.SurveyReading.{IsFirstWrong, IsTextOfSome};
ghost use Rattle.vic_survey.specs.SurveyText.{text_of};

/// Different surveys have different texts, so a text says one thing.
pub fn one_text_says_one_thing()
    ensures { (ss ts : List SurveyValue) → AreSurveys ss → AreSurveys ts
        → text_of ss ≡ text_of ts → ss ≡ ts }
{}

/// A text with a wrong line is that of no surveys.
pub fn a_wrong_line_refuses_the_text()
    ensures { (text : List ℕ) (n : ℕ) → IsFirstWrong text n → IsTextOfSome text → ⊥ }
{}
