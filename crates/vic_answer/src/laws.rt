//! Laws about answers.

ghost use Rattle.std.specs.Prelude.{◌≡◌, ℕ, ◌++◌, List, Ok, codes};
ghost use Rattle.hex.specs.Hex.{encode_upper};
ghost use Rattle.vic_frame.specs.declared.request.Request.{Request};
ghost use Rattle.vic_frame.specs.Bytes.{AreBytes};
ghost use Rattle.vic_frame.specs.Reading.{request_reading, reply_reading};
ghost use Rattle.vic_frame.specs.Replies.{Reply};
ghost use Rattle.vic_answer.specs.declared.spell.Frame.{Frame};
ghost use Rattle.vic_answer.specs.Answered.{HasLog};
ghost use Rattle.vic_answer.specs.CheckText.{BeginsAsCheck};
ghost use Rattle.vic_answer.specs.ExplainText.{IsExplanationOf};
ghost use Rattle.vic_answer.specs.MarginText.{IsMarginOf};
ghost use Rattle.vic_answer.specs.ReportText.{IsReportOf};
ghost use Rattle.vic_answer.specs.declared.status.Status.{Status};
ghost use Rattle.vic_answer.specs.FrameText.{reply_words, request_words};
ghost use Rattle.vic_answer.specs.SpellText.{spell_text, words_of, words_reading};
ghost use Rattle.vic_answer.specs.SimulateText.{IsSimulationOf};
ghost use Rattle.vic_answer.specs.declared.status.Status.TheVariants.{Whole};
ghost use Rattle.vic_log.specs.Log.{LogValue};

use vic_log::laws::text_reads_back;

/// `spell` and `frame` are inverse: the words of the line that `frame` writes for some bytes spell
/// these bytes again; and words that `spell` accepts are the words of `frame`'s line for what they
/// spell.
pub fn spell_undoes_frame()
    ensures request { (f : List ℕ) (q : Request) → AreBytes f → request_reading f ≡ Ok q
        → spell_text (request_words q) ≡ encode_upper f ++ codes "\n" }
    ensures reply { (f : List ℕ) (r : Reply) → AreBytes f → reply_reading f ≡ Ok r
        → spell_text (reply_words r) ≡ encode_upper f ++ codes "\n" }
    ensures only { (words : List (List ℕ)) (what : Frame)
        → words_reading words ≡ Ok what → words ≡ words_of what }
{}

/// The answers of `explain`, `report` and `margin` to a text begin with the line of `check` and
/// have its status.
pub fn answers_begin_as_check()
    ensures explain { (text answer : List ℕ) (status : Status)
        → IsExplanationOf text answer status → BeginsAsCheck text answer status }
    ensures report { (text answer : List ℕ) (status : Status)
        → IsReportOf text answer status → BeginsAsCheck text answer status }
    ensures margin { (text answer : List ℕ) (status : Status)
        → IsMarginOf text answer status → BeginsAsCheck text answer status }
{}

/// What `simulate` writes with status `Whole` is the text of a log.
pub fn simulation_is_a_log()
    ensures { (text answer : List ℕ) → IsSimulationOf text answer Whole
        → (log : LogValue) × HasLog answer log }
{
    text_reads_back();
}
