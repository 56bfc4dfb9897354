//! The answer to the text of a log, in numbers.

ghost use Rattle.std.specs.Prelude.{◌≡◌, ◌≢◌};
ghost use Rattle.vic_answer.specs.CheckText.{HasCompleteList};
ghost use Rattle.vic_numbers.specs.Numbers.{AreNumbersFor, no_answer};
ghost use Rattle.vicinity_c.specs.Beside.{ListsBeside, with_listed};

use crate::listed::with_listed;
use std::alloc::Global;
use vic_answer::judge_text;
use vic_numbers::{NO_ANSWER, VicinityAnswer, numbers_of};

/// Judges the log that a text spells, and writes the answer in numbers. The result is its status:
/// the exit status of the program `vicinity check`.
///
/// If the answer's kind is 1, `complete`, the text has a log, some population of tags could have
/// produced it, and every population that could has exactly the `count` listed UIDs. If it is 0,
/// there is no answer, since memory was refused; what the struct held before is gone.
#[unsafe(no_mangle)]
pub extern "C" fn vicinity_check(alloc: Global, text: &[u8], answer: &mut VicinityAnswer) -> u32
    ensures answer { answer.new.kind ≢ 0 → AreNumbersFor text.now answer.new }
    ensures whole { answer.new.kind ≡ 1 → HasCompleteList text.now answer.new.count }
    ensures no_answer { answer.new.kind ≡ 0 → answer.new ≡ no_answer }
    ensures status { result ≡ answer.new.status }
{
    *answer = match judge_text(alloc, text) {
        Ok(judged) => numbers_of(&judged),
        Err(_) => NO_ANSWER,
    };
    answer.status
}

/// Judges the log of a text with a list of UIDs beside it, in any order: the answer of
/// `vicinity_check` to the text with a line `U` for each UID after it. If the last line of the text
/// lacks its LF, that is put there first, and a CR before it belongs to the line's end. What the
/// text lists itself counts too.
#[unsafe(no_mangle)]
pub extern "C" fn vicinity_check_listed(
    alloc: Global,
    text: &[u8],
    uids: &[u64],
    answer: &mut VicinityAnswer,
) -> u32
    ensures answer { answer.new.kind ≢ 0
        → AreNumbersFor (with_listed text.now uids.now) answer.new }
    ensures whole { answer.new.kind ≡ 1
        → HasCompleteList (with_listed text.now uids.now) answer.new.count }
    ensures list { answer.new.kind ≡ 1 → ListsBeside text.now uids.now answer.new.count }
    ensures no_answer { answer.new.kind ≡ 0 → answer.new ≡ no_answer }
    ensures status { result ≡ answer.new.status }
{
    match with_listed(alloc, text, uids) {
        Ok(whole) => vicinity_check(alloc, whole.as_slice(), answer),
        Err(_) => {
            *answer = NO_ANSWER;
            NO_ANSWER.status
        }
    }
}
