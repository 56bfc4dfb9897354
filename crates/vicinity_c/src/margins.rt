//! The margin of the log of a text, in numbers.

ghost use Rattle.std.specs.Prelude.{◌≡◌, ◌≢◌};
ghost use Rattle.vic_answer.specs.CheckText.{HasCompleteList};
ghost use Rattle.vic_numbers.specs.MarginNumbers as spec;
ghost use Rattle.vic_numbers.specs.Numbers.{AreNumbersFor, no_answer};
ghost use Rattle.vicinity_c.specs.Beside.{ListsBeside, with_listed};

use crate::listed::with_listed;
use std::alloc::Global;
use vic_answer::{answer_of, find_in_text};
use vic_numbers::{NO_ANSWER, NO_WEAKEST, VicinityAnswer, VicinityWeakest, numbers_of, weakest_of};

/// Judges the log that a text spells, as `vicinity_check` does, and returns its margin, complete or
/// not: the least number of slots in which a UID that isn't listed was overlooked, with the weakest
/// mask; if it is complete, also what its hidden and its deaf reading leave unsettled. It is all 0
/// if the log is impossible or the text refused.
#[unsafe(no_mangle)]
pub extern "C" fn vicinity_margin(
    alloc: Global,
    text: &[u8],
    answer: &mut VicinityAnswer,
    weakest: &mut VicinityWeakest,
) -> u32
    ensures answer { answer.new.kind ≢ 0 → AreNumbersFor text.now answer.new }
    ensures whole { answer.new.kind ≡ 1 → HasCompleteList text.now answer.new.count }
    ensures weakest { answer.new.kind ≢ 0
        → spec.AreMarginNumbersFor text.now answer.new weakest.new }
    ensures no_answer { answer.new.kind ≡ 0 → answer.new ≡ no_answer }
    ensures no_weakest { answer.new.kind ≡ 0 → weakest.new ≡ spec.no_weakest }
    ensures status { result ≡ answer.new.status }
{
    let Ok(measured) = find_in_text(alloc, text) else {
        return refuse(answer, weakest);
    };
    *weakest = weakest_of(&measured);
    let numbers = numbers_of(&answer_of(&measured));
    *answer = numbers;
    numbers.status
}

/// Judges and measures the log of a text with a list of UIDs after it, as `vicinity_check_listed`
/// and `vicinity_margin` do.
#[unsafe(no_mangle)]
pub extern "C" fn vicinity_margin_listed(
    alloc: Global,
    text: &[u8],
    uids: &[u64],
    answer: &mut VicinityAnswer,
    weakest: &mut VicinityWeakest,
) -> u32
    ensures answer { answer.new.kind ≢ 0
        → AreNumbersFor (with_listed text.now uids.now) answer.new }
    ensures whole { answer.new.kind ≡ 1
        → HasCompleteList (with_listed text.now uids.now) answer.new.count }
    ensures list { answer.new.kind ≡ 1 → ListsBeside text.now uids.now answer.new.count }
    ensures weakest { answer.new.kind ≢ 0
        → spec.AreMarginNumbersFor (with_listed text.now uids.now) answer.new weakest.new }
    ensures no_answer { answer.new.kind ≡ 0 → answer.new ≡ no_answer }
    ensures no_weakest { answer.new.kind ≡ 0 → weakest.new ≡ spec.no_weakest }
    ensures status { result ≡ answer.new.status }
{
    match with_listed(alloc, text, uids) {
        Ok(whole) => vicinity_margin(alloc, whole.as_slice(), answer, weakest),
        Err(_) => refuse(answer, weakest),
    }
}

/// Returns no answer and no margin: memory was refused.
fn refuse(answer: &mut VicinityAnswer, weakest: &mut VicinityWeakest) -> u32
    ensures answer { answer.new ≡ no_answer }
    ensures weakest { weakest.new ≡ spec.no_weakest }
    ensures status { result ≡ no_answer.status }
{
    *answer = NO_ANSWER;
    *weakest = NO_WEAKEST;
    NO_ANSWER.status
}
