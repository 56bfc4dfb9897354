//! The answer to the text of a log, in numbers, with a population that shows it.

ghost use Rattle.std.specs.Prelude.{◌≡◌, ◌≢◌};
ghost use Rattle.vic_answer.specs.CheckText.{HasCompleteList};
ghost use Rattle.vic_numbers.specs.ExplainedNumbers.{AreExplainedNumbersFor};
ghost use Rattle.vic_numbers.specs.Numbers.{AreNumbersFor, no_answer};

use std::alloc::Global;
use vic_answer::{answer_of, find_in_text, uids_of};
use vic_numbers::{NO_ANSWER, VicinityAnswer, copy_uids, numbers_of};

/// Judges the log that a text spells, as `vicinity_check` does, and returns the population that
/// `vicinity explain` shows: `needed` is how many UIDs it has, 0 if there is none. If they fit into
/// the buffer, they are at its start, in rising order; otherwise it is unchanged, and the same call
/// with a buffer of `needed` elements returns them.
#[unsafe(no_mangle)]
pub extern "C" fn vicinity_explain(
    alloc: Global,
    text: &[u8],
    answer: &mut VicinityAnswer,
    population: &mut [u64],
    needed: &mut usize,
) -> u32
    ensures answer { answer.new.kind ≢ 0 → AreNumbersFor text.now answer.new }
    ensures whole { answer.new.kind ≡ 1 → HasCompleteList text.now answer.new.count }
    ensures explained { answer.new.kind ≢ 0
        → AreExplainedNumbersFor text.now answer.new needed.new population.old population.new }
    ensures no_answer { answer.new.kind ≡ 0 → answer.new ≡ no_answer }
    ensures no_population { answer.new.kind ≡ 0
        → (needed.new ≡ 0) × (population.new ≡ population.old) }
    ensures status { result ≡ answer.new.status }
{
    let Ok(explained) = find_in_text(alloc, text) else {
        *answer = NO_ANSWER;
        *needed = 0;
        return NO_ANSWER.status;
    };
    *needed = copy_uids(uids_of(&explained), population);
    let numbers = numbers_of(&answer_of(&explained));
    *answer = numbers;
    numbers.status
}
