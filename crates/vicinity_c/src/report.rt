//! The findings of the log of a text, in numbers.

ghost use Rattle.std.specs.Prelude.{◌≡◌, ◌≢◌};
ghost use Rattle.vic_answer.specs.CheckText.{HasCompleteList};
ghost use Rattle.vic_numbers.specs.FindingNumbers.{AreReportedNumbersFor};
ghost use Rattle.vic_numbers.specs.Numbers.{AreNumbersFor, no_answer};

use std::alloc::Global;
use vic_answer::{answer_of, find_in_text, findings_of};
use vic_numbers::{NO_ANSWER, VicinityAnswer, VicinityFinding, copy_findings, numbers_of};

/// Judges the log that a text spells, as `vicinity_check` does, and returns every finding: the
/// lines that `vicinity report` writes, in the same order. `needed` is how many there are: none if
/// the answer is complete or a refusal. If they fit into the buffer, they are at its start;
/// otherwise it is unchanged, and the same call with a buffer of `needed` elements returns them.
#[unsafe(no_mangle)]
pub extern "C" fn vicinity_report(
    alloc: Global,
    text: &[u8],
    answer: &mut VicinityAnswer,
    findings: &mut [VicinityFinding],
    needed: &mut usize,
) -> u32
    ensures answer { answer.new.kind ≢ 0 → AreNumbersFor text.now answer.new }
    ensures whole { answer.new.kind ≡ 1 → HasCompleteList text.now answer.new.count }
    ensures reported { answer.new.kind ≢ 0
        → AreReportedNumbersFor text.now answer.new needed.new findings.old findings.new }
    ensures no_answer { answer.new.kind ≡ 0 → answer.new ≡ no_answer }
    ensures no_findings { answer.new.kind ≡ 0
        → (needed.new ≡ 0) × (findings.new ≡ findings.old) }
    ensures status { result ≡ answer.new.status }
{
    let Ok(reported) = find_in_text(alloc, text) else {
        return refuse(answer, needed);
    };
    let Ok(list) = findings_of(alloc, &reported) else {
        return refuse(answer, needed);
    };
    *needed = copy_findings(list.as_slice(), findings);
    let numbers = numbers_of(&answer_of(&reported));
    *answer = numbers;
    numbers.status
}

/// Returns no answer and no findings: memory was refused.
fn refuse(answer: &mut VicinityAnswer, needed: &mut usize) -> u32
    ensures answer { answer.new ≡ no_answer }
    ensures needed { needed.new ≡ 0 }
    ensures status { result ≡ no_answer.status }
{
    *answer = NO_ANSWER;
    *needed = 0;
    NO_ANSWER.status
}
