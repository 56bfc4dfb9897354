//! A log with its slots filled in, for C.

ghost use Rattle.std.specs.Prelude.{◌≡◌, ◌≢◌};
ghost use Rattle.vicinity_c.specs.Simulated.{IsSimulatedInto};

use std::alloc::Global;
use vic_answer::simulate_text;
use vic_numbers::{NO_ANSWER, copy_list};

/// Fills in the slots of the log that a text spells, as the tags that it lists would answer, and
/// returns what `vicinity simulate` writes: the log's text, or the line of a refusal. `needed` is
/// how many bytes it has. If they fit into the buffer, they are at its start; otherwise it is
/// unchanged, and the same call with a buffer of `needed` bytes returns them. The result is the
/// program's status, 0 or 3; or 4 if memory was refused, and then nothing is returned.
#[unsafe(no_mangle)]
pub extern "C" fn vicinity_simulate(
    alloc: Global,
    text: &[u8],
    filled: &mut [u8],
    needed: &mut usize,
) -> u32
    ensures filled { result ≢ 4
        → IsSimulatedInto text.now result needed.new filled.old filled.new }
    ensures nothing { result ≡ 4 → (needed.new ≡ 0) × (filled.new ≡ filled.old) }
{
    let Ok(simulation) = simulate_text(alloc, text) else {
        *needed = 0;
        return NO_ANSWER.status;
    };
    *needed = copy_list(simulation.text.as_slice(), filled);
    u32::from(simulation.status.code())
}
