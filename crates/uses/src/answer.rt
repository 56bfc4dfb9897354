//! Uses of `vic_answer`.

ghost use Rattle.std.specs.Prelude.{IfOk, IfSome};
ghost use Rattle.vic_log.specs.Log.{LogValue};
ghost use Rattle.vic_answer.specs.Answered.{HasLog};

use std::alloc::{AllocError, Global};
use vic_answer::laws::simulation_is_a_log;
use vic_answer::{Status, simulate_text};

/// What `simulate` writes, unless it refuses: the text of a log.
pub fn simulated(alloc: Global, text: &[u8]) -> Result<Option<Vec<u8>>, AllocError>
    ensures { IfOk result (λ found. IfSome found (λ written.
        (log : LogValue) × HasLog written.items log)) }
{
    simulation_is_a_log();
    let written = simulate_text(alloc, text)?;
    match written.status {
        Status::Whole => Ok(Some(written.text)),
        _ => Ok(None),
    }
}
