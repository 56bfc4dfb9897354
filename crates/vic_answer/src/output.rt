//! How an answer is written.

ghost use Rattle.vic_answer.specs.Runs.{Writes};

use crate::status::RunFault;
use vic_log::{Sink, write_whole};

/// Writes a text and flushes it. A sink that has failed isn't written to again.
pub(crate) fn write_and_flush<W: Sink>(sink: &mut W, text: &[u8]) -> Result<(), RunFault>
    ensures { Writes W.Sink sink.old sink.new text.now result }
{
    if write_whole(sink, text).is_err() || sink.flush().is_err() {
        return Err(RunFault::Write);
    }
    Ok(())
}
