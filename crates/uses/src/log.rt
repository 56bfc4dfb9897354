//! Uses of `vic_log`.

ghost use Rattle.std.specs.Prelude.{◌≡◌, IfOk};
ghost use Rattle.vic_log.specs.Order.{entries};
ghost use Rattle.vic_log.specs.Writing.{numbered, text_of};

use std::alloc::{AllocError, Global};
use vic_log::laws::text_reads_back;
use vic_log::{Log, LogFault, ToWrite, read_log, write_log};

/// The text of a log, in memory.
pub fn text_of_log(alloc: Global, log: &Log) -> Result<Vec<u8>, AllocError>
    ensures { IfOk result (λ text. text.items ≡ text_of log.now) }
{
    let mut sink = ToWrite::new(Vec::new(alloc));
    match write_log(log, &mut sink) {
        Ok(()) => Ok(sink.into_inner()),
        Err(_) => Err(AllocError),
    }
}

/// A log that was written, read again: its version and its entries, on the lines 2, 3, 4 and so on.
pub fn through_its_text(alloc: Global, log: &Log) -> Result<Log, LogFault>
    ensures version { IfOk result (λ read. read.version ≡ log.now.version) }
    ensures lines { IfOk result (λ read. read.lines ≡ numbered 2 (entries log.now.lines)) }
{
    text_reads_back();
    let _lines = log.lines();
    let Ok(text) = text_of_log(alloc, log) else {
        return Err(LogFault::Memory);
    };
    let read = read_log(alloc, text.as_slice())?;
    Ok(read)
}
