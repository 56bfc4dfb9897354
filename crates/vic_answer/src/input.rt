//! How a log is read.

ghost use Rattle.vic_answer.specs.Answered.{IsReadAs};
ghost use Rattle.vic_answer.specs.inner.ReadBytes.{Gives};
ghost use Rattle.vic_answer.specs.Runs.{LeavesSource, as_returned, as_revealed};

use crate::answered::Answered;
use crate::status::RunFault;
use std::alloc::Global;
use vic_log::{Log, LogFault, LogReader, Source};

/// Reads the log from a source, to its end or an early fault.
pub(crate) fn read_source<R: Source>(
    alloc: Global,
    source: &mut R,
) -> Result<Answered<Log>, RunFault>
    ensures reading { Gives IsReadAs (as_returned R.Source source.old source.new) result }
    ensures reading_revealed { Gives IsReadAs (as_revealed R.Source source.old source.new) result }
    ensures leaves_source { LeavesSource R.Source source.old source.new result }
{
    match LogReader::new(alloc).read_all(source) {
        Ok(log) => Ok(Answered::Found(log)),
        Err(LogFault::Line { line, fault }) => Ok(Answered::RefusedAt { line, fault }),
        Err(LogFault::Read) => Err(RunFault::Read),
        Err(LogFault::Memory) => Err(RunFault::Memory),
        Err(LogFault::Spent) => unreachable!(),
    }
}
