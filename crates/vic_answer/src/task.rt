//! What the program can be asked to do with one log, frame or list of words, and how it is done.

ghost use Rattle.std.specs.Prelude.{◌≡◌, option_copied};
ghost use Rattle.vic_answer.specs.Runs.{LeavesSink};
ghost use Rattle.vic_answer.specs.Tasks.{Does, LeavesSourceAfter, file_of};

use crate::check::run_check;
use crate::explain::run_explain;
use crate::frame::run_frame;
use crate::margin::run_margin;
use crate::report::run_report;
use crate::simulate::run_simulate;
use crate::spell::run_spell;
use crate::status::{RunFault, Status};
use std::alloc::Global;
use vic_log::{Sink, Source};

/// What the program is asked to do with one file, frame or list of words. Without a file it reads
/// standard input.
#[derive(Debug, Drop)]
pub enum Task {
    /// To judge a log.
    Check(Option<String>),
    /// To fill in the slots of a log.
    Simulate(Option<String>),
    /// To judge a log and show a population behind the verdict.
    Explain(Option<String>),
    /// To judge a log and show every finding, with its lines.
    Report(Option<String>),
    /// To judge a log and show its margin, if it is complete.
    Margin(Option<String>),
    /// To read one frame, given in hex digits.
    Frame(String),
    /// To spell a frame, given in the words of `frame`.
    Spell(Vec<String>),
}

impl Task {
    /// The file that it reads, if one is named.
    pub fn file(&self) -> Option<&str>
        ensures { option_copied result ≡ file_of self.now }
    {
        match self {
            Task::Check(file)
            | Task::Simulate(file)
            | Task::Explain(file)
            | Task::Report(file)
            | Task::Margin(file) => file.as_ref().map(|name| name.as_str()),
            Task::Frame(_) | Task::Spell(_) => None,
        }
    }
}

/// Does a task from a source, which `frame` and `spell` don't read, to a sink.
pub fn do_task<R: Source, W: Sink>(
    alloc: Global,
    task: &Task,
    source: &mut R,
    sink: &mut W,
) -> Result<Status, RunFault>
    ensures does { Does R.Source W.Sink task.now source.old source.new sink.old sink.new result }
    ensures leaves_source { LeavesSourceAfter R.Source task.now source.old source.new result }
    ensures leaves_sink { LeavesSink W.Sink sink.old sink.new result }
{
    match task {
        Task::Check(_) => run_check(alloc, source, sink),
        Task::Simulate(_) => run_simulate(alloc, source, sink),
        Task::Explain(_) => run_explain(alloc, source, sink),
        Task::Report(_) => run_report(alloc, source, sink),
        Task::Margin(_) => run_margin(alloc, source, sink),
        Task::Frame(word) => run_frame(word.as_bytes(), sink),
        Task::Spell(words) => run_spell(words.as_slice(), sink),
    }
}
