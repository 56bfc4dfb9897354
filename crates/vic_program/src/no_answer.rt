//! Why a run has no answer, and what standard error says about it.

ghost use Rattle.std.specs.Prelude.{◌≡◌, ◌++◌, codes};
ghost use Rattle.vic_program.specs.Each.{read_fault_line};
ghost use Rattle.vic_program.specs.Ends.{end_of, line_of, run_end};
ghost use Rattle.vic_program.specs.Lines.{SaysLine, SaysPart};

use std::alloc::AllocError;
use vic_answer::{RunFault, Status, fault_text};
use vic_log::{ReadFault, Sink, write_whole};

/// The exit status of a run that has no answer.
pub(crate) const NO_ANSWER: u8 = 4;

/// Why a run has no answer.
#[derive(Clone, Copy, Debug, Drop)]
pub enum NoAnswer<'a> {
    /// The words aren't a command with its operands.
    Usage,
    /// The file with this name can't be opened.
    CannotOpen(&'a str),
    /// The run failed.
    Run(RunFault),
}

impl<'a> From<AllocError> for NoAnswer<'a> {
    ghost use Rattle.vic_program.specs.Ends.{line_of};
    ghost use Rattle.vic_answer.specs.Status.{fault_text};
    ghost use Rattle.vic_answer.specs.declared.status.RunFault.TheVariants.{Memory};

    ghost from_gives = { λ _ r. line_of r ≡ fault_text Memory };

    fn from(_: AllocError) -> NoAnswer<'a> {
        NoAnswer::Run(RunFault::Memory)
    }
}

/// How a run ends.
pub(crate) fn end_of_run<'a>(ran: Result<Status, RunFault>) -> Result<Status, NoAnswer<'a>>
    ensures { end_of result ≡ run_end ran }
{
    match ran {
        Ok(status) => Ok(status),
        Err(fault) => Err(NoAnswer::Run(fault)),
    }
}

/// Why there is no answer where a source wasn't read to its end.
pub(crate) fn no_answer_for_source<'a>(fault: ReadFault) -> NoAnswer<'a>
    ensures { line_of result ≡ read_fault_line fault }
{
    match fault {
        ReadFault::Read => NoAnswer::Run(RunFault::Read),
        ReadFault::Memory => NoAnswer::Run(RunFault::Memory),
    }
}

impl<'a> NoAnswer<'a> {
    /// The two parts of the line, without the LF.
    fn parts(&self) -> (&'static str, &'a str)
        ensures { result.0.now ++ result.1.now ≡ line_of self.now }
    {
        match self {
            NoAnswer::Usage => ("vicinity: usage", ""),
            NoAnswer::CannotOpen(name) => ("vicinity: cannot open ", name),
            NoAnswer::Run(fault) => (fault_text(fault), ""),
        }
    }

    /// Says it on a sink, which is flushed. A sink that has failed isn't written to again.
    pub(crate) fn say<W: Sink>(&self, sink: &mut W)
        ensures { SaysLine W.Sink sink.old sink.new (line_of self.now ++ codes "\n") }
    {
        let (first, second) = self.parts();
        say_part(sink, first.as_bytes());
        say_part(sink, second.as_bytes());
        say_part(sink, b"\n");
        if !sink.failed() {
            // if it fails, the status is the same
            let _ = sink.flush();
        }
    }
}

/// Writes a part of what is said. If that fails, the status is the same.
fn say_part<W: Sink>(sink: &mut W, part: &[u8])
    ensures { SaysPart W.Sink sink.old sink.new part.now }
{
    let _ = write_whole(sink, part);
}
