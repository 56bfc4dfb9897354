//! What a command line can ask for, and why it may ask for nothing.

ghost use Rattle.std.specs.Prelude.{◌≡◌, ◌≢◌};
ghost use Rattle.clap.specs.Words.{kind_of};

use clap::Error;
use clap::error::ErrorKind;
use std::alloc::AllocError;
use vic_answer::Task;

/// A command that takes one file after the other.
#[derive(Clone, Copy, Debug, Drop, PartialEq, Eq)]
pub enum FilesCommand {
    /// Says of logs against what is expected, which the first file says, what differs.
    Reconcile,
    /// Says of each log what it says of its field.
    Survey,
    /// Says of a catalogue and logs what became of each item, as a table.
    Collection,
    /// The same as an object.
    JsonCollection,
}

/// What a command line asks for.
#[derive(Debug, Drop)]
pub enum Asked {
    /// A task with one text.
    Task(Task),
    /// To print the object of the log in a file, or of standard input.
    Json(Option<String>),
    /// A command that takes these files, of which there is at least one.
    Files(FilesCommand, Vec<String>),
}

/// Why the words ask for nothing.
#[derive(Clone, Copy, Debug, Drop, PartialEq, Eq)]
pub enum WordsFault {
    /// They aren't a command with its operands.
    Usage,
    /// Memory to read them was refused.
    Memory,
}

impl From<AllocError> for WordsFault {
    ghost use Rattle.vic_words.specs.declared.asked.WordsFault.{WordsFault};

    ghost from_gives = { λ _ r. r ≡ WordsFault.Memory };

    fn from(_: AllocError) -> WordsFault {
        WordsFault::Memory
    }
}

impl From<Error> for WordsFault {
    ghost use Rattle.vic_words.specs.declared.asked.WordsFault.{WordsFault};
    ghost use Rattle.clap.specs.declared.error.kind.ErrorKind.{ErrorKind};

    ghost from_gives = { λ e r. r ≡ WordsFault.Usage → kind_of e ≢ ErrorKind.OutOfMemory };

    fn from(error: Error) -> WordsFault {
        match error.kind() {
            ErrorKind::OutOfMemory => WordsFault::Memory,
            _ => WordsFault::Usage,
        }
    }
}
