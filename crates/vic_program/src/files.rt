//! Files that are opened by name.

ghost use Rattle.std.specs.Prelude.{◌≡◌, ℕ, List, false, IfErr, IfOk};

use std::io;
use vic_log::Source;

/// Whatever opens files by name.
pub trait Files {
    /// An open file.
    type File: Source + Drop;

    // How the history of a file begins that was opened by this name: each implementation has its
    // own way, which the program doesn't know. So it can't take another file for this one.
    ghost origin: { Self → List ℕ → List ℕ };

    // A file with this name couldn't be opened.
    ghost Refuses: { Self → List ℕ → Type 0 };

    /// Opens a file to be read.
    fn open(&self, name: &str) -> io::Result<Self::File>
        ensures origin { IfOk result (λ file.
            Self.File.returned file ≡ origin self.now name.now) }
        ensures works { IfOk result (λ file. Self.File.has_failed file ≡ false) }
        ensures refuses { IfErr result (λ _. Refuses self.now name.now) };
}
