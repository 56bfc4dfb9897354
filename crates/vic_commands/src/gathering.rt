//! Commands over many files.

ghost use Rattle.std.specs.Prelude.{[], ◌∷◌, ◌++◌, ℕ, List, IfOk};
ghost use Rattle.vic_answer.specs.declared.status.Status.{Status as StatusValue};
ghost use Rattle.vic_commands.specs.Commands.{IsOutputBy};

use crate::commands::Output;
use std::alloc::{AllocError, Global};

/// What a command over many files has to know of those that it has taken, one after the other.
pub trait Gather: Drop {
    // what it writes for texts with these names, and with which status
    ghost Writes: { List (List ℕ) → List (List ℕ) → List ℕ → StatusValue → Type 0 };

    // it has taken these texts, in this order, and they have these names
    ghost HasTaken: { List (List ℕ) → List (List ℕ) → Self → Type 0 };

    /// What it knows before the first file.
    fn begin(alloc: Global) -> Self
        ensures { HasTaken [] [] result };

    /// Takes one more text, which has this name. It fails only if memory is refused.
    fn add(self, alloc: Global, name: &str, text: Vec<u8>) -> Result<Self, AllocError>
        ensures { IfOk result (λ more. (names texts : List (List ℕ)) → HasTaken names texts self
            → HasTaken (names ++ name.now ∷ []) (texts ++ text.items ∷ []) more) };

    /// What the command writes for all that were taken. It fails only if memory is refused.
    fn finish(self, alloc: Global) -> Result<Output, AllocError>
        ensures { IfOk result (λ output. (names texts : List (List ℕ))
            → HasTaken names texts self → IsOutputBy (Writes names texts) output) };
}
