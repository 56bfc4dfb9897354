//! The result of a call of which one allocation may be refused.

use std::alloc::{AllocError, Global};

/// The result of a call.
#[derive(Clone, Copy, Debug, PartialEq, Eq)]
pub enum Found {
    /// The right answer; no allocation was refused.
    Right,
    /// Refused memory, and the right answer when it was called again.
    Memory,
    /// Anything else.
    Wrong,
}

impl Found {
    /// Its word.
    pub fn word(self) -> &'static str {
        match self {
            Found::Right => "right",
            Found::Memory => "memory",
            Found::Wrong => "wrong",
        }
    }
}

/// Makes a call that says whether its answer is right, and repeats it if memory was refused.
pub fn call_again<F: Fn(Global) -> Result<bool, AllocError>>(alloc: Global, call: F) -> Found
    requires { F.IsAlwaysCallable call }
{
    match call(alloc) {
        Ok(true) => Found::Right,
        Ok(false) => Found::Wrong,
        Err(AllocError) => match call(alloc) {
            Ok(true) => Found::Memory,
            Ok(false) | Err(AllocError) => Found::Wrong,
        },
    }
}

/// The result of two calls, one after the other.
pub fn both(first: Found, second: Found) -> Found {
    match (first, second) {
        (Found::Right, found) | (found, Found::Right) => found,
        _ => Found::Wrong,
    }
}
