//! Calls that are deliberately wrong, to show that the test finds them.

use crate::found::{Found, call_again};
use crate::logs::{TWO_HEARD, is_text, log_of};
use std::alloc::{AllocError, Global};

/// Answers although memory was refused.
fn answer_in_any_case(alloc: Global) -> Result<bool, AllocError> {
    match log_of(alloc, TWO_HEARD) {
        Ok(Some(log)) => Ok(is_text(&log, TWO_HEARD)),
        Ok(None) | Err(AllocError) => Ok(false),
    }
}

/// A call that answers although memory was refused.
pub fn answers(alloc: Global) -> Found {
    call_again(alloc, answer_in_any_case)
}

/// Does nothing.
fn do_nothing(_: Global) -> Result<bool, AllocError> {
    Ok(true)
}

/// A call that takes no memory.
pub fn takes_none(alloc: Global) -> Found {
    call_again(alloc, do_nothing)
}
