//! What a reader hears in a slot.

use vic_frame::Uid;

/// What a reader hears in a slot.
#[derive(Clone, Copy, Debug, PartialEq, Eq)]
pub enum Outcome {
    /// No tag answers.
    Silent,
    /// One tag answers, the one with this UID.
    Lone(Uid),
    /// Two or more tags answer.
    Several,
}
