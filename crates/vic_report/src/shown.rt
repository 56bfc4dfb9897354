//! A UID with a line.

use vic_frame::Uid;

/// A UID, and a line that rules it out or shows that it is there.
#[derive(Clone, Copy, Debug, PartialEq, Eq)]
pub struct ShownUid {
    pub uid: Uid,
    /// The number of the line.
    pub line: u32,
}
