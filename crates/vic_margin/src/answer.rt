//! What is said of the margin of a log.

use vic_frame::Mask;
use vic_verdict::Verdict;

/// The verdict on a log, and its margin.
#[derive(Clone, Copy, Debug, PartialEq, Eq)]
pub struct Margin {
    /// The verdict on the log.
    pub verdict: Verdict,
    /// The margin of the log; `None` if the log is impossible.
    pub weakest: Option<Weakest>,
    /// How far its list is complete if the log is read more cautiously; `None` if it isn't
    /// complete.
    pub readings: Option<Readings>,
}

/// The margin of a log, and where it is least.
#[derive(Clone, Copy, Debug, PartialEq, Eq)]
pub struct Weakest {
    /// The least margin of the UIDs that aren't listed.
    pub margin: u32,
    /// The first mask by length, then by value, of at most 56 bits, all of whose UIDs have it and
    /// aren't listed.
    pub mask: Mask,
}

/// What a log leaves open, beside what it leaves open anyway, if it is read more cautiously: the
/// first mask by length, then by value, of at most 56 bits, all of whose UIDs are possible then
/// alone; `None` if no UID is.
#[derive(Clone, Copy, Debug, PartialEq, Eq)]
pub struct Readings {
    /// As if its replies may have hidden others.
    pub hidden: Option<Mask>,
    /// As if, besides, the reader may have gone deaf after its last answer.
    pub deaf: Option<Mask>,
}
