//! What the object of a log tells of it.

use crate::finding::FindingTold;
use crate::request::ValidRequest;
use vic_frame::{Mask, Uid};
use vic_margin::Weakest;
use vic_report::LogReport;
use vic_verdict::Verdict;

/// How many certain UIDs are told at most.
pub const MOST_CERTAIN: usize = 10_000;

/// What a log tells.
#[derive(Drop)]
pub struct LogTold {
    /// The report on it.
    pub report: LogReport,
    /// The findings that are told.
    pub findings: Vec<FindingTold>,
    /// Its margin, if its list is complete.
    pub weakest: Option<Weakest>,
    /// What it tells if replies may have hidden others.
    pub hidden: CautiousReading,
    /// What it tells if, besides, the reader may have gone deaf after its last answer.
    pub deaf: CautiousReading,
    /// What it says of its field.
    pub field: FieldTold,
    /// If it is unsettled, a UID that isn't listed and could be there.
    pub unnoticed: Option<Uid>,
}

/// What a cautious reading of a log tells.
#[derive(Clone, Copy, Debug, PartialEq, Eq)]
pub struct CautiousReading {
    /// The verdict on the list of the log.
    pub verdict: Verdict,
    /// Whether it is that of the log.
    pub holds: bool,
    /// Its margin, if the list is complete.
    pub weakest: Option<Weakest>,
    /// Whether each UID that is possible then is certain in the log itself.
    pub settled: bool,
}

/// What a log says of its field; nothing if it is impossible.
#[derive(Drop)]
pub struct FieldTold {
    /// The UIDs that must be there, in rising order.
    pub certain: Vec<Uid>,
    /// How many masks are open.
    pub masks: u64,
    /// How many UIDs these have.
    pub uids: u64,
    /// The first of them, by length, then by value, with what asks for them.
    pub asked: Vec<AskedMask>,
}

/// An open mask, with what asks for it.
#[derive(Drop)]
pub struct AskedMask {
    pub mask: Mask,
    pub requests: Vec<ValidRequest>,
}
