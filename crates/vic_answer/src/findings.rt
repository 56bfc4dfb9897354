//! The findings of a report, one after another.

ghost use Rattle.std.specs.Prelude.{◌≡◌, IfOk};
ghost use Rattle.std.specs.Iterator.{YieldsFirst, item_count};
ghost use Rattle.vic_answer.specs.Findings.{findings_of, report_findings};
ghost use Rattle.vic_answer.specs.inner.FindingsLeft.{findings_left};

use crate::answered::Answered;
use std::alloc::{AllocError, Global};
use vic_frame::{Mask, Uid};
use vic_report::{LogReport, ShownUid, Unsettled};

/// A finding of a report, or a line that goes with one.
#[derive(Clone, Copy, Debug, PartialEq, Eq)]
pub enum Finding {
    /// A listed UID that can't be there, and the line that rules it out.
    Absent(ShownUid),
    /// A UID that must be there and isn't listed, and a line that shows it.
    Unlisted(ShownUid),
    /// Any UID of this mask may be there, and none is listed.
    Unsettled(Mask),
    /// A listed UID that may be missing.
    Doubtful(Uid),
    /// An open mask.
    OpenMask(Mask),
    /// There are more open masks than are listed.
    MoreOpenMasks,
    /// A line of a conflict.
    ConflictLine(u32),
    /// The line that silenced the tag whose reply is a conflict by itself.
    SilencedBy(u32),
}

/// The findings of a report that are left: its fields are in the order in which they come.
#[derive(Drop)]
pub(crate) struct FindingsLeft<'a> {
    conflict: &'a [u32],
    silenced_by: Option<u32>,
    absent: &'a [ShownUid],
    unlisted: &'a [ShownUid],
    unsettled: Option<Mask>,
    open: &'a [Mask],
    more: bool,
    doubtful: &'a [Uid],
}

impl<'a> Iterator for FindingsLeft<'a> {
    type Item = Finding;

    ghost next_gives = { YieldsFirst findings_left };

    ghost remaining = { item_count findings_left };

    fn next(&mut self) -> Option<Finding> {
        if let Some((line, rest)) = self.conflict.split_first() {
            self.conflict = rest;
            return Some(Finding::ConflictLine(*line));
        }
        if let Some(line) = self.silenced_by {
            self.silenced_by = None;
            return Some(Finding::SilencedBy(line));
        }
        if let Some((shown, rest)) = self.absent.split_first() {
            self.absent = rest;
            return Some(Finding::Absent(*shown));
        }
        if let Some((shown, rest)) = self.unlisted.split_first() {
            self.unlisted = rest;
            return Some(Finding::Unlisted(*shown));
        }
        if let Some(mask) = self.unsettled {
            self.unsettled = None;
            return Some(Finding::Unsettled(mask));
        }
        if let Some((mask, rest)) = self.open.split_first() {
            self.open = rest;
            return Some(Finding::OpenMask(*mask));
        }
        if self.more {
            self.more = false;
            return Some(Finding::MoreOpenMasks);
        }
        if let Some((uid, rest)) = self.doubtful.split_first() {
            self.doubtful = rest;
            return Some(Finding::Doubtful(*uid));
        }
        None
    }
}

/// The findings of a report.
pub(crate) fn findings_in(report: &LogReport) -> FindingsLeft<'_>
    ensures { findings_left result ≡ report_findings report.now }
{
    let mut left = FindingsLeft {
        conflict: &[],
        silenced_by: None,
        absent: &[],
        unlisted: &[],
        unsettled: None,
        open: &[],
        more: false,
        doubtful: &[],
    };
    match report {
        LogReport::Impossible(conflict) => {
            left.conflict = conflict.lines.as_slice();
            left.silenced_by = conflict.silenced_by;
        }
        LogReport::NotWhole(findings) => {
            left.absent = findings.absent.as_slice();
            left.unlisted = findings.unlisted.as_slice();
            if let Some(Unsettled { mask, open }) = &findings.unsettled {
                left.unsettled = Some(*mask);
                left.open = open.masks.as_slice();
                left.more = open.more;
            }
            left.doubtful = findings.doubtful.as_slice();
        }
        LogReport::Complete { .. } => {}
    }
    left
}

/// The findings of the answer to a text, in the order of the lines of `report`: none if the answer
/// is complete or a refusal.
pub fn findings_of(
    alloc: Global,
    reported: &Answered<LogReport>,
) -> Result<Vec<Finding>, AllocError>
    ensures { IfOk result (λ list. list.items ≡ findings_of reported.now) }
{
    match reported {
        Answered::Found(report) => every_finding(alloc, report),
        Answered::RefusedAt { .. } => Ok(Vec::new(alloc)),
    }
}

/// The findings of a report, in their order.
fn every_finding(alloc: Global, report: &LogReport) -> Result<Vec<Finding>, AllocError>
    ensures { IfOk result (λ list. list.items ≡ report_findings report.now) }
{
    let mut list = Vec::new(alloc);
    for finding in findings_in(report) {
        list.push(finding)?;
    }
    Ok(list)
}
