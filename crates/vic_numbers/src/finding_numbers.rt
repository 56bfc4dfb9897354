//! The findings of a log, in numbers.

ghost use Rattle.std.specs.Prelude.{◌≡◌, map};
ghost use Rattle.vic_numbers.specs.Buffers.{IsReturned};
ghost use Rattle.vic_numbers.specs.FindingNumbers as spec;

use crate::buffers::copy_each;
use crate::numbers::Kind;
use vic_answer::Finding;
use vic_frame::Mask;

/// A finding in numbers. Fields that the kind doesn't use are 0.
///
/// | `kind` | finding | it has |
/// |---|---|---|
/// | 2 | absent | `uid`, and the `line` that rules it out |
/// | 3 | unlisted | `uid`, and the `line` that shows it |
/// | 4 | unsettled | `mask_len`, `mask_value` |
/// | 5 | doubtful | `uid` |
/// | 8 | an open mask | `mask_len`, `mask_value` |
/// | 9 | more open masks than are listed | |
/// | 10 | a line of a conflict | `line` |
/// | 11 | what silenced the tag of a conflict | `line` |
#[repr(C)]
#[derive(Clone, Copy, Debug, PartialEq, Eq)]
pub struct VicinityFinding {
    pub kind: u32,
    pub line: u32,
    pub mask_len: u32,
    /// 0 in each kind, so that no byte of the struct is padding.
    pub zero: u32,
    pub mask_value: u64,
    pub uid: u64,
}

/// A finding of no kind.
const NO_FINDING: VicinityFinding = VicinityFinding {
    kind: 0,
    line: 0,
    mask_len: 0,
    zero: 0,
    mask_value: 0,
    uid: 0,
};

/// Copies findings to the start of a buffer, in numbers, if they fit, and returns how many there
/// are.
pub fn copy_findings(findings: &[Finding], room: &mut [VicinityFinding]) -> usize
    ensures { IsReturned (map spec.finding_numbers findings.now) room.old room.new result }
{
    copy_each(findings, room, |finding| finding_numbers(&finding))
}

/// A finding in numbers.
fn finding_numbers(finding: &Finding) -> VicinityFinding
    ensures { result ≡ spec.finding_numbers finding.now }
{
    match *finding {
        Finding::Absent(shown) => VicinityFinding {
            kind: Kind::Absent as u32,
            line: shown.line,
            uid: shown.uid.number(),
            ..NO_FINDING
        },
        Finding::Unlisted(shown) => VicinityFinding {
            kind: Kind::Unlisted as u32,
            line: shown.line,
            uid: shown.uid.number(),
            ..NO_FINDING
        },
        Finding::Unsettled(mask) => mask_finding(Kind::Unsettled as u32, &mask),
        Finding::Doubtful(uid) => VicinityFinding {
            kind: Kind::Doubtful as u32,
            uid: uid.number(),
            ..NO_FINDING
        },
        Finding::OpenMask(mask) => mask_finding(Kind::OpenMask as u32, &mask),
        Finding::MoreOpenMasks => line_finding(Kind::MoreOpenMasks as u32, 0),
        Finding::ConflictLine(line) => line_finding(Kind::ConflictLine as u32, line),
        Finding::SilencedBy(line) => line_finding(Kind::SilencedBy as u32, line),
    }
}

/// A finding of a mask.
fn mask_finding(kind: u32, mask: &Mask) -> VicinityFinding
    ensures { result ≡ record (spec.finding kind) {
      mask_len = mask.now.len;
      mask_value = mask.now.value;
    } }
{
    VicinityFinding {
        kind,
        mask_len: u32::from(mask.len()),
        mask_value: mask.value(),
        ..NO_FINDING
    }
}

/// A finding of a line, or of none: 0.
fn line_finding(kind: u32, line: u32) -> VicinityFinding
    ensures { result ≡ record (spec.finding kind) { line = line } }
{
    VicinityFinding {
        kind,
        line,
        ..NO_FINDING
    }
}
