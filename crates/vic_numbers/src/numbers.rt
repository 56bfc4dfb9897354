//! The answer to a text in numbers, with its line.

ghost use Rattle.std.specs.Prelude.{◌≡◌, ◌≢◌, ◌<◌, length};
ghost use Rattle.vic_verdict.specs.declared.judging.Verdict.TheVariants.{Complete};
ghost use Rattle.vic_answer.specs.declared.answered.Answered.TheVariants.{Found};
ghost use Rattle.vic_numbers.specs.Numbers as spec;

use crate::fault_numbers::fault_number;
use vic_answer::{ANSWER_ROOM, Answer, check_status, check_text};
use vic_verdict::Verdict;

/// The kind of an answer or of a finding in numbers; from 2 to 5 it is that of both.
#[derive(Clone, Copy, Debug, PartialEq, Eq)]
pub(crate) enum Kind {
    /// No answer: memory was refused.
    NoAnswer = 0,
    Complete = 1,
    Absent = 2,
    Unlisted = 3,
    Unsettled = 4,
    Doubtful = 5,
    Impossible = 6,
    Refused = 7,
    OpenMask = 8,
    MoreOpenMasks = 9,
    ConflictLine = 10,
    SilencedBy = 11,
}

/// The answer to a log's text, in numbers. Fields that the kind doesn't use are 0.
///
/// | `kind` | answer | `status` | it has |
/// |---|---|---|---|
/// | 0 | none: memory was refused | 4 | |
/// | 1 | complete | 0 | `count` |
/// | 2 | absent | 1 | `uid` |
/// | 3 | unlisted | 1 | `uid` |
/// | 4 | unsettled | 1 | `mask_len`, `mask_value` |
/// | 5 | doubtful | 1 | `uid` |
/// | 6 | impossible | 2 | `line` |
/// | 7 | refused | 3 | `line`, `fault` |
#[repr(C)]
#[derive(Clone, Copy, Debug, PartialEq, Eq)]
pub struct VicinityAnswer {
    pub kind: u32,
    /// The exit status of the program.
    pub status: u32,
    pub count: u32,
    pub line: u32,
    pub fault: u32,
    pub mask_len: u32,
    pub mask_value: u64,
    pub uid: u64,
    /// The line of `check`, LF included, with zeros after it.
    pub text: [u8; ANSWER_ROOM],
}

/// No answer, since memory was refused.
pub const NO_ANSWER: VicinityAnswer = VicinityAnswer {
    kind: Kind::NoAnswer as u32,
    status: 4,
    count: 0,
    line: 0,
    fault: 0,
    mask_len: 0,
    mask_value: 0,
    uid: 0,
    text: [0; ANSWER_ROOM],
};

/// An answer in numbers, with its line.
#[tactic(auto, using(crate::proofs::Numbered::kind_complete, crate::proofs::Numbered::kind_some))]
pub fn numbers_of(answer: &Answer) -> VicinityAnswer
    ensures numbers { result ≡ spec.numbers_of answer.now }
    // what callers from C rely on
    ensures complete { result.kind ≡ 1 → answer.now ≡ Found (Complete result.count) }
    ensures nonzero { result.kind ≢ 0 }
{
    VicinityAnswer {
        status: u32::from(check_status(answer).code()),
        text: padded(check_text(answer).as_slice()),
        ..answer_fields(answer)
    }
}

/// The fields of an answer, except status and text.
fn answer_fields(answer: &Answer) -> VicinityAnswer
    ensures { result ≡ spec.answer_fields answer.now }
{
    match answer {
        Answer::Found(verdict) => verdict_fields(verdict),
        Answer::RefusedAt { line, fault } => VicinityAnswer {
            kind: Kind::Refused as u32,
            line: *line,
            fault: fault_number(fault),
            ..NO_ANSWER
        },
    }
}

/// The fields of a verdict, except status and text.
fn verdict_fields(verdict: &Verdict) -> VicinityAnswer
    ensures { result ≡ spec.verdict_fields verdict.now }
{
    match *verdict {
        Verdict::Complete { count } => VicinityAnswer {
            kind: Kind::Complete as u32,
            count,
            ..NO_ANSWER
        },
        Verdict::Absent(uid) => VicinityAnswer {
            kind: Kind::Absent as u32,
            uid: uid.number(),
            ..NO_ANSWER
        },
        Verdict::Unlisted(uid) => VicinityAnswer {
            kind: Kind::Unlisted as u32,
            uid: uid.number(),
            ..NO_ANSWER
        },
        Verdict::Unsettled(mask) => VicinityAnswer {
            kind: Kind::Unsettled as u32,
            mask_len: u32::from(mask.len()),
            mask_value: mask.value(),
            ..NO_ANSWER
        },
        Verdict::Doubtful(uid) => VicinityAnswer {
            kind: Kind::Doubtful as u32,
            uid: uid.number(),
            ..NO_ANSWER
        },
        Verdict::Impossible { line } => VicinityAnswer {
            kind: Kind::Impossible as u32,
            line,
            ..NO_ANSWER
        },
    }
}

/// A text with zeros after it, at least one.
fn padded(text: &[u8]) -> [u8; ANSWER_ROOM]
    requires { length text.now < ANSWER_ROOM }
    ensures { result ≡ spec.padded text.now }
{
    let mut room = [0; ANSWER_ROOM];
    room[..text.len()].copy_from_slice(text);
    room
}
