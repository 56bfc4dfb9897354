//! What `check` writes for an answer, and its status; and the lines of verdicts and refusals, which
//! other commands write too.

ghost use Rattle.std.specs.Prelude.{◌≡◌, ◌<◌, ◌≤◌, length};
ghost use Rattle.arrayvec.specs.ArrayVec.{array_vec_len};
ghost use Rattle.vic_answer.specs.CheckText as spec;
ghost use Rattle.vic_answer.specs.Refusals as refusals;

use crate::answered::Answer;
use crate::status::Status;
use crate::text::{ANSWER_ROOM, ShortText, push_decimal, push_mask, push_str, push_uid};
use arrayvec::ArrayVec;
use vic_log::LineFault;
use vic_verdict::Verdict;

/// The greatest length of a fault's name.
pub(crate) const MAX_NAME_LEN: usize = 16;

/// What `check` writes for an answer: one line, LF included.
pub fn check_text(answer: &Answer) -> ShortText
    ensures items { result.items ≡ spec.check_text answer.now }
    ensures len { array_vec_len result < ANSWER_ROOM }
{
    match answer {
        Answer::Found(verdict) => verdict_line(verdict),
        Answer::RefusedAt { line, fault } => refusal_line(*line, fault),
    }
}

/// The status with which `check` ends for an answer.
pub fn check_status(answer: &Answer) -> Status
    ensures { result ≡ spec.check_status answer.now }
{
    match answer {
        Answer::Found(verdict) => verdict_status(verdict),
        Answer::RefusedAt { .. } => Status::Refused,
    }
}

/// The status of a verdict.
pub(crate) fn verdict_status(verdict: &Verdict) -> Status
    ensures { result ≡ spec.verdict_status verdict.now }
{
    match verdict {
        Verdict::Complete { .. } => Status::Whole,
        Verdict::Impossible { .. } => Status::Impossible,
        Verdict::Absent(_) | Verdict::Unlisted(_) | Verdict::Unsettled(_) | Verdict::Doubtful(_) =>
            Status::NotWhole,
    }
}

/// The line of a verdict.
pub(crate) fn verdict_line(verdict: &Verdict) -> ShortText
    ensures items { result.items ≡ spec.verdict_line verdict.now }
    ensures len { array_vec_len result < ANSWER_ROOM }
{
    let mut text = ArrayVec::new();
    match *verdict {
        Verdict::Complete { count } => {
            push_str(&mut text, "complete ");
            push_decimal(&mut text, count);
        }
        Verdict::Absent(uid) => {
            push_str(&mut text, "absent ");
            push_uid(&mut text, uid.number());
        }
        Verdict::Unlisted(uid) => {
            push_str(&mut text, "unlisted ");
            push_uid(&mut text, uid.number());
        }
        Verdict::Unsettled(mask) => {
            push_str(&mut text, "unsettled ");
            push_mask(&mut text, &mask);
        }
        Verdict::Doubtful(uid) => {
            push_str(&mut text, "doubtful ");
            push_uid(&mut text, uid.number());
        }
        Verdict::Impossible { line } => {
            push_str(&mut text, "impossible at line ");
            push_decimal(&mut text, line);
        }
    }
    push_str(&mut text, "\n");
    text
}

/// The line of a refusal, by the name of its fault.
pub(crate) fn refused_at(line: u32, name: &str) -> ShortText
    requires { length name.now ≤ MAX_NAME_LEN }
    ensures items { result.items ≡ refusals.refused_at line name.now }
    ensures len { array_vec_len result < ANSWER_ROOM }
{
    let mut text = ArrayVec::new();
    push_str(&mut text, "refused at line ");
    push_decimal(&mut text, line);
    push_str(&mut text, ": ");
    push_str(&mut text, name);
    push_str(&mut text, "\n");
    text
}

/// The line of a refusal, by the fault of the line.
pub(crate) fn refusal_line(line: u32, fault: &LineFault) -> ShortText
    ensures items { result.items ≡ refusals.refusal_line line fault.now }
    ensures len { array_vec_len result < ANSWER_ROOM }
{
    refused_at(line, fault.name())
}

/// The line of a refused frame, or words, by the name of the fault.
pub(crate) fn refused_word(name: &str) -> ShortText
    requires { length name.now ≤ MAX_NAME_LEN }
    ensures { result.items ≡ refusals.refused_word name.now }
{
    let mut text = ArrayVec::new();
    push_str(&mut text, "refused ");
    push_str(&mut text, name);
    push_str(&mut text, "\n");
    text
}
