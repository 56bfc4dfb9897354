//! The lines of a collection.

ghost use Rattle.std.specs.Prelude.{◌≡◌, IfOk};
ghost use Rattle.vic_collection.specs.Findings.{AreFindings};
ghost use Rattle.vic_result.specs.Answered.{IsAnswerStatus, answer_line};
ghost use Rattle.vic_result.specs.ResultLines.{AreFindingLines, AreLinesBy, AreCollectionLines, ended};

mod first_logs;
mod log_lines;
mod uid_lines;

use crate::answered::{ResultText, answer_status, push_answer_line};
use crate::lines::log_lines::{push_left_over, push_unsettled, push_without_log};
use crate::lines::uid_lines::{
    push_absent, push_doubtful, push_misplaced, push_not_counted, push_returned, push_unlisted,
};
use std::alloc::{AllocError, Global};
use vic_collection::{Collection, CollectionAnswer, Findings};

/// The line of an answer.
fn answer_text(
    alloc: Global,
    collection: &Collection,
    answer: &CollectionAnswer<'_>,
) -> Result<Vec<u8>, AllocError>
    ensures { IfOk result (λ text. text.items ≡ ended (answer_line collection.now answer.now)) }
{
    let mut text = Vec::new(alloc);
    push_answer_line(&mut text, collection, answer)?;
    text.extend_from_slice(b"\n")?;
    Ok(text)
}

/// All findings, in the order of the answer.
fn findings_text(
    alloc: Global,
    collection: &Collection,
    findings: &Findings<'_>,
) -> Result<Vec<u8>, AllocError>
    requires { AreFindings collection.now findings.now }
    ensures { IfOk result (λ text. AreFindingLines collection.now findings.now text.items) }
{
    let mut text = Vec::new(alloc);
    push_absent(&mut text, &findings.absent)?;
    push_unlisted(&mut text, collection, &findings.unlisted)?;
    push_unsettled(alloc, &mut text, collection, &findings.unsettled)?;
    push_doubtful(alloc, &mut text, collection, &findings.doubtful)?;
    push_misplaced(&mut text, collection, &findings.misplaced)?;
    push_returned(&mut text, collection, &findings.returned)?;
    push_not_counted(&mut text, collection, &findings.not_counted)?;
    push_without_log(&mut text, &findings.without_log)?;
    push_left_over(&mut text, collection.surveys(), &findings.left_over)?;
    Ok(text)
}

/// The line of an answer where a log isn't possible or nothing is found, and else all findings.
fn text_by(
    alloc: Global,
    collection: &Collection,
    findings: &Findings<'_>,
    answer: &CollectionAnswer<'_>,
) -> Result<Vec<u8>, AllocError>
    requires { AreFindings collection.now findings.now }
    ensures { IfOk result (λ text.
        AreLinesBy collection.now findings.now answer.now text.items) }
{
    match answer {
        CollectionAnswer::NotPossible { .. } | CollectionAnswer::Complete { .. } => {
            answer_text(alloc, collection, answer)
        }
        _ => findings_text(alloc, collection, findings),
    }
}

/// The lines of a collection: all its findings in the order of its answer, each kind whole; where a
/// log isn't possible or nothing is found, the line of the answer alone. Each line ends by LF.
pub fn lines_text(alloc: Global, collection: &Collection) -> Result<ResultText, AllocError>
    ensures text { IfOk result (λ r. AreCollectionLines collection.now r.text.items) }
    ensures status { IfOk result (λ r. IsAnswerStatus collection.now r.status) }
{
    let findings = collection.findings(alloc)?;
    let answer = findings.answer();
    let text = text_by(alloc, collection, &findings, &answer)?;
    let status = answer_status(collection, &answer);
    Ok(ResultText { text, status })
}
