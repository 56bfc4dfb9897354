//! The object of a log.

ghost use Rattle.std.specs.Prelude.{◌≡◌, ◌++◌, ◌==◌, OnOk, codes, decimal, length, map, take};
ghost use Rattle.vic_log.specs.Lines.{all_but_last, cut, ends_with, lf};
ghost use Rattle.vic_text.specs.Json.{json_bool, json_list, json_uid};
ghost use Rattle.vic_answer.specs.CheckText.{check_text};
ghost use Rattle.vic_object.specs.Finding.{finding_object};
ghost use Rattle.vic_object.specs.ObjectText as spec;

use crate::answer::{push_margin, push_refused, push_verdict, push_words_number};
use crate::finding::{FindingTold, first_of};
use crate::lines::line_count;
use crate::told::{AskedMask, CautiousReading, FieldTold, LogTold, MOST_CERTAIN};
use std::alloc::AllocError;
use vic_answer::{Answer, Answered, check_text};
use vic_frame::Uid;
use vic_log::LineFault;
use vic_report::LogReport;
use vic_text::{ToJson, push_decimal, push_json_list, push_mask_members};
use vic_verdict::Verdict;

/// Appends the object of a log's text, by what it tells, and LF.
pub fn push_object(
    text: &mut Vec<u8>,
    log_text: &[u8],
    told: &Answered<LogTold>,
) -> Result<(), AllocError>
    ensures { OnOk result
        (text.new.items ≡ text.old.items ++ spec.json_text log_text.now told.now) }
{
    match told {
        Answered::Found(told) => push_told(text, log_text, told),
        Answered::RefusedAt { line, fault } => push_refused_object(text, log_text, *line, fault),
    }
}

/// Appends the object of a log.
fn push_told(text: &mut Vec<u8>, log_text: &[u8], told: &LogTold) -> Result<(), AllocError>
    ensures { OnOk result
        (text.new.items ≡ text.old.items ++ spec.told_object log_text.now told.now) }
{
    let verdict = told.report.verdict();
    text.extend_from_slice(b"{\"schema\":2,")?;
    push_verdict(text, &verdict)?;
    push_readings(text, told)?;
    push_text_members(text, log_text, &Answer::Found(verdict))?;
    push_findings(text, &told.findings, &told.report)?;
    push_field(text, &told.field)?;
    text.extend_from_slice(b",\"unnoticed\":")?;
    told.unnoticed.push_json(text)?;
    text.extend_from_slice(b"}\n")
}

/// Appends the object of a refused text.
fn push_refused_object(
    text: &mut Vec<u8>,
    log_text: &[u8],
    line: u32,
    fault: &LineFault,
) -> Result<(), AllocError>
    ensures { OnOk result
        (text.new.items ≡ text.old.items ++ spec.refused_object log_text.now line fault.now) }
{
    text.extend_from_slice(b"{\"schema\":2,")?;
    push_refused(text, line, fault)?;
    push_text_members(
        text,
        log_text,
        &Answer::RefusedAt {
            line,
            fault: *fault,
        },
    )?;
    text.extend_from_slice(b",\"findings\":[],\"found\":")?;
    push_counts(text, 0, 0, 0)?;
    text.extend_from_slice(b",\"certain\":{\"count\":0,\"uids\":[]}")?;
    text.extend_from_slice(
        b",\"open\":{\"count\":0,\"uids\":\"0\",\"masks\":[]},\"unnoticed\":null}\n",
    )
}

/// Appends what the cautious readings tell, and the margin.
fn push_readings(text: &mut Vec<u8>, told: &LogTold) -> Result<(), AllocError>
    ensures { OnOk result (text.new.items ≡ text.old.items ++ spec.readings_members told.now) }
{
    let shows_settled = has_no_open(&told.report, &told.field);
    text.extend_from_slice(b",\"captured\":")?;
    push_reading(text, shows_settled, &told.hidden)?;
    text.extend_from_slice(b",\"deaf\":")?;
    push_reading(text, shows_settled, &told.deaf)?;
    push_margin(text, &told.weakest)
}

/// Whether there are findings, and no UID is open.
fn has_no_open(report: &LogReport, field: &FieldTold) -> bool
    ensures { result ≡ spec.has_no_open report.now field.now }
{
    match report {
        LogReport::NotWhole(_) => field.masks == 0,
        LogReport::Impossible(_) | LogReport::Complete { .. } => false,
    }
}

/// Appends what a reading tells.
fn push_reading(
    text: &mut Vec<u8>,
    shows_settled: bool,
    reading: &CautiousReading,
) -> Result<(), AllocError>
    ensures { OnOk result
        (text.new.items ≡ text.old.items ++ spec.reading_object shows_settled reading.now) }
{
    push_reading_answer(text, reading)?;
    push_settled(text, shows_settled, reading.settled)
}

/// Appends the answer of a reading, or its margin.
fn push_reading_answer(text: &mut Vec<u8>, reading: &CautiousReading) -> Result<(), AllocError>
    ensures { OnOk result (text.new.items ≡ text.old.items ++ spec.reading_answer reading.now) }
{
    if reading.holds {
        text.extend_from_slice(b"{\"holds\":true")?;
        push_margin(text, &reading.weakest)
    } else {
        text.extend_from_slice(b"{\"holds\":false,")?;
        push_verdict(text, &reading.verdict)
    }
}

/// Appends whether a reading settles its field, where that is shown, and the end of its object.
fn push_settled(text: &mut Vec<u8>, shows_settled: bool, settled: bool) -> Result<(), AllocError>
    ensures { OnOk result
        (text.new.items ≡ text.old.items ++ spec.settled_member shows_settled settled) }
{
    if shows_settled {
        push_shown_settled(text, settled)
    } else {
        text.extend_from_slice(b"}")
    }
}

/// Appends whether a reading settles its field, and the end of its object.
fn push_shown_settled(text: &mut Vec<u8>, settled: bool) -> Result<(), AllocError>
    ensures { OnOk result (text.new.items
        ≡ text.old.items ++ (codes ",\"settled\":" ++ json_bool settled ++ codes "}")) }
{
    text.extend_from_slice(b",\"settled\":")?;
    settled.push_json(text)?;
    text.extend_from_slice(b"}")
}

/// Appends what is said of the text.
fn push_text_members(text: &mut Vec<u8>, log_text: &[u8], answer: &Answer) -> Result<(), AllocError>
    ensures { OnOk result
        (text.new.items ≡ text.old.items ++ spec.text_members log_text.now answer.now) }
{
    text.extend_from_slice(b",\"answer\":\"")?;
    push_answer(text, answer)?;
    text.extend_from_slice(b"\",\"lines\":")?;
    push_decimal(text, line_count(log_text))?;
    text.extend_from_slice(b",\"ended\":")?;
    is_ended(log_text).push_json(text)
}

/// Appends the line of an answer, without its LF.
fn push_answer(text: &mut Vec<u8>, answer: &Answer) -> Result<(), AllocError>
    ensures { OnOk result
        (text.new.items ≡ text.old.items ++ all_but_last (check_text answer.now)) }
{
    let line = check_text(answer);
    let line = line.as_slice();
    text.extend_from_slice(&line[..line.len().saturating_sub(1)])
}

/// Whether a text ends with LF.
fn is_ended(text: &[u8]) -> bool
    ensures { result ≡ ends_with lf text.now }
{
    match text.last() {
        Some(byte) => *byte == b'\n',
        None => false,
    }
}

/// Appends findings, and how many there are.
fn push_findings(
    text: &mut Vec<u8>,
    findings: &[FindingTold],
    report: &LogReport,
) -> Result<(), AllocError>
    ensures { OnOk result
        (text.new.items ≡ text.old.items ++ spec.findings_members findings.now report.now) }
{
    text.extend_from_slice(b",\"findings\":")?;
    push_json_list(text, findings)?;
    text.extend_from_slice(b",\"found\":")?;
    push_found(text, report)
}

/// Appends how many UIDs are absent, unlisted and doubtful by a report.
fn push_found(text: &mut Vec<u8>, report: &LogReport) -> Result<(), AllocError>
    ensures { OnOk result (text.new.items ≡ text.old.items ++ spec.found_object report.now) }
{
    match report {
        LogReport::NotWhole(findings) => push_counts(
            text,
            findings.absent.as_slice().len(),
            findings.unlisted.as_slice().len(),
            findings.doubtful.as_slice().len(),
        ),
        LogReport::Impossible(_) | LogReport::Complete { .. } => push_counts(text, 0, 0, 0),
    }
}

/// Appends how many UIDs are absent, unlisted and doubtful.
fn push_counts(
    text: &mut Vec<u8>,
    absent: usize,
    unlisted: usize,
    doubtful: usize,
) -> Result<(), AllocError>
    ensures { OnOk result
        (text.new.items ≡ text.old.items ++ spec.counts_object absent unlisted doubtful) }
{
    push_words_count(text, b"{\"absent\":", absent)?;
    push_words_count(text, b",\"unlisted\":", unlisted)?;
    push_words_count(text, b",\"doubtful\":", doubtful)?;
    text.extend_from_slice(b"}")
}

/// Appends words and a count.
fn push_words_count(text: &mut Vec<u8>, words: &[u8], count: usize) -> Result<(), AllocError>
    ensures { OnOk result (text.new.items ≡ text.old.items ++ (words.now ++ decimal count)) }
{
    text.extend_from_slice(words)?;
    push_decimal(text, count as u64)
}

/// Appends what a log says of its field.
fn push_field(text: &mut Vec<u8>, field: &FieldTold) -> Result<(), AllocError>
    ensures { OnOk result (text.new.items ≡ text.old.items ++ spec.field_members field.now) }
{
    text.extend_from_slice(b",\"certain\":")?;
    push_certain(text, &field.certain)?;
    text.extend_from_slice(b",\"open\":")?;
    push_open(text, field)
}

/// Appends how many UIDs are certain, and the first of them.
fn push_certain(text: &mut Vec<u8>, uids: &[Uid]) -> Result<(), AllocError>
    ensures { OnOk result (text.new.items ≡ text.old.items ++ spec.certain_object uids.now) }
{
    push_words_count(text, b"{\"count\":", uids.len())?;
    text.extend_from_slice(b",\"uids\":")?;
    push_json_list(text, first_of(uids, MOST_CERTAIN))?;
    text.extend_from_slice(b"}")
}

/// Appends how many masks are open, how many UIDs they have, and what asks for the first of them.
fn push_open(text: &mut Vec<u8>, field: &FieldTold) -> Result<(), AllocError>
    ensures { OnOk result (text.new.items ≡ text.old.items ++ spec.open_object field.now) }
{
    text.extend_from_slice(b"{\"count\":")?;
    push_decimal(text, field.masks)?;
    text.extend_from_slice(b",\"uids\":\"")?;
    push_decimal(text, field.uids)?;
    text.extend_from_slice(b"\",\"masks\":")?;
    push_json_list(text, &field.asked)?;
    text.extend_from_slice(b"}")
}

impl ToJson for AskedMask {
    ghost json_of = { spec.asked_object };

    fn push_json(&self, text: &mut Vec<u8>) -> Result<(), AllocError> {
        text.extend_from_slice(b"{")?;
        push_mask_members(text, &self.mask)?;
        text.extend_from_slice(b",\"ask\":")?;
        push_json_list(text, &self.requests)?;
        text.extend_from_slice(b"}")
    }
}
