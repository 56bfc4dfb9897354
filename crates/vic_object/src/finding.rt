//! The findings that the object of a log tells.

ghost use Rattle.std.specs.Prelude.{◌≡◌, ◌++◌, OnOk, IfOk, ℕ, codes, decimal, length, map, take};
ghost use Rattle.vic_log.specs.Order.{entries};
ghost use Rattle.vic_margin.specs.UidMargins.{margin_of};
ghost use Rattle.vic_text.specs.Json.{json_uid};
ghost use Rattle.vic_object.specs.Finding as spec;
ghost use Rattle.vic_object.specs.declared.finding.FindingTold.TheVariants as FindingValue;

use std::alloc::{AllocError, Global};
use vic_frame::Uid;
use vic_log::Log;
use vic_margin::overlooked;
use vic_report::{Conflict, Findings, LogReport, ShownUid};
use vic_text::{ToJson, push_decimal};

/// How many findings of each kind are told at most, and how many open masks.
pub const MOST_TOLD: usize = 1000;

/// A finding, as the object of a log tells it.
#[derive(Clone, Copy, Debug, PartialEq, Eq)]
pub enum FindingTold {
    /// The line that silenced the tag whose reply is a conflict by itself.
    SilencedBy(u32),
    /// A line of a conflict.
    Conflict(u32),
    /// A listed UID that can't be there, a line that rules it out, and in how many slots its tag
    /// should have answered and was silent.
    Absent { shown: ShownUid, overlooked: u32 },
    /// A UID that must be there and isn't listed, and a line that shows it.
    Unlisted(ShownUid),
    /// A listed UID that may be missing.
    Doubtful(Uid),
}

impl ToJson for FindingTold {
    ghost json_of = { spec.finding_object };

    fn push_json(&self, text: &mut Vec<u8>) -> Result<(), AllocError> {
        match *self {
            FindingTold::SilencedBy(line) => {
                push_last_number(text, b"{\"kind\":\"silenced by\",\"line\":", line)
            }
            FindingTold::Conflict(line) => push_last_number(
                text,
                b"{\"kind\":\"conflict\",\"line\":",
                line,
            ),
            FindingTold::Absent { shown, overlooked } => push_absent(text, &shown, overlooked),
            FindingTold::Unlisted(shown) => push_unlisted(text, &shown),
            FindingTold::Doubtful(uid) => push_doubtful(text, uid),
        }
    }
}

/// Appends words, a number, and the brace that ends an object.
fn push_last_number(text: &mut Vec<u8>, words: &[u8], number: u32) -> Result<(), AllocError>
    ensures { OnOk result (text.new.items
        ≡ text.old.items ++ (words.now ++ decimal number ++ codes "}")) }
{
    text.extend_from_slice(words)?;
    push_decimal(text, u64::from(number))?;
    text.extend_from_slice(b"}")
}

/// Appends an absent UID.
fn push_absent(text: &mut Vec<u8>, shown: &ShownUid, overlooked: u32) -> Result<(), AllocError>
    ensures { OnOk result (text.new.items ≡ text.old.items
        ++ (codes "{\"kind\":\"absent\"," ++ spec.shown_members shown.now
        ++ codes ",\"overlooked\":" ++ decimal overlooked ++ codes "}")) }
{
    text.extend_from_slice(b"{\"kind\":\"absent\",")?;
    push_shown(text, shown)?;
    push_last_number(text, b",\"overlooked\":", overlooked)
}

/// Appends an unlisted UID.
fn push_unlisted(text: &mut Vec<u8>, shown: &ShownUid) -> Result<(), AllocError>
    ensures { OnOk result (text.new.items ≡ text.old.items
        ++ (codes "{\"kind\":\"unlisted\"," ++ spec.shown_members shown.now ++ codes "}")) }
{
    text.extend_from_slice(b"{\"kind\":\"unlisted\",")?;
    push_shown(text, shown)?;
    text.extend_from_slice(b"}")
}

/// Appends a doubtful UID.
fn push_doubtful(text: &mut Vec<u8>, uid: Uid) -> Result<(), AllocError>
    ensures { OnOk result (text.new.items ≡ text.old.items
        ++ (codes "{\"kind\":\"doubtful\",\"uid\":" ++ json_uid uid ++ codes "}")) }
{
    text.extend_from_slice(b"{\"kind\":\"doubtful\",\"uid\":")?;
    uid.push_json(text)?;
    text.extend_from_slice(b"}")
}

/// Appends a UID, and a line that shows what is said of it.
fn push_shown(text: &mut Vec<u8>, shown: &ShownUid) -> Result<(), AllocError>
    ensures { OnOk result (text.new.items ≡ text.old.items ++ spec.shown_members shown.now) }
{
    text.extend_from_slice(b"\"uid\":")?;
    shown.uid.push_json(text)?;
    text.extend_from_slice(b",\"line\":")?;
    push_decimal(text, u64::from(shown.line))
}

/// The findings that are told of a log, by the report on it.
pub fn findings_told(
    alloc: Global,
    log: &Log,
    report: &LogReport,
) -> Result<Vec<FindingTold>, AllocError>
    ensures { IfOk result (λ found. found.items
        ≡ spec.findings_told (margin_of (entries log.now.lines)) report.now) }
{
    match report {
        LogReport::Impossible(conflict) => lines_of_conflict(alloc, conflict),
        LogReport::NotWhole(findings) => first_findings(alloc, log, findings),
        LogReport::Complete { .. } => Ok(Vec::new(alloc)),
    }
}

/// The lines of a conflict.
fn lines_of_conflict(alloc: Global, conflict: &Conflict) -> Result<Vec<FindingTold>, AllocError>
    ensures { IfOk result (λ found. found.items ≡ spec.silenced_findings conflict.now.silenced_by
        ++ map FindingValue.Conflict conflict.now.lines.items) }
{
    let mut found = Vec::new(alloc);
    if let Some(line) = conflict.silenced_by {
        found.push(FindingTold::SilencedBy(line))?;
    }
    for line in &conflict.lines {
        found.push(FindingTold::Conflict(*line))?;
    }
    Ok(found)
}

/// The first findings of each kind of a possible log.
fn first_findings(
    alloc: Global,
    log: &Log,
    findings: &Findings,
) -> Result<Vec<FindingTold>, AllocError>
    ensures { IfOk result (λ found. found.items
        ≡ spec.first_findings (margin_of (entries log.now.lines)) findings.now) }
{
    let mut found = Vec::new(alloc);
    add_absent(
        &mut found,
        alloc,
        log,
        first_of(&findings.absent, MOST_TOLD),
    )?;
    add_unlisted(&mut found, first_of(&findings.unlisted, MOST_TOLD))?;
    add_doubtful(&mut found, first_of(&findings.doubtful, MOST_TOLD))?;
    Ok(found)
}

/// The first of a list, at most so many.
pub(crate) fn first_of<T>(items: &[T], most: usize) -> &[T]
    ensures { result.now ≡ take most items.now }
{
    if items.len() <= most {
        items
    } else {
        &items[..most]
    }
}

/// Adds absent UIDs, each with how often it was overlooked.
fn add_absent(
    found: &mut Vec<FindingTold>,
    alloc: Global,
    log: &Log,
    absent: &[ShownUid],
) -> Result<(), AllocError>
    ensures { OnOk result (found.new.items ≡ found.old.items
        ++ map (spec.absent_of (margin_of (entries log.now.lines))) absent.now) }
{
    if absent.is_empty() {
        return Ok(());
    }
    let mut uids = Vec::new(alloc);
    for shown in absent {
        uids.push(shown.uid)?;
    }
    let counts = overlooked(alloc, log, &uids)?;
    add_with_counts(found, absent, &counts)
}

/// Adds absent UIDs, each with its count.
fn add_with_counts(
    found: &mut Vec<FindingTold>,
    absent: &[ShownUid],
    counts: &[u32],
) -> Result<(), AllocError>
    requires { length counts.now ≡ length absent.now }
    ensures { OnOk result ((margin : ℕ → ℕ)
        → counts.now ≡ map (λ s. margin s.uid) absent.now
        → found.new.items ≡ found.old.items ++ map (spec.absent_of margin) absent.now) }
{
    for index in 0..absent.len() {
        found.push(FindingTold::Absent {
            shown: absent[index],
            overlooked: counts[index],
        })?;
    }
    Ok(())
}

/// Adds unlisted UIDs.
fn add_unlisted(found: &mut Vec<FindingTold>, unlisted: &[ShownUid]) -> Result<(), AllocError>
    ensures { OnOk result
        (found.new.items ≡ found.old.items ++ map FindingValue.Unlisted unlisted.now) }
{
    for shown in unlisted {
        found.push(FindingTold::Unlisted(*shown))?;
    }
    Ok(())
}

/// Adds doubtful UIDs.
fn add_doubtful(found: &mut Vec<FindingTold>, doubtful: &[Uid]) -> Result<(), AllocError>
    ensures { OnOk result
        (found.new.items ≡ found.old.items ++ map FindingValue.Doubtful doubtful.now) }
{
    for uid in doubtful {
        found.push(FindingTold::Doubtful(*uid))?;
    }
    Ok(())
}
