//! Lines that show that UIDs are there.
//!
//! For each UID its first reply is noted, or, if it was never heard, the first unread slot that
//! requires all who answer there.

ghost use Rattle.std.specs.Prelude.{◌≡◌, ◌<◌, ◌⊎◌, ℕ, IfOk, List, length, true};
ghost use Rattle.std.specs.List.{All};
ghost use Rattle.std.specs.List.Sorted.{IsStrictlyIncreasing};
ghost use Rattle.vic_frame.specs.Uids.{has};
ghost use Rattle.vic_log.specs.declared.entry.LogLine.{LogLine as LogLineValue};
ghost use Rattle.vic_log.specs.Order.{entries};
ghost use Rattle.vic_verdict.specs.Verdict.{IsHeard};
ghost use Rattle.vic_verdict.specs.Needs.{IsMet, SomeForces};
ghost use Rattle.vic_walk.specs.Answers.{AreAnswering};
ghost use Rattle.vic_report.specs.Findings.{IsShownCertain, IsShownFirst, ShowsCertain, uids_of};
ghost use Rattle.vic_report.specs.inner.NotedLines.{AreFirstReplies, AreShown, AreShownFirst, HasNoted, IsNewAt, IsNoted, is_noted};
ghost use Rattle.vic_verdict.specs.Possible.{IsCertainUid, IsPossible};

use crate::shown::ShownUid;
use std::alloc::{AllocError, Global};
use vic_frame::Uid;
use vic_log::PackedLine;
use vic_tree::RisingUids;
use vic_verdict::Met;
use vic_walk::Answering;

/// For each of some UIDs that are certain in a possible log, a line that shows that it is there.
pub fn lines_of_certain(
    alloc: Global,
    lines: &[PackedLine],
    met: &Met,
    certain: &RisingUids,
) -> Result<Vec<ShownUid>, AllocError>
    requires possible { IsPossible (entries lines.now) }
    requires met { IsMet (entries lines.now) met.now }
    requires certain { (u : ℕ) → has certain.now u ≡ true → IsCertainUid (entries lines.now) u }
    ensures uids { IfOk result (λ v. uids_of v.items ≡ certain.now) }
    ensures shown { IfOk result (λ v. All (IsShownCertain lines.now) v.items) }
    ensures first { IfOk result (λ v. All (IsShownFirst lines.now) v.items) }
{
    let uids = certain.as_slice();
    let mut noted = vec![in alloc; None; uids.len()]?;
    note_replies(&mut noted, uids, lines);
    note_unread(&mut noted, uids, lines, &met.unread);
    each_with_its_line(alloc, uids, &noted)
}

/// UIDs, each with the line that is noted for it.
fn each_with_its_line(
    alloc: Global,
    uids: &[Uid],
    noted: &[Option<u32>],
) -> Result<Vec<ShownUid>, AllocError>
    requires room { length noted.now ≡ length uids.now }
    requires noted { (i : ℕ) → i < length uids.now → is_noted noted.now i ≡ true }
    ensures uids { IfOk result (λ v. uids_of v.items ≡ uids.now) }
    ensures shown { IfOk result (λ v. (lines : List LogLineValue)
        → AreShown lines uids.now noted.now → All (IsShownCertain lines) v.items) }
    ensures first { IfOk result (λ v. (lines : List LogLineValue)
        → AreShownFirst lines uids.now noted.now → All (IsShownFirst lines) v.items) }
{
    let mut shown = Vec::with_capacity(alloc, uids.len())?;
    for (index, uid) in uids.iter().enumerate() {
        let Some(line) = noted[index] else {
            unreachable!()
        };
        shown.push(ShownUid { uid: *uid, line })?;
    }
    Ok(shown)
}

/// Notes a line that shows that a UID is there, unless one is noted for it; nothing, if it is none
/// of `uids`.
fn note(noted: &mut [Option<u32>], uids: &[Uid], uid: Uid, line: u32)
    requires { length noted.old ≡ length uids.now }
    ensures noted { (lines : List LogLineValue) → IsStrictlyIncreasing uids.now
        → ShowsCertain lines line uid
        → HasNoted lines uids.now noted.old noted.new (λ u. u ≡ uid) }
    ensures only { IsStrictlyIncreasing uids.now → (i n : ℕ) → IsNoted noted.new i n
        → IsNoted noted.old i n ⊎ IsNewAt uids.now noted.old uid line i n }
{
    if let Ok(index) = uids.binary_search(&uid) {
        if noted[index].is_none() {
            noted[index] = Some(line);
        }
    }
}

/// Notes for each UID that was heard its first reply.
fn note_replies(noted: &mut [Option<u32>], uids: &[Uid], lines: &[PackedLine])
    requires { length noted.old ≡ length uids.now }
    ensures noted { IsStrictlyIncreasing uids.now
        → HasNoted lines.now uids.now noted.old noted.new (IsHeard (entries lines.now)) }
    ensures first { IsStrictlyIncreasing uids.now
        → AreFirstReplies lines.now uids.now noted.old
        → AreFirstReplies lines.now uids.now noted.new }
{
    for line in lines {
        if let Some(uid) = line.item().heard() {
            note(noted, uids, uid, line.number());
        }
    }
}

/// Notes the line of each unread slot that requires all who answer there, for these UIDs.
fn note_unread(noted: &mut [Option<u32>], uids: &[Uid], lines: &[PackedLine], unread: &[Answering])
    requires room { length noted.old ≡ length uids.now }
    requires possible { IsPossible (entries lines.now) }
    requires unread { AreAnswering (entries lines.now) (length (entries lines.now)) unread.now }
    ensures { IsStrictlyIncreasing uids.now
        → HasNoted lines.now uids.now noted.old noted.new (SomeForces unread.now) }
{
    for slot in unread {
        if slot.uids.len() == slot.need {
            note_all(noted, uids, &slot.uids, lines[slot.at].number());
        }
    }
}

/// Notes one line for several UIDs.
fn note_all(noted: &mut [Option<u32>], uids: &[Uid], several: &[Uid], line: u32)
    requires { length noted.old ≡ length uids.now }
    ensures { (lines : List LogLineValue) → IsStrictlyIncreasing uids.now
        → ((u : ℕ) → has several.now u ≡ true → ShowsCertain lines line u)
        → HasNoted lines uids.now noted.old noted.new (λ u. has several.now u ≡ true) }
{
    for uid in several {
        note(noted, uids, *uid, line);
    }
}
