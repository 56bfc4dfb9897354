//! Which line silenced a tag whose reply was heard while it was Quiet.

ghost use Rattle.std.specs.Prelude.{◌≡◌, ℕ, ◌+◌, ◌<◌, MatchOption, Some, List, slice_get, false, true};
ghost use Rattle.vic_log.specs.Order.{entries};
ghost use Rattle.vic_log.specs.Quiet.{is_quiet};
ghost use Rattle.vic_log.specs.Slots.{hears};
ghost use Rattle.vic_log.specs.declared.entry.LogLine.{LogLine as LogLineValue};
ghost use Rattle.vic_report.specs.Conflicts.{IsNoQuietReply, IsSilencedBefore, IsSilencedBy};

use crate::line_numbers::place_of;
use vic_frame::{Request, Uid};
use vic_log::{Entry, Log, PackedLine};

/// If line `number` is a reply of a tag that is Quiet there, the number of the line that silenced
/// it.
pub(crate) fn silencer_of_line(log: &Log, number: u32) -> Option<u32>
    ensures { MatchOption result (IsNoQuietReply log.now.lines number)
        (IsSilencedBy log.now.lines number) }
{
    let lines = log.lines();
    silencer_at(lines, place_of(lines, number)?)
}

/// The same for the line at a position.
fn silencer_at(lines: &[PackedLine], place: usize) -> Option<u32>
    ensures { MatchOption result
        ((u : ℕ) → hears (slice_get (entries lines.now) place) u ≡ true
        → is_quiet (entries lines.now) place u ≡ false)
        (λ n. (u : ℕ) × (hears (slice_get (entries lines.now) place) u ≡ true)
        × IsSilencedBefore lines.now place u n) }
{
    let uid = lines.get(place)?.item().heard()?;
    let mut silencer = None;
    for index in 0..place {
        silencer = next_silencer(silencer, &lines[index], uid);
    }
    silencer
}

/// The number of the line that keeps a tag Quiet after a line, if `silencer` is that of the one
/// that does before it; `None` if the tag is Ready.
fn next_silencer(silencer: Option<u32>, line: &PackedLine, uid: Uid) -> Option<u32>
    ensures { (lines : List LogLineValue) (i : ℕ) → slice_get lines i ≡ Some line.now
        → MatchOption silencer (is_quiet (entries lines) i uid ≡ false)
        (IsSilencedBefore lines i uid)
        → MatchOption result (is_quiet (entries lines) (i + 1) uid ≡ false)
        (IsSilencedBefore lines (i + 1) uid) }
{
    match line.item() {
        Entry::Sent(Request::StayQuiet { uid: silenced, .. }) if silenced == uid.number() => {
            Some(line.number())
        }
        Entry::FieldCycle => None,
        Entry::Sent(_)
        | Entry::Silent
        | Entry::Collision
        | Entry::Heard(_)
        | Entry::Garbled
        | Entry::Captured(_)
        | Entry::Unknown
        | Entry::Listed(_) => silencer,
    }
}
