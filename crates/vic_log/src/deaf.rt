//! Two cautious readings of a log: replies may have hidden others, and the reader may have gone
//! deaf after its last answer.

ghost use Rattle.std.specs.Prelude.{◌≡◌, ◌≤◌, [], ◌∷◌, length};
ghost use Rattle.vic_log.specs.Deaf.{answers, captured, deaf_entries, deaf_entry, ends_silent, has_heard_alone, hidden_entries, is_answer};
ghost use Rattle.vic_log.specs.inner.Deaf.{silent_after};
ghost use Rattle.vic_log.specs.Order.{entries, numbers};

use crate::entry::Entry;
use crate::packed::PackedLine;

/// How many slot lines are answers: slots in which a tag answered.
pub(crate) fn answers(lines: &[PackedLine]) -> usize
    ensures value { result ≡ answers (entries lines.now) }
    ensures few { result ≤ length lines.now }
{
    let mut count = 0;
    for line in lines {
        if line.item().is_answer() {
            count += 1;
        }
    }
    count
}

/// Whether some reply was heard alone.
pub(crate) fn has_heard_alone(lines: &[PackedLine]) -> bool
    ensures { result ≡ has_heard_alone (entries lines.now) }
{
    for line in lines {
        if let Entry::Heard(_) = line.item() {
            return true;
        }
    }
    false
}

/// Whether a silent slot comes behind the last answer, or where there is none.
pub(crate) fn ends_silent(lines: &[PackedLine]) -> bool
    ensures { result ≡ ends_silent (entries lines.now) }
{
    let mut silent = false;
    for line in lines {
        silent = is_silent_after(silent, &line.item());
    }
    silent
}

/// Whether entries end silent with one more, by whether they do without it.
fn is_silent_after(silent: bool, item: &Entry) -> bool
    ensures { result ≡ silent_after silent item.now }
{
    match *item {
        Entry::Silent => true,
        Entry::Heard(_) | Entry::Captured(_) | Entry::Collision | Entry::Garbled => false,
        Entry::Unknown | Entry::Sent(_) | Entry::Listed(_) | Entry::FieldCycle => silent,
    }
}

/// Makes each reply that was heard alone one that may have hidden others.
pub(crate) fn hide(lines: &mut [PackedLine])
    ensures items { entries lines.new ≡ hidden_entries (entries lines.old) }
    ensures same { numbers lines.new ≡ numbers lines.old }
{
    for index in 0..lines.len() {
        lines[index] = hidden_line(lines[index]);
    }
}

/// A line of which the reply, if it was heard alone, may have hidden others.
fn hidden_line(line: PackedLine) -> PackedLine
    ensures item { result.item ≡ captured line.item }
    ensures number { result.number ≡ line.number }
{
    if let Entry::Heard(response) = line.item() {
        PackedLine::new(line.number(), Entry::Captured(response))
    } else {
        line
    }
}

/// Makes each silent slot behind the last answer one of which nothing is known, and hides.
pub(crate) fn deafen(lines: &mut [PackedLine])
    ensures items { entries lines.new ≡ deaf_entries (entries lines.old) }
    ensures same { numbers lines.new ≡ numbers lines.old }
{
    let mut behind = answers(lines);
    for index in 0..lines.len() {
        let line = lines[index];
        behind -= answer_count(&line.item());
        lines[index] = deaf_line(line, behind);
    }
}

/// How many answers an entry is, one or none.
fn answer_count(item: &Entry) -> usize
    ensures { result ≡ answers (item.now ∷ []) }
{
    if item.is_answer() { 1 } else { 0 }
}

/// A line with so many answers behind it, as the deaf reading has it.
fn deaf_line(line: PackedLine, behind: usize) -> PackedLine
    ensures item { result.item ≡ deaf_entry line.item behind }
    ensures number { result.number ≡ line.number }
{
    match line.item() {
        Entry::Silent => {
            if behind == 0 {
                PackedLine::new(line.number(), Entry::Unknown)
            } else {
                line
            }
        }
        Entry::Heard(_)
        | Entry::Captured(_)
        | Entry::Collision
        | Entry::Garbled
        | Entry::Unknown
        | Entry::Sent(_)
        | Entry::Listed(_)
        | Entry::FieldCycle => hidden_line(line),
    }
}
