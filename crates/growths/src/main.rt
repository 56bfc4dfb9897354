//! Makes each call that takes memory and that no command makes, and prints how it answered:
//! `right`, `memory` (refused memory, and the right answer when called again) or `wrong`.
//!
//! `tests/test_growths.py` runs it with one allocation refused, each in turn. With `planted` on
//! standard input it makes calls that are deliberately wrong; with a log it judges that log, and
//! the test counts the sets of open UIDs that are made.
#![tactic(auto)]

mod found;
mod judgings;
mod logs;
mod planted;
mod sets;
mod tags;

use found::{Found, call_again};
use judgings::judge_counted;
use std::alloc::{AllocError, Global};
use std::io;
use vic_log::{FromRead, read_whole};
use vic_sets::{CellList, MaskTree};
use vic_tree::RangeSet;

/// How many bytes of standard input are read at most.
const MAX_INPUT: usize = 100_000_000;

/// Prints how a call answered.
fn say(rt: &HostRuntime, call: &str, found: Found) -> io::Result<()> {
    let word = found.word();
    println!(rt; "{call} {word}")
}

/// Makes the calls that are deliberately wrong.
fn say_planted(rt: &HostRuntime, alloc: Global) -> io::Result<()> {
    say(rt, "planted answer", planted::answers(alloc))?;
    say(rt, "planted idleness", planted::takes_none(alloc))
}

/// The contents of standard input.
fn read_input(rt: &HostRuntime, alloc: Global) -> io::Result<Vec<u8>> {
    match read_whole(alloc, &mut FromRead::new(rt.stdin()), MAX_INPUT) {
        Ok(input) => Ok(input),
        Err(_) => Err(io::ErrorKind::Other.into()),
    }
}

/// Makes a call, repeats it if memory was refused, and prints how it answered.
fn say_again<F: Fn(Global) -> Result<bool, AllocError>>(
    rt: &HostRuntime,
    name: &str,
    call: F,
) -> io::Result<()>
    requires { F.IsAlwaysCallable call }
{
    say(rt, name, call_again(rt.alloc(), call))
}

/// Makes the calls on a log and on tags.
fn say_logs(rt: &HostRuntime) -> io::Result<()> {
    say(rt, "push", logs::push(rt.alloc()))?;
    say_again(rt, "read_log", logs::read_row)?;
    say(rt, "add", tags::add(rt.alloc()))
}

/// Makes the calls on sets of open UIDs.
fn say_sets(rt: &HostRuntime) -> io::Result<()> {
    say_again(rt, "settle CellList", sets::settle_masks::<CellList>)?;
    say_again(rt, "settle MaskTree", sets::settle_masks::<MaskTree>)?;
    say_again(rt, "settle RangeSet", sets::settle_masks::<RangeSet>)?;
    say_again(rt, "without CellList", sets::leave_keys::<CellList>)?;
    say_again(rt, "without MaskTree", sets::leave_keys::<MaskTree>)?;
    say_again(rt, "without RangeSet", sets::leave_keys::<RangeSet>)
}

fn main(rt: HostRuntime) -> io::Result<()> {
    let alloc = rt.alloc();
    let input = read_input(&rt, alloc)?;
    if input.as_slice() == b"planted".as_slice() {
        say_planted(&rt, alloc)
    } else if input.is_empty() {
        say_logs(&rt)?;
        say_sets(&rt)
    } else {
        judge_counted(&rt, alloc, &input)
    }
}
