//! Logs judged over a list of cells, and explained over a tree. `tests/test_rows.py` asks the
//! program what `judge` says about them, over ranges of keys.

use crate::logs::text_of;
use std::alloc::{AllocError, Global};
use std::process::Abort;
use std::test::Fail;
use vic_answer::{Answer, check_text};
use vic_frame::{Mask, Uid};
use vic_log::read_log;
use vic_sets::{CellList, MaskTree};
use vic_tree::OpenSet;
use vic_verdict::{explain_with, judge_with};

/// Asks a log for the line of its verdict, by a list of cells and by a tree.
fn is_judged(rt: &impl Abort, alloc: Global, names: &str, line: &str) -> Result<(), Fail> {
    let log = read_log(alloc, text_of(alloc, names)?.as_bytes())?;
    let verdict = judge_with::<CellList>(alloc, &log)?;
    let explained = explain_with::<MaskTree>(alloc, &log)?;
    assert!(rt; explained.verdict == verdict, "{names}");
    let written = check_text(&Answer::Found(verdict));
    assert!(rt;
        written.strip_suffix(b"\n") == Some(line.as_bytes()),
        "{names}"
    );
    Ok(())
}

/// Logs, each with the line of its verdict.
const VERDICTS: &str = "I1 S | complete 0
I16 S RA RB S13 UA UB | complete 2
I1 C MA RA QA I1 RB UA UB | complete 2
I16 S C S14 I16M1 S10 RA RB1 S4 UA UB1 | complete 2
M55 C QZ QY I1 S UZ UY | complete 2
I1 S UB UA | absent E0040100000000A1
I1 RA | unlisted E0040100000000A1
M55 C QZ QY I1 S | unlisted E000000000000000
I1 C QA I1 RB | unlisted E0040100000000A1
 | unsettled 0 -
M55 C UZ UY | unsettled 1 01
M60 S16 | unsettled 1 01
I1 C MA RA MB RB UA UB | unsettled 2 00
I16 S RA RB S12 UA UB | unsettled 4 0F
QA I1 S | unsettled 56 040100000000A1
QA I1 S UA | doubtful E0040100000000A1
I1 S I1 RA I1 S UA | impossible at line 5
QA QB I1 RB I1 RA | impossible at line 5
M60 S14 C | impossible at line 17
M55 C QZ I1 S I1 S | impossible at line 6
I16 S C S14 I16M1 S10 RA S S4 UA | impossible at line 35";

#[test]
fn verdicts_by_a_list(rt: HostRuntime) -> Result<(), Fail> {
    for row in VERDICTS.lines() {
        let (names, line) = row.split_once(" | ").ok_or("no row")?;
        is_judged(&rt, rt.alloc(), names, line)?;
    }
    Ok(())
}

/// A set that can't be made.
#[derive(Drop)]
struct Refusing {
    set: MaskTree,
}

impl OpenSet for Refusing {
    ghost is_open = { λ s. ⟦<MaskTree as OpenSet>⟧.is_open s.set };

    fn everything(_alloc: Global) -> Result<Refusing, AllocError> {
        Err(AllocError)
    }

    fn settle(&mut self, mask: &Mask, except: &[Uid]) -> Result<(), AllocError> {
        self.set.settle(mask, except)
    }

    fn has(&self, uid: Uid) -> bool {
        self.set.has(uid)
    }

    fn widest(&self) -> Option<Mask> {
        self.set.widest()
    }
}

#[test]
fn a_set_that_lacks_memory(rt: HostRuntime) -> Result<(), Fail> {
    let log = read_log(rt.alloc(), b"vicinity-log 1\n")?;
    assert!(&rt; judge_with::<Refusing>(rt.alloc(), &log).is_err());
    assert!(&rt; explain_with::<Refusing>(rt.alloc(), &log).is_err());
    Ok(())
}
