//! How many sets of open UIDs the judge makes of a log. It makes one when it has walked over all
//! lines, so a log is judged once if one set is made at most. If a reply isn't borne out, the walk
//! ends there and none is made: of such a log the count says nothing.
//!
//! Here, a set allocates a block of a particular size when it is made, and `tests/c/refuse.c`
//! counts these.

use crate::logs::log_of;
use std::alloc::{AllocError, Global};
use std::io;
use std::io::ErrorKind;
use vic_frame::{Mask, Uid};
use vic_tree::{OpenSet, RangeSet, SortedKeys};
use vic_verdict::{Verdict, judge_with};

/// The size of that block in bytes; nothing else allocates exactly as many.
const TELLING: usize = 7919;

/// Ranges of keys, as the judge uses, with such a block.
#[derive(Drop)]
struct Telling {
    set: RangeSet,
    block: Vec<u8>,
}

impl OpenSet for Telling {
    ghost is_open = { λ s. ⟦<RangeSet as OpenSet>⟧.is_open s.set };

    fn everything(alloc: Global) -> Result<Telling, AllocError> {
        let block = Vec::with_capacity(alloc, TELLING)?;
        let set = RangeSet::everything(alloc)?;
        Ok(Telling { set, block })
    }

    fn settle(&mut self, mask: &Mask, except: &[Uid]) -> Result<(), AllocError> {
        self.set.settle(mask, except)
    }

    fn has(&self, uid: Uid) -> bool {
        self.set.has(uid)
    }

    fn widest(&self) -> Option<Mask> {
        self.set.widest()
    }

    fn has_each(&self, alloc: Global, keys: &SortedKeys) -> Result<Vec<bool>, AllocError> {
        self.set.has_each(alloc, keys)
    }

    fn widest_besides(self, keys: &SortedKeys) -> Result<Option<Mask>, AllocError> {
        let Telling { set, block: _ } = self;
        set.widest_besides(keys)
    }
}

/// Prints whether the log of a text is impossible, and from which line on.
pub fn judge_counted(rt: &HostRuntime, alloc: Global, text: &[u8]) -> io::Result<()> {
    let Ok(Some(log)) = log_of(alloc, text) else {
        return Err(ErrorKind::InvalidData.into());
    };
    match judge_with::<Telling>(alloc, &log) {
        Ok(Verdict::Impossible { line }) => println!(rt; "impossible at line {line}"),
        Ok(_) => println!(rt; "possible"),
        Err(AllocError) => Err(ErrorKind::OutOfMemory.into()),
    }
}
