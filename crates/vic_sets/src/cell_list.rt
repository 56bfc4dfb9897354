//! A set of open UIDs as a list of masks.

ghost use Rattle.vic_sets.specs.Cells.{in_cells};

use crate::cell::Cell;
use crate::cells::{Cells, is_in, settled};
use std::alloc::{AllocError, Global};
use std::marker::Model;
use std::mem;
use vic_frame::{Mask, Uid, without_top_byte};
use vic_tree::OpenSet;

/// A set of UIDs as a list of masks, the simple and slow way to keep one: the masks have at most 56
/// bits, no UID lies in two of them, and no two are the halves of one mask.
#[derive(Drop)]
pub struct CellList {
    cells: Cells,
    alloc: Global,
}

impl Model for CellList {
    ghost use Rattle.std.specs.Prelude.{List};
    ghost use Rattle.vic_frame.specs.Masks.{BitMask};

    ghost Value = { List BitMask };

    ghost view = { λ a. a.cells };
}

impl OpenSet for CellList {
    ghost is_open = { in_cells };

    fn everything(alloc: Global) -> Result<CellList, AllocError> {
        let mut list = Vec::new(alloc);
        let mask = Mask::default();
        list.push(Cell { mask })?;
        Ok(CellList {
            cells: Cells { list },
            alloc,
        })
    }

    fn settle(&mut self, mask: &Mask, except: &[Uid]) -> Result<(), AllocError> {
        let Some(mask) = without_top_byte(mask) else {
            return Ok(());
        };
        // if memory is refused, no UID is left
        let none = Cells {
            list: Vec::new(self.alloc),
        };
        let cells = mem::replace(&mut self.cells, none);
        self.cells = settled(self.alloc, &cells, &Cell { mask }, except)?;
        Ok(())
    }

    fn has(&self, uid: Uid) -> bool {
        is_in(&self.cells, uid)
    }

    fn widest(&self) -> Option<Mask> {
        let cell = self.cells.list.iter().min()?;
        Some(cell.mask)
    }
}
