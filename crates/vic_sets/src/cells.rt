//! Lists of disjoint masks of at most 56 bits, of which no two are the halves of one mask.

ghost use Rattle.std.specs.Prelude.{◌≡◌, ◌&&◌, ◌||◌, not, IfOk, OnOk};
ghost use Rattle.vic_frame.specs.Uids.{has};
ghost use Rattle.vic_frame.specs.Masks.{lies_in};
ghost use Rattle.vic_tree.specs.OpenSet.{SameUids, settled};
ghost use Rattle.vic_sets.specs.Cells.{in_cells, IsApart};

use crate::cell::Cell;
use std::alloc::{AllocError, Global};
use std::marker::Model;
use vic_frame::{Mask, Uid};

/// Masks of at most 56 bits: no UID lies in two of them, and no two are the halves of one mask.
#[derive(Drop)]
pub(crate) struct Cells {
    pub list: Vec<Cell>,
}

impl Model for Cells {
    ghost use Rattle.std.specs.Prelude.{List};
    ghost use Rattle.vic_frame.specs.Masks.{BitMask};
    ghost use Rattle.vic_sets.specs.Cells.{AreCells};

    ghost Value = { List BitMask };

    ghost view = { λ a. a.list.items };

    ghost invariant = { λ a. AreCells a.list.items };
}

/// Whether a UID lies in one of the cells.
pub(crate) fn is_in(cells: &Cells, uid: Uid) -> bool
    ensures { result ≡ in_cells cells.now uid }
{
    cells.list.iter().any(|cell| cell.mask.matches(uid))
}

/// What is left of some cells after a mask is removed, except some UIDs.
pub(crate) fn settled(
    alloc: Global,
    cells: &Cells,
    mask: &Cell,
    except: &[Uid],
) -> Result<Cells, AllocError>
    ensures { IfOk result (λ left. SameUids (in_cells left)
        (settled (in_cells cells.now) mask.now except.now)) }
{
    let mut left = outside(alloc, cells, mask)?;
    add_back(&mut left, cells, except)?;
    Ok(left)
}

/// What some cells hold outside of a mask.
fn outside(alloc: Global, cells: &Cells, mask: &Cell) -> Result<Cells, AllocError>
    ensures { IfOk result (λ left. SameUids (in_cells left)
        (λ u. in_cells cells.now u && not (lies_in mask.now u))) }
{
    let mut left = Cells {
        list: Vec::new(alloc),
    };
    for cell in &cells.list {
        add_rest(&mut left, cell, mask)?;
    }
    Ok(left)
}

/// Adds what a cell holds outside of a mask.
fn add_rest(cells: &mut Cells, cell: &Cell, mask: &Cell) -> Result<(), AllocError>
    requires { IsApart cell.now cells.old }
    ensures { OnOk result (SameUids (in_cells cells.new)
        (λ u. in_cells cells.old u || (lies_in cell.now u && not (lies_in mask.now u)))) }
{
    let Some(inner) = cell.shared(mask) else {
        add(cells, *cell)?;
        return Ok(());
    };
    for len in cell.len()..inner.len() {
        add(cells, inner.flipped(len))?;
    }
    Ok(())
}

/// Adds those UIDs of a list that lie in some cells.
fn add_back(left: &mut Cells, cells: &Cells, uids: &[Uid]) -> Result<(), AllocError>
    ensures { OnOk result (SameUids (in_cells left.new)
        (λ u. in_cells left.old u || (in_cells cells.now u && has uids.now u))) }
{
    for uid in uids {
        if is_in(cells, *uid) && !is_in(left, *uid) {
            let mask = Mask::of_uid(*uid);
            add(left, Cell { mask })?;
        }
    }
    Ok(())
}

/// Adds a mask. If the other half of a mask one bit shorter is there, the two become that mask.
fn add(cells: &mut Cells, cell: Cell) -> Result<(), AllocError>
    requires { IsApart cell cells.old }
    ensures { OnOk result (SameUids (in_cells cells.new)
        (λ u. in_cells cells.old u || lies_in cell u)) }
{
    if cell.len() > 0 {
        let other = cell.flipped(cell.len() - 1);
        if cells.list.as_slice().contains(&other) {
            cells.list.retain(|kept| *kept != other);
            add(cells, cell.widened())?;
            return Ok(());
        }
    }
    cells.list.push(cell)?;
    Ok(())
}
