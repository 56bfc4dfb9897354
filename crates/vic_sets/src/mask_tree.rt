//! A set of open UIDs as a tree of their low bits.

ghost use Rattle.std.specs.Prelude.{◌≡◌, ◌&&◌, IfOk, filter};
ghost use Rattle.vic_frame.specs.Masks.{lies_in};
ghost use Rattle.vic_sets.specs.Nodes.{open_at};

use crate::node::{Node, fill, is_open_at};
use crate::widest::widest_below;
use std::alloc::{AllocError, Global};
use std::marker::Model;
use std::mem;
use vic_frame::{Mask, UID_BITS, Uid, without_top_byte};
use vic_tree::OpenSet;

/// A set of UIDs as a tree that tests their low 56 bits, lowest first. No fork in it has two equal
/// leaves, and it is at most 56 forks deep. Settling a mask takes one step for each of its bits, 56
/// for each exception in it, and a look at the other exceptions.
#[derive(Drop)]
pub struct MaskTree {
    root: Node,
    alloc: Global,
}

impl Model for MaskTree {
    ghost use Rattle.std.specs.Prelude.{◌≤◌};
    ghost use Rattle.vic_frame.specs.declared.uid.TheConstants.{UID_BITS};
    ghost use Rattle.vic_sets.specs.declared.node.Node.{Node};
    ghost use Rattle.vic_sets.specs.Nodes.{height, IsReduced};
    ghost use Rattle.vic_sets.specs.contracts.node.Node as e;
    ghost use Rattle.std.specs.Coded.{codes};

    ghost Value = { Node };

    ghost coded = { Prim.hlevel (codes, e.the_row.coded) };

    ghost view = { λ a. a.root };

    ghost invariant = { λ a. IsReduced a.root × (height a.root ≤ UID_BITS) };
}

impl OpenSet for MaskTree {
    ghost is_open = { open_at };

    fn everything(alloc: Global) -> Result<MaskTree, AllocError> {
        Ok(MaskTree {
            root: Node::Full,
            alloc,
        })
    }

    fn settle(&mut self, mask: &Mask, except: &[Uid]) -> Result<(), AllocError> {
        let Some(mask) = without_top_byte(mask) else {
            return Ok(());
        };
        // if memory is refused, no UID is left
        let mut root = mem::replace(&mut self.root, Node::Empty);
        let kept = open_in_mask(self.alloc, &root, &mask, except)?;
        fill(&mut root, self.alloc, mask.len(), mask.value(), false)?;
        for uid in &kept {
            fill(&mut root, self.alloc, UID_BITS, uid.number(), true)?;
        }
        self.root = root;
        Ok(())
    }

    fn has(&self, uid: Uid) -> bool {
        is_open_at(&self.root, uid.number())
    }

    fn widest(&self) -> Option<Mask> {
        widest_below(&self.root)
    }
}

/// The UIDs of a list that are open and lie in a mask.
fn open_in_mask(
    alloc: Global,
    root: &Node,
    mask: &Mask,
    uids: &[Uid],
) -> Result<Vec<Uid>, AllocError>
    ensures { IfOk result (λ kept. kept.items
        ≡ filter (λ u. lies_in mask.now u && open_at root.now u) uids.now) }
{
    let mut kept = Vec::new(alloc);
    for uid in uids {
        if mask.matches(*uid) && is_open_at(root, uid.number()) {
            kept.push(*uid)?;
        }
    }
    Ok(kept)
}
