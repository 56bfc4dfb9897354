//! The open UIDs, kept in two simpler ways than the one that the judge uses: as a list of masks,
//! and as a tree of bits. The judge is proved over each.
#![tactic(auto)]

mod cell;
mod cell_list;
mod cells;
mod mask_tree;
mod node;
mod widest;

pub use cell_list::CellList;
pub use mask_tree::MaskTree;
