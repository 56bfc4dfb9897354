//! The files of a collection: which of them is the catalogue, which has the places of logs, and
//! what the others say of their fields. For `reconcile` a list of what is expected may stand for
//! the tables. They come one after the other; of a log only its survey is kept. What is wrong with
//! them is known before any item is looked at.
#![tactic(auto)]

mod fault;
mod gathered;
mod kind;
mod list;
mod operand;
mod operands;
mod reconcile_operands;

pub use fault::{OperandFault, Refusal};
pub use gathered::Gathered;
pub use kind::{Kind, kind_of};
pub use operands::Operands;
pub use reconcile_operands::ReconcileOperands;
