//! The widest mask of a tree of bits.

ghost use Rattle.std.specs.Prelude.{◌≡◌, ℕ, ◌<◌, ◌≤◌, false, IfSome, IfNone, if◌then◌else◌};
ghost use Rattle.vic_sets.specs.Nodes.{open_at, height, IsReduced};
ghost use Rattle.vic_sets.specs.inner.Widest.{IsWidestOf, with_low_bit};

use crate::node::Node;
use vic_frame::{Mask, UID_BITS};

/// The mask of least length, then of least value, all of whose numbers are open below a node; none
/// if no number is.
pub(crate) fn widest_below(node: &Node) -> Option<Mask>
    requires reduced { IsReduced node.now }
    requires low { height node.now ≤ UID_BITS }
    ensures found { IfSome result (IsWidestOf (open_at node.now)) }
    ensures short { IfSome result (λ m. m.len ≤ height node.now) }
    ensures none { IfNone result ((u : ℕ) → open_at node.now u ≡ false) }
{
    match node {
        Node::Full => Some(Mask::default()),
        Node::Empty => None,
        Node::Fork(halves) => match (widest_below(&halves.zero), widest_below(&halves.one)) {
            (None, None) => None,
            (Some(zero), None) => Some(lengthened(&zero, false)),
            (None, Some(one)) => Some(lengthened(&one, true)),
            (Some(zero), Some(one)) => {
                Some(lengthened(&zero, false).min(lengthened(&one, true)))
            }
        },
    }
}

/// The mask that fixes one more bit, below the others.
fn lengthened(mask: &Mask, bit: bool) -> Mask
    requires { mask.now.len < UID_BITS }
    ensures { result ≡ with_low_bit (if bit then 1 else 0) mask.now }
{
    Mask::of_bits(mask.len() + 1, 2 * mask.value() + u64::from(bit))
}
