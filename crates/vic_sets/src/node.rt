//! Trees of bits.

ghost use Rattle.std.specs.Prelude.{◌≡◌, ℕ, ◌+◌, ◌/◌, ◌^◌, ◌%◌, ◌≤◌, ◌==◌, OnOk, max, if◌then◌else◌};
ghost use Rattle.vic_sets.specs.Nodes.{open_at, height, IsReduced, HasReducedSides, IsFork};

use std::alloc::{AllocError, Global};

/// A set of numbers, the open ones, tested bit by bit, lowest bit first.
#[cycle(node)]
#[derive(Drop)]
pub(crate) enum Node {
    /// Every number is open.
    Full,
    /// No number is open.
    Empty,
    /// The next bit decides in which half the bits above it are looked up.
    Fork(Box<Halves>),
}

/// The two sides of a fork.
#[cycle(node)]
#[derive(Drop)]
pub(crate) struct Halves {
    /// The numbers whose bit is 0, without it.
    pub zero: Node,
    /// The numbers whose bit is 1, without it.
    pub one: Node,
}

/// Whether a number is open.
pub(crate) fn is_open_at(node: &Node, number: u64) -> bool
    ensures { result ≡ open_at node.now number }
{
    match node {
        Node::Full => true,
        Node::Empty => false,
        Node::Fork(halves) => {
            if number % 2 == 0 {
                is_open_at(&halves.zero, number / 2)
            } else {
                is_open_at(&halves.one, number / 2)
            }
        }
    }
}

/// Replaces a fork of two equal leaves with one leaf.
fn merge(node: &mut Node)
    requires { HasReducedSides node.old }
    ensures reduced { IsReduced node.new }
    ensures same { (u : ℕ) → open_at node.new u ≡ open_at node.old u }
    ensures not_higher { height node.new ≤ height node.old }
{
    let leaf = match node {
        Node::Fork(halves) => match (&halves.zero, &halves.one) {
            (Node::Full, Node::Full) => Node::Full,
            (Node::Empty, Node::Empty) => Node::Empty,
            _ => return,
        },
        _ => return,
    };
    *node = leaf;
}

/// Replaces a leaf with a fork of two like it.
fn split(node: &mut Node, alloc: Global) -> Result<(), AllocError>
    requires { IsReduced node.old }
    ensures fork { OnOk result (IsFork node.new) }
    ensures reduced { OnOk result (HasReducedSides node.new) }
    ensures same { OnOk result ((u : ℕ) → open_at node.new u ≡ open_at node.old u) }
    ensures height { OnOk result (height node.new ≤ max (height node.old) 1) }
{
    let halves = match node {
        Node::Full => Halves {
            zero: Node::Full,
            one: Node::Full,
        },
        Node::Empty => Halves {
            zero: Node::Empty,
            one: Node::Empty,
        },
        Node::Fork(_) => return Ok(()),
    };
    *node = Node::Fork(Box::new(alloc, halves)?);
    Ok(())
}

/// Opens every number whose low `len` bits are those of `value`, if `opens`, or closes them all.
pub(crate) fn fill(
    node: &mut Node,
    alloc: Global,
    len: u8,
    value: u64,
    opens: bool,
) -> Result<(), AllocError>
    requires { IsReduced node.old }
    ensures reduced { OnOk result (IsReduced node.new) }
    ensures height { OnOk result (height node.new ≤ max (height node.old) len) }
    ensures opened { OnOk result ((u : ℕ) → open_at node.new u
        ≡ (if u % 2 ^ len == value % 2 ^ len then opens else open_at node.old u)) }
{
    if len == 0 {
        *node = if opens { Node::Full } else { Node::Empty };
        return Ok(());
    }
    match (&*node, opens) {
        (Node::Full, true) | (Node::Empty, false) => return Ok(()),
        _ => {}
    }
    split(node, alloc)?;
    if let Node::Fork(halves) = node {
        if value % 2 == 0 {
            fill(&mut halves.zero, alloc, len - 1, value / 2, opens)?;
        } else {
            fill(&mut halves.one, alloc, len - 1, value / 2, opens)?;
        }
    }
    merge(node);
    Ok(())
}
