//! The nodes of a search in preorder.

ghost use Rattle.std.specs.Prelude.{◌≡◌, ◌++◌, true, false, reverse, IfOk, IfErr, OnOk, MatchOption, Some};
ghost use Rattle.mari_core.specs.Preorder.{IsPreorder, HasPreorder, IsPart, IsTree, IsOpenFault, is_done, part_item, tree_item};
ghost use Rattle.mari_core.specs.Nodes.{child_numbers};

use crate::event::FinishFault;
use crate::node::{Node, NodeState};
use mari_market::{Leaf, PartItem, TreeItem};
use mari_units::Memory;
use std::alloc::{AllocError, Global};

/// Lets the children of a node wait: the closed one is the next.
fn push_children(waiting: &mut Vec<u32>, state: &NodeState) -> Result<(), Memory>
    ensures { OnOk result (waiting.new.items ≡ waiting.old.items ++ reverse (child_numbers state.now)) }
{
    if let NodeState::Branched(closed, opened) = state {
        if let Some(opened) = opened {
            waiting.push(*opened)?;
        }
        waiting.push(*closed)?;
    }
    Ok(())
}

/// The numbers of all nodes in preorder.
pub(crate) fn preorder(alloc: Global, nodes: &[Node]) -> Result<Vec<u32>, Memory>
    requires { HasPreorder nodes.now }
    ensures { IfOk result (λ v. IsPreorder nodes.now v.items) }
{
    let mut order = Vec::new(alloc);
    let mut waiting = Vec::new(alloc);
    waiting.push(0)?;
    while let Some(node) = waiting.pop() {
        order.push(node)?;
        push_children(&mut waiting, nodes[node as usize].state())?;
    }
    Ok(order)
}

/// The item of a part of the search tree for a node in this state.
fn part_item(state: &NodeState) -> PartItem
    ensures { result ≡ part_item (Some state.now) }
{
    match state {
        NodeState::Branched(_, _) => PartItem::Branch,
        NodeState::Closed(_, _) => PartItem::Closed,
        NodeState::Untaken | NodeState::Taken(_) => PartItem::Pending,
    }
}

/// The items of a part of the search tree, in preorder.
pub(crate) fn part_items(alloc: Global, nodes: &[Node]) -> Result<Vec<PartItem>, Memory>
    requires { HasPreorder nodes.now }
    ensures { IfOk result (λ v. IsPart nodes.now v.items) }
{
    let order = preorder(alloc, nodes)?;
    let mut items = Vec::with_capacity(alloc, order.len())?;
    for node in &order {
        items.push(part_item(nodes[*node as usize].state()))?;
    }
    Ok(items)
}

/// A copy of a certificate.
fn copy_of(leaf: &Leaf) -> Result<Leaf, AllocError>
    ensures { IfOk result (λ copy. copy ≡ leaf.now) }
{
    leaf.clone()
}

/// A copy of the item of a certificate tree for a node in this state, if it is branched or closed.
fn tree_item(state: &NodeState) -> Result<Option<TreeItem>, Memory>
    ensures { IfOk result
        (λ o. MatchOption o (is_done (Some state.now) ≡ false) (λ item. (is_done (Some state.now) ≡ true) × (item ≡ tree_item (Some state.now)))) }
{
    match state {
        NodeState::Branched(_, _) => Ok(Some(TreeItem::Branch)),
        NodeState::Closed(leaf, _) => Ok(Some(TreeItem::Leaf(copy_of(leaf)?))),
        NodeState::Untaken | NodeState::Taken(_) => Ok(None),
    }
}

/// The items of a certificate tree, in preorder, which are copies.
pub(crate) fn finished_items(alloc: Global, nodes: &[Node]) -> Result<Vec<TreeItem>, FinishFault>
    requires { HasPreorder nodes.now }
    ensures tree { IfOk result (λ v. IsTree nodes.now v.items) }
    ensures not_closed { IfErr result (IsOpenFault nodes.now) }
{
    let order = preorder(alloc, nodes)?;
    let mut items = Vec::with_capacity(alloc, order.len())?;
    for node in &order {
        let Some(item) = tree_item(nodes[*node as usize].state())? else {
            return Err(FinishFault::NotClosed(*node));
        };
        items.push(item)?;
    }
    Ok(items)
}
