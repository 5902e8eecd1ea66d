//! The shape of a certificate tree.

ghost use Rattle.std.specs.Prelude.{IfSome, IsTrue, ◌↔◌};
ghost use Rattle.mari_market.specs.Market.{IsValid};
ghost use Rattle.mari_market.specs.Prefix.{IsFeasiblePrefix};
ghost use Rattle.mari_proofs.specs.Steps.{FitsItem, IsFullBranch};
ghost use Rattle.mari_check.specs.Shapes.{AnyLeaf, HasShape};

use mari_gates::{child_of, empty_prefix, next_after};
use mari_market::{Market, Prefix, TreeItem};

/// Whether an item is a branch where every gate is decided.
fn is_full_branch(market: &Market, prefix: &Prefix, item: &TreeItem) -> bool
    ensures { IsTrue result ↔ IsFullBranch market.now prefix.now item.now }
{
    match item {
        TreeItem::Branch => prefix.length as usize >= market.gates.as_slice().len(),
        TreeItem::Leaf(_) => false,
    }
}

/// The prefix of the next item, if there is one.
fn after(market: &Market, prefix: &Prefix, item: &TreeItem) -> Option<Prefix>
    requires market { IsValid market.now }
    requires prefix { IsFeasiblePrefix market.now prefix.now }
    requires item { IsFullBranch market.now prefix.now item.now → ⊥ }
    ensures fits { FitsItem market.now AnyLeaf prefix.now item.now result }
    ensures feasible { IfSome result (IsFeasiblePrefix market.now) }
{
    match item {
        TreeItem::Branch => Some(child_of(prefix, false)),
        TreeItem::Leaf(_) => next_after(market, prefix),
    }
}

/// Whether the items are those of a whole tree, whatever its leaves say.
///
/// A branch stands only where a gate is left to decide, its children's parts stand after it, and no item is missing
/// or left over.
pub(crate) fn has_shape(market: &Market, tree: &[TreeItem]) -> bool
    requires { IsValid market.now }
    ensures { IsTrue result ↔ HasShape market.now tree.now }
{
    let mut next = Some(empty_prefix());
    for item in tree {
        let Some(prefix) = next else {
            return false;
        };
        if is_full_branch(market, &prefix, item) {
            return false;
        }
        next = after(market, &prefix, item);
    }
    next.is_none()
}
