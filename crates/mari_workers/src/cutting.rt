//! How a tree is cut back: a branch that its own certificate closes becomes a leaf.
//!
//! A node that was branched while the incumbent was low may be closed by the welfare that is published in the end. What
//! stands below it shows nothing more, and whether it is there rests on who found what first.

ghost use Rattle.std.specs.Prelude.{◌≡◌, ◌+◌, ◌<◌, ◌≤◌, ◌∷◌, [], false, length, pos, reverse, IfOk, IfSome, IsSomeAnd, OnOk};
ghost use Rattle.mari_gates.specs.Preorder.{left_at, waiting_after};
ghost use Rattle.mari_market.specs.declared.certificate.TreeItem.TheVariants.{Branch as BranchItem, Leaf as LeafItem};
ghost use Rattle.mari_market.specs.Market.{IsValid};
ghost use Rattle.mari_market.specs.Prefix.{word_of, IsCleared, IsFeasiblePrefix};
ghost use Rattle.mari_market.specs.Tree.{AreParts, LeafHolds};
ghost use Rattle.mari_workers.specs.Cutting.{IsAtItem, IsBelow, IsCutting, IsPast};
ghost use Rattle.mari_workers.specs.Refine.{IsOldLeaf};
ghost use Rattle.mari_workers.specs.Root.{IsRootOf};

use crate::bounds::BranchBounds;
use crate::root::Root;
use mari_core::closing_leaf;
use mari_gates::{child_of, empty_prefix, next_after};
use mari_market::{Leaf, Market, Prefix, TreeItem};
use mari_units::{Items, Memory};
use std::alloc::Global;

/// A walk through a tree that is cut back: the items that are done, those that are left, the next at the end, and the
/// next prefix.
#[derive(Drop)]
struct Cutting {
    done: Vec<TreeItem>,
    left: Vec<TreeItem>,
    next: Option<Prefix>,
}

/// The certificate by which a branched prefix is closed, by its own examination and at the welfare, if it is. A bound
/// above the welfare says that it isn't.
fn closing_at(
    alloc: Global,
    market: &Market,
    prefix: &Prefix,
    bound: u64,
    welfare: u64,
    root: &Root,
) -> Result<Option<Leaf>, Memory>
    requires market { IsValid market.now }
    requires prefix { IsFeasiblePrefix market.now prefix.now }
    requires root { IsRootOf market.now root.now }
    ensures { IfOk result (λ leaf. IfSome leaf (LeafHolds market.now (pos welfare) (word_of prefix.now))) }
{
    if bound > welfare {
        return Ok(None);
    }
    let finding = root.examine(alloc, market, prefix)?;
    Ok(closing_leaf(finding, welfare))
}

impl Cutting {
    /// The walk at the first item of a tree.
    fn start(alloc: Global, tree: Items<TreeItem>) -> Cutting
        ensures done { result.done.items ≡ [] }
        ensures left { reverse result.left.items ≡ tree }
        ensures next { IsSomeAnd result.next (λ x. (word_of x ≡ []) × IsCleared x) }
    {
        let mut left = tree.into_vec();
        left.reverse();
        Cutting {
            done: Vec::new(alloc),
            left,
            next: Some(empty_prefix()),
        }
    }

    /// A leaf stays.
    fn keep(
        &mut self,
        market: &Market,
        prefix: &Prefix,
        leaf: Leaf,
        welfare: u64,
    ) -> Result<(), Memory>
        requires market { IsValid market.now }
        requires walk { IsAtItem market.now welfare prefix.now (LeafItem leaf) self.old.done.items self.old.left.items }
        ensures { OnOk result (IsPast market.now welfare self.old.done.items self.old.left.items self.new) }
    {
        self.done.push(TreeItem::Leaf(leaf))?;
        self.next = next_after(market, prefix);
        Ok(())
    }

    /// A branch stays; its closed child is the next.
    fn descend(&mut self, market: &Market, prefix: &Prefix, welfare: u64) -> Result<(), Memory>
        requires market { IsValid market.now }
        requires walk { IsAtItem market.now welfare prefix.now BranchItem self.old.done.items self.old.left.items }
        ensures { OnOk result (IsPast market.now welfare self.old.done.items self.old.left.items self.new) }
    {
        self.done.push(TreeItem::Branch)?;
        self.next = Some(child_of(prefix, false));
        Ok(())
    }

    /// Drops the item of the next prefix, which stands below another one.
    fn drop_item(
        &mut self,
        market: &Market,
        above: &Prefix,
        at: &Prefix,
        welfare: u64,
        bounds: &mut BranchBounds,
    )
        requires market { IsValid market.now }
        requires below { IsBelow market.now welfare (word_of above.now) self.old.left.items (Some at.now) }
        requires deeper { above.now.length < at.now.length }
        ensures below { IsBelow market.now welfare (word_of above.now) self.new.left.items self.new.next }
        ensures fewer { length self.new.left.items < length self.old.left.items }
        ensures done { self.new.done ≡ self.old.done }
    {
        match self.left.pop() {
            None => unreachable!(),
            Some(TreeItem::Leaf(leaf)) => {
                drop(leaf);
                self.next = next_after(market, at);
            }
            Some(TreeItem::Branch) => {
                bounds.take_next();
                self.next = Some(child_of(at, false));
            }
        }
    }

    /// Drops the items below a prefix.
    fn drop_below(
        &mut self,
        market: &Market,
        above: &Prefix,
        welfare: u64,
        bounds: &mut BranchBounds,
    )
        requires market { IsValid market.now }
        requires below { IsBelow market.now welfare (word_of above.now) self.old.left.items self.old.next }
        ensures below { IsBelow market.now welfare (word_of above.now) self.new.left.items self.new.next }
        ensures next { left_at market.now.gates self.new.next ≡ waiting_after market.now.gates (word_of above.now) }
        ensures fewer { length self.new.left.items ≤ length self.old.left.items }
        ensures done { self.new.done ≡ self.old.done }
    {
        while let Some(at) = self.next {
            if at.length <= above.length {
                return;
            }
            self.drop_item(market, above, &at, welfare, bounds);
        }
    }

    /// A leaf takes the place of a branch and all that stands below it.
    fn cut(
        &mut self,
        market: &Market,
        prefix: &Prefix,
        leaf: Leaf,
        welfare: u64,
        bounds: &mut BranchBounds,
    ) -> Result<(), Memory>
        requires market { IsValid market.now }
        requires walk { IsAtItem market.now welfare prefix.now BranchItem self.old.done.items self.old.left.items }
        requires leaf { LeafHolds market.now (pos welfare) (word_of prefix.now) leaf }
        ensures { OnOk result (IsPast market.now welfare self.old.done.items self.old.left.items self.new) }
    {
        self.done.push(TreeItem::Leaf(leaf))?;
        self.next = Some(child_of(prefix, false));
        self.drop_below(market, prefix, welfare, bounds);
        Ok(())
    }

    /// A branch stays, or is cut where its own certificate closes it. One whose bound isn't known is examined.
    fn branch(
        &mut self,
        alloc: Global,
        market: &Market,
        prefix: &Prefix,
        welfare: u64,
        bounds: &mut BranchBounds,
        root: &Root,
    ) -> Result<(), Memory>
        requires market { IsValid market.now }
        requires root { IsRootOf market.now root.now }
        requires walk { IsAtItem market.now welfare prefix.now BranchItem self.old.done.items self.old.left.items }
        ensures { OnOk result (IsPast market.now welfare self.old.done.items self.old.left.items self.new) }
    {
        let bound = bounds.take_next();
        match closing_at(alloc, market, prefix, bound, welfare, root)? {
            Some(leaf) => self.cut(market, prefix, leaf, welfare, bounds),
            None => {
                bounds.add(bound)?;
                self.descend(market, prefix, welfare)
            }
        }
    }

    /// Goes on after the item of the next prefix.
    fn advance(
        &mut self,
        alloc: Global,
        market: &Market,
        prefix: &Prefix,
        welfare: u64,
        bounds: &mut BranchBounds,
        root: &Root,
    ) -> Result<(), Memory>
        requires market { IsValid market.now }
        requires root { IsRootOf market.now root.now }
        requires walk { IsCutting market.now welfare self.old.done.items self.old.left.items (Some prefix.now) }
        ensures walk { OnOk result (IsCutting market.now welfare self.new.done.items self.new.left.items self.new.next) }
        ensures fewer { OnOk result (length self.new.left.items < length self.old.left.items) }
        ensures within { OnOk result (length self.new.done.items + length self.new.left.items ≤ length self.old.done.items + length self.old.left.items) }
    {
        match self.left.pop() {
            None => unreachable!(),
            Some(TreeItem::Leaf(leaf)) => self.keep(market, prefix, leaf, welfare),
            Some(TreeItem::Branch) => self.branch(alloc, market, prefix, welfare, bounds, root),
        }
    }
}

/// Goes on from the first prefix until none is left.
fn walked(
    alloc: Global,
    market: &Market,
    welfare: u64,
    walk: &mut Cutting,
    bounds: &mut BranchBounds,
    root: &Root,
) -> Result<(), Memory>
    requires market { IsValid market.now }
    requires root { IsRootOf market.now root.now }
    requires walk { IsCutting market.now welfare walk.old.done.items walk.old.left.items walk.old.next }
    ensures walk { OnOk result (IsCutting market.now welfare walk.new.done.items walk.new.left.items None) }
    ensures within { OnOk result (length walk.new.done.items ≤ length walk.old.done.items + length walk.old.left.items) }
{
    bounds.rewind()?;
    while let Some(prefix) = walk.next {
        walk.advance(alloc, market, &prefix, welfare, bounds, root)?;
    }
    bounds.rewind()
}

/// A tree that holds at a welfare, cut back at it. The bounds, in quarter-cents, are those that were found at its
/// branches, in preorder: a branch is examined again where its bound is no more than the welfare. They become those of
/// the branches that stay, so that what is cut back twice isn't examined twice.
///
/// What comes holds at the same welfare, and has no more items.
pub(crate) fn cut_back(
    alloc: Global,
    market: &Market,
    tree: Items<TreeItem>,
    bounds: &mut BranchBounds,
    welfare: u64,
    root: &Root,
) -> Result<Items<TreeItem>, Memory>
    requires market { IsValid market.now }
    requires root { IsRootOf market.now root.now }
    requires holds { AreParts market.now (IsOldLeaf market.now welfare) ([] ∷ []) tree }
    ensures holds { IfOk result (AreParts market.now (IsOldLeaf market.now welfare) ([] ∷ [])) }
    ensures smaller { IfOk result (λ cut. length cut ≤ length tree) }
{
    let mut walk = Cutting::start(alloc, tree);
    match walked(alloc, market, welfare, &mut walk, bounds, root) {
        Ok(()) => {
            let Cutting { done, .. } = walk;
            Ok(Items::of(done))
        }
        Err(Memory) => {
            drop(walk);
            Err(Memory)
        }
    }
}
