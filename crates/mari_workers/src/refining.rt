//! From an optimal clearing to the first one: of the gate words of optimal activations the first is published.

ghost use Rattle.std.specs.Prelude.{◌≡◌, ◌<◌, ◌++◌, ◌∷◌, [], if◌then◌else◌, false, length, map, reverse, IfOk, IfSome, IsSomeAnd, OnOk};
ghost use Rattle.mari_core.specs.Preorder.{shape_of};
ghost use Rattle.mari_market.specs.Clearing.{Clears, IsBudget};
ghost use Rattle.mari_market.specs.Market.{IsValid};
ghost use Rattle.mari_market.specs.Prefix.{word_of, IsCleared};
ghost use Rattle.mari_proofs.specs.Tables.{IsTableOf};
ghost use Rattle.mari_workers.specs.Refine.{ended, ClosesAtClosed, HasNodes, IsAim, IsAtLeaf, IsLastTurn, IsToBranch, IsTreeWalk, IsTurn, MayRefine};
ghost use Rattle.mari_workers.specs.Root.{IsRootOf};

use crate::bounds::BranchBounds;
use crate::fate::{Aim, Fate, fate_of};
use crate::root::Root;
use mari_gates::{child_of, empty_prefix, gate_word, may_branch_up, next_after};
use mari_market::{Activation, Cleared, Clearing, Leaf, Market, PartItem, Prefix, Spent, TreeItem};
use mari_proofs::{DualTable, FEW_ITEMS};
use mari_units::{Items, MOST_GATES, Memory};
use std::alloc::{AllocError, Global};

/// What one turn of a walk comes to: it goes on, a prefix can't branch within the budget, or there is an activation.
#[derive(Drop)]
enum Turn {
    On,
    Full,
    Yield(Activation),
}

/// A walk through a tree that is made anew: the items that are done, those that are left, the next at the end, and the
/// next prefix.
#[derive(Drop)]
struct Walk {
    done: Vec<TreeItem>,
    left: Vec<TreeItem>,
    next: Option<Prefix>,
}

/// A copy of a leaf.
fn copy_of_leaf(leaf: &Leaf) -> Result<Leaf, AllocError>
    ensures { IfOk result (λ copy. copy ≡ leaf.now) }
{
    leaf.clone()
}

impl Walk {
    /// The walk at the first item of a tree.
    fn start(alloc: Global, tree: Items<TreeItem>) -> Walk
        ensures done { result.done.items ≡ [] }
        ensures left { reverse result.left.items ≡ tree }
        ensures next { IsSomeAnd result.next (λ x. (word_of x ≡ []) × IsCleared x) }
    {
        let mut left = tree.into_vec();
        left.reverse();
        Walk {
            done: Vec::new(alloc),
            left,
            next: Some(empty_prefix()),
        }
    }

    /// Puts a branch of the prefix after what is done; its closed child is the next.
    fn descend(&mut self, prefix: &Prefix) -> Result<(), Memory>
        requires room { prefix.now.length < MOST_GATES }
        requires cleared { IsCleared prefix.now }
        ensures done { OnOk result (self.new.done.items ≡ self.old.done.items ++ TreeItem.Branch ∷ []) }
        ensures left { OnOk result (self.new.left ≡ self.old.left) }
        ensures next { OnOk result (IsSomeAnd self.new.next (λ x. (word_of x ≡ word_of prefix.now ++ false ∷ []) × IsCleared x)) }
    {
        self.done.push(TreeItem::Branch)?;
        self.next = Some(child_of(prefix, false));
        Ok(())
    }

    /// Lets the children of a prefix wait, each with the leaf of their parent.
    fn give(&mut self, leaf: Leaf, may_open: bool) -> Result<(), Memory>
        ensures done { OnOk result (self.new.done ≡ self.old.done) }
        ensures left { OnOk result
            (self.new.left.items ≡ self.old.left.items ++ (if may_open then TreeItem.Leaf leaf ∷ TreeItem.Leaf leaf ∷ [] else TreeItem.Leaf leaf ∷ [])) }
    {
        if may_open {
            let copy = copy_of_leaf(&leaf)?;
            self.left.push(TreeItem::Leaf(copy))?;
        }
        self.left.push(TreeItem::Leaf(leaf))?;
        Ok(())
    }

    /// Branches an early leaf at the next prefix, where its children fit the budget.
    fn branch(
        &mut self,
        market: &Market,
        prefix: &Prefix,
        leaf: Leaf,
        aim: &Aim,
        bounds: &mut BranchBounds,
    ) -> Result<Turn, Memory>
        requires market { IsValid market.now }
        requires aim { IsAim market.now aim.now }
        requires walk { IsAtLeaf market.now aim.now prefix.now leaf self.old.done.items self.old.left.items }
        requires branch { IsToBranch market.now aim.now.welfare (word_of aim.now.word) (word_of prefix.now) leaf }
        ensures { IfOk result (IsTurn market.now aim.now prefix.now (length self.old.done.items) self.new) }
    {
        let may_open = may_branch_up(market, prefix);
        let more = if may_open { 2 } else { 1 };
        if self.done.len() + self.left.len() + 1 + more > aim.budget as usize {
            self.left.push(TreeItem::Leaf(leaf))?;
            return Ok(Turn::Full);
        }
        bounds.add(aim.welfare)?;
        self.give(leaf, may_open)?;
        self.descend(prefix)?;
        Ok(Turn::On)
    }

    /// Decides the leaf of the next prefix: it stays, it branches, or an activation comes of it.
    fn decide_leaf(
        &mut self,
        alloc: Global,
        market: &Market,
        prefix: &Prefix,
        leaf: Leaf,
        aim: &Aim,
        table: Option<&DualTable>,
        bounds: &mut BranchBounds,
        root: &Root,
    ) -> Result<Turn, Memory>
        requires market { IsValid market.now }
        requires table { IfSome table (λ t. IsTableOf market.now t.now) }
        requires root { IsRootOf market.now root.now }
        requires aim { IsAim market.now aim.now }
        requires walk { IsAtLeaf market.now aim.now prefix.now leaf self.old.done.items self.old.left.items }
        ensures { IfOk result (IsTurn market.now aim.now prefix.now (length self.old.done.items) self.new) }
    {
        match fate_of(alloc, market, prefix, leaf, aim, table, root)? {
            Fate::Stays(leaf) => {
                self.done.push(TreeItem::Leaf(leaf))?;
                self.next = next_after(market, prefix);
                Ok(Turn::On)
            }
            Fate::Branches(leaf) => self.branch(market, prefix, leaf, aim, bounds),
            Fate::Yields(leaf, activation) => {
                self.left.push(TreeItem::Leaf(leaf))?;
                Ok(Turn::Yield(activation))
            }
        }
    }

    /// Takes one turn at the next prefix.
    fn advance(
        &mut self,
        alloc: Global,
        market: &Market,
        prefix: &Prefix,
        aim: &Aim,
        table: Option<&DualTable>,
        bounds: &mut BranchBounds,
        root: &Root,
    ) -> Result<Turn, Memory>
        requires market { IsValid market.now }
        requires table { IfSome table (λ t. IsTableOf market.now t.now) }
        requires root { IsRootOf market.now root.now }
        requires aim { IsAim market.now aim.now }
        requires walk { IsTreeWalk market.now aim.now self.old.done.items self.old.left.items (Some prefix.now) }
        ensures { IfOk result (IsTurn market.now aim.now prefix.now (length self.old.done.items) self.new) }
    {
        match self.left.pop() {
            None => unreachable!(),
            Some(TreeItem::Branch) => {
                bounds.pass()?;
                self.descend(prefix)?;
                Ok(Turn::On)
            }
            Some(TreeItem::Leaf(leaf)) => {
                self.decide_leaf(alloc, market, prefix, leaf, aim, table, bounds, root)
            }
        }
    }

    /// All items, done and left.
    fn whole(self) -> Result<Vec<TreeItem>, Memory>
        ensures { IfOk result (λ v. v.items ≡ self.done.items ++ reverse self.left.items) }
    {
        let Walk {
            mut done,
            mut left,
            ..
        } = self;
        left.reverse();
        done.append(&mut left)?;
        Ok(done)
    }
}

/// The item of a part of the search tree in which a tree's item stands.
fn shape_of(item: &TreeItem) -> PartItem
    ensures { result ≡ shape_of item.now }
{
    match item {
        TreeItem::Branch => PartItem::Branch,
        TreeItem::Leaf(_) => PartItem::Closed,
    }
}

/// The items of a part of the search tree in which a tree's items stand.
fn shapes_of(alloc: Global, tree: &[TreeItem]) -> Result<Vec<PartItem>, Memory>
    ensures { IfOk result (λ v. v.items ≡ map shape_of tree.now) }
{
    let mut items = Vec::new(alloc);
    for item in tree {
        items.push(shape_of(item))?;
    }
    Ok(items)
}

/// Takes turns until one stops the walk or no prefix is left, and says what the last of them came to.
fn walked(
    alloc: Global,
    market: &Market,
    aim: &Aim,
    table: Option<&DualTable>,
    walk: &mut Walk,
    bounds: &mut BranchBounds,
    root: &Root,
) -> Result<Turn, Memory>
    requires market { IsValid market.now }
    requires table { IfSome table (λ t. IsTableOf market.now t.now) }
    requires root { IsRootOf market.now root.now }
    requires aim { IsAim market.now aim.now }
    requires walk { IsTreeWalk market.now aim.now walk.old.done.items walk.old.left.items walk.old.next }
    ensures { IfOk result (IsLastTurn market.now aim.now walk.new) }
{
    while let Some(prefix) = walk.next {
        match walk.advance(alloc, market, &prefix, aim, table, bounds, root)? {
            Turn::On => {}
            Turn::Full => return Ok(Turn::Full),
            Turn::Yield(activation) => return Ok(Turn::Yield(activation)),
        }
    }
    Ok(Turn::On)
}

/// What a walk from an activation of the welfare comes to by its last turn. The activation is published where no prefix
/// is left, and one that was found is in its place.
fn ended(
    alloc: Global,
    walk: Walk,
    last: Turn,
    activation: Activation,
    welfare: u64,
) -> Result<Cleared, Memory>
    ensures { IfOk result (λ cleared. cleared ≡ ended walk last activation welfare) }
{
    match last {
        Turn::On => {
            let Walk { done, .. } = walk;
            Ok(Cleared::Published(Clearing {
                activation,
                welfare,
                tree: Items::of(done),
            }))
        }
        Turn::Full => {
            drop(activation);
            let whole = walk.whole()?;
            let shapes = shapes_of(alloc, &whole);
            drop(whole);
            let items = Items::of(shapes?);
            Ok(Cleared::Spent(Spent { items }))
        }
        Turn::Yield(earlier) => {
            drop(activation);
            match walk.whole() {
                Ok(whole) => Ok(Cleared::Published(Clearing {
                    activation: earlier,
                    welfare,
                    tree: Items::of(whole),
                })),
                Err(Memory) => {
                    drop(earlier);
                    Err(Memory)
                }
            }
        }
    }
}

/// The table of a market for the bounds of a tree; none where these are few.
fn table_for(alloc: Global, market: &Market, tree: &[TreeItem]) -> Result<Option<DualTable>, Memory>
    requires { IsValid market.now }
    ensures { IfOk result (λ table. IfSome table (IsTableOf market.now)) }
{
    if tree.len() <= FEW_ITEMS {
        return Ok(None);
    }
    Ok(Some(DualTable::of(alloc, market)?))
}

/// The clearing of the first activation, from that of an optimal one. Prefixes are examined from the root's optimum,
/// and the bounds become those of the new tree's branches.
pub(crate) fn refined_from(
    alloc: Global,
    market: &Market,
    found: Clearing,
    budget: u32,
    bounds: &mut BranchBounds,
    root: &Root,
) -> Result<Cleared, Memory>
    requires market { IsValid market.now }
    requires root { IsRootOf market.now root.now }
    requires budget { IsBudget budget }
    requires found { MayRefine market.now budget found }
    ensures law { IfOk result (Clears market.now budget) }
    ensures nodes { IfOk result (HasNodes market.now) }
{
    let Clearing {
        activation,
        welfare,
        tree,
    } = found;
    let aim = Aim {
        word: gate_word(market, &activation),
        welfare,
        budget,
    };
    let table = table_for(alloc, market, tree.as_slice())?;
    let mut walk = Walk::start(alloc, tree);
    match walked(alloc, market, &aim, table.as_ref(), &mut walk, bounds, root) {
        Ok(last) => ended(alloc, walk, last, activation, welfare),
        Err(Memory) => {
            drop(walk);
            drop(activation);
            Err(Memory)
        }
    }
}

/// The same, where the root's optimum isn't known yet.
fn refined(alloc: Global, market: &Market, found: Clearing, budget: u32) -> Result<Cleared, Memory>
    requires market { IsValid market.now }
    requires budget { IsBudget budget }
    requires found { MayRefine market.now budget found }
    ensures { IfOk result (Clears market.now budget) }
{
    match Root::find(alloc, market) {
        Ok(root) => refined_from(
            alloc,
            market,
            found,
            budget,
            &mut BranchBounds::none(alloc),
            &root,
        ),
        Err(Memory) => {
            drop(found);
            Err(Memory)
        }
    }
}

/// The clearing of the first activation, from that of an optimal one whose tree has only nodes of the search tree.
///
/// The leaves that are early for its gate word are to hold even at the welfare less 1. One that doesn't is examined:
/// another certificate takes its place, or its prefix branches, or, where it decides every gate, it has an activation
/// of that welfare, which is then the first. Where the new leaves don't fit the budget, the answer is `Spent`.
pub fn refine(alloc: Global, market: &Market, found: Clearing, budget: u32) -> Cleared
    requires market { IsValid market.now }
    requires budget { IsBudget budget }
    requires found { MayRefine market.now budget found }
    ensures law { Clears market.now budget result }

    // What is published opens no gate where its welfare is the closed welfare.
    ensures closed { ClosesAtClosed market.now result }
{
    match refined(alloc, market, found, budget) {
        Ok(cleared) => cleared,
        Err(Memory) => Cleared::Memory,
    }
}
