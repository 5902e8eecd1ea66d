//! The tree of a block is open.

ghost use Rattle.std.specs.Prelude.{◌≡◌, ◌<◌, length, nat_lt, if◌then◌else◌, Some, None};
ghost use Rattle.mari_publish.specs.Order.{after, after_growing, with_item, with_pending, conflict_item, kept_with, Steps, Follows};
ghost use Rattle.mari_lines.specs.declared.line.MoneyLine.{MoneyLine as MoneyLineValue};
ghost use Rattle.mari_publish.specs.declared.held.Growing.{Growing as GrowingValue};
ghost use Rattle.mari_publish.specs.declared.held.Held.TheVariants as held_as;

use super::step::{FollowFault, empty, go_on, hold, push, refuse};
use crate::held::{Ending, Growing, Held, Kept, Pending};
use crate::publication::Part;
use mari_lines::{Line, MoneyLine};
use mari_market::{Activation, Conflict, Leaf, Prices, TreeItem};
use mari_units::{Cents, Items};
use std::alloc::Global;
use std::mem;

/// Waits for the next line of a conflict, with what has come of it.
fn wait_with(growing: &mut Growing, pending: Pending)
    ensures { held_as.Growing growing.new ≡ with_pending growing.old pending }
{
    drop(mem::replace(&mut growing.pending, pending));
}

/// An item of one line.
fn add_item(alloc: Global, growing: &mut Growing, item: TreeItem) -> Result<(), FollowFault>
    requires { growing.old.pending ≡ Pending.Nothing }
    ensures { Steps (if nat_lt (length growing.old.tree) growing.old.count then Some (with_item growing.old item) else None) (held_as.Growing growing.old)
        (held_as.Growing growing.new) result }
{
    if growing.tree.as_slice().len() as u64 >= u64::from(growing.count) {
        drop(item);
        return Err(FollowFault::OutOfOrder);
    }
    Ok(push(alloc, &mut growing.tree, item)?)
}

/// The first of a conflict's lines.
fn open_conflict(growing: &mut Growing, zones: Items<u32>) -> Result<(), FollowFault>
    requires { growing.old.pending ≡ Pending.Nothing }
    ensures { Steps (after_growing growing.old Pending.Nothing (Line.Conflict zones)) (held_as.Growing growing.old) (held_as.Growing growing.new) result }
{
    if growing.tree.as_slice().len() as u64 >= u64::from(growing.count) {
        drop(zones);
        return Err(FollowFault::OutOfOrder);
    }
    wait_with(growing, Pending::Zones(zones));
    Ok(())
}

/// The first line of an item.
fn begin_item(alloc: Global, growing: &mut Growing, line: Line) -> Result<(), FollowFault>
    requires pending { growing.old.pending ≡ Pending.Nothing }
    requires line { (operator : MoneyLineValue) → line ≡ Line.Operator operator → ⊥ }
    ensures { Steps (after_growing growing.old Pending.Nothing line) (held_as.Growing growing.old) (held_as.Growing growing.new) result }
{
    match line {
        Line::Branch => add_item(alloc, growing, TreeItem::Branch),
        Line::Bound(cents) => {
            let item = TreeItem::Leaf(Leaf::Bound(Prices { cents }));
            add_item(alloc, growing, item)
        }
        Line::Cut(cut) => add_item(alloc, growing, TreeItem::Leaf(Leaf::Cut(cut))),
        Line::Conflict(zones) => open_conflict(growing, zones),
        line => {
            drop(line);
            Err(FollowFault::OutOfOrder)
        }
    }
}

/// The item of a conflict's four lines.
fn conflict_of(chain: Items<u32>, cents: Items<Cents>, flow: Items<i64>, mw: Items<u32>) -> TreeItem
    ensures { result ≡ conflict_item chain cents flow mw }
{
    TreeItem::Leaf(Leaf::Conflict(Conflict {
        chain,
        potentials: Prices { cents },
        activation: Activation { mw, flow },
    }))
}

/// The last of a conflict's lines. Room for the item is made first, so that the lines that have come are not lost.
fn close_conflict(
    alloc: Global,
    growing: &mut Growing,
    zones: Items<u32>,
    prices: Items<Cents>,
    flows: Items<i64>,
    mws: Items<u32>,
) -> Result<(), FollowFault>
    requires { growing.old.pending ≡ Pending.Nothing }
    ensures { Steps (Some (with_item growing.old (conflict_item zones prices flows mws))) (with_pending growing.old (Pending.Flows zones prices flows))
        (held_as.Growing growing.new) result }
{
    let mut tree = mem::replace(&mut growing.tree, empty(alloc)).into_vec();
    if tree.reserve(1).is_err() {
        growing.tree = Items::of(tree);
        wait_with(growing, Pending::Flows(zones, prices, flows));
        return Err(FollowFault::Memory);
    }
    tree.push_reserved(conflict_of(zones, prices, flows, mws));
    growing.tree = Items::of(tree);
    Ok(())
}

/// A line of a conflict that is not the next one: what has come waits on.
fn wait_on(growing: &mut Growing, pending: Pending, line: Line) -> Result<(), FollowFault>
    ensures held { held_as.Growing growing.new ≡ with_pending growing.old pending }
    ensures refused { result ≡ Err FollowFault.OutOfOrder }
{
    drop(line);
    wait_with(growing, pending);
    Err(FollowFault::OutOfOrder)
}

/// A line of a block's tree, but not the operator's line after it.
pub fn grow(alloc: Global, growing: &mut Growing, line: Line) -> Result<(), FollowFault>
    requires { (operator : MoneyLineValue) → line ≡ Line.Operator operator → ⊥ }
    ensures { Steps (after_growing growing.old growing.old.pending line) (held_as.Growing growing.old) (held_as.Growing growing.new) result }
{
    match mem::replace(&mut growing.pending, Pending::Nothing) {
        Pending::Nothing => begin_item(alloc, growing, line),
        Pending::Zones(zones) => match line {
            Line::At(at) => {
                wait_with(growing, Pending::At(zones, at));
                Ok(())
            }
            line => wait_on(growing, Pending::Zones(zones), line),
        },
        Pending::At(zones, at) => match line {
            Line::Flows(flows) => {
                wait_with(growing, Pending::Flows(zones, at, flows));
                Ok(())
            }
            line => wait_on(growing, Pending::At(zones, at), line),
        },
        Pending::Flows(zones, at, flows) => match line {
            Line::Mws(mws) => close_conflict(alloc, growing, zones, at, flows, mws),
            line => wait_on(growing, Pending::Flows(zones, at, flows), line),
        },
    }
}

/// The block after its tree, with the first operator's line.
fn end_tree(
    alloc: Global,
    kept: &mut Kept,
    growing: Growing,
    operator: MoneyLine,
) -> Result<Option<Part>, FollowFault>
    requires { growing.pending ≡ Pending.Nothing }
    ensures { Follows (after kept.old (held_as.Growing growing) (Line.Operator operator)) (kept_with kept.old (held_as.Growing growing)) kept.new result }
{
    if growing.tree.as_slice().len() as u64 != u64::from(growing.count) {
        return refuse(kept, Held::Growing(growing));
    }
    let mut operators = empty(alloc);
    if push(alloc, &mut operators, operator).is_err() {
        hold(kept, Held::Growing(growing));
        return Err(FollowFault::Memory);
    }
    let Growing {
        listing,
        tree,
        pending,
        ..
    } = growing;
    drop(pending);
    let ending = Ending {
        listing,
        tree,
        operators,
        providers: empty(alloc),
    };
    go_on(kept, Held::Ending(ending), None)
}

/// The operator's line after a block's tree.
pub fn close_tree(
    alloc: Global,
    kept: &mut Kept,
    operator: MoneyLine,
) -> Result<Option<Part>, FollowFault>
    ensures { (growing : GrowingValue) → kept.old.held ≡ held_as.Growing growing
        → Follows (after kept.old (held_as.Growing growing) (Line.Operator operator)) kept.old kept.new result }
{
    match mem::replace(&mut kept.held, Held::Done) {
        Held::Growing(growing) => {
            if matches!(growing.pending, Pending::Nothing) {
                return end_tree(alloc, kept, growing, operator);
            }
            refuse(kept, Held::Growing(growing))
        }
        held => refuse(kept, held),
    }
}
