//! The lines of a certificate tree.

ghost use Rattle.std.specs.Prelude.{◌≡◌, ◌++◌, ◌≤◌, OnOk, length};
ghost use Rattle.std.specs.List.{flat_map};
ghost use Rattle.mari_publish.specs.Lines.{item_lines, tree_lines};
ghost use Rattle.mari_publish.specs.Texts.{text_of_lines};

use mari_lines::{
    put_at, put_bound, put_branch, put_conflict, put_cut, put_flow_line, put_mw_line, put_tree,
};
use mari_market::{Conflict, Leaf, TreeItem};
use mari_units::{MOST_NODES, Memory};
use std::alloc::Global;

/// Appends a conflict's four lines.
fn put_conflict_lines(alloc: Global, out: &mut Vec<u8>, conflict: &Conflict) -> Result<(), Memory>
    ensures { OnOk result (out.new.items ≡ out.old.items ++ text_of_lines (item_lines (TreeItem.Leaf (Leaf.Conflict conflict.now)))) }
{
    put_conflict(alloc, out, conflict.chain.as_slice())?;
    put_at(alloc, out, conflict.potentials.cents.as_slice())?;
    put_flow_line(alloc, out, conflict.activation.flow.as_slice())?;
    put_mw_line(alloc, out, conflict.activation.mw.as_slice())
}

/// Appends the lines of a tree's item.
fn put_item(alloc: Global, out: &mut Vec<u8>, item: &TreeItem) -> Result<(), Memory>
    ensures { OnOk result (out.new.items ≡ out.old.items ++ text_of_lines (item_lines item.now)) }
{
    match item {
        TreeItem::Branch => put_branch(out),
        TreeItem::Leaf(Leaf::Bound(prices)) => put_bound(alloc, out, prices.cents.as_slice()),
        TreeItem::Leaf(Leaf::Cut(cut)) => put_cut(alloc, out, cut),
        TreeItem::Leaf(Leaf::Conflict(conflict)) => put_conflict_lines(alloc, out, conflict),
    }
}

/// Appends the lines of a tree's items.
fn put_items(alloc: Global, out: &mut Vec<u8>, items: &[TreeItem]) -> Result<(), Memory>
    ensures { OnOk result (out.new.items ≡ out.old.items ++ text_of_lines (flat_map item_lines items.now)) }
{
    for item in items {
        put_item(alloc, out, item)?;
    }
    Ok(())
}

/// Appends the lines of a certificate tree.
pub fn put_tree_lines(alloc: Global, out: &mut Vec<u8>, items: &[TreeItem]) -> Result<(), Memory>
    requires { length items.now ≤ MOST_NODES }
    ensures { OnOk result (out.new.items ≡ out.old.items ++ text_of_lines (tree_lines items.now)) }
{
    put_tree(alloc, out, items.len() as u32)?;
    put_items(alloc, out, items)
}
