//! The texts of a day of the second form.

ghost use Rattle.std.specs.Prelude.{◌≡◌, ◌++◌, ◌≤◌, IfOk, OnOk, length, slice_index_or};
ghost use Rattle.mari_rows.specs.Names.{name_at};
ghost use Rattle.mari_reach_lines.specs.Spelling.{reach_line_text, text_of_reach_lines};
ghost use Rattle.mari_reach_day.specs.Lines.{choice_line, item_line, leaf_line, reach_block_text, reach_head, reach_tree_lines};
ghost use Rattle.mari_reach_day.specs.Ranges.{ReachFits};

use crate::block::ReachBlock;
use mari_lines::{put_bound, put_cut, put_tree, put_welfare};
use mari_publish::{put_ending, put_market};
use mari_reach::{Choice, ReachItem, ReachLeaf};
use mari_reach_lines::{
    put_reach_branch, put_reach_head, put_reach_price, put_reach_run, put_void,
};
use mari_remain::Books;
use mari_rows::NameIndex;
use mari_units::{MOST_NODES, Memory, Name};
use std::alloc::Global;

/// The text of the first line.
pub fn head_text(alloc: Global, date: &Name, quarters: u32, budget: u32) -> Result<Vec<u8>, Memory>
    ensures { IfOk result (λ text. text.items ≡ reach_head date.now quarters budget) }
{
    let mut out = Vec::new(alloc);
    put_reach_head(alloc, &mut out, date, quarters, budget)?;
    Ok(out)
}

/// The name at a place, or nothing where there is none.
fn name_or_nothing(names: &NameIndex, place: u32) -> &[u8]
    ensures { result.now ≡ name_at names.now place }
{
    match names.name_at(place) {
        Some(name) => name,
        None => b"",
    }
}

/// The number of the bid of a gate.
fn bid_of_gate(gated: &[u32], gate: u32) -> u32
    ensures { result ≡ slice_index_or gated.now gate 0 }
{
    gated.get(gate as usize).copied().unwrap_or(0)
}

/// Appends the line of a choice.
fn put_choice(
    alloc: Global,
    out: &mut Vec<u8>,
    books: &Books,
    gated: &[u32],
    choice: Choice,
) -> Result<(), Memory>
    ensures { OnOk result (out.new.items ≡ out.old.items ++ reach_line_text (choice_line books.now gated.now choice)) }
{
    match choice {
        Choice::OfGate(gate) => put_reach_branch(
            out,
            name_or_nothing(&books.bids.ids, bid_of_gate(gated, gate)),
        ),
        Choice::OfPrice(zone, price) => put_reach_price(
            alloc,
            out,
            name_or_nothing(&books.zones.zones, zone),
            price,
        ),
    }
}

/// Appends the line of a leaf.
fn put_leaf(alloc: Global, out: &mut Vec<u8>, leaf: &ReachLeaf) -> Result<(), Memory>
    ensures { OnOk result (out.new.items ≡ out.old.items ++ reach_line_text (leaf_line leaf.now)) }
{
    match leaf {
        ReachLeaf::Void => put_void(out),
        ReachLeaf::Bound(potentials) => put_bound(alloc, out, potentials.cents.as_slice()),
        ReachLeaf::Cut(cut) => put_cut(alloc, out, cut),
    }
}

/// Appends the line of an item of a tree.
fn put_item(
    alloc: Global,
    out: &mut Vec<u8>,
    books: &Books,
    gated: &[u32],
    item: &ReachItem,
) -> Result<(), Memory>
    ensures { OnOk result (out.new.items ≡ out.old.items ++ reach_line_text (item_line books.now gated.now item.now)) }
{
    match item {
        ReachItem::Branch(choice) => put_choice(alloc, out, books, gated, *choice),
        ReachItem::Leaf(leaf) => put_leaf(alloc, out, leaf),
    }
}

/// Appends the lines of a tree.
fn put_tree_lines(
    alloc: Global,
    out: &mut Vec<u8>,
    books: &Books,
    gated: &[u32],
    tree: &[ReachItem],
) -> Result<(), Memory>
    requires { length tree.now ≤ MOST_NODES }
    ensures { OnOk result (out.new.items ≡ out.old.items ++ text_of_reach_lines (reach_tree_lines books.now gated.now tree.now)) }
{
    put_tree(alloc, out, tree.len() as u32)?;
    for item in tree {
        put_item(alloc, out, books, gated, item)?;
    }
    Ok(())
}

/// The text of a block.
pub fn block_text(alloc: Global, books: &Books, block: &ReachBlock) -> Result<Vec<u8>, Memory>
    requires { ReachFits block.now }
    ensures { IfOk result (λ text. text.items ≡ reach_block_text books.now block.now) }
{
    let mut out = Vec::new(alloc);
    put_reach_run(alloc, &mut out, block.block.heading, block.claim)?;
    put_welfare(alloc, &mut out, block.block.welfare)?;
    put_market(alloc, &mut out, &block.block)?;
    put_tree_lines(
        alloc,
        &mut out,
        books,
        block.gated.as_slice(),
        block.tree.as_slice(),
    )?;
    put_ending(alloc, &mut out, &block.block)?;
    Ok(out)
}
