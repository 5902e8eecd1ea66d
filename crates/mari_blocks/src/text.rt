//! The text of the blocks command.
ghost use Rattle.std.specs.Prelude.{◌≡◌, ◌++◌, ◌≤◌, IfOk, OnOk, length};
ghost use Rattle.std.specs.List.{All, flat_map};
ghost use Rattle.mari_blocks.specs.Text.{JointFits, QuarterFits, count_text, ending_text, heading_text, joint_text_of, opening_text, quarter_text, unpublished_text_of};

use mari_lines::{put_field, put_number_field, put_welfare};
use mari_market::TreeItem;
use mari_publish::{BidLine, BorderLine, ZoneLine, put_market_lines, put_tree_lines};
use mari_units::{Items, MOST_NODES, Memory, put};
use std::alloc::Global;

/// What is printed of a quarter.
#[derive(Drop)]
pub struct QuarterBlock {
    /// The quarter, counted from 1.
    pub quarter: u32,
    /// A line for each zone.
    pub zones: Items<ZoneLine>,
    /// A line for each border.
    pub borders: Items<BorderLine>,
    /// A line for each bid that is printed.
    pub bids: Items<BidLine>,
    /// The MW of its demands.
    pub demands: Items<u32>,
}

/// What is printed of a joint market that is published.
#[derive(Drop)]
pub struct JointBlock {
    /// Its first quarter, counted from 1.
    pub first: u32,
    /// Its last quarter.
    pub last: u32,
    /// Its welfare in quarter-cents.
    pub welfare: u64,
    /// A part for each of its quarters.
    pub quarters: Items<QuarterBlock>,
    /// Its certificate tree.
    pub tree: Items<TreeItem>,
}

/// Appends the first word, and the first and the last quarter.
fn put_opening(alloc: Global, out: &mut Vec<u8>, first: u32, last: u32) -> Result<(), Memory>
    ensures { OnOk result (out.new.items ≡ out.old.items ++ opening_text first last) }
{
    put(out, b"blocks")?;
    put_number_field(alloc, out, u64::from(first))?;
    put_number_field(alloc, out, u64::from(last))
}

/// Appends what is printed of a quarter.
fn put_quarter(alloc: Global, out: &mut Vec<u8>, block: &QuarterBlock) -> Result<(), Memory>
    requires { QuarterFits block.now }
    ensures { OnOk result (out.new.items ≡ out.old.items ++ quarter_text block.now) }
{
    put(out, b"quarter")?;
    put_number_field(alloc, out, u64::from(block.quarter))?;
    put(out, b"\n")?;
    put_market_lines(
        alloc,
        out,
        block.zones.as_slice(),
        block.borders.as_slice(),
        block.bids.as_slice(),
        block.demands.as_slice(),
    )
}

/// Appends what is printed of quarters.
fn put_quarters(alloc: Global, out: &mut Vec<u8>, blocks: &[QuarterBlock]) -> Result<(), Memory>
    requires { All QuarterFits blocks.now }
    ensures { OnOk result (out.new.items ≡ out.old.items ++ flat_map quarter_text blocks.now) }
{
    for block in blocks {
        put_quarter(alloc, out, block)?;
    }
    Ok(())
}

/// Appends the first two lines of a joint market that is published.
fn put_heading(alloc: Global, out: &mut Vec<u8>, block: &JointBlock) -> Result<(), Memory>
    ensures { OnOk result (out.new.items ≡ out.old.items ++ heading_text block.now) }
{
    put_opening(alloc, out, block.first, block.last)?;
    put(out, b" published\n")?;
    put_welfare(alloc, out, block.welfare)
}

/// Appends the certificate tree, and the last line.
fn put_ending(alloc: Global, out: &mut Vec<u8>, tree: &[TreeItem]) -> Result<(), Memory>
    requires { length tree.now ≤ MOST_NODES }
    ensures { OnOk result (out.new.items ≡ out.old.items ++ ending_text tree.now) }
{
    put_tree_lines(alloc, out, tree)?;
    put(out, b"end\n")
}

/// The text of a joint market that is published.
pub fn joint_text(alloc: Global, block: &JointBlock) -> Result<Vec<u8>, Memory>
    requires { JointFits block.now }
    ensures { IfOk result (λ text. text.items ≡ joint_text_of block.now) }
{
    let mut text = Vec::new(alloc);
    put_heading(alloc, &mut text, block)?;
    put_quarters(alloc, &mut text, block.quarters.as_slice())?;
    put_ending(alloc, &mut text, block.tree.as_slice())?;
    Ok(text)
}

/// Appends that a joint market isn't published, with the count of nodes of its search.
fn put_count(alloc: Global, out: &mut Vec<u8>, count: u32) -> Result<(), Memory>
    ensures { OnOk result (out.new.items ≡ out.old.items ++ count_text count) }
{
    put_field(out, b"unpublished")?;
    put_number_field(alloc, out, u64::from(count))?;
    put(out, b"\n")
}

/// The text of one that isn't, since its search tree has more nodes than the budget: with the count of nodes so far.
pub fn unpublished_text(alloc: Global, first: u32, last: u32, count: u32) -> Result<Vec<u8>, Memory>
    ensures { IfOk result (λ text. text.items ≡ unpublished_text_of first last count) }
{
    let mut text = Vec::new(alloc);
    put_opening(alloc, &mut text, first, last)?;
    put_count(alloc, &mut text, count)?;
    Ok(text)
}
