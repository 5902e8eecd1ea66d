//! The texts of a publication's parts.
//!
//! Each kind of line of a list is written by a loop of its own, whose invariant names what has been written; one loop
//! for all kinds would need a law of every kind in its place. The lists of a line are read in the same way
//! (`reading/lists.rt` of `mari_lines`).

ghost use Rattle.std.specs.Prelude.{◌≡◌, ◌++◌, ◌+◌, ◌≤◌, ◌<◌, OnOk, IfOk, map, length};
ghost use Rattle.std.specs.List.{All, flat_map};
ghost use Rattle.mari_publish.specs.Lines.{demand_lines, opening_lines, market_lines, market_lines_by, ending_lines, full_lines, block_lines, closing_lines_by, published_in as published_of, unpublished_in as unpublished_of};
ghost use Rattle.mari_lines.specs.Ranges.{InRange, IsMoney, IsMoneyLine, IsAmountLine};
ghost use Rattle.mari_publish.specs.Ranges.{BlockFits, EndingFits, FullFits, HasText, MarketFits, TotalsFit};
ghost use Rattle.mari_publish.specs.Texts.{text_of_lines, head_text_of, block_text_of, total_text_of, text_of};
ghost use Rattle.mari_lines.specs.declared.line.Line.TheVariants as line;

mod tree;

use crate::publication::{Block, FullBlock, Publication};
use mari_lines::{
    AmountLine, BidLine, BorderLine, MoneyLine, ZoneLine, put_bid, put_border, put_demand,
    put_done, put_end, put_head, put_operator, put_provider, put_run, put_total_operator,
    put_total_provider, put_unpublished, put_welfare, put_zone,
};
use mari_units::{MOST_DEMANDS, MOST_RUNS, Memory, Name};
use std::alloc::Global;
pub use tree::put_tree_lines;

/// Appends the zones' lines.
fn put_zones(alloc: Global, out: &mut Vec<u8>, zones: &[ZoneLine]) -> Result<(), Memory>
    ensures { OnOk result (out.new.items ≡ out.old.items ++ text_of_lines (map line.Zone zones.now)) }
{
    for zone in zones {
        put_zone(alloc, out, zone)?;
    }
    Ok(())
}

/// Appends the borders' lines.
fn put_borders(alloc: Global, out: &mut Vec<u8>, borders: &[BorderLine]) -> Result<(), Memory>
    requires { All (λ b. IsMoney b.rent) borders.now }
    ensures { OnOk result (out.new.items ≡ out.old.items ++ text_of_lines (map line.Border borders.now)) }
{
    for border in borders {
        put_border(alloc, out, border)?;
    }
    Ok(())
}

/// Appends the bids' lines.
fn put_bids(alloc: Global, out: &mut Vec<u8>, bids: &[BidLine]) -> Result<(), Memory>
    ensures { OnOk result (out.new.items ≡ out.old.items ++ text_of_lines (map line.Bid bids.now)) }
{
    for bid in bids {
        put_bid(alloc, out, bid)?;
    }
    Ok(())
}

/// Appends the lines of a run's operators.
fn put_operators(alloc: Global, out: &mut Vec<u8>, operators: &[MoneyLine]) -> Result<(), Memory>
    requires { All IsMoneyLine operators.now }
    ensures { OnOk result (out.new.items ≡ out.old.items ++ text_of_lines (map line.Operator operators.now)) }
{
    for operator in operators {
        put_operator(alloc, out, operator)?;
    }
    Ok(())
}

/// Appends the lines of a run's providers.
fn put_providers(alloc: Global, out: &mut Vec<u8>, providers: &[AmountLine]) -> Result<(), Memory>
    requires { All IsAmountLine providers.now }
    ensures { OnOk result (out.new.items ≡ out.old.items ++ text_of_lines (map line.Provider providers.now)) }
{
    for provider in providers {
        put_provider(alloc, out, provider)?;
    }
    Ok(())
}

/// Appends the lines of the operators' totals.
fn put_total_operators(
    alloc: Global,
    out: &mut Vec<u8>,
    operators: &[MoneyLine],
) -> Result<(), Memory>
    requires { All IsMoneyLine operators.now }
    ensures { OnOk result (out.new.items ≡ out.old.items ++ text_of_lines (map line.TotalOperator operators.now)) }
{
    for operator in operators {
        put_total_operator(alloc, out, operator)?;
    }
    Ok(())
}

/// Appends the lines of the providers' totals.
fn put_total_providers(
    alloc: Global,
    out: &mut Vec<u8>,
    providers: &[AmountLine],
) -> Result<(), Memory>
    requires { All IsAmountLine providers.now }
    ensures { OnOk result (out.new.items ≡ out.old.items ++ text_of_lines (map line.TotalProvider providers.now)) }
{
    for provider in providers {
        put_total_provider(alloc, out, provider)?;
    }
    Ok(())
}

/// Appends the demands' lines, numbered from 1 on.
fn put_demands(alloc: Global, out: &mut Vec<u8>, demands: &[u32]) -> Result<(), Memory>
    requires { length demands.now ≤ MOST_DEMANDS }
    ensures { OnOk result (out.new.items ≡ out.old.items ++ text_of_lines (demand_lines 1 demands.now)) }
{
    for (i, mw) in demands.iter().enumerate() {
        put_demand(alloc, out, i as u32 + 1, *mw)?;
    }
    Ok(())
}

/// Appends the lines of zones, borders, bids and demands, which are numbered from 1 on.
pub fn put_market_lines(
    alloc: Global,
    out: &mut Vec<u8>,
    zones: &[ZoneLine],
    borders: &[BorderLine],
    bids: &[BidLine],
    demands: &[u32],
) -> Result<(), Memory>
    requires rents { All (λ b. IsMoney b.rent) borders.now }
    requires demands { length demands.now ≤ MOST_DEMANDS }
    ensures { OnOk result (out.new.items ≡ out.old.items ++ text_of_lines (market_lines_by zones.now borders.now bids.now demands.now)) }
{
    put_zones(alloc, out, zones)?;
    put_borders(alloc, out, borders)?;
    put_bids(alloc, out, bids)?;
    put_demands(alloc, out, demands)
}

/// Appends a block's lines of zones, borders, bids and demands.
pub fn put_market(alloc: Global, out: &mut Vec<u8>, block: &FullBlock) -> Result<(), Memory>
    requires { MarketFits block.now }
    ensures { OnOk result (out.new.items ≡ out.old.items ++ text_of_lines (market_lines block.now)) }
{
    put_market_lines(
        alloc,
        out,
        block.zones.as_slice(),
        block.borders.as_slice(),
        block.bids.as_slice(),
        block.demands.as_slice(),
    )
}

/// Appends the two lines that a block begins with.
pub fn put_opening(alloc: Global, out: &mut Vec<u8>, block: &FullBlock) -> Result<(), Memory>
    ensures { OnOk result (out.new.items ≡ out.old.items ++ text_of_lines (opening_lines block.now)) }
{
    put_run(alloc, out, block.heading)?;
    put_welfare(alloc, out, block.welfare)
}

/// Appends a block's lines after its tree.
pub fn put_ending(alloc: Global, out: &mut Vec<u8>, block: &FullBlock) -> Result<(), Memory>
    requires { EndingFits block.now }
    ensures { OnOk result (out.new.items ≡ out.old.items ++ text_of_lines (ending_lines block.now)) }
{
    put_operators(alloc, out, block.operators.as_slice())?;
    put_providers(alloc, out, block.providers.as_slice())?;
    put_end(alloc, out, block.heading.run)
}

/// Appends the lines of a published block.
fn put_full(alloc: Global, out: &mut Vec<u8>, block: &FullBlock) -> Result<(), Memory>
    requires { FullFits block.now }
    ensures { OnOk result (out.new.items ≡ out.old.items ++ text_of_lines (full_lines block.now)) }
{
    put_opening(alloc, out, block)?;
    put_market(alloc, out, block)?;
    put_tree_lines(alloc, out, block.tree.as_slice())?;
    put_ending(alloc, out, block)
}

/// Appends the lines of a block, published or not.
fn put_block(alloc: Global, out: &mut Vec<u8>, block: &Block) -> Result<(), Memory>
    requires { BlockFits block.now }
    ensures { OnOk result (out.new.items ≡ out.old.items ++ block_text_of block.now) }
{
    match block {
        Block::Published(full) => put_full(alloc, out, full),
        Block::Unpublished(heading, count) => put_unpublished(alloc, out, *heading, *count),
    }
}

/// Appends the lines of all blocks.
fn put_blocks(alloc: Global, out: &mut Vec<u8>, blocks: &[Block]) -> Result<(), Memory>
    requires { All BlockFits blocks.now }
    ensures { OnOk result (out.new.items ≡ out.old.items ++ text_of_lines (flat_map block_lines blocks.now)) }
{
    for block in blocks {
        put_block(alloc, out, block)?;
    }
    Ok(())
}

/// How many blocks are published.
fn published_in(blocks: &[Block]) -> u32
    requires { length blocks.now ≤ MOST_RUNS }
    ensures { result ≡ published_of blocks.now }
{
    let mut count = 0;
    for block in blocks {
        if matches!(block, Block::Published(_)) {
            count += 1;
        }
    }
    count
}

/// How many are not.
#[tactic(auto, using(crate::proofs::Counts::both_kinds))]
fn unpublished_in(blocks: &[Block]) -> u32
    requires { length blocks.now ≤ MOST_RUNS }
    ensures { result ≡ unpublished_of blocks.now }
{
    blocks.len() as u32 - published_in(blocks)
}

/// Appends the lines after the last block, of a day with these numbers of published and of other blocks.
fn put_closing(
    alloc: Global,
    out: &mut Vec<u8>,
    operators: &[MoneyLine],
    providers: &[AmountLine],
    published: u32,
    unpublished: u32,
) -> Result<(), Memory>
    requires operators { All IsMoneyLine operators.now }
    requires providers { All IsAmountLine providers.now }
    ensures { OnOk result (out.new.items ≡ out.old.items ++ text_of_lines (closing_lines_by operators.now providers.now published unpublished)) }
{
    put_total_operators(alloc, out, operators)?;
    put_total_providers(alloc, out, providers)?;
    put_done(alloc, out, published, unpublished)
}

/// Appends those of a publication.
fn put_totals(alloc: Global, out: &mut Vec<u8>, publication: &Publication) -> Result<(), Memory>
    requires { TotalsFit publication.now }
    ensures { OnOk result (out.new.items ≡ out.old.items ++ total_text_of publication.now) }
{
    let blocks = publication.blocks.as_slice();
    put_closing(
        alloc,
        out,
        publication.operators.as_slice(),
        publication.providers.as_slice(),
        published_in(blocks),
        unpublished_in(blocks),
    )
}

/// The text of the first line.
pub fn head_text(alloc: Global, date: &Name, quarters: u32, budget: u32) -> Result<Vec<u8>, Memory>
    requires { InRange (line.Head date.now quarters budget) }
    ensures { IfOk result (λ text. text.items ≡ head_text_of date.now quarters budget) }
{
    let mut out = Vec::new(alloc);
    put_head(alloc, &mut out, date, quarters, budget)?;
    Ok(out)
}

/// The text of a block.
pub fn block_text(alloc: Global, block: &Block) -> Result<Vec<u8>, Memory>
    requires { BlockFits block.now }
    ensures { IfOk result (λ text. text.items ≡ block_text_of block.now) }
{
    let mut out = Vec::new(alloc);
    put_block(alloc, &mut out, block)?;
    Ok(out)
}

/// The text after the last block of a publication.
pub fn total_text(alloc: Global, publication: &Publication) -> Result<Vec<u8>, Memory>
    requires { TotalsFit publication.now }
    ensures { IfOk result (λ text. text.items ≡ total_text_of publication.now) }
{
    let mut out = Vec::new(alloc);
    put_totals(alloc, &mut out, publication)?;
    Ok(out)
}

/// The same text by what it says, for a day that isn't held as a publication: the totals, and how many of its blocks
/// are published, and how many are not.
pub fn closing_text(
    alloc: Global,
    operators: &[MoneyLine],
    providers: &[AmountLine],
    published: u32,
    unpublished: u32,
) -> Result<Vec<u8>, Memory>
    requires operators { All IsMoneyLine operators.now }
    requires providers { All IsAmountLine providers.now }
    ensures { IfOk result (λ text. text.items ≡ text_of_lines (closing_lines_by operators.now providers.now published unpublished)) }
{
    let mut out = Vec::new(alloc);
    put_closing(
        alloc,
        &mut out,
        operators,
        providers,
        published,
        unpublished,
    )?;
    Ok(out)
}

/// The text of a publication: that of its first line, of its blocks in their order, and of the totals.
#[tactic(auto, using(crate::proofs::Parts::text_of_blocks))]
pub fn write_text(alloc: Global, publication: &Publication) -> Result<Vec<u8>, Memory>
    requires { HasText publication.now }
    ensures text { IfOk result (λ text. text.items ≡ text_of publication.now) }
    ensures parts { IfOk result (λ text. text.items ≡ head_text_of publication.now.date publication.now.quarters publication.now.budget
        ++ (flat_map block_text_of publication.now.blocks ++ total_text_of publication.now)) }
{
    let mut out = Vec::new(alloc);
    put_head(
        alloc,
        &mut out,
        &publication.date,
        publication.quarters,
        publication.budget,
    )?;
    put_blocks(alloc, &mut out, publication.blocks.as_slice())?;
    put_totals(alloc, &mut out, publication)?;
    Ok(out)
}
