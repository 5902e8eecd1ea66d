//! The check of a block.

ghost use Rattle.std.specs.Prelude.{◌≤◌, IfOk, IfSome, option_map};
ghost use Rattle.mari_market.specs.Price.{ArePrices};
ghost use Rattle.mari_remain.specs.Accepted.{IsAccepted};
ghost use Rattle.mari_progress.specs.Runs.{IsMarketOf};
ghost use Rattle.mari_reach_lines.specs.Ranges.{IsClaim};
ghost use Rattle.mari_reach_check.specs.Faults.{ExaminesReach};

use crate::tree::examine_named;
use mari_check::{BeforeTree, Examined, Fault, before_tree, reported_ledger};
use mari_market::Prices;
use mari_publish::FullBlock;
use mari_reach_lines::Claim;
use mari_reach_text::{NamedBlock, NamedItem};
use mari_remain::{Books, RunMarket};
use mari_units::{Items, Memory};
use std::alloc::Global;

/// What is found of the parts of a block, as `examine_block` says it.
fn examine_parts(
    alloc: Global,
    books: &Books,
    run: u32,
    made: &RunMarket,
    block: &FullBlock,
    claim: Claim,
    tree: Items<NamedItem>,
    also: Option<&Prices>,
    budget: u32,
) -> Result<Examined, Memory>
    requires accepted { IsAccepted books.now }
    requires run { 1 ≤ run }
    requires made { IsMarketOf books.now made.now }
    requires claim { IsClaim claim }
    requires also { IfSome also (λ scheduled. ArePrices made.now.market scheduled.now.cents) }
    ensures { IfOk result (ExaminesReach books.now run made.now (option_map (λ scheduled. scheduled.now.cents) also.entry) budget
        (record { block = block.now; claim = claim; tree = tree })) }
{
    let (activation, prices) = match before_tree(alloc, books, run, made, block)? {
        BeforeTree::Faulty(fault) => return Ok(Examined::Faulty(fault)),
        BeforeTree::Sound { activation, prices } => (activation, prices),
    };
    let welfare = block.welfare;
    let found = examine_named(
        alloc,
        books,
        made,
        &activation,
        welfare,
        claim,
        tree,
        budget,
    )?;
    if let Some(fault) = found.fault() {
        drop(prices);
        drop(activation);
        return Ok(Examined::Faulty(fault));
    }
    match reported_ledger(alloc, books, made, block, &prices, &activation, also)? {
        Some(ledger) => Ok(Examined::Sound {
            activation,
            prices,
            ledger,
        }),
        None => {
            drop(prices);
            drop(activation);
            Ok(Examined::Faulty(Fault::Ledger))
        }
    }
}

/// What is found of the block of a run, counted from 1, with this market, whose quarter has these scheduled prices, or none:
/// its least fault, or that it has none and what it states of its run.
///
/// The faults are those of a block of the first form but for the tree's: a name that is no free gate's or no zone's, a price
/// outside of the box, a branch in a void state, a part missing or left over, or more items than the budget (9); else a leaf
/// that doesn't hold (10), for the activation's gate word at its welfare where the block says that it is the first, and else
/// for the word that closes every gate at the welfare and the gap.
pub fn examine_block(
    alloc: Global,
    books: &Books,
    run: u32,
    made: &RunMarket,
    named: NamedBlock,
    also: Option<&Prices>,
    budget: u32,
) -> Result<Examined, Memory>
    requires accepted { IsAccepted books.now }
    requires run { 1 ≤ run }
    requires made { IsMarketOf books.now made.now }
    requires claim { IsClaim named.claim }
    requires also { IfSome also (λ scheduled. ArePrices made.now.market scheduled.now.cents) }
    ensures { IfOk result (ExaminesReach books.now run made.now (option_map (λ scheduled. scheduled.now.cents) also.entry) budget named) }
{
    let NamedBlock { block, claim, tree } = named;
    let examined = examine_parts(alloc, books, run, made, &block, claim, tree, also, budget);
    drop(block);
    examined
}
