//! One run of a day: its market is made, an answer of it is found, and its block is made.

ghost use Rattle.std.specs.Prelude.{◌≡◌, ◌≤◌, List, IfOk, length};
ghost use Rattle.mari_market.specs.Clearing.{IsBudget};
ghost use Rattle.mari_remain.specs.Accepted.{IsAccepted};
ghost use Rattle.mari_progress.specs.After.{run_after};
ghost use Rattle.mari_progress.specs.Progress.{IsProgress};
ghost use Rattle.mari_day.specs.Dated.{IsDated};
ghost use Rattle.mari_reach_day.specs.declared.block.ReachBlock.{ReachBlock as PrintedReach};
ghost use Rattle.mari_reach_day.specs.Ranges.{ReachFits};
ghost use Rattle.mari_reach_day.specs.Reach.{answered, blocks_of};
ghost use Rattle.mari_reach_day.specs.Steps.{IsReachDone};

use crate::block::ReachBlock;
use mari_day::published_run;
use mari_market::Clearing;
use mari_progress::{Progress, SettledRun};
use mari_reach_lines::Claim;
use mari_reach_text::gated_bids;
use mari_reached::{Answer, Found, reach};
use mari_remain::Books;
use mari_units::{Items, Memory};
use std::alloc::Global;

/// A run that is done.
#[derive(Drop)]
pub struct ReachDone {
    /// Its block.
    pub block: ReachBlock,
    /// What it adds to the day.
    pub settled: SettledRun,
}

/// What an answer found, and what it says of that.
fn claimed(answer: Answer) -> (Found, Claim)
    ensures { answered result.1 result.0 ≡ answer }
{
    match answer {
        Answer::First(found) => (found, Claim::First),
        Answer::Within(found, gap) => (found, Claim::Within(gap)),
    }
}

/// Makes the market of a run after the blocks so far, finds an answer of it within a budget of nodes, and makes its block.
pub fn run_reached(
    alloc: Global,
    books: &Books,
    run: u32,
    budget: u32,
    progress: &Progress,
) -> Result<ReachDone, Memory>
    // The books, and what is kept of the blocks before this run.
    requires accepted { IsAccepted books.now }
    requires dated { IsDated books.now }
    requires last { run ≤ length books.now.runs.runs }
    requires stands { (blocks : List PrintedReach) × IsProgress books.now (blocks_of blocks) progress.now × (run ≡ run_after (blocks_of blocks)) }
    requires budget { IsBudget budget }

    // The block, whatever blocks these are.
    ensures done { (blocks : List PrintedReach) → IsProgress books.now (blocks_of blocks) progress.now → run ≡ run_after (blocks_of blocks)
        → IfOk result (IsReachDone books.now budget blocks) }
    ensures fits { IfOk result (λ done. ReachFits done.block) }
{
    let made = progress.market_of(alloc, books, run)?;
    let answer = reach(alloc, &made.market, budget)?;
    let gated = gated_bids(alloc, &books.links, made.bids.as_slice())?;
    let (found, claim) = claimed(answer);
    let Found {
        activation,
        welfare,
        tree,
    } = found;
    let clearing = Clearing {
        activation,
        welfare,
        tree: Items::of(Vec::new(alloc)),
    };
    let also = progress.also(books, run);
    let done = published_run(alloc, books, run, made, clearing, also)?;
    Ok(ReachDone {
        block: ReachBlock {
            block: done.block,
            claim,
            tree,
            gated: Items::of(gated),
        },
        settled: done.settled,
    })
}
