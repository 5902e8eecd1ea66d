//! One run of a day, cleared island by island.

ghost use Rattle.std.specs.Prelude.{◌≡◌, ◌≤◌, List, IfOk, length};
ghost use Rattle.mari_market.specs.Clearing.{IsBudget};
ghost use Rattle.mari_remain.specs.Accepted.{IsAccepted};
ghost use Rattle.mari_progress.specs.After.{run_after};
ghost use Rattle.mari_progress.specs.Progress.{IsProgress};
ghost use Rattle.mari_day.specs.Dated.{IsDated};
ghost use Rattle.mari_split.specs.declared.split.SplitBlock.{SplitBlock as PrintedBlock};
ghost use Rattle.mari_split.specs.Split.{blocks_of};
ghost use Rattle.mari_split.specs.Steps.{IsSplitDone, SplitFits};

use crate::split::{SplitBlock, SplitRun};
use mari_day::published_run;
use mari_islands::{IslandsCleared, clear_islands, islands_of};
use mari_market::{Clearer, Clearing};
use mari_progress::{Progress, SettledRun, heading};
use mari_remain::Books;
use mari_units::{Items, Memory};
use std::alloc::Global;

/// A run that is done.
#[derive(Drop)]
pub struct SplitDone {
    /// Its block.
    pub block: SplitBlock,
    /// What it adds to the day, where it is published.
    pub settled: Option<SettledRun>,
}

/// Makes the market of a run after the blocks so far, clears its islands, each within the whole budget, and makes its
/// block.
pub fn run_split<C: Clearer>(
    alloc: Global,
    books: &Books,
    run: u32,
    budget: u32,
    progress: &Progress,
    clearer: &mut C,
) -> Result<SplitDone, Memory>
    // The books, and what is kept of the blocks before this run.
    requires accepted { IsAccepted books.now }
    requires dated { IsDated books.now }
    requires last { run ≤ length books.now.runs.runs }
    requires stands { (blocks : List PrintedBlock) × IsProgress books.now (blocks_of blocks) progress.now × (run ≡ run_after (blocks_of blocks)) }

    // What clears its islands.
    requires budget { IsBudget budget }
    requires ready { C.ready clearer.old }

    // The block, whatever blocks these are.
    ensures done { (blocks : List PrintedBlock) → IsProgress books.now (blocks_of blocks) progress.now → run ≡ run_after (blocks_of blocks)
        → IfOk result (IsSplitDone books.now budget blocks) }
    ensures fits { IfOk result (λ done. SplitFits done.block) }

    // The clearer may clear on.
    ensures ready { C.ready clearer.new }
{
    let made = progress.market_of(alloc, books, run)?;
    let islands = islands_of(alloc, &made.market)?;
    match clear_islands(alloc, &made.market, &islands, budget, clearer) {
        IslandsCleared::Published(joined, clearings) => {
            let clearing = Clearing {
                activation: joined.activation,
                welfare: joined.welfare,
                tree: Items::of(Vec::new(alloc)),
            };
            let also = progress.also(books, run);
            let done = published_run(alloc, books, run, made, clearing, also)?;
            let published = SplitRun {
                block: done.block,
                islands: Items::of(islands),
                clearings,
            };
            Ok(SplitDone {
                block: SplitBlock::Published(published),
                settled: Some(done.settled),
            })
        }
        IslandsCleared::Spent(island, spent) => {
            let count = spent.items.as_slice().len() as u32;
            drop(spent);
            drop(islands);
            drop(made);
            Ok(SplitDone {
                block: SplitBlock::Unpublished(heading(books, run), island + 1, count),
                settled: None,
            })
        }
        IslandsCleared::Memory => {
            drop(islands);
            drop(made);
            Err(Memory)
        }
    }
}
