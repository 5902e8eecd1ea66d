//! One run of a day: its market is made and cleared, and its block is made.

ghost use Rattle.std.specs.Prelude.{◌≡◌, ◌≤◌, List, IfOk, length};
ghost use Rattle.mari_publish.specs.Ranges.{BlockFits};
ghost use Rattle.mari_publish.specs.declared.publication.Block.{Block as PrintedBlock};
ghost use Rattle.mari_remain.specs.Accepted.{IsAccepted};
ghost use Rattle.mari_progress.specs.After.{run_after};
ghost use Rattle.mari_progress.specs.Progress.{IsProgress};
ghost use Rattle.mari_day.specs.Dated.{IsDated};
ghost use Rattle.mari_day.specs.Progress.{IsRunDone};
ghost use Rattle.mari_market.specs.Clearing.{IsBudget};

use crate::block::published_run;
use mari_market::{Cleared, Clearer};
use mari_progress::{Progress, SettledRun, heading};
use mari_publish::Block;
use mari_remain::Books;
use mari_units::Memory;
use std::alloc::Global;

/// A run that is done.
#[derive(Drop)]
pub struct RunDone {
    /// Its block.
    pub block: Block,
    /// What it adds to the day, where it is published.
    pub settled: Option<SettledRun>,
}

/// Makes the market of a run after the blocks so far, clears it, and makes its block.
pub fn run_done<C: Clearer>(
    alloc: Global,
    books: &Books,
    run: u32,
    budget: u32,
    progress: &Progress,
    clearer: &mut C,
) -> Result<RunDone, Memory>
    // The books, and what is kept of the blocks before this run.
    requires accepted { IsAccepted books.now }
    requires dated { IsDated books.now }
    requires last { run ≤ length books.now.runs.runs }
    requires stands { (blocks : List PrintedBlock) × IsProgress books.now blocks progress.now × (run ≡ run_after blocks) }

    // What clears it.
    requires budget { IsBudget budget }
    requires ready { C.ready clearer.old }

    // The block, whatever blocks these are.
    ensures done { (blocks : List PrintedBlock) → IsProgress books.now blocks progress.now → run ≡ run_after blocks
        → IfOk result (IsRunDone books.now budget blocks) }
    ensures fits { IfOk result (λ done. BlockFits done.block) }

    // The clearer may clear on.
    ensures ready { C.ready clearer.new }
{
    let made = progress.market_of(alloc, books, run)?;
    match clearer.clear(alloc, &made.market, budget) {
        Cleared::Published(clearing) => {
            let also = progress.also(books, run);
            let done = published_run(alloc, books, run, made, clearing, also)?;
            Ok(RunDone {
                block: Block::Published(done.block),
                settled: Some(done.settled),
            })
        }
        Cleared::Spent(spent) => {
            let count = spent.items.as_slice().len() as u32;
            drop(spent);
            drop(made);
            Ok(RunDone {
                block: Block::Unpublished(heading(books, run), count),
                settled: None,
            })
        }
        Cleared::Memory => {
            drop(made);
            Err(Memory)
        }
    }
}
