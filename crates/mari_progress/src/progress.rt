//! What a day keeps between its blocks.

ghost use Rattle.std.specs.Prelude.{◌≡◌, ◌≤◌, ◌++◌, ◌∷◌, [], List, None, Some, IfOk, IfSome, if◌then◌else◌, length, option_map};
ghost use Rattle.mari_market.specs.Price.{ArePrices};
ghost use Rattle.mari_publish.specs.declared.publication.Block.{Block as PrintedBlock};
ghost use Rattle.mari_publish.specs.declared.publication.FullBlock.{FullBlock as PrintedRun};
ghost use Rattle.mari_remain.specs.Accepted.{IsAccepted};
ghost use Rattle.mari_progress.specs.After.{also_after, market_after, run_after};
ghost use Rattle.mari_progress.specs.Progress.{IsProgress, kept_for as kept_prices, published_block};
ghost use Rattle.mari_progress.specs.Runs.{IsMarketOf, IsNextRun};

use mari_demands::Run;
use mari_market::{Activation, Prices};
use mari_remain::{Books, Remaining, RunMarket, run_entry};
use mari_settle::Ledger;
use mari_units::Memory;
use std::alloc::Global;

/// What is kept of a published scheduled block for the direct runs of its quarter.
#[derive(Drop)]
pub struct Scheduled {
    /// Its quarter hour, from 1.
    pub quarter: u32,
    /// Its published prices, one for each zone.
    pub prices: Prices,
}

/// What a published block adds to its day.
#[derive(Drop)]
pub struct SettledRun {
    /// The market of its run.
    pub made: RunMarket,
    /// The activation in that market.
    pub activation: Activation,
    /// The published prices, one for each zone.
    pub prices: Prices,
    /// The ledger of the run.
    pub ledger: Ledger,
}

/// What a day keeps between its blocks.
///
/// A block that isn't published changes nothing: what is kept then stands for one block more.
#[derive(Drop)]
pub struct Progress {
    /// What the blocks so far left of bids and borders.
    pub remaining: Remaining,
    /// The sums of their ledgers.
    pub totals: Ledger,
    /// The prices of the last published scheduled block, if there is one.
    pub scheduled: Option<Scheduled>,
    /// How many of the blocks are published.
    pub published: u32,
}

impl Progress {
    /// What is kept before the first block.
    pub fn start(alloc: Global, books: &Books) -> Result<Progress, Memory>
        requires { IsAccepted books.now }
        ensures { IfOk result (IsProgress books.now []) }
    {
        let remaining = Remaining::start(alloc, books)?;
        let totals = Ledger::start(alloc, &books.zones, &books.borders, &books.bids)?;
        Ok(Progress {
            remaining,
            totals,
            scheduled: None,
            published: 0,
        })
    }

    /// The market of the run after the blocks so far.
    pub fn market_of(&self, alloc: Global, books: &Books, run: u32) -> Result<RunMarket, Memory>
        requires accepted { IsAccepted books.now }
        requires last { run ≤ length books.now.runs.runs }
        requires after { (blocks : List PrintedBlock) × IsProgress books.now blocks self.now × (run ≡ run_after blocks) }
        ensures market { (blocks : List PrintedBlock) → IsProgress books.now blocks self.now → run ≡ run_after blocks
            → IfOk result (λ made. made ≡ market_after books.now blocks) }
        ensures of_books { IfOk result (IsMarketOf books.now) }
    {
        let made = self.remaining.market_of(alloc, books, run)?;
        Ok(made)
    }

    /// The scheduled prices of the run after the blocks so far: a direct run has those of the scheduled block of its
    /// quarter, if it is published.
    pub fn also(&self, books: &Books, run: u32) -> Option<&Prices>
        requires first { 1 ≤ run }
        requires last { run ≤ length books.now.runs.runs }
        ensures after { (blocks : List PrintedBlock) → IsProgress books.now blocks self.now → run ≡ run_after blocks
            → option_map (λ scheduled. scheduled.now.cents) result ≡ also_after books.now blocks }
        ensures prices { (blocks : List PrintedBlock) → IsProgress books.now blocks self.now
            → IfSome result (λ scheduled. ArePrices (market_after books.now blocks).market scheduled.now.cents) }
    {
        self.kept_for(run_entry(books, run))
    }

    /// The prices that are kept for a direct run of the same quarter.
    fn kept_for(&self, entry: Run) -> Option<&Prices>
        ensures { option_map (λ scheduled. scheduled.now.cents) result ≡ (if entry.direct then kept_prices entry.quarter self.now.scheduled else None) }
    {
        match &self.scheduled {
            Some(kept) if entry.direct && kept.quarter == entry.quarter => Some(&kept.prices),
            _ => None,
        }
    }

    /// Adds the published block of the run after the blocks so far.
    pub fn add(&mut self, books: &Books, run: u32, settled: SettledRun)
        requires accepted { IsAccepted books.now }
        requires last { run ≤ length books.now.runs.runs }
        requires next { (blocks : List PrintedBlock) × (block : PrintedRun) × IsProgress books.now blocks self.old × (run ≡ run_after blocks)
            × IsNextRun books.now blocks block settled }
        ensures { (blocks : List PrintedBlock) (block : PrintedRun) → IsProgress books.now blocks self.old → run ≡ run_after blocks
            → IsNextRun books.now blocks block settled
            → IsProgress books.now (blocks ++ published_block block ∷ []) self.new }
    {
        let SettledRun {
            made,
            activation,
            prices,
            ledger,
        } = settled;
        self.remaining.after(books, run, &made, &activation);
        drop(made);
        drop(activation);
        self.totals.add(&ledger);
        drop(ledger);
        self.published += 1;
        self.keep(run_entry(books, run), prices);
    }

    /// Keeps the prices of a scheduled run, in place of those of an earlier one.
    fn keep(&mut self, entry: Run, prices: Prices)
        ensures scheduled { self.new.scheduled ≡ (if entry.direct then self.old.scheduled else Some (record { quarter = entry.quarter; prices = prices })) }
        ensures remaining { self.new.remaining ≡ self.old.remaining }
        ensures totals { self.new.totals ≡ self.old.totals }
        ensures published { self.new.published ≡ self.old.published }
    {
        if !entry.direct {
            self.scheduled = Some(Scheduled {
                quarter: entry.quarter,
                prices,
            });
        }
    }
}
