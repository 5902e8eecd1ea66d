//! The check of a day of the second form, block by block.

ghost use Rattle.std.specs.Prelude.{◌≡◌, ◌≤◌, ◌+◌, ◌++◌, ◌∷◌, [], List, None, Ok, IfOk, OnErr, length};
ghost use Rattle.mari_remain.specs.Accepted.{IsAccepted};
ghost use Rattle.mari_progress.specs.After.{run_after};
ghost use Rattle.mari_progress.specs.Totals.{HasHead};
ghost use Rattle.mari_check.specs.Faults.{Finds};
ghost use Rattle.mari_reach_lines.specs.Ranges.{IsClaim};
ghost use Rattle.mari_reach_check.specs.Day.{EndsAs, IsReachChecked, IsReachFreeIn, all_printed};
ghost use Rattle.mari_reach_check.specs.Tested.{HeadStates, TestsReach};
ghost use Rattle.mari_reach_text.specs.declared.named.NamedBlock.{NamedBlock as TheBlock};

use crate::block::examine_block;
use mari_check::{Examined, Fault, has_totals};
use mari_progress::{Progress, SettledRun, run_count};
use mari_publish::{AmountLine, MoneyLine};
use mari_reach_text::{NamedBlock, one_if_first};
use mari_remain::Books;
use mari_units::{MOST_RUNS, Memory, Name};
use std::alloc::Global;

/// What the test of a block comes to.
#[derive(Drop)]
pub enum Tested {
    /// It has faults: the least of them.
    Faulty(Fault),
    /// It has none: what it adds to its day.
    Sound(SettledRun),
}

/// How a day ends whose blocks have no fault.
#[derive(Clone, Copy, Drop)]
pub enum Ending {
    /// The block of this run is missing.
    Missing(u32),
    /// The totals are other sums.
    OtherTotals,
    /// All is as it should be: so many runs have the first activation, and so many one within a gap.
    Whole(u32, u32),
}

/// What the check of a day keeps between its blocks.
#[derive(Drop)]
pub struct ReachDayCheck {
    /// The budget of nodes that the head states.
    pub budget: u32,
    /// What a day keeps of the blocks so far.
    pub progress: Progress,
    /// How many of the blocks so far state the first activation.
    pub first: u32,
}

impl ReachDayCheck {
    /// What is kept before the first block.
    pub fn start(alloc: Global, books: &Books) -> Result<ReachDayCheck, Memory>
        requires accepted { IsAccepted books.now }
        ensures { IfOk result (IsReachChecked books.now []) }
    {
        let progress = Progress::start(alloc, books)?;
        Ok(ReachDayCheck {
            budget: 0,
            progress,
            first: 0,
        })
    }

    /// Takes the budget, and reports a fault of the heading exactly where the date or the quarters aren't those of the
    /// books. It is called once, before any block.
    pub fn head(&mut self, books: &Books, date: &Name, quarters: u32, budget: u32) -> Option<Fault>
        requires { IsReachChecked books.now [] self.old }
        ensures finds { HeadStates (HasHead books.now date.now quarters) result }
        ensures stands { IsReachChecked books.now [] self.new }
        ensures budget { self.new.budget ≡ budget }
    {
        self.budget = budget;
        if date.bytes() != books.date.bytes() || quarters != books.quarters {
            return Some(Fault::Heading);
        }
        None
    }

    /// The run after the blocks so far, counted from 1; there may be none of that number.
    pub fn next_run(&self) -> u32
        requires { self.now.progress.published ≤ MOST_RUNS }
        ensures { result ≡ self.now.progress.published + 1 }
    {
        self.progress.published + 1
    }

    /// Tests the block of a run.
    fn test(
        &self,
        alloc: Global,
        books: &Books,
        run: u32,
        block: NamedBlock,
    ) -> Result<Tested, Memory>
        requires accepted { IsAccepted books.now }
        requires last { run ≤ length books.now.runs.runs }
        requires claim { IsClaim block.claim }
        requires stands { (blocks : List TheBlock) × IsReachChecked books.now blocks self.now × (run ≡ run_after (all_printed blocks)) }
        ensures { (blocks : List TheBlock) → IsReachChecked books.now blocks self.now → run ≡ run_after (all_printed blocks)
            → IfOk result (TestsReach books.now self.now.budget blocks block) }
    {
        let made = self.progress.market_of(alloc, books, run)?;
        let also = self.progress.also(books, run);
        match examine_block(alloc, books, run, &made, block, also, self.budget)? {
            Examined::Faulty(fault) => Ok(Tested::Faulty(fault)),
            Examined::Sound {
                activation,
                prices,
                ledger,
            } => Ok(Tested::Sound(SettledRun {
                made,
                activation,
                prices,
                ledger,
            })),
        }
    }

    /// The least fault of the block after those so far, or none exactly where it has none; the check then stands for one
    /// block more. No fault was found before.
    pub fn block(
        &mut self,
        alloc: Global,
        books: &Books,
        block: NamedBlock,
    ) -> Result<Option<Fault>, Memory>
        requires accepted { IsAccepted books.now }
        requires claim { IsClaim block.claim }
        requires stands { (blocks : List TheBlock) × IsReachChecked books.now blocks self.old }
        ensures finds { (blocks : List TheBlock) → IsReachChecked books.now blocks self.old
            → IfOk result (Finds (IsReachFreeIn books.now self.old.budget blocks block)) }
        ensures stands { (blocks : List TheBlock) → IsReachChecked books.now blocks self.old → result ≡ Ok None
            → IsReachChecked books.now (blocks ++ block ∷ []) self.new }
        ensures budget { self.new.budget ≡ self.old.budget }

        // Out of memory, what is kept is as before.
        ensures same { OnErr result (self.new ≡ self.old) }
    {
        let run = self.next_run();
        if run > run_count(books) {
            drop(block);
            return Ok(Some(Fault::Heading));
        }
        let count = one_if_first(block.claim);
        match self.test(alloc, books, run, block)? {
            Tested::Faulty(fault) => Ok(Some(fault)),
            Tested::Sound(settled) => {
                self.progress.add(books, run, settled);
                self.first += count;
                Ok(None)
            }
        }
    }

    /// How a day ends with these totals, whose first line and blocks have no fault.
    pub fn end(&self, books: &Books, operators: &[MoneyLine], providers: &[AmountLine]) -> Ending
        requires accepted { IsAccepted books.now }
        requires stands { (blocks : List TheBlock) × IsReachChecked books.now blocks self.now }
        ensures { (blocks : List TheBlock) → IsReachChecked books.now blocks self.now → EndsAs books.now blocks operators.now providers.now result }
    {
        if self.progress.published < run_count(books) {
            return Ending::Missing(self.next_run());
        }
        if !has_totals(books, &self.progress.totals, operators, providers) {
            return Ending::OtherTotals;
        }
        Ending::Whole(self.first, self.progress.published - self.first)
    }
}
