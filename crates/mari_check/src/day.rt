//! The check of a day, block by block.

ghost use Rattle.std.specs.Prelude.{◌≡◌, ◌≤◌, ◌+◌, ◌++◌, ◌∷◌, [], List, None, Ok, IfOk, OnErr, IsTrue, ◌↔◌, length};
ghost use Rattle.mari_remain.specs.Accepted.{IsAccepted};
ghost use Rattle.mari_progress.specs.After.{run_after};
ghost use Rattle.mari_progress.specs.Progress.{published_block};
ghost use Rattle.mari_progress.specs.Totals.{HasHead};
ghost use Rattle.mari_check.specs.Checked.{FindsHead, IsChecked, TestsBlock, unpublished_block};
ghost use Rattle.mari_check.specs.Day.{FillsBudget, IsFreeIn, IsNextHeading};
ghost use Rattle.mari_check.specs.Faults.{Finds, FindsNumber};
ghost use Rattle.mari_publish.specs.declared.publication.Block.{Block as PrintedBlock};

use crate::block::{Examined, examine_block, is_same_heading};
use crate::fault::Fault;
use mari_progress::{Progress, SettledRun, heading, run_count};
use mari_publish::{Block, FullBlock, Heading};
use mari_remain::Books;
use mari_units::{MOST_RUNS, Memory, Name};
use std::alloc::Global;

/// What the test of a published block comes to.
#[derive(Drop)]
pub enum TestedBlock {
    /// It has faults: the least of them.
    Faulty(Fault),
    /// It has none: what it adds to its day.
    Sound(SettledRun),
}

/// What the check of a day keeps between its blocks.
#[derive(Drop)]
pub struct DayCheck {
    /// The budget of nodes that the head of the publication states.
    pub budget: u32,
    /// What a day keeps of the blocks so far.
    pub progress: Progress,
    /// How many of the blocks so far aren't published.
    pub unpublished: u32,
}

impl DayCheck {
    /// What is kept before the first block.
    pub fn start(alloc: Global, books: &Books) -> Result<DayCheck, Memory>
        requires accepted { IsAccepted books.now }
        ensures { IfOk result (IsChecked books.now []) }
    {
        let progress = Progress::start(alloc, books)?;
        Ok(DayCheck {
            budget: 0,
            progress,
            unpublished: 0,
        })
    }

    /// Takes the budget, and reports fault 1 exactly where the date or the quarters aren't those of the books. It is
    /// called once, before any block.
    pub fn head(&mut self, books: &Books, date: &Name, quarters: u32, budget: u32) -> Option<u8>
        requires { IsChecked books.now [] self.old }
        ensures finds { FindsHead (HasHead books.now date.now quarters) result }
        ensures stands { IsChecked books.now [] self.new }
        ensures budget { self.new.budget ≡ budget }
    {
        self.budget = budget;
        if date.bytes() != books.date.bytes() || quarters != books.quarters {
            return Some(Fault::Heading.number());
        }
        None
    }

    /// The run after the blocks so far, counted from 1; there may be none of that number.
    pub fn next_run(&self) -> u32
        requires { self.now.progress.published + self.now.unpublished ≤ MOST_RUNS }
        ensures { result ≡ self.now.progress.published + self.now.unpublished + 1 }
    {
        self.progress.published + self.unpublished + 1
    }

    /// Tests the published block of a run.
    fn test_published(
        &self,
        alloc: Global,
        books: &Books,
        run: u32,
        block: &FullBlock,
    ) -> Result<TestedBlock, Memory>
        requires accepted { IsAccepted books.now }
        requires last { run ≤ length books.now.runs.runs }
        requires stands { (blocks : List PrintedBlock) × IsChecked books.now blocks self.now × (run ≡ run_after blocks) }
        ensures { (blocks : List PrintedBlock) → IsChecked books.now blocks self.now → run ≡ run_after blocks
            → IfOk result (TestsBlock books.now self.now.budget blocks block.now) }
    {
        let made = self.progress.market_of(alloc, books, run)?;
        let also = self.progress.also(books, run);
        let budget = Some(self.budget);
        match examine_block(alloc, books, run, &made, block, also, budget)? {
            Examined::Faulty(fault) => Ok(TestedBlock::Faulty(fault)),
            Examined::Sound {
                activation,
                prices,
                ledger,
            } => Ok(TestedBlock::Sound(SettledRun {
                made,
                activation,
                prices,
                ledger,
            })),
        }
    }

    /// The least fault of a published block, which is added where it has none.
    fn take_published(
        &mut self,
        alloc: Global,
        books: &Books,
        block: &FullBlock,
    ) -> Result<Option<Fault>, Memory>
        requires accepted { IsAccepted books.now }
        requires stands { (blocks : List PrintedBlock) × IsChecked books.now blocks self.old }
        ensures finds { (blocks : List PrintedBlock) → IsChecked books.now blocks self.old
            → IfOk result (Finds (IsFreeIn books.now self.old.budget blocks (published_block block.now))) }
        ensures stands { (blocks : List PrintedBlock) → IsChecked books.now blocks self.old → result ≡ Ok None
            → IsChecked books.now (blocks ++ published_block block.now ∷ []) self.new }
        ensures budget { self.new.budget ≡ self.old.budget }
        ensures same { OnErr result (self.new ≡ self.old) }
    {
        let run = self.next_run();
        if run > run_count(books) {
            return Ok(Some(Fault::Heading));
        }
        match self.test_published(alloc, books, run, block)? {
            TestedBlock::Faulty(fault) => Ok(Some(fault)),
            TestedBlock::Sound(settled) => {
                self.progress.add(books, run, settled);
                Ok(None)
            }
        }
    }

    /// Whether a heading is that of the run after the blocks so far.
    fn is_next(&self, books: &Books, reported: Heading) -> bool
        requires accepted { IsAccepted books.now }
        requires stands { (blocks : List PrintedBlock) × IsChecked books.now blocks self.now }
        ensures { (blocks : List PrintedBlock) → IsChecked books.now blocks self.now → (IsTrue result ↔ IsNextHeading books.now blocks reported) }
    {
        let run = self.next_run();
        if run > run_count(books) {
            return false;
        }
        is_same_heading(reported, heading(books, run))
    }

    /// The least fault of an unpublished block.
    fn test_unpublished(&self, books: &Books, reported: Heading, count: u32) -> Option<Fault>
        requires accepted { IsAccepted books.now }
        requires stands { (blocks : List PrintedBlock) × IsChecked books.now blocks self.now }
        ensures { (blocks : List PrintedBlock) → IsChecked books.now blocks self.now
            → Finds (IsFreeIn books.now self.now.budget blocks (unpublished_block reported count)) result }
    {
        if !self.is_next(books, reported) {
            return Some(Fault::Heading);
        }
        if !fills_budget(self.budget, count) {
            return Some(Fault::Tree);
        }
        None
    }

    /// The least fault of an unpublished block, which is counted where it has none.
    fn take_unpublished(&mut self, books: &Books, reported: Heading, count: u32) -> Option<Fault>
        requires accepted { IsAccepted books.now }
        requires stands { (blocks : List PrintedBlock) × IsChecked books.now blocks self.old }
        ensures finds { (blocks : List PrintedBlock) → IsChecked books.now blocks self.old
            → Finds (IsFreeIn books.now self.old.budget blocks (unpublished_block reported count)) result }
        ensures stands { (blocks : List PrintedBlock) → IsChecked books.now blocks self.old → result ≡ None
            → IsChecked books.now (blocks ++ unpublished_block reported count ∷ []) self.new }
        ensures budget { self.new.budget ≡ self.old.budget }
    {
        match self.test_unpublished(books, reported, count) {
            Some(fault) => Some(fault),
            None => {
                self.unpublished += 1;
                None
            }
        }
    }

    /// The least fault of a block of either kind.
    fn take(&mut self, alloc: Global, books: &Books, block: &Block) -> Result<Option<Fault>, Memory>
        requires accepted { IsAccepted books.now }
        requires stands { (blocks : List PrintedBlock) × IsChecked books.now blocks self.old }
        ensures finds { (blocks : List PrintedBlock) → IsChecked books.now blocks self.old
            → IfOk result (Finds (IsFreeIn books.now self.old.budget blocks block.now)) }
        ensures stands { (blocks : List PrintedBlock) → IsChecked books.now blocks self.old → result ≡ Ok None
            → IsChecked books.now (blocks ++ block.now ∷ []) self.new }
        ensures budget { self.new.budget ≡ self.old.budget }
        ensures same { OnErr result (self.new ≡ self.old) }
    {
        match block {
            Block::Published(full) => self.take_published(alloc, books, full),
            Block::Unpublished(reported, count) => Ok(self.take_unpublished(
                books, *reported, *count,
            )),
        }
    }

    /// The number of the least fault of the block after those so far, or none exactly where it has none; the check
    /// then stands for one block more. No fault was found before. Out of memory, the block can be checked again.
    pub fn block(
        &mut self,
        alloc: Global,
        books: &Books,
        block: &Block,
    ) -> Result<Option<u8>, Memory>
        requires accepted { IsAccepted books.now }
        requires stands { (blocks : List PrintedBlock) × IsChecked books.now blocks self.old }
        ensures finds { (blocks : List PrintedBlock) → IsChecked books.now blocks self.old
            → IfOk result (FindsNumber (IsFreeIn books.now self.old.budget blocks block.now)) }
        ensures stands { (blocks : List PrintedBlock) → IsChecked books.now blocks self.old → result ≡ Ok None
            → IsChecked books.now (blocks ++ block.now ∷ []) self.new }
        ensures budget { self.new.budget ≡ self.old.budget }

        // Out of memory, what is kept is as before.
        ensures same { OnErr result (self.new ≡ self.old) }
    {
        match self.take(alloc, books, block)? {
            Some(fault) => Ok(Some(fault.number())),
            None => Ok(None),
        }
    }
}

/// Whether a number of nodes fills the budget, so that two more are above it.
fn fills_budget(budget: u32, count: u32) -> bool
    ensures { IsTrue result ↔ FillsBudget budget count }
{
    count <= budget && budget - count < 2
}
