//! The verdict on a whole publication.

ghost use Rattle.std.specs.Prelude.{◌≡◌, ◌≤◌, ◌++◌, ◌∷◌, [], List, None, Ok, IfOk, IfSome, IsTrue, ◌↔◌, length};
ghost use Rattle.mari_publish.specs.declared.publication.Block.{Block as PrintedBlock};
ghost use Rattle.mari_publish.specs.declared.publication.Publication.{Publication as ThePublication};
ghost use Rattle.mari_remain.specs.Accepted.{IsAccepted};
ghost use Rattle.mari_progress.specs.Progress.{AreTotals};
ghost use Rattle.mari_progress.specs.Totals.{HasHead, HasTotals};
ghost use Rattle.mari_check.specs.Checked.{IsChecked};
ghost use Rattle.mari_check.specs.Verdicts.{BlockStates, HeadStates, IsVerdict};

use crate::day::DayCheck;
use crate::fault::Fault;
use crate::ledger::{are_money_lines, are_total_lines};
use mari_progress::run_count;
use mari_publish::{AmountLine, Block, MoneyLine, Publication};
use mari_remain::Books;
use mari_settle::Ledger;
use mari_units::{Memory, Name};
use std::alloc::Global;

/// A publication is valid, with its numbers of published runs and of others; or the first run that has a fault, and
/// the number of its least one. Run 0 is reported where the first line isn't that of the books, the first run without a
/// block where one is missing, the number after the last run where there is a block too many, and the last run, or 0
/// where there is none, where the totals are other sums.
#[derive(Clone, Copy, Debug, Drop, PartialEq, Eq)]
pub enum Verdict {
    /// Every run is as it should be.
    Valid {
        /// How many runs are published.
        published: u32,
        /// How many runs aren't.
        unpublished: u32,
    },
    /// A run has a fault.
    Invalid {
        /// The run that has it, counted from 1; 0 for the head, and for the totals of a day without runs.
        run: u32,
        /// The number of its least fault.
        fault: u8,
    },
}

/// Whether these lines are the sums over the published blocks, which are the ones that are kept.
pub fn has_totals(
    books: &Books,
    totals: &Ledger,
    operators: &[MoneyLine],
    providers: &[AmountLine],
) -> bool
    requires accepted { IsAccepted books.now }
    requires stands { (blocks : List PrintedBlock) × (length blocks ≤ length books.now.runs.runs) × AreTotals books.now blocks totals.now }
    ensures { (p : ThePublication) → AreTotals books.now p.blocks totals.now → p.operators ≡ operators.now → p.providers ≡ providers.now
        → (IsTrue result ↔ HasTotals books.now p) }
{
    let sums = totals.operators.as_slice();
    if !are_money_lines(operators, &books.zones.operators, sums) {
        return false;
    }
    are_total_lines(
        providers,
        &books.bids.providers,
        totals.providers.as_slice(),
    )
}

impl DayCheck {
    /// The verdict on a publication whose first line and blocks have no fault and that ends with these totals: a block
    /// may be missing, or the totals may be other sums. No fault was found before.
    pub fn end(&self, books: &Books, operators: &[MoneyLine], providers: &[AmountLine]) -> Verdict
        requires accepted { IsAccepted books.now }
        requires stands { (blocks : List PrintedBlock) × IsChecked books.now blocks self.now }
        ensures { (p : ThePublication) → HasHead books.now p.date p.quarters
            → p.budget ≡ self.now.budget → IsChecked books.now p.blocks self.now → p.operators ≡ operators.now → p.providers ≡ providers.now
            → IsVerdict books.now p result }
    {
        let runs = run_count(books);
        if self.progress.published + self.unpublished < runs {
            return Verdict::Invalid {
                run: self.next_run(),
                fault: Fault::Heading.number(),
            };
        }
        if !has_totals(books, &self.progress.totals, operators, providers) {
            return Verdict::Invalid {
                run: runs,
                fault: Fault::Totals.number(),
            };
        }
        Verdict::Valid {
            published: self.progress.published,
            unpublished: self.unpublished,
        }
    }

    /// The verdict where the first line isn't that of the books. It is taken once, before any block.
    pub(crate) fn head_verdict(
        &mut self,
        books: &Books,
        date: &Name,
        quarters: u32,
        budget: u32,
    ) -> Option<Verdict>
        requires { IsChecked books.now [] self.old }
        ensures states { (p : ThePublication) → p.date ≡ date.now → p.quarters ≡ quarters → HeadStates books.now p result }
        ensures stands { IsChecked books.now [] self.new }
        ensures budget { self.new.budget ≡ budget }
    {
        match self.head(books, date, quarters, budget) {
            Some(fault) => Some(Verdict::Invalid { run: 0, fault }),
            None => None,
        }
    }

    /// The verdict where the block after those so far has a fault. No fault was found before.
    pub(crate) fn block_verdict(
        &mut self,
        alloc: Global,
        books: &Books,
        block: &Block,
    ) -> Result<Option<Verdict>, Memory>
        requires accepted { IsAccepted books.now }
        requires stands { (blocks : List PrintedBlock) × IsChecked books.now blocks self.old }
        ensures states { (blocks : List PrintedBlock) → IsChecked books.now blocks self.old
            → IfOk result (BlockStates books.now self.old.budget blocks block.now) }
        ensures stands { (blocks : List PrintedBlock) → IsChecked books.now blocks self.old → result ≡ Ok None
            → IsChecked books.now (blocks ++ block.now ∷ []) self.new }
        ensures budget { self.new.budget ≡ self.old.budget }
    {
        let run = self.next_run();
        match self.block(alloc, books, block)? {
            Some(fault) => Ok(Some(Verdict::Invalid { run, fault })),
            None => Ok(None),
        }
    }

    /// The first fault of these blocks, after none.
    fn all_blocks(
        &mut self,
        alloc: Global,
        books: &Books,
        blocks: &[Block],
    ) -> Result<Option<Verdict>, Memory>
        requires accepted { IsAccepted books.now }
        requires stands { IsChecked books.now [] self.old }
        ensures found { (p : ThePublication) → HasHead books.now p.date p.quarters → p.budget ≡ self.old.budget → p.blocks ≡ blocks.now
            → IfOk result (λ found. IfSome found (IsVerdict books.now p)) }
        ensures none { IfOk result (λ found. found ≡ None → IsChecked books.now blocks.now self.new) }
        ensures budget { self.new.budget ≡ self.old.budget }
    {
        for block in blocks {
            if let Some(verdict) = self.block_verdict(alloc, books, block)? {
                return Ok(Some(verdict));
            }
        }
        Ok(None)
    }
}

/// The verdict on a publication against its books: valid exactly where it has no fault, and else the first run that
/// has one, with the run's least fault.
pub fn check_day(alloc: Global, books: &Books, publication: &Publication) -> Result<Verdict, Memory>
    requires accepted { IsAccepted books.now }
    ensures { IfOk result (IsVerdict books.now publication.now) }
{
    let mut day = DayCheck::start(alloc, books)?;
    let head = day.head_verdict(
        books,
        &publication.date,
        publication.quarters,
        publication.budget,
    );
    if let Some(verdict) = head {
        drop(day);
        return Ok(verdict);
    }
    match day.all_blocks(alloc, books, publication.blocks.as_slice())? {
        Some(verdict) => {
            drop(day);
            Ok(verdict)
        }
        None => {
            let operators = publication.operators.as_slice();
            let verdict = day.end(books, operators, publication.providers.as_slice());
            drop(day);
            Ok(verdict)
        }
    }
}
