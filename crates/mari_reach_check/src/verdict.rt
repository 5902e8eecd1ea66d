//! The verdict on a day of the second form, part by part.

ghost use Rattle.std.specs.Prelude.{◌≡◌, ◌++◌, ◌∷◌, [], List, None, Ok, IfOk};
ghost use Rattle.mari_remain.specs.Accepted.{IsAccepted};
ghost use Rattle.mari_progress.specs.Totals.{HasHead};
ghost use Rattle.mari_reach_lines.specs.Ranges.{IsClaim};
ghost use Rattle.mari_reach_text.specs.Order.{ClaimFits};
ghost use Rattle.mari_reach_text.specs.Texts.{ReachPublication as ThePublication};
ghost use Rattle.mari_reach_text.specs.declared.kept.ReachPart.{ReachPart as ThePart};
ghost use Rattle.mari_reach_text.specs.declared.named.NamedBlock.{NamedBlock as TheBlock};
ghost use Rattle.mari_reach_check.specs.Day.{IsReachChecked};
ghost use Rattle.mari_reach_check.specs.Parts.{Comes, IsOpen, IsVerdictSoFar};
ghost use Rattle.mari_reach_check.specs.Verdict.{BlockVerdict, HeadVerdict, IsReachVerdict};

use crate::day::{Ending, ReachDayCheck};
use mari_check::Fault;
use mari_progress::run_count;
use mari_publish::{AmountLine, MoneyLine};
use mari_reach_text::{NamedBlock, ReachPart};
use mari_remain::Books;
use mari_units::{Memory, Name};
use std::alloc::Global;

/// A day is valid, with its numbers of runs of either claim; or the first run that has a fault, and the number of its least
/// one. Run 0 is reported where the first line isn't that of the books, the first run without a block where one is missing,
/// the number after the last run where there is a block too many, and the last run, or 0 where there is none, where the
/// totals are other sums.
#[derive(Clone, Copy, Debug, Drop, PartialEq, Eq)]
pub enum ReachVerdict {
    /// Every run is as it should be.
    Valid {
        /// How many runs have the first activation.
        first: u32,
        /// How many runs have one within a gap.
        within: u32,
    },
    /// A run has a fault.
    Invalid {
        /// The run that has it, counted from 1; 0 for the head, and for the totals of a day without runs.
        run: u32,
        /// The number of its least fault.
        fault: u8,
    },
}

impl ReachDayCheck {
    /// The verdict where the first line isn't that of the books. It is taken once, before any block.
    fn head_verdict(
        &mut self,
        books: &Books,
        date: &Name,
        quarters: u32,
        budget: u32,
    ) -> Option<ReachVerdict>
        requires { IsReachChecked books.now [] self.old }
        ensures states { (p : ThePublication) → p.date ≡ date.now → p.quarters ≡ quarters → HeadVerdict books.now p result }
        ensures stands { IsReachChecked books.now [] self.new }
        ensures budget { self.new.budget ≡ budget }
    {
        let fault = self.head(books, date, quarters, budget)?;
        let fault = fault.number();
        Some(ReachVerdict::Invalid { run: 0, fault })
    }

    /// The verdict where the block after those so far has a fault. No fault was found before.
    fn block_verdict(
        &mut self,
        alloc: Global,
        books: &Books,
        block: NamedBlock,
    ) -> Result<Option<ReachVerdict>, Memory>
        requires accepted { IsAccepted books.now }
        requires claim { IsClaim block.claim }
        requires stands { (blocks : List TheBlock) × IsReachChecked books.now blocks self.old }
        ensures states { (blocks : List TheBlock) → IsReachChecked books.now blocks self.old
            → IfOk result (BlockVerdict books.now self.old.budget blocks block) }
        ensures stands { (blocks : List TheBlock) → IsReachChecked books.now blocks self.old → result ≡ Ok None
            → IsReachChecked books.now (blocks ++ block ∷ []) self.new }
        ensures budget { self.new.budget ≡ self.old.budget }
    {
        let run = self.next_run();
        match self.block(alloc, books, block)? {
            Some(fault) => {
                let fault = fault.number();
                Ok(Some(ReachVerdict::Invalid { run, fault }))
            }
            None => Ok(None),
        }
    }

    /// The verdict on a day whose first line and blocks have no fault and that ends with these totals.
    fn last_verdict(
        &self,
        books: &Books,
        operators: &[MoneyLine],
        providers: &[AmountLine],
    ) -> ReachVerdict
        requires accepted { IsAccepted books.now }
        requires stands { (blocks : List TheBlock) × IsReachChecked books.now blocks self.now }
        ensures { (p : ThePublication) → HasHead books.now p.date p.quarters → p.budget ≡ self.now.budget → IsReachChecked books.now p.blocks self.now
            → p.operators ≡ operators.now → p.providers ≡ providers.now → IsReachVerdict books.now p result }
    {
        match self.end(books, operators, providers) {
            Ending::Missing(run) => ReachVerdict::Invalid {
                run,
                fault: Fault::Heading.number(),
            },
            Ending::OtherTotals => ReachVerdict::Invalid {
                run: run_count(books),
                fault: Fault::Totals.number(),
            },
            Ending::Whole(first, within) => ReachVerdict::Valid { first, within },
        }
    }

    /// The verdict as soon as this part settles it, after parts that didn't.
    pub(crate) fn part(
        &mut self,
        alloc: Global,
        books: &Books,
        part: ReachPart,
    ) -> Result<Option<ReachVerdict>, Memory>
        requires accepted { IsAccepted books.now }
        requires claim { ClaimFits part }
        requires comes { (parts : List ThePart) × IsOpen books.now parts self.old × Comes parts part }
        ensures { (parts : List ThePart) → IsOpen books.now parts self.old → Comes parts part
            → IfOk result (IsVerdictSoFar books.now (parts ++ part ∷ []) self.new) }
    {
        match part {
            ReachPart::Head {
                date,
                quarters,
                budget,
            } => {
                let found = self.head_verdict(books, &date, quarters, budget);
                drop(date);
                Ok(found)
            }
            ReachPart::Block(block) => self.block_verdict(alloc, books, block),
            ReachPart::Totals {
                operators,
                providers,
            } => {
                let found = self.last_verdict(books, operators.as_slice(), providers.as_slice());
                drop(operators);
                drop(providers);
                Ok(Some(found))
            }
        }
    }
}
