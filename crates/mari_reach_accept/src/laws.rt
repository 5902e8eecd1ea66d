//! A printed day has none of the faults, and its text is one that is read.
//!
//! No call here does anything: its contract is the law.

ghost use Rattle.std.specs.Prelude.{◌≡◌, ◌≤◌, ℕ, List, length};
ghost use Rattle.mari_market.specs.Clearing.{IsBudget};
ghost use Rattle.mari_remain.specs.Accepted.{IsAccepted};
ghost use Rattle.mari_progress.specs.After.{run_after};
ghost use Rattle.mari_day.specs.Dated.{IsDated};
ghost use Rattle.mari_check.specs.declared.fault.Fault.{Fault as TheFault};
ghost use Rattle.mari_reach_text.specs.Texts.{IsReachText};
ghost use Rattle.mari_reach_check.specs.Day.{AreReachFree, IsReachFreeIn};
ghost use Rattle.mari_reach_check.specs.Verdict.{IsReachValid, IsReachVerdict};
ghost use Rattle.mari_reach_check.specs.declared.verdict.ReachVerdict.{ReachVerdict as TheVerdict};
ghost use Rattle.mari_reach_check.specs.declared.verdict.ReachVerdict.TheVariants.{Valid};
ghost use Rattle.mari_reach_day.specs.Days.{IsReachDayText};
ghost use Rattle.mari_reach_day.specs.declared.block.ReachBlock.{ReachBlock as PrintedReach};
ghost use Rattle.mari_reach_day.specs.Reach.{IsReachBlock, IsReachDay, IsReachPart, blocks_of};
ghost use Rattle.mari_reach_accept.specs.Named.{all_named, named_of, publication_of};

use mari_reach_check::valid_days_pass;
use mari_remain::Books;

/// The block of a run that is there has none of the faults, with its bids and zones by names; nor has any block of the first
/// runs.
pub fn printed_blocks_are_free(books: &Books)
    requires { IsAccepted books.now }
    ensures free { (budget : ℕ) (before : List PrintedReach) (r : PrintedReach) → IsReachBlock books.now budget before r
        → run_after (blocks_of before) ≤ length books.now.runs.runs → (any : TheFault)
        → IsReachFreeIn books.now budget (all_named books.now before) (named_of books.now r) any }
    ensures part { (budget : ℕ) (blocks : List PrintedReach) → IsReachPart books.now budget blocks
        → AreReachFree books.now budget (all_named books.now blocks) }
{
    let _books = books;
}

/// A day is valid: it has the head of the books, a block for every run, none of which has a fault, and their sums as totals.
pub fn printed_days_are_valid(books: &Books)
    requires { IsAccepted books.now }
    ensures { (budget : ℕ) (blocks : List PrintedReach) → IsReachDay books.now budget blocks
        → IsReachValid books.now (publication_of books.now budget blocks) }
{
    let _books = books;
}

/// What is said of the text of a day by whoever reads it.
pub fn printed_texts_are_accepted(books: &Books)
    requires accepted { IsAccepted books.now }
    requires dated { IsDated books.now }

    // It is the text of the day's lines with bids and zones by names, whose numbers are in range.
    ensures text { (budget first within : ℕ) (text : List ℕ) (is : IsReachDayText books.now budget first within text) → IsBudget budget
        → IsReachText text (publication_of books.now budget is.blocks) }

    // And a right verdict on it is that it is valid, with the numbers of runs that were reported where it was printed.
    ensures verdict { (budget first within : ℕ) (text : List ℕ) (is : IsReachDayText books.now budget first within text) (v : TheVerdict)
        → IsReachVerdict books.now (publication_of books.now budget is.blocks) v → v ≡ Valid first within }
{
    let _books = books;
    valid_days_pass();
}
