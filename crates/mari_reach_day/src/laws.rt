//! What holds of every day of the second form.

ghost use Rattle.std.specs.Prelude.{◌≡◌, ℕ, pos, List, Some, slice_get};
ghost use Rattle.mari_publish.specs.declared.publication.Block.{Block as PrintedBlock};
ghost use Rattle.mari_remain.specs.Accepted.{IsAccepted};
ghost use Rattle.mari_progress.specs.Keeps.{KeepsOffers, net_sum};
ghost use Rattle.mari_progress.specs.Totals.{operator_totals};
ghost use Rattle.mari_day.specs.Keeps.{BlockSumsToZero};
ghost use Rattle.mari_reach_day.specs.declared.block.ReachBlock.{ReachBlock as PrintedReach};
ghost use Rattle.mari_reach_day.specs.Reach.{IsReachPart, blocks_of};

use mari_remain::Books;

/// Over the blocks of a day no bid runs above its offer, and a gated one in at most one block; the operators' nets sum to 0
/// in each block and in the totals, and no rent is negative.
pub fn reach_days_keep(books: &Books)
    requires { IsAccepted books.now }
    ensures offers { (budget : ℕ) (blocks : List PrintedReach) → IsReachPart books.now budget blocks → KeepsOffers books.now (blocks_of blocks) }
    ensures blocks { (budget : ℕ) (blocks : List PrintedReach)
        → IsReachPart books.now budget blocks → (k : ℕ) (b : PrintedBlock) → slice_get (blocks_of blocks) k ≡ Some b → BlockSumsToZero b }
    ensures totals { (budget : ℕ) (blocks : List PrintedReach) → IsReachPart books.now budget blocks
        → net_sum (operator_totals books.now (blocks_of blocks)) ≡ pos 0 }
{
    let _books = books;
}
