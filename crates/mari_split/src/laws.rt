//! What holds of every day whose runs are cleared island by island.

ghost use Rattle.std.specs.Prelude.{◌≡◌, ℕ, List, Some, slice_get};
ghost use Rattle.mari_publish.specs.Lines.{unpublished_in};
ghost use Rattle.mari_publish.specs.declared.publication.Block.{Block as PrintedBlock};
ghost use Rattle.mari_remain.specs.Accepted.{IsAccepted};
ghost use Rattle.mari_progress.specs.Keeps.{KeepsOffers};
ghost use Rattle.mari_day.specs.Keeps.{BlockSumsToZero};
ghost use Rattle.mari_split.specs.declared.split.SplitBlock.{SplitBlock as PrintedSplit};
ghost use Rattle.mari_split.specs.Split.{HoldsIslands, IsSplitDay, IsSplitPart, blocks_of};

use mari_remain::Books;

/// Over the blocks of a day no bid runs above its offer, and a gated one in at most one block; no rent is negative; and
/// within a budget that holds the search tree of each island every run is published.
pub fn split_days_keep(books: &Books)
    requires { IsAccepted books.now }
    ensures offers { (budget : ℕ) (blocks : List PrintedSplit) → IsSplitPart books.now budget blocks → KeepsOffers books.now (blocks_of blocks) }
    ensures blocks { (budget : ℕ) (blocks : List PrintedSplit) → IsSplitPart books.now budget blocks → (k : ℕ) (b : PrintedBlock)
        → slice_get (blocks_of blocks) k ≡ Some b → BlockSumsToZero b }
    ensures published { (budget : ℕ) (blocks : List PrintedSplit) → IsSplitDay books.now budget blocks → HoldsIslands books.now budget
        → unpublished_in (blocks_of blocks) ≡ 0 }
{
    let _books = books;
}
