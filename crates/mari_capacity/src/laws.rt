//! What blocks without faults show of limits.

ghost use Rattle.std.specs.Prelude.{◌≡◌, ℕ, List, Some, pos, slice_get, take};
ghost use Rattle.mari_publish.specs.declared.publication.Block.{Block as PrintedBlock};
ghost use Rattle.mari_publish.specs.declared.publication.Block.TheVariants as printed;
ghost use Rattle.mari_publish.specs.declared.publication.FullBlock.{FullBlock as TheFullBlock};
ghost use Rattle.mari_remain.specs.Accepted.{IsAccepted};
ghost use Rattle.mari_progress.specs.After.{market_after};
ghost use Rattle.mari_progress.specs.Reported.{activation_of, prices_of};
ghost use Rattle.mari_check.specs.Day.{AreFree};
ghost use Rattle.mari_capacity.specs.Worth.{AreWorths, RisesBound};
ghost use Rattle.mari_capacity.specs.declared.worth.BorderWorth.{BorderWorth as TheBorderWorth};

use mari_remain::Books;

/// Of blocks that have no fault, each printed rise bounds what its raised limit could bring: no activation within the
/// bounds of the published gate word in the market with that one limit raised, consistent with prices or not, is worth
/// more than the published welfare and the rise.
///
/// The call does nothing: its contract is the law.
pub fn limits_are_worth(books: &Books)
    requires { IsAccepted books.now }
    ensures { (budget : ℕ) (blocks : List PrintedBlock) → AreFree books.now budget blocks → (k : ℕ) (b : TheFullBlock)
        → slice_get blocks k ≡ Some (printed.Published b) → (more : ℕ) (worths : List TheBorderWorth)
        → AreWorths (market_after books.now (take k blocks)).market (activation_of b) (prices_of b) more worths
        → RisesBound (market_after books.now (take k blocks)).market (activation_of b) (pos b.welfare) more worths }
{
    let _books = books;
}
