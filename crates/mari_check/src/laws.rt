//! What a block shows that has none of the faults, and what a valid publication keeps, whoever printed them.

ghost use Rattle.std.specs.Prelude.{◌≡◌, ℕ, List, Option, Some, pos, slice_get, take};
ghost use Rattle.mari_units.specs.declared.numbers.Cents.{Cents as TheCents};
ghost use Rattle.mari_publish.specs.declared.publication.Block.TheVariants as printed;
ghost use Rattle.mari_publish.specs.declared.publication.FullBlock.{FullBlock as TheFullBlock};
ghost use Rattle.mari_publish.specs.declared.publication.Publication.{Publication as ThePublication};
ghost use Rattle.mari_remain.specs.Accepted.{IsAccepted};
ghost use Rattle.mari_remain.specs.declared.market.RunMarket.{RunMarket as TheRunMarket};
ghost use Rattle.mari_progress.specs.After.{also_after, market_after};
ghost use Rattle.mari_check.specs.Day.{IsValidPublication};
ghost use Rattle.mari_check.specs.Faults.{IsFreeOf};
ghost use Rattle.mari_progress.specs.Keeps.{KeepsOffers, net_sum};
ghost use Rattle.mari_check.specs.Markets.{IsMadeFor};
ghost use Rattle.mari_check.specs.Shown.{ShowsRun};
ghost use Rattle.mari_check.specs.declared.fault.Fault.{Fault as TheFault};

use mari_remain::Books;

/// A published block that has none of the faults states the first activation of its run's market, with its welfare, the
/// prices, which together are consistent with it, the intervals and areas, and the ledger. In it the operators' nets
/// sum to 0, and no rent is negative.
///
/// The call does nothing: its contract is the law.
pub fn free_blocks_show(books: &Books)
    requires { IsAccepted books.now }
    ensures { (run : ℕ) (made : TheRunMarket) (also : Option (List TheCents)) (budget : Option ℕ) (b : TheFullBlock) → IsMadeFor books.now run made
        → ((any : TheFault) → IsFreeOf books.now run made also budget b any) → ShowsRun books.now made also b }
{
    let _books = books;
}

/// Over the blocks of a valid publication no bid runs above its offer, and a gated one in at most one block; and each
/// published block shows its run, after the blocks before it: so its operators' nets sum to 0, and no rent is
/// negative. The nets of the totals sum to 0 too.
///
/// The call does nothing: its contract is the law.
pub fn valid_days_keep(books: &Books)
    requires { IsAccepted books.now }
    ensures offers { (p : ThePublication) → IsValidPublication books.now p → KeepsOffers books.now p.blocks }
    ensures blocks { (p : ThePublication) → IsValidPublication books.now p → (k : ℕ) (b : TheFullBlock) → slice_get p.blocks k ≡ Some (printed.Published b)
        → ShowsRun books.now (market_after books.now (take k p.blocks)) (also_after books.now (take k p.blocks)) b }
    ensures totals { (p : ThePublication) → IsValidPublication books.now p → net_sum p.operators ≡ pos 0 }
{
    let _books = books;
}
