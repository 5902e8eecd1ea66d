//! What a block shows that has none of the faults, what a valid day keeps, whoever printed it, and that it has one verdict.

ghost use Rattle.std.specs.Prelude.{◌≡◌, ℕ, List, Option, Some, pos, slice_get, take};
ghost use Rattle.mari_units.specs.declared.numbers.Cents.{Cents as TheCents};
ghost use Rattle.mari_check.specs.Markets.{IsMadeFor};
ghost use Rattle.mari_check.specs.declared.fault.Fault.{Fault as TheFault};
ghost use Rattle.mari_remain.specs.Accepted.{IsAccepted};
ghost use Rattle.mari_remain.specs.declared.market.RunMarket.{RunMarket as TheRunMarket};
ghost use Rattle.mari_progress.specs.After.{also_after, market_after};
ghost use Rattle.mari_progress.specs.Keeps.{KeepsOffers, net_sum};
ghost use Rattle.mari_reach_check.specs.Day.{all_printed};
ghost use Rattle.mari_reach_check.specs.Faults.{IsReachFreeOf};
ghost use Rattle.mari_reach_check.specs.Shown.{ShowsReach};
ghost use Rattle.mari_remain.specs.declared.books.Books.{Books as TheBooks};
ghost use Rattle.mari_reach_text.specs.Claims.{first_among, within_among};
ghost use Rattle.mari_reach_text.specs.Texts.{ReachPublication as ThePublication};
ghost use Rattle.mari_reach_text.specs.declared.named.NamedBlock.{NamedBlock as TheBlock};
ghost use Rattle.mari_reach_check.specs.Verdict.{IsReachValid, IsReachVerdict};
ghost use Rattle.mari_reach_check.specs.declared.verdict.ReachVerdict.{ReachVerdict as TheVerdict};
ghost use Rattle.mari_reach_check.specs.declared.verdict.ReachVerdict.TheVariants.{Valid};

use mari_remain::Books;

/// A block that has none of the faults states the first activation of its run's market, or an admissible one than which none
/// is better by more than its gap; with its welfare, the prices, which together are consistent with it, the intervals and
/// areas, and the ledger. In it the operators' nets sum to 0, and no rent is negative.
///
/// The call does nothing: its contract is the law.
pub fn free_blocks_show(books: &Books)
    requires { IsAccepted books.now }
    ensures { (run : ℕ) (made : TheRunMarket) (also : Option (List TheCents)) (budget : ℕ) (b : TheBlock) → IsMadeFor books.now run made
        → ((any : TheFault) → IsReachFreeOf books.now run made also budget b any) → ShowsReach books.now made also b }
{
    let _books = books;
}

/// Over the blocks of a valid day no bid runs above its offer, and a gated one in at most one block; and each block shows
/// its run, after the blocks before it: so its operators' nets sum to 0, and no rent is negative. The nets of the totals
/// sum to 0 too.
///
/// The call does nothing: its contract is the law.
pub fn valid_days_keep(books: &Books)
    requires { IsAccepted books.now }
    ensures offers { (p : ThePublication) → IsReachValid books.now p → KeepsOffers books.now (all_printed p.blocks) }
    ensures blocks { (p : ThePublication) → IsReachValid books.now p → (k : ℕ) (b : TheBlock) → slice_get p.blocks k ≡ Some b
        → ShowsReach books.now (market_after books.now (all_printed (take k p.blocks))) (also_after books.now (all_printed (take k p.blocks))) b }
    ensures totals { (p : ThePublication) → IsReachValid books.now p → net_sum p.operators ≡ pos 0 }
{
    let _books = books;
}

/// A day that is valid has one verdict: that it is, with its numbers of runs of either claim.
///
/// The call does nothing: its contract is the law.
pub fn valid_days_pass()
    ensures { (books : TheBooks) (p : ThePublication) (v : TheVerdict) → IsReachValid books p → IsReachVerdict books p v
        → v ≡ Valid (first_among p.blocks) (within_among p.blocks) }
{}
