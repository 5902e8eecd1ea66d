//! What holds of every list of blocks of a day's first runs, and of the pages that state limits for each run.

ghost use Rattle.std.specs.Prelude.{◌≡◌, ◌≤◌, ◌<◌, ◌⊎◌, ◌↔◌, ◌∷◌, ◌++◌, [], ℕ, List, Ok, is_some, length, true};
ghost use Rattle.mari_bids.specs.Bids.{bid_numbered};
ghost use Rattle.mari_links.specs.Links.{has_gate};
ghost use Rattle.mari_zones.specs.Borders.{borders_in};
ghost use Rattle.mari_zones.specs.declared.borders.BorderBook.{BorderBook};
ghost use Rattle.mari_demands.specs.declared.limits.Limits.{Limits};
ghost use Rattle.mari_remain.specs.Accepted.{IsAccepted};
ghost use Rattle.mari_remain.specs.Blocks.{PastBlock, mw_in_block, mw_of};
ghost use Rattle.mari_remain.specs.FirstBlocks.{AreFirstBlocks, IsKeptAfter, IsNextBlock, Tally, StandsFor};
ghost use Rattle.mari_remain.specs.Migrated.{AreRead, borders_page, limits_page, with_limits};
ghost use Rattle.mari_remain.specs.RunMarket.{run_limits, run_market_of};

use crate::books::Books;
use mari_units::MOST_PAGE;

/// No bid is activated above its offer over the blocks of a day, and a gated one is activated in at most one of them.
///
/// The call does nothing: its contract is the law.
pub fn offers_are_kept(books: &Books)
    requires { IsAccepted books.now }
    ensures offers { (blocks : List PastBlock) → AreFirstBlocks books.now blocks → (bid : ℕ)
        → mw_of blocks bid ≤ (bid_numbered books.now.bids.bids bid).greatest }
    ensures once { (blocks : List PastBlock) (next : PastBlock) → AreFirstBlocks books.now blocks → IsNextBlock books.now blocks next
        → (bid : ℕ) → has_gate books.now.links bid ≡ true → (mw_of blocks bid ≡ 0) ⊎ (mw_in_block bid next ≡ 0) }
{
    let _books = books;
}

/// What a published block does to what is kept, and that an unpublished block changes nothing: what stands for the
/// blocks so far then stands for one more.
///
/// The call does nothing: its contract is the law.
pub fn stands_after(books: &Books)
    requires { IsAccepted books.now }
    ensures published { (blocks : List PastBlock) (next : PastBlock) (kept after : Tally) → StandsFor books.now blocks kept → IsNextBlock books.now blocks next
        → is_some next.published ≡ true → IsKeptAfter next kept after → StandsFor books.now (blocks ++ next ∷ []) after }
    ensures unpublished { (blocks : List PastBlock) (next : PastBlock) (kept : Tally) → StandsFor books.now blocks kept → IsNextBlock books.now blocks next
        → next.published ≡ None → StandsFor books.now (blocks ++ next ∷ []) kept }
{
    let _books = books;
}

/// A folder whose borders are read from a page may state their limits for each run instead: the pages that
/// `borders_text` and `limits_text` write are read as such a folder's, and every run has the market that it had,
/// after every list of blocks.
///
/// The call does nothing: its contract is the law.
pub fn migration_keeps_markets(books: &Books)
    requires accepted { IsAccepted books.now }
    requires read { (page : List ℕ) × (borders_in books.now.zones page ≡ Ok books.now.borders) }

    // The two pages are read, without a refusal, and are no longer than a page may be.
    ensures read { (borders : BorderBook) × (limits : List (List Limits)) × AreRead books.now borders limits }
    ensures short { (length (borders_page books.now) ≤ MOST_PAGE) × (length (limits_page books.now) ≤ MOST_PAGE) }

    // With what they say in place of what the folder said, the books are accepted, and state the same limits.
    ensures accepted { (borders : BorderBook) (limits : List (List Limits)) → AreRead books.now borders limits
        → IsAccepted (with_limits books.now borders limits) }
    ensures limits { (borders : BorderBook) (limits : List (List Limits)) → AreRead books.now borders limits
        → (run border : ℕ) → 1 ≤ run → run ≤ length books.now.runs.runs → border < length books.now.borders.borders
        → run_limits (with_limits books.now borders limits) run border ≡ run_limits books.now run border }

    // So each run has its market, and the lists of blocks of first runs are the same.
    ensures markets { (borders : BorderBook) (limits : List (List Limits)) → AreRead books.now borders limits
        → (blocks : List PastBlock) (run : ℕ) → 1 ≤ run → run ≤ length books.now.runs.runs
        → run_market_of (with_limits books.now borders limits) blocks run ≡ run_market_of books.now blocks run }
    ensures blocks { (borders : BorderBook) (limits : List (List Limits)) → AreRead books.now borders limits
        → (blocks : List PastBlock) → AreFirstBlocks books.now blocks ↔ AreFirstBlocks (with_limits books.now borders limits) blocks }
{
    let _books = books;
}
