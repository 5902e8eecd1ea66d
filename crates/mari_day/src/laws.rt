//! What holds of every day part and every day.

ghost use Rattle.std.specs.Prelude.{◌≡◌, ◌↔◌, ℕ, pos, List, Ok, Some, slice_get};
ghost use Rattle.mari_zones.specs.Borders.{borders_in};
ghost use Rattle.mari_zones.specs.declared.borders.BorderBook.{BorderBook};
ghost use Rattle.mari_demands.specs.declared.limits.Limits.{Limits};
ghost use Rattle.mari_publish.specs.Lines.{unpublished_in};
ghost use Rattle.mari_publish.specs.declared.publication.Block.{Block as PrintedBlock};
ghost use Rattle.mari_publish.specs.declared.publication.Publication.{Publication as ThePublication};
ghost use Rattle.mari_remain.specs.Accepted.{IsAccepted};
ghost use Rattle.mari_remain.specs.Migrated.{AreRead, with_limits};
ghost use Rattle.mari_day.specs.Day.{HasEnough, IsDay, IsDayPart};
ghost use Rattle.mari_progress.specs.Keeps.{KeepsOffers, net_sum};
ghost use Rattle.mari_progress.specs.Totals.{operator_totals};
ghost use Rattle.mari_day.specs.Keeps.{BlockSumsToZero};
ghost use Rattle.mari_day.specs.Migrating.{IsMigratedFolder};
ghost use Rattle.mari_day.specs.Reading.{HasBooks};
ghost use Rattle.mari_io.specs.Outside.{Pages};

use mari_remain::Books;

/// Over the blocks of a day no bid runs above its offer, and a gated one in at most one block; the operators' nets sum
/// to 0 in each block and in the totals, and no rent is negative; and within a budget that holds each run's search
/// tree every run is published.
pub fn days_keep(books: &Books)
    requires { IsAccepted books.now }
    ensures offers { (budget : ℕ) (blocks : List PrintedBlock) → IsDayPart books.now budget blocks → KeepsOffers books.now blocks }
    ensures blocks { (budget : ℕ) (blocks : List PrintedBlock)
        → IsDayPart books.now budget blocks → (k : ℕ) (b : PrintedBlock) → slice_get blocks k ≡ Some b → BlockSumsToZero b }
    ensures totals { (budget : ℕ) (blocks : List PrintedBlock) → IsDayPart books.now budget blocks → net_sum (operator_totals books.now blocks) ≡ pos 0 }
    ensures published { (budget : ℕ) (p : ThePublication) → IsDay books.now budget p → HasEnough books.now budget → unpublished_in p.blocks ≡ 0 }
{
    let _books = books;
}

/// A folder has the same day parts and days where its borders' limits are stated for each run instead, by the pages that
/// `mari_remain` writes.
pub fn migration_keeps_days(books: &Books)
    requires accepted { IsAccepted books.now }
    requires read { (page : List ℕ) × (borders_in books.now.zones page ≡ Ok books.now.borders) }

    // Nothing that is printed changes.
    ensures parts { (borders : BorderBook) (limits : List (List Limits)) → AreRead books.now borders limits
        → (budget : ℕ) (blocks : List PrintedBlock) → IsDayPart books.now budget blocks ↔ IsDayPart (with_limits books.now borders limits) budget blocks }
    ensures days { (borders : BorderBook) (limits : List (List Limits)) → AreRead books.now borders limits
        → (budget : ℕ) (p : ThePublication) → IsDay books.now budget p ↔ IsDay (with_limits books.now borders limits) budget p }

    // With the two pages in place, the folder of these books is read as that of those with the same limits for each run.
    ensures folder { (folder : List ℕ) (before after : Pages) → HasBooks before folder books.now → IsMigratedFolder books.now folder before after
        → (borders : BorderBook) (limits : List (List Limits)) → AreRead books.now borders limits
        → HasBooks after folder (with_limits books.now borders limits) }
{
    let _books = books;
}
