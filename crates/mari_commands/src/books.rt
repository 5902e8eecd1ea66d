//! The books of a folder, or what their absence comes to.

ghost use Rattle.std.specs.Prelude.{◌≡◌, Option, Some, IfErr, IfOk};
ghost use Rattle.mari_io.specs.Outside.{Counts, Pages};
ghost use Rattle.mari_io.specs.declared.shelf.Fetch.TheVariants as fetch;
ghost use Rattle.mari_remain.specs.Accepted.{IsAccepted};
ghost use Rattle.mari_day.specs.Dated.{IsDated};
ghost use Rattle.mari_words.specs.Asked.{Asked};
ghost use Rattle.mari_commands.specs.Commands.{ReadsFolder};
ghost use Rattle.mari_commands.specs.Outcome.{Found, IsNoBooks, IsOfWords, IsReportable, no_books as outcome_of_fault};

use crate::outcome::Outcome;
use mari_day::{BooksFault, read_books};
use mari_io::Shelf;
use mari_remain::Books;
use std::alloc::Global;

/// What comes of a folder that has no books.
fn no_books(fault: BooksFault) -> Outcome
    ensures { result ≡ outcome_of_fault fault }
{
    match fault {
        BooksFault::Fetch(file, why) => Outcome::NoPage(file, why),
        BooksFault::Refused(refusal) => Outcome::Refused(refusal),
        BooksFault::Memory => Outcome::Memory,
    }
}

/// The books of a folder, whose market files are fetched in their order and then read in that order.
pub fn books_in<S: Shelf>(alloc: Global, shelf: &mut S, folder: &str) -> Result<Books, Outcome>
    // What is found of the folder's pages, where the shelf reports them.
    ensures same { S.pages shelf.new ≡ S.pages shelf.old }
    ensures reported { (asked : Option Asked) (reported : Pages) → ReadsFolder asked folder.now → S.pages shelf.old ≡ Some reported
        → Found asked reported folder.now result }

    // What holds of the books on any shelf.
    ensures accepted { IfOk result IsAccepted }
    ensures dated { IfOk result IsDated }

    // What comes in their place.
    ensures words { (asked : Option Asked) → ReadsFolder asked folder.now → IfErr result (IsOfWords asked) }
    ensures reportable { IfErr result IsReportable }

    // Why a page wasn't had.
    ensures failed { Counts (IsNoBooks fetch.Failed result) (S.faults shelf.old) (S.faults shelf.new) }
    ensures missing { Counts (IsNoBooks fetch.Missing result) (S.misses shelf.old) (S.misses shelf.new) }
    ensures too_long { Counts (IsNoBooks fetch.TooLong result) (S.overs shelf.old) (S.overs shelf.new) }
{
    match read_books(alloc, shelf, folder) {
        Ok(books) => Ok(books),
        Err(fault) => Err(no_books(fault)),
    }
}
