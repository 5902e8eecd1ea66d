//! `migrate FOLDER borders` and `migrate FOLDER limits`: a folder's files in the form that states border limits for
//! each run.

ghost use Rattle.std.specs.Prelude.{◌≡◌, Some, IfOk};
ghost use Rattle.mari_io.specs.Outside.{Counts, Pages};
ghost use Rattle.mari_io.specs.declared.shelf.Fetch.TheVariants as fetch;
ghost use Rattle.mari_remain.specs.Accepted.{IsAccepted};
ghost use Rattle.mari_words.specs.Asked.Asked.{Migrate};
ghost use Rattle.mari_commands.specs.Commands.{already_two, page_of_part};
ghost use Rattle.mari_commands.specs.Outcome.{IsMigrated, IsNoPage, IsOfWords, IsReportable, Says};

use crate::books::books_in;
use crate::outcome::Outcome;
use mari_answers::MigrationCheck;
use mari_day::File;
use mari_io::Shelf;
use mari_remain::{Books, borders_text, limits_text};
use mari_rows::FileCheck;
use mari_units::{Memory, Refusal};
use mari_words::FilePart;
use std::alloc::Global;

/// The refusal of a folder whose borders leave their limits to limits.csv already.
fn already_two_files() -> Refusal
    ensures { result ≡ already_two }
{
    Refusal {
        file: File::Borders.number(),
        line: 1,
        number: MigrationCheck::AlreadyTwo.entry().0,
    }
}

/// The page of a file in its new form.
fn new_page(alloc: Global, books: &Books, part: FilePart) -> Result<Vec<u8>, Memory>
    requires { IsAccepted books.now }
    ensures { IfOk result (λ text. text.items ≡ page_of_part part books.now) }
{
    match part {
        FilePart::Borders => borders_text(alloc, books),
        FilePart::Limits => limits_text(alloc, books),
    }
}

/// What comes of books whose file is asked for in its new form.
fn migrated_books(alloc: Global, books: &Books, part: FilePart) -> Outcome
    requires { IsAccepted books.now }
    ensures { IsMigrated books.now part result }
{
    if books.limits.is_some() {
        return Outcome::Refused(already_two_files());
    }
    match new_page(alloc, books, part) {
        Ok(text) => Outcome::Text(text),
        Err(Memory) => Outcome::Memory,
    }
}

/// What comes of a folder, a file of which is asked for in its new form.
pub fn migrated<S: Shelf>(alloc: Global, shelf: &mut S, folder: &str, part: FilePart) -> Outcome
    // What is found of the folder's pages, where the shelf reports them.
    ensures same { S.pages shelf.new ≡ S.pages shelf.old }
    ensures reported { (reported : Pages) → S.pages shelf.old ≡ Some reported → Says (Some (Migrate folder.now part)) reported result }

    // What comes of the words on any shelf.
    ensures words { IsOfWords (Some (Migrate folder.now part)) result }
    ensures reportable { IsReportable result }

    // Why a page wasn't had.
    ensures failed { Counts (IsNoPage fetch.Failed result) (S.faults shelf.old) (S.faults shelf.new) }
    ensures missing { Counts (IsNoPage fetch.Missing result) (S.misses shelf.old) (S.misses shelf.new) }
    ensures too_long { Counts (IsNoPage fetch.TooLong result) (S.overs shelf.old) (S.overs shelf.new) }
{
    match books_in(alloc, shelf, folder) {
        Ok(books) => migrated_books(alloc, &books, part),
        Err(outcome) => outcome,
    }
}
