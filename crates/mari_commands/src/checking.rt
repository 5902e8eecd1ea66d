//! `check FOLDER`: whether a folder's publication is valid for its books.

ghost use Rattle.std.specs.Prelude.{◌≡◌, Some};
ghost use Rattle.mari_io.specs.Outside.{Counts, Pages, page_of};
ghost use Rattle.mari_io.specs.declared.shelf.Fetch.TheVariants as fetch;
ghost use Rattle.mari_remain.specs.Accepted.{IsAccepted};
ghost use Rattle.mari_words.specs.Asked.Asked.{Check};
ghost use Rattle.mari_answers.specs.Reports.{publication_path as path_of};
ghost use Rattle.mari_commands.specs.Outcome.{CheckStates, IsNoPage, IsOfWords, IsReportable, IsReportedVerdict, Says, text_outcome as outcome_of_text};

use crate::books::books_in;
use crate::outcome::Outcome;
use mari_answers::{pair_line, text_refusal};
use mari_check::{StreamFault, Verdict, check_stream};
use mari_day::{PUBLICATION, file_name, path_in};
use mari_io::Shelf;
use mari_publish::TextFault;
use mari_remain::Books;
use mari_units::Memory;
use std::alloc::Global;

/// What comes of a publication whose text has a fault.
fn text_outcome(fault: TextFault) -> Outcome
    ensures { result ≡ outcome_of_text fault }
{
    match text_refusal(fault) {
        Some(refusal) => Outcome::Refused(refusal),
        None => Outcome::Memory,
    }
}

/// What comes of the verdict on a publication.
fn verdict_outcome(alloc: Global, verdict: Verdict) -> Outcome
    ensures { IsReportedVerdict verdict result }
{
    match verdict {
        Verdict::Valid {
            published,
            unpublished,
        } => match pair_line(alloc, b"valid ", published, unpublished) {
            Ok(line) => Outcome::Text(line),
            Err(Memory) => Outcome::Memory,
        },
        Verdict::Invalid { run, fault } => Outcome::Invalid { run, fault },
    }
}

/// What comes of books whose publication is checked. It is read in pieces.
fn checked_books<S: Shelf>(alloc: Global, shelf: &mut S, books: &Books, folder: &str) -> Outcome
    // The market files are accepted.
    requires { IsAccepted books.now }

    // What is found of the publication's page, where the shelf reports it.
    ensures same { S.pages shelf.new ≡ S.pages shelf.old }
    ensures reported { (reported : Pages) → S.pages shelf.old ≡ Some reported → CheckStates books.now (page_of reported (path_of folder.now)) result }

    // What comes of the words on any shelf.
    ensures words { IsOfWords (Some (Check folder.now)) result }
    ensures reportable { IsReportable result }

    // Why the page wasn't had.
    ensures failed { Counts (IsNoPage fetch.Failed result) (S.faults shelf.old) (S.faults shelf.new) }
    ensures missing { Counts (IsNoPage fetch.Missing result) (S.misses shelf.old) (S.misses shelf.new) }
    ensures too_long { Counts (IsNoPage fetch.TooLong result) (S.overs shelf.old) (S.overs shelf.new) }
{
    let Ok(path) = path_in(alloc, folder, file_name(PUBLICATION)) else {
        return Outcome::Memory;
    };
    match check_stream(alloc, books, shelf, &path) {
        Ok(verdict) => verdict_outcome(alloc, verdict),
        Err(StreamFault::Fetch(why)) => Outcome::NoPage(PUBLICATION, why),
        Err(StreamFault::Text(fault)) => text_outcome(fault),
        Err(StreamFault::Memory) => Outcome::Memory,
    }
}

/// What comes of a folder whose publication is checked against its market files. It waits for nobody.
pub fn checked<S: Shelf>(alloc: Global, shelf: &mut S, folder: &str) -> Outcome
    // What is found of the folder's pages, where the shelf reports them.
    ensures same { S.pages shelf.new ≡ S.pages shelf.old }
    ensures reported { (reported : Pages) → S.pages shelf.old ≡ Some reported → Says (Some (Check folder.now)) reported result }

    // What comes of the words on any shelf.
    ensures words { IsOfWords (Some (Check folder.now)) result }
    ensures reportable { IsReportable result }

    // Why a page wasn't had.
    ensures failed { Counts (IsNoPage fetch.Failed result) (S.faults shelf.old) (S.faults shelf.new) }
    ensures missing { Counts (IsNoPage fetch.Missing result) (S.misses shelf.old) (S.misses shelf.new) }
    ensures too_long { Counts (IsNoPage fetch.TooLong result) (S.overs shelf.old) (S.overs shelf.new) }
{
    match books_in(alloc, shelf, folder) {
        Ok(books) => checked_books(alloc, shelf, &books, folder),
        Err(outcome) => outcome,
    }
}
