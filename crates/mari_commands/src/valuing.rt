//! `value FOLDER K`: what K MW more on each limit of a border are worth, by a folder's publication.

ghost use Rattle.std.specs.Prelude.{◌≡◌, ◌≢◌, ◌≤◌, ◌++◌, IfOk, Some};
ghost use Rattle.mari_io.specs.Outside.{Counts, Pages, page_of};
ghost use Rattle.mari_io.specs.declared.shelf.Fetch.TheVariants as fetch;
ghost use Rattle.mari_remain.specs.Accepted.{IsAccepted};
ghost use Rattle.mari_words.specs.Asked.Asked.{Value};
ghost use Rattle.mari_commands.specs.Outcome.{IsNoPage, IsOfWords, IsReportable, IsReportedValues, Says};
ghost use Rattle.mari_answers.specs.Reports.{Reports, publication_path as path_of};
ghost use Rattle.mari_commands.specs.Values.{IsEnding, value_line, value_status};

use crate::books::books_in;
use crate::outcome::Outcome;
use mari_answers::{Status, invalid_line, page_line, refused_line, say_after, text_refusal};
use mari_capacity::{ValueEnd, Valued, value_stream};
use mari_day::{PUBLICATION, file_name, path_in};
use mari_io::{Shelf, Sink};
use mari_publish::TextFault;
use mari_remain::Books;
use mari_units::{MOST_RAISE, Memory};
use std::alloc::Global;

/// What comes of books whose limits are valued. The publication is read in pieces.
fn valued_books<S: Shelf>(
    alloc: Global,
    shelf: &mut S,
    books: &Books,
    folder: &str,
    more: u32,
) -> Outcome
    // The market files are accepted.
    requires accepted { IsAccepted books.now }
    requires some { 1 ≤ more }
    requires more { more ≤ MOST_RAISE }

    // What is found of the publication's page, where the shelf reports it.
    ensures same { S.pages shelf.new ≡ S.pages shelf.old }
    ensures reported { (reported : Pages) → S.pages shelf.old ≡ Some reported → IsReportedValues books.now more (page_of reported (path_of folder.now)) result }

    // What comes of the words on any shelf.
    ensures words { IsOfWords (Some (Value folder.now more)) result }
    ensures reportable { IsReportable result }

    // Why the page wasn't had.
    ensures failed { Counts (IsNoPage fetch.Failed result) (S.faults shelf.old) (S.faults shelf.new) }
    ensures missing { Counts (IsNoPage fetch.Missing result) (S.misses shelf.old) (S.misses shelf.new) }
    ensures too_long { Counts (IsNoPage fetch.TooLong result) (S.overs shelf.old) (S.overs shelf.new) }
{
    let Ok(path) = path_in(alloc, folder, file_name(PUBLICATION)) else {
        return Outcome::Memory;
    };
    match value_stream(alloc, books, shelf, &path, more) {
        Ok(valued) => Outcome::Values(valued),
        Err(Memory) => Outcome::Memory,
    }
}

/// What comes of a folder whose limits are valued, each raised by `more` MW. It waits for nobody.
pub fn valued<S: Shelf>(alloc: Global, shelf: &mut S, folder: &str, more: u32) -> Outcome
    requires some { 1 ≤ more }
    requires more { more ≤ MOST_RAISE }

    // What is found of the folder's pages, where the shelf reports them.
    ensures same { S.pages shelf.new ≡ S.pages shelf.old }
    ensures reported { (reported : Pages) → S.pages shelf.old ≡ Some reported → Says (Some (Value folder.now more)) reported result }

    // What comes of the words on any shelf.
    ensures words { IsOfWords (Some (Value folder.now more)) result }
    ensures reportable { IsReportable result }

    // Why a page wasn't had.
    ensures failed { Counts (IsNoPage fetch.Failed result) (S.faults shelf.old) (S.faults shelf.new) }
    ensures missing { Counts (IsNoPage fetch.Missing result) (S.misses shelf.old) (S.misses shelf.new) }
    ensures too_long { Counts (IsNoPage fetch.TooLong result) (S.overs shelf.old) (S.overs shelf.new) }
{
    match books_in(alloc, shelf, folder) {
        Ok(books) => valued_books(alloc, shelf, &books, folder, more),
        Err(outcome) => outcome,
    }
}

/// The line of a publication whose text has a fault, and its status.
fn text_ending(alloc: Global, fault: TextFault) -> Result<(Vec<u8>, Status), Memory>
    ensures ending { IfOk result (λ p. IsEnding (ValueEnd.Text fault) p.0.items p.1) }
    ensures writes { IfOk result (λ p. p.1 ≢ Status.WriteFault) }
{
    match text_refusal(fault) {
        Some(refusal) => Ok((refused_line(alloc, refusal)?, Status::Refused(refusal))),
        None => Err(Memory),
    }
}

/// The line after the values, by how they end, and its status.
fn ending(alloc: Global, end: ValueEnd) -> Result<(Vec<u8>, Status), Memory>
    ensures ending { IfOk result (λ p. IsEnding end p.0.items p.1) }
    ensures writes { IfOk result (λ p. p.1 ≢ Status.WriteFault) }
{
    match end {
        ValueEnd::Valid { .. } => Ok((Vec::new(alloc), Status::Done)),
        ValueEnd::Invalid { run, fault } => invalid_line(alloc, run, fault),
        ValueEnd::Text(fault) => text_ending(alloc, fault),
        ValueEnd::Fetch(why) => page_line(alloc, PUBLICATION, why),
    }
}

/// Writes the values, and then the line of their status. The line is there before the first byte is written, so that
/// out of memory nothing is.
pub fn say_values<K: Sink>(alloc: Global, sink: &mut K, valued: &Valued) -> Status
    ensures reports { Reports (valued.now.text ++ value_line valued.now.end) (value_status valued.now.end) (K.taken sink.old) (K.taken sink.new) result }
    ensures cause { Counts (result ≡ Status.WriteFault) (K.faults sink.old) (K.faults sink.new) }
{
    match ending(alloc, valued.end) {
        Ok((line, status)) => say_after(sink, valued.text.as_slice(), &line, status),
        Err(Memory) => Status::Memory,
    }
}
