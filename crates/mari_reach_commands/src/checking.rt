//! `check FOLDER`: whether a folder's publication is valid for its books.

ghost use Rattle.std.specs.Prelude.{◌≡◌};
ghost use Rattle.mari_io.specs.Outside.{Counts, Rose};
ghost use Rattle.mari_remain.specs.Accepted.{IsAccepted};
ghost use Rattle.mari_reach_commands.specs.Answers.{ReportsAnswer, ReportsCheck, ReportsPage};
ghost use Rattle.mari_answers.specs.Lines.{valid_line};
ghost use Rattle.mari_answers.specs.Reports.{Reports};

use mari_answers::{
    Status, pair_line, say, say_invalid, say_no_books, say_no_page, say_text_fault,
};
use mari_check::StreamFault;
use mari_day::{PUBLICATION, file_name, path_in, read_books};
use mari_io::{Shelf, Sink};
use mari_reach_check::{ReachVerdict, check_reach_stream};
use mari_remain::Books;
use mari_units::Memory;
use std::alloc::Global;

/// Writes the line of a valid day.
fn say_valid<K: Sink>(alloc: Global, sink: &mut K, first: u32, within: u32) -> Status
    ensures reports { Reports (valid_line first within) Status.Done (K.taken sink.old) (K.taken sink.new) result }
    ensures cause { Counts (result ≡ Status.WriteFault) (K.faults sink.old) (K.faults sink.new) }
{
    match pair_line(alloc, b"valid ", first, within) {
        Ok(line) => say(sink, &line, Status::Done),
        Err(Memory) => Status::Memory,
    }
}

/// Writes the line of what the check answers.
fn say_answer<K: Sink>(
    alloc: Global,
    sink: &mut K,
    answer: Result<ReachVerdict, StreamFault>,
) -> Status
    ensures reports { ReportsAnswer answer (K.taken sink.old) (K.taken sink.new) result }
    ensures cause { Counts (result ≡ Status.WriteFault) (K.faults sink.old) (K.faults sink.new) }
{
    match answer {
        Ok(ReachVerdict::Valid { first, within }) => say_valid(alloc, sink, first, within),
        Ok(ReachVerdict::Invalid { run, fault }) => say_invalid(alloc, sink, run, fault),
        Err(StreamFault::Fetch(why)) => say_no_page(alloc, sink, PUBLICATION, why),
        Err(StreamFault::Text(fault)) => say_text_fault(alloc, sink, fault),
        Err(StreamFault::Memory) => Status::Memory,
    }
}

/// Checks the publication of a folder by these books. It is read in pieces.
fn check_page<S: Shelf, K: Sink>(
    alloc: Global,
    shelf: &mut S,
    sink: &mut K,
    books: &Books,
    folder: &str,
) -> Status
    requires { IsAccepted books.now }
    ensures same { S.pages shelf.new ≡ S.pages shelf.old }
    ensures reports { ReportsPage (S.pages shelf.old) (Rose (S.faults shelf.old) (S.faults shelf.new))
        books.now folder.now (K.taken sink.old) (K.taken sink.new) result }

    // Why the page wasn't had, or a text not written.
    ensures read_fault { Counts (result ≡ Status.ReadFault) (S.faults shelf.old) (S.faults shelf.new) }
    ensures missing { Counts (result ≡ Status.Missing) (S.misses shelf.old) (S.misses shelf.new) }
    ensures too_long { Counts (result ≡ Status.TooLong) (S.overs shelf.old) (S.overs shelf.new) }
    ensures write_fault { Counts (result ≡ Status.WriteFault) (K.faults sink.old) (K.faults sink.new) }
{
    let Ok(path) = path_in(alloc, folder, file_name(PUBLICATION)) else {
        return Status::Memory;
    };
    let answer = check_reach_stream(alloc, books, shelf, &path);
    say_answer(alloc, sink, answer)
}

/// Checks the publication of a folder against its market files, or says why it has no books.
pub fn check<S: Shelf, K: Sink>(alloc: Global, shelf: &mut S, sink: &mut K, folder: &str) -> Status
    ensures same { S.pages shelf.new ≡ S.pages shelf.old }
    ensures reports { ReportsCheck (S.pages shelf.old) (Rose (S.faults shelf.old) (S.faults shelf.new))
        folder.now (K.taken sink.old) (K.taken sink.new) result }

    // Why a page wasn't had, or a text not written.
    ensures read_fault { Counts (result ≡ Status.ReadFault) (S.faults shelf.old) (S.faults shelf.new) }
    ensures missing { Counts (result ≡ Status.Missing) (S.misses shelf.old) (S.misses shelf.new) }
    ensures too_long { Counts (result ≡ Status.TooLong) (S.overs shelf.old) (S.overs shelf.new) }
    ensures write_fault { Counts (result ≡ Status.WriteFault) (K.faults sink.old) (K.faults sink.new) }
{
    match read_books(alloc, shelf, folder) {
        Ok(books) => check_page(alloc, shelf, sink, &books, folder),
        Err(fault) => say_no_books(alloc, sink, fault),
    }
}
