//! The program over any shelf and sink.

ghost use Rattle.std.specs.Prelude.{◌≡◌, ◌≤◌, ◌+◌, ℕ, List, Some, None, map, string_bytes};
ghost use Rattle.mari_io.specs.Outside.{Counts, Pages, Rose};
ghost use Rattle.mari_market.specs.Clearing.{IsBudget};
ghost use Rattle.mari_answers.specs.Reports.{AsksForOne};
ghost use Rattle.mari_reach_commands.specs.Answers.{Answers, ReportsFolder, status_of as status_of_end};
ghost use Rattle.mari_reach_commands.specs.Promise.{KeepsPromise};
ghost use Rattle.mari_reach_commands.specs.Words.{Job as JobAsked, task_at};
ghost use Rattle.mari_reach_commands.specs.Words.Task.{Clears, Feeds};

use crate::checking::check;
use crate::feeding::feed;
use crate::usage::usage_line;
use crate::words::{Task, read_task};
use mari_answers::{Status, say, say_no_books};
use mari_day::read_books;
use mari_io::{Shelf, Sink};
use mari_reach_accept::{printed_days_are_valid, printed_texts_are_accepted};
use mari_reach_day::{ReachEnd, reach_day, reach_days_keep};
use mari_words::WordsFault;
use std::alloc::Global;

/// The status of a day, by how it ended.
fn status_of(end: ReachEnd) -> Status
    ensures { result ≡ status_of_end end }
{
    match end {
        ReachEnd::Done { within: 0, .. } => Status::Done,
        ReachEnd::Done { .. } => Status::Unpublished,
        ReachEnd::WriteFault => Status::WriteFault,
        ReachEnd::Memory => Status::Memory,
    }
}

/// Clears the day of a folder, or says why it has no books.
fn clear<S: Shelf, K: Sink>(
    alloc: Global,
    shelf: &mut S,
    sink: &mut K,
    folder: &str,
    nodes: u32,
) -> Status
    requires { IsBudget nodes }
    ensures same { S.pages shelf.new ≡ S.pages shelf.old }
    ensures reports { ReportsFolder (S.pages shelf.old) (Rose (S.faults shelf.old) (S.faults shelf.new))
        folder.now nodes (K.taken sink.old) (K.taken sink.new) result }
    ensures promise { (reported : Pages) → S.pages shelf.old ≡ Some reported
        → KeepsPromise (record { folder = folder.now; nodes = nodes }) reported (K.taken sink.old) (K.taken sink.new) result }

    // Why a page wasn't had, or a text not written.
    ensures read_fault { Counts (result ≡ Status.ReadFault) (S.faults shelf.old) (S.faults shelf.new) }
    ensures missing { Counts (result ≡ Status.Missing) (S.misses shelf.old) (S.misses shelf.new) }
    ensures too_long { Counts (result ≡ Status.TooLong) (S.overs shelf.old) (S.overs shelf.new) }
    ensures write_fault { Counts (result ≡ Status.WriteFault) (K.faults sink.old) (K.faults sink.new) }
{
    match read_books(alloc, shelf, folder) {
        Ok(books) => {
            reach_days_keep(&books);
            printed_days_are_valid(&books);
            printed_texts_are_accepted(&books);
            status_of(reach_day(alloc, &books, nodes, sink))
        }
        Err(fault) => say_no_books(alloc, sink, fault),
    }
}

/// Does all that the program does, by the words after its name:
///
/// - `clear FOLDER [--nodes N]` answers each run of the folder's day and prints the day as it is made. A tree has at most N
///   items, 1 to `MOST_NODES`, or `USUAL_NODES` where the words don't say.
/// - `check FOLDER` checks the folder's publication.txt, which is read in pieces, against its market files.
/// - `feed FOLDER` prints the folder's publication.txt, which is read in pieces, as JSON: a line for each of its parts.
///
/// For the first two the market files of the folder are fetched in their order and then read in that order. It uses only calls
/// that return.
pub fn run_reach<S: Shelf, K: Sink>(
    alloc: Global,
    words: &[String],
    shelf: &mut S,
    sink: &mut K,
) -> Status
    // What each answer says of the words, of the pages and of what is printed; and the promise of a day that is printed whole.
    ensures answers { Answers (task_at (map string_bytes words.now)) (S.pages shelf.old) (Rose (S.faults shelf.old) (S.faults shelf.new))
        (K.taken sink.old) (K.taken sink.new) result }
    ensures promise { (job : JobAsked) (reported : Pages) → task_at (map string_bytes words.now) ≡ Some (Clears job)
        → S.pages shelf.old ≡ Some reported → KeepsPromise job reported (K.taken sink.old) (K.taken sink.new) result }
    ensures same { S.pages shelf.new ≡ S.pages shelf.old }

    // Where the words are no command, nothing is fetched.
    ensures untouched { task_at (map string_bytes words.now) ≡ None → S.fetches shelf.new ≡ S.fetches shelf.old }

    // For a feed at most one page is asked for: one call names it, and each further one is for a piece, at most one for each
    // byte that was given, and one.
    ensures alone { (folder : List ℕ) → task_at (map string_bytes words.now) ≡ Some (Feeds folder)
        → AsksForOne (S.fetches shelf.old) (S.fetches shelf.new) (S.given shelf.new) }
    ensures named { (folder : List ℕ) → task_at (map string_bytes words.now) ≡ Some (Feeds folder)
        → S.named shelf.new ≤ S.named shelf.old + 1 }

    // Why a page wasn't had, or a text not written.
    ensures read_fault { Counts (result ≡ Status.ReadFault) (S.faults shelf.old) (S.faults shelf.new) }
    ensures missing { Counts (result ≡ Status.Missing) (S.misses shelf.old) (S.misses shelf.new) }
    ensures too_long { Counts (result ≡ Status.TooLong) (S.overs shelf.old) (S.overs shelf.new) }
    ensures write_fault { Counts (result ≡ Status.WriteFault) (K.faults sink.old) (K.faults sink.new) }
{
    match read_task(alloc, words) {
        Ok(Task::Clear { folder, nodes }) => clear(alloc, shelf, sink, &folder, nodes),
        Ok(Task::Check { folder }) => check(alloc, shelf, sink, &folder),
        Ok(Task::Feed { folder }) => feed(alloc, shelf, sink, &folder),
        Err(WordsFault::Usage) => say(sink, usage_line(), Status::Usage),
        Err(WordsFault::Memory) => Status::Memory,
    }
}
