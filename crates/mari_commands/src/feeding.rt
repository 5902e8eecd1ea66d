//! `feed FOLDER`: a folder's publication as JSON, a line for each of its parts.

ghost use Rattle.std.specs.Prelude.{◌≡◌, ◌≤◌, ◌+◌};
ghost use Rattle.mari_io.specs.Outside.{Counts, Rose};
ghost use Rattle.mari_answers.specs.Reports.{AsksForOne};
ghost use Rattle.mari_commands.specs.Outcome.{ReportsParts};

use mari_answers::{Status, say_no_page, say_text_fault};
use mari_day::{PUBLICATION, file_name, path_in};
use mari_feed::{FeedStop, print_feed};
use mari_io::{Shelf, Sink};
use std::alloc::Global;

/// Prints the feed of a folder's publication, which is read in pieces, and then the line of the status, where it has
/// one. Of the folder it reads the publication alone.
#[tactic(auto, using(mari_answers::proofs::Asking::one_page))]
pub fn fed<S: Shelf, K: Sink>(alloc: Global, shelf: &mut S, sink: &mut K, folder: &str) -> Status
    ensures same { S.pages shelf.new ≡ S.pages shelf.old }
    ensures fetched { AsksForOne (S.fetches shelf.old) (S.fetches shelf.new) (S.given shelf.new) }
    ensures named { S.named shelf.new ≤ S.named shelf.old + 1 }
    ensures reported { ReportsParts (S.pages shelf.old) (Rose (S.faults shelf.old) (S.faults shelf.new)) folder.now
        (K.taken sink.old) (K.taken sink.new) result }

    // Why the page wasn't had, or a text not written.
    ensures read_fault { Counts (result ≡ Status.ReadFault) (S.faults shelf.old) (S.faults shelf.new) }
    ensures missing { Counts (result ≡ Status.Missing) (S.misses shelf.old) (S.misses shelf.new) }
    ensures too_long { Counts (result ≡ Status.TooLong) (S.overs shelf.old) (S.overs shelf.new) }
    ensures cause { Counts (result ≡ Status.WriteFault) (K.faults sink.old) (K.faults sink.new) }
{
    let Ok(path) = path_in(alloc, folder, file_name(PUBLICATION)) else {
        return Status::Memory;
    };
    match print_feed(alloc, shelf, &path, sink) {
        Ok(()) => Status::Done,
        Err(FeedStop::Fetch(why)) => say_no_page(alloc, sink, PUBLICATION, why),
        Err(FeedStop::Text(fault)) => say_text_fault(alloc, sink, fault),
        Err(FeedStop::Sink) => Status::WriteFault,
        Err(FeedStop::Memory) => Status::Memory,
    }
}
