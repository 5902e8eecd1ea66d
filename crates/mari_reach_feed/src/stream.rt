//! The feed of a page that is read in pieces.

ghost use Rattle.std.specs.Prelude.{◌≡◌, Some, Err};
ghost use Rattle.mari_io.specs.Outside.{Counts, Pages, counted, page_of};
ghost use Rattle.mari_io.specs.declared.shelf.Fetch.TheVariants as fetch;
ghost use Rattle.mari_publish.specs.Streams.{AsksForPage};
ghost use Rattle.mari_feed.specs.Streams.{IsFeedFetch, IsWrapped, WroteText};
ghost use Rattle.mari_reach_feed.specs.Streams.{FeedStates, reach_line_of};
ghost use Rattle.mari_reach_feed.specs.Texts.{ReachPartFits};

use crate::part::reach_part_text;
use mari_feed::{FeedStop, print_line, stop_of};
use mari_io::{Shelf, Sink};
use mari_reach_text::{ReachKept, ReachPart};
use mari_stream::{TakesParts, read_text_parts};
use std::alloc::Global;

/// Prints the line of a part.
fn print_part<K: Sink>(alloc: Global, part: ReachPart, sink: &mut K) -> Result<(), FeedStop>
    requires { ReachPartFits part }
    ensures wrote { WroteText (reach_line_of part) (K.taken sink.old) (K.taken sink.new) result }
    ensures cause { Counts (result ≡ Err FeedStop.Sink) (K.faults sink.old) (K.faults sink.new) }
{
    let text = reach_part_text(alloc, &part);
    drop(part);
    match text {
        Ok(text) => print_line(text, sink),
        Err(_) => Err(FeedStop::Memory),
    }
}

/// What prints the line of each part.
#[derive(Drop)]
struct FeedSoFar;

impl<K: Sink> TakesParts<ReachKept, K> for FeedSoFar {
    ghost use Rattle.std.specs.Prelude.{◌≡◌};
    ghost use Rattle.mari_feed.specs.declared.stream.FeedStop.TheVariants.{Sink as SinkFailed};
    ghost use Rattle.mari_reach_feed.specs.Streams.{BrokeLine, PrintedLines};

    type Stop = FeedStop;

    ghost Took = { λ first lent now sink parts. PrintedLines (K.taken lent) (K.taken sink) parts };

    ghost Breaks = { λ first lent now sink parts part stop. BrokeLine (K.taken lent) (K.taken sink) parts part stop };

    ghost faults = { K.faults };

    ghost IsFault = { λ stop. stop ≡ SinkFailed };

    fn take(&mut self, alloc: Global, part: ReachPart, sink: &mut K) -> Result<(), FeedStop> {
        print_part(alloc, part, sink)
    }
}

/// Prints the day of the second form whose text is the page of that name: a line of compact JSON for each part. The page
/// is read in pieces. A fault of the text is reported after the lines of all parts that are whole before it. After a
/// fault of the shelf, or when out of memory, the lines of the first parts are printed, or of none; after a failed write
/// a first part of such lines. Over a shelf that doesn't report its pages nothing is said of what was printed.
pub fn print_reach_feed<S: Shelf, K: Sink>(
    alloc: Global,
    shelf: &mut S,
    name: &str,
    sink: &mut K,
) -> Result<(), FeedStop>
    ensures same { S.pages shelf.new ≡ S.pages shelf.old }

    // What is said of the page and of what was printed, where pages are reported.
    ensures reported { (reported : Pages) → S.pages shelf.old ≡ Some reported
        → FeedStates (page_of reported name.now) (K.taken sink.old) (K.taken sink.new) result }

    // The shelf is asked for no other page: one call names a page, and each further one is for a piece, at most one for
    // each byte that was given, and one.
    ensures fetched { AsksForPage (IsFeedFetch fetch.Missing result) (S.fetches shelf.old) (S.fetches shelf.new) (S.given shelf.new) }
    ensures named { S.named shelf.new ≡ counted (S.named shelf.old) }

    // Why it stopped. That there is no memory is said as such.
    ensures memory { IsWrapped result → ⊥ }
    ensures failed { Counts (IsFeedFetch fetch.Failed result) (S.faults shelf.old) (S.faults shelf.new) }
    ensures missing { Counts (IsFeedFetch fetch.Missing result) (S.misses shelf.old) (S.misses shelf.new) }
    ensures too_long { Counts (IsFeedFetch fetch.TooLong result) (S.overs shelf.old) (S.overs shelf.new) }
    ensures written { Counts (result ≡ Err FeedStop.Sink) (K.faults sink.old) (K.faults sink.new) }
{
    match read_text_parts::<K, S, ReachKept, FeedSoFar>(alloc, shelf, name, &mut FeedSoFar, sink) {
        Ok(()) => Ok(()),
        Err(stop) => Err(stop_of(stop)),
    }
}
