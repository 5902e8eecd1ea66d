//! The feed of a page that is read in pieces.

ghost use Rattle.std.specs.Prelude.{◌≡◌, ◌++◌, ◌∷◌, [], ℕ, List, Result as Res, Some, Err};
ghost use Rattle.mari_io.specs.Outside.{Counts, Pages, counted, page_of};
ghost use Rattle.mari_io.specs.declared.shelf.Fetch.TheVariants as fetch;
ghost use Rattle.mari_publish.specs.Faults.{IsOutcome};
ghost use Rattle.mari_publish.specs.declared.fault.TextFault.{TextFault as TheTextFault};
ghost use Rattle.mari_publish.specs.declared.publication.Publication.{Publication as ThePublication};
ghost use Rattle.mari_publish.specs.Ranges.{PartFits};
ghost use Rattle.mari_publish.specs.Streams.{AsksForPage};
ghost use Rattle.mari_feed.specs.Streams.{FeedStates, IsFeedFetch, IsWrapped, SameAsRead, WroteText, feed_stop, line_of};

use crate::part::part_text;
use mari_io::{Fetch, Shelf, Sink, write_all};
use mari_publish::{Part, PartsSoFar, ReadStop, TextFault, read_parts};
use mari_units::put;
use std::alloc::Global;

/// Why the printing stops before its end.
#[derive(Clone, Copy, Debug, PartialEq, Eq)]
pub enum FeedStop {
    /// The shelf gave no page, or no further piece; never when out of memory.
    Fetch(Fetch),
    /// The text has this fault; never when out of memory.
    Text(TextFault),
    /// A write failed.
    Sink,
    /// Out of memory, for a piece, a part or a line.
    Memory,
}

/// Prints a text as a line.
pub fn print_line<K: Sink>(mut text: Vec<u8>, sink: &mut K) -> Result<(), FeedStop>
    ensures wrote { WroteText (text.items ++ 10 ∷ []) (K.taken sink.old) (K.taken sink.new) result }
    ensures cause { Counts (result ≡ Err FeedStop.Sink) (K.faults sink.old) (K.faults sink.new) }
{
    if put(&mut text, b"\n").is_err() {
        return Err(FeedStop::Memory);
    }
    match write_all(sink, &text) {
        Ok(()) => Ok(()),
        Err(_) => Err(FeedStop::Sink),
    }
}

/// Prints the line of a part.
fn print_part<K: Sink>(alloc: Global, part: Part, sink: &mut K) -> Result<(), FeedStop>
    requires { PartFits part }
    ensures wrote { WroteText (line_of part) (K.taken sink.old) (K.taken sink.new) result }
    ensures cause { Counts (result ≡ Err FeedStop.Sink) (K.faults sink.old) (K.faults sink.new) }
{
    let text = part_text(alloc, &part);
    drop(part);
    match text {
        Ok(text) => print_line(text, sink),
        Err(_) => Err(FeedStop::Memory),
    }
}

/// What prints the line of each part.
#[derive(Drop)]
struct FeedSoFar;

impl<K: Sink> PartsSoFar<K> for FeedSoFar {
    ghost use Rattle.std.specs.Prelude.{◌≡◌};
    ghost use Rattle.mari_feed.specs.Streams.{BrokeLine, PrintedLines};
    ghost use Rattle.mari_feed.specs.declared.stream.FeedStop.TheVariants.{Sink as SinkFailed};

    type Stop = FeedStop;

    ghost Took = { λ first lent now sink parts. PrintedLines (K.taken lent) (K.taken sink) parts };

    ghost Breaks = { λ first lent now sink parts part stop. BrokeLine (K.taken lent) (K.taken sink) parts part stop };

    ghost faults = { K.faults };

    ghost IsFault = { λ stop. stop ≡ SinkFailed };

    fn take(&mut self, alloc: Global, part: Part, sink: &mut K) -> Result<(), FeedStop> {
        print_part(alloc, part, sink)
    }
}

/// Why the printing stops, by why the reading does.
pub fn stop_of(stop: ReadStop<FeedStop>) -> FeedStop
    ensures { result ≡ feed_stop stop }
{
    match stop {
        ReadStop::Unopened(fault) => FeedStop::Fetch(fault),
        ReadStop::Fetch(fault) => FeedStop::Fetch(fault),
        ReadStop::Text(fault) => FeedStop::Text(fault),
        ReadStop::Part(stop) => stop,
        ReadStop::Memory => FeedStop::Memory,
    }
}

/// Prints the publication whose text is the page of that name: a line of compact JSON for each part. The page is read
/// in pieces. A fault of the text is reported after the lines of all parts that are whole before it. After a fault of the
/// shelf, or when out of memory, the lines of the first parts are printed, or of none; after a failed write a first part
/// of such lines. Over a shelf that doesn't report its pages nothing is said of what was printed.
pub fn print_feed<S: Shelf, K: Sink>(
    alloc: Global,
    shelf: &mut S,
    name: &str,
    sink: &mut K,
) -> Result<(), FeedStop>
    ensures same { S.pages shelf.new ≡ S.pages shelf.old }

    // What is said of the page and of what was printed, where pages are reported.
    ensures reported { (reported : Pages) → S.pages shelf.old ≡ Some reported
        → FeedStates (page_of reported name.now) (K.taken sink.old) (K.taken sink.new) result }

    // Nothing else is said of that page than of the page read whole.
    ensures whole { (reported : Pages) (page : List ℕ) (answer : Res ThePublication TheTextFault)
        → S.pages shelf.old ≡ Some reported → page_of reported name.now ≡ Some page → IsOutcome page answer → SameAsRead answer result }

    // The shelf is asked for no other page: one call names a page, and each further one is for a piece, at most one for
    // each byte that was given, and one.
    ensures fetched { AsksForPage (IsFeedFetch fetch.Missing result) (S.fetches shelf.old) (S.fetches shelf.new) (S.given shelf.new) }
    ensures named { S.named shelf.new ≡ counted (S.named shelf.old) }

    // Why it stopped. That there is no memory is said as such.
    ensures memory { IsWrapped result → ⊥ }
    ensures failed { Counts (IsFeedFetch fetch.Failed result) (S.faults shelf.old) (S.faults shelf.new) }
    ensures missing { Counts (IsFeedFetch fetch.Missing result) (S.misses shelf.old) (S.misses shelf.new) }
    ensures too_long { Counts (IsFeedFetch fetch.TooLong result) (S.overs shelf.old) (S.overs shelf.new) }
    ensures written { Counts (result ≡ Err FeedStop.Sink) (K.faults sink.old) (K.faults sink.new) }
{
    match read_parts(alloc, shelf, name, &mut FeedSoFar, sink) {
        Ok(()) => Ok(()),
        Err(stop) => Err(stop_of(stop)),
    }
}
