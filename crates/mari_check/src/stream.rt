//! The check of a publication that is read in pieces.

ghost use Rattle.std.specs.Prelude.{◌≡◌, ◌≤◌, ◌+◌, ◌⊎◌, ◌++◌, ◌∷◌, [], ℕ, List, Result as Res, Some, IfErr, IfOk};
ghost use Rattle.mari_io.specs.Outside.{Counts, Pages, page_of};
ghost use Rattle.mari_io.specs.declared.shelf.Fetch.TheVariants as fetch;
ghost use Rattle.mari_publish.specs.Faults.{IsOutcome};
ghost use Rattle.mari_publish.specs.declared.fault.TextFault.{TextFault as TheTextFault};
ghost use Rattle.mari_publish.specs.declared.publication.Part.{Part as ThePart};
ghost use Rattle.mari_publish.specs.declared.publication.Publication.{Publication as ThePublication};
ghost use Rattle.mari_remain.specs.Accepted.{IsAccepted};
ghost use Rattle.mari_publish.specs.Streams.{AsksForPage};
ghost use Rattle.mari_check.specs.Streams.{Comes, FaultStops, IsOpen, IsStreamFetch, IsVerdictSoFar, IsWrapped, SameAsRead, StreamStates, stream_fault};

use crate::day::DayCheck;
use crate::verdict::Verdict;
use mari_io::{Fetch, Shelf};
use mari_publish::{Part, PartsSoFar, ReadStop, TextFault, read_parts};
use mari_remain::Books;
use mari_units::Memory;
use std::alloc::Global;

/// Why there is no verdict.
#[derive(Clone, Copy, Debug, PartialEq, Eq)]
pub enum StreamFault {
    /// The shelf gave no page, or no further piece.
    Fetch(Fetch),
    /// The text is that of no publication.
    Text(TextFault),
    /// Out of memory, which is never reported as a fault of the shelf or of the text.
    Memory,
}

impl DayCheck {
    /// The verdict as soon as this part settles it, after parts that didn't.
    fn part(&mut self, alloc: Global, books: &Books, part: &Part) -> Result<Option<Verdict>, Memory>
        requires accepted { IsAccepted books.now }
        requires comes { (parts : List ThePart) × IsOpen books.now parts self.old × Comes parts part.now }
        ensures { (parts : List ThePart) → IsOpen books.now parts self.old → Comes parts part.now
            → IfOk result (IsVerdictSoFar books.now (parts ++ part.now ∷ []) self.new) }
    {
        match part {
            Part::Head {
                date,
                quarters,
                budget,
            } => Ok(self.head_verdict(books, date, *quarters, *budget)),
            Part::Block(block) => self.block_verdict(alloc, books, block),
            Part::Totals {
                operators,
                providers,
            } => {
                let lines = operators.as_slice();
                Ok(Some(self.end(books, lines, providers.as_slice())))
            }
        }
    }
}

/// What keeps the verdict on the parts that have come.
#[derive(Drop)]
struct VerdictSoFar<'a> {
    books: &'a Books,
    day: DayCheck,
    found: Option<Verdict>,
}

impl<'a> PartsSoFar<()> for VerdictSoFar<'a> {
    ghost use Rattle.std.specs.Prelude.{⊤};
    ghost use Rattle.mari_check.specs.SoFar.{KeepsVerdict};

    type Stop = Memory;

    ghost Took = { λ first lent now left parts. KeepsVerdict first.books.now parts now };

    ghost Breaks = { λ first lent now left parts part stop. ⊤ };

    ghost faults = { λ lent. 0 };

    ghost IsFault = { λ stop. ⊥ };

    /// Takes a part. What is settled stays so.
    fn take(&mut self, alloc: Global, part: Part, _with: &mut ()) -> Result<(), Memory> {
        if self.found.is_some() {
            drop(part);
            return Ok(());
        }
        let found = self.day.part(alloc, self.books, &part);
        drop(part);
        self.found = found?;
        Ok(())
    }
}

/// Why there is no verdict, by why the page isn't read to its end.
fn fault_of(stop: ReadStop<Memory>) -> StreamFault
    ensures { result ≡ stream_fault stop }
{
    match stop {
        ReadStop::Unopened(fault) => StreamFault::Fetch(fault),
        ReadStop::Fetch(fault) => StreamFault::Fetch(fault),
        ReadStop::Text(fault) => StreamFault::Text(fault),
        ReadStop::Part(_) => StreamFault::Memory,
        ReadStop::Memory => StreamFault::Memory,
    }
}

/// The verdict on the publication whose text is the page of that name, which is read in pieces; or the first fault of
/// the text. A fault of the text is answered as soon as it has come, and before any fault that the check finds.
pub fn check_stream<S: Shelf>(
    alloc: Global,
    books: &Books,
    shelf: &mut S,
    name: &str,
) -> Result<Verdict, StreamFault>
    requires accepted { IsAccepted books.now }
    ensures same { S.pages shelf.new ≡ S.pages shelf.old }

    // What it says of the page, where pages are reported; and that nothing else is said of that page, whole.
    ensures reported { (reported : Pages) → S.pages shelf.old ≡ Some reported → StreamStates books.now (page_of reported name.now) result }
    ensures whole { (reported : Pages) (page : List ℕ) (answer : Res ThePublication TheTextFault)
        → S.pages shelf.old ≡ Some reported → page_of reported name.now ≡ Some page → IsOutcome page answer → SameAsRead books.now answer result }

    // After a fault of a line nothing more is read.
    ensures stops { (reported : Pages) (page : List ℕ) → S.pages shelf.old ≡ Some reported → page_of reported name.now ≡ Some page
        → IfErr result (FaultStops S.rest S.fetches page shelf.new) }

    // The shelf is asked for no other page: one call names a page, and each further one is for a piece, at most one for
    // each byte that was given, and one. Where there is no memory for the check, it isn't asked.
    ensures fetched { (S.fetches shelf.new ≡ S.fetches shelf.old)
        ⊎ AsksForPage (IsStreamFetch fetch.Missing result) (S.fetches shelf.old) (S.fetches shelf.new) (S.given shelf.new) }
    ensures named { S.named shelf.new ≤ S.named shelf.old + 1 }

    // Why there is no verdict. Out of memory is reported as such.
    ensures memory { IsWrapped result → ⊥ }
    ensures failed { Counts (IsStreamFetch fetch.Failed result) (S.faults shelf.old) (S.faults shelf.new) }
    ensures missing { Counts (IsStreamFetch fetch.Missing result) (S.misses shelf.old) (S.misses shelf.new) }
    ensures too_long { Counts (IsStreamFetch fetch.TooLong result) (S.overs shelf.old) (S.overs shelf.new) }
{
    let day = match DayCheck::start(alloc, books) {
        Ok(day) => day,
        Err(_) => return Err(StreamFault::Memory),
    };
    let mut so_far = VerdictSoFar {
        books,
        day,
        found: None,
    };
    match read_parts(alloc, shelf, name, &mut so_far, &mut ()) {
        Ok(()) => Ok(so_far.found.unwrap()),
        Err(stop) => Err(fault_of(stop)),
    }
}
