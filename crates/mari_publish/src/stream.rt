//! A publication that is read in pieces, by whatever takes its parts.
//!
//! What takes parts is an `impl` of `PartsSoFar`; `read_parts` reads a page for any of them.

ghost use Rattle.std.specs.Prelude.{◌≡◌, ◌++◌, ◌∷◌, [], ℕ, List, Result as Res, Some, true, IfErr, IsErrAnd, OnOk};
ghost use Rattle.mari_io.specs.Outside.{Counts, Pages, counted, page_of};
ghost use Rattle.mari_io.specs.declared.shelf.Fetch.TheVariants as fetch;
ghost use Rattle.mari_publish.specs.Pieces.{ComesFrom, HasPart};
ghost use Rattle.mari_publish.specs.declared.publication.Part.{Part as ThePart};
ghost use Rattle.mari_publish.specs.Streams.{AsksForPage, AsksForPieces, HasTaken, IsPartFault, IsReadFetch, IsUnopened, IsWrapped, PartsReport, PiecesReport, ReadStates, ReadStops, SomePieces, SomeStates, stop_of_fetch, stop_of_opening, stop_of_text};

use crate::fault::TextFault;
use crate::publication::Part;
use crate::reader::TextReader;
use mari_io::{Fetch, Shelf};
use std::alloc::Global;

/// Why a page isn't read to its end.
#[derive(Clone, Copy, Debug, PartialEq, Eq)]
pub enum ReadStop<T> {
    /// The shelf gave no page; never when out of memory.
    Unopened(Fetch),
    /// The shelf gave no further piece; never when out of memory.
    Fetch(Fetch),
    /// The text has this fault; never when out of memory.
    Text(TextFault),
    /// A part wasn't taken.
    Part(T),
    /// Out of memory, for the text or for a part of it.
    Memory,
}

/// What takes the parts of a publication as they come. `W` is what is lent for it, such as where something is written of
/// each part.
pub trait PartsSoFar<W> {
    /// Why a part isn't taken.
    type Stop;

    /// These parts were taken: from the first two states on, by now the last two.
    ghost Took: { Self → W → Self → W → List ThePart → Type 0 };

    /// The same, and then this part wasn't taken, for this reason.
    ghost Breaks: { Self → W → Self → W → List ThePart → ThePart → Self.Stop → Type 0 };

    /// A count of faults that what is lent keeps.
    ghost faults: { W → ℕ };

    /// It comes of a fault that is counted there.
    ghost IsFault: { Self.Stop → Type 0 };

    /// Takes one part more. After an error it is used no more.
    fn take(&mut self, alloc: Global, part: Part, with: &mut W) -> Result<(), Self::Stop>
        requires { (first : Self) × (lent : W) × (text : List ℕ) × (parts : List ThePart) × Took first lent self.old with.old parts × HasPart text parts part }
        ensures took { (first : Self) (lent : W) (text : List ℕ) (parts : List ThePart) → Took first lent self.old with.old parts → HasPart text parts part
            → OnOk result (Took first lent self.new with.new (parts ++ part ∷ [])) }
        ensures breaks { (first : Self) (lent : W) (text : List ℕ) (parts : List ThePart) → Took first lent self.old with.old parts → HasPart text parts part
            → IfErr result (Breaks first lent self.new with.new parts part) }
        ensures cause { Counts (IsErrAnd result IsFault) (faults with.old) (faults with.new) };
}

/// What a fault of the shelf is reported as where no page was opened.
fn stop_unopened<T>(fault: Fetch) -> ReadStop<T>
    ensures { result ≡ stop_of_opening fault }
{
    match fault {
        Fetch::Memory => ReadStop::Memory,
        other => ReadStop::Unopened(other),
    }
}

/// What a fault of the shelf is reported as once a page is open.
fn stop_of_shelf<T>(fault: Fetch) -> ReadStop<T>
    ensures { result ≡ stop_of_fetch fault }
{
    match fault {
        Fetch::Memory => ReadStop::Memory,
        other => ReadStop::Fetch(other),
    }
}

/// What a fault of the text is reported as.
fn stop_of_reader<T>(fault: TextFault) -> ReadStop<T>
    ensures { result ≡ stop_of_text fault }
{
    match fault {
        TextFault::Memory => ReadStop::Memory,
        other => ReadStop::Text(other),
    }
}

/// Takes all parts that have come, up to a fault of the text.
fn take_parts<W, P: PartsSoFar<W>>(
    alloc: Global,
    reader: &mut TextReader,
    so_far: &mut P,
    with: &mut W,
) -> Result<(), ReadStop<P::Stop>>
    requires { (first : P) × (lent : W) × (text : List ℕ) × (parts : List ThePart)
        × HasTaken (P.Took first lent so_far.old with.old) text parts reader.old.come }
    ensures report { (first : P) (lent : W) (text : List ℕ) (parts : List ThePart) → HasTaken (P.Took first lent so_far.old with.old) text parts reader.old.come
        → PartsReport (P.Took first lent so_far.new with.new) (P.Breaks first lent so_far.new with.new) text reader.new result }
    ensures written { Counts (IsPartFault P.IsFault result) (P.faults with.old) (P.faults with.new) }
{
    'parts: loop {
        match reader.next(alloc) {
            Ok(Some(part)) => match so_far.take(alloc, part, with) {
                Ok(()) => {}
                Err(stop) => return Err(ReadStop::Part(stop)),
            },
            Ok(None) => return Ok(()),
            Err(fault) => return Err(stop_of_reader(fault)),
        }
    }
}

/// Reads the page that is open to its end, piece by piece, up to a fault.
fn read_pieces<W, S: Shelf, P: PartsSoFar<W>>(
    alloc: Global,
    shelf: &mut S,
    reader: &mut TextReader,
    so_far: &mut P,
    with: &mut W,
) -> Result<(), ReadStop<P::Stop>>
    // Nothing of the publication is read yet.
    requires open { S.is_open shelf.old ≡ true }
    requires given { S.given shelf.old ≡ 0 }
    requires stands { ComesFrom reader.old.come [] [] }
    requires none { P.Took so_far.old with.old so_far.old with.old [] }

    // What was read: on any shelf, and where what was left of the page is reported.
    ensures same { S.pages shelf.new ≡ S.pages shelf.old }
    ensures any { SomePieces (P.Took so_far.old with.old so_far.new with.new) (P.Breaks so_far.old with.old so_far.new with.new) reader.new result }
    ensures reported { (page : List ℕ) → S.rest shelf.old ≡ Some page
        → PiecesReport (P.Took so_far.old with.old so_far.new with.new) (P.Breaks so_far.old with.old so_far.new with.new) page reader.new result }
    ensures stops { (page : List ℕ) → S.rest shelf.old ≡ Some page → IfErr result (ReadStops S.rest S.fetches page shelf.new) }
    ensures fetched { AsksForPieces (S.fetches shelf.old) (S.fetches shelf.new) (S.given shelf.new) }
    ensures named { S.named shelf.new ≡ S.named shelf.old }

    // Why it wasn't read to its end. Out of memory is reported as such.
    ensures opened { IsUnopened result → ⊥ }
    ensures memory { IsWrapped result → ⊥ }
    ensures failed { Counts (IsReadFetch fetch.Failed result) (S.faults shelf.old) (S.faults shelf.new) }
    ensures missing { Counts (IsReadFetch fetch.Missing result) (S.misses shelf.old) (S.misses shelf.new) }
    ensures too_long { Counts (IsReadFetch fetch.TooLong result) (S.overs shelf.old) (S.overs shelf.new) }
    ensures written { Counts (IsPartFault P.IsFault result) (P.faults with.old) (P.faults with.new) }
{
    let mut piece = Vec::new(alloc);
    'pieces: loop {
        piece.clear();
        let count = match shelf.next_piece(&mut piece) {
            Ok(count) => count,
            Err(fault) => return Err(stop_of_shelf(fault)),
        };
        match reader.push(piece.as_slice()) {
            Ok(()) => {}
            Err(_) => return Err(ReadStop::Memory),
        }
        match take_parts(alloc, reader, so_far, with) {
            Ok(()) => {}
            Err(stop) => return Err(stop),
        }
        if count == 0 {
            return Ok(());
        }
    }
}

/// Reads the publication whose text is the page of that name, in pieces, and has its parts taken. Where pages are reported,
/// a fault of the text is reported after all parts that are whole before it were taken.
pub fn read_parts<W, S: Shelf, P: PartsSoFar<W>>(
    alloc: Global,
    shelf: &mut S,
    name: &str,
    so_far: &mut P,
    with: &mut W,
) -> Result<(), ReadStop<P::Stop>>
    // No part is taken yet.
    requires { P.Took so_far.old with.old so_far.old with.old [] }

    // What was taken: on any shelf, and where pages are reported.
    ensures same { S.pages shelf.new ≡ S.pages shelf.old }
    ensures any { SomeStates (P.Took so_far.old with.old so_far.new with.new) (P.Breaks so_far.old with.old so_far.new with.new) result }
    ensures reported { (reported : Pages) → S.pages shelf.old ≡ Some reported
        → ReadStates (P.Took so_far.old with.old so_far.new with.new) (P.Breaks so_far.old with.old so_far.new with.new) (page_of reported name.now) result }

    // After a fault of a line nothing more is read.
    ensures stops { (reported : Pages) (page : List ℕ) → S.pages shelf.old ≡ Some reported → page_of reported name.now ≡ Some page
        → IfErr result (ReadStops S.rest S.fetches page shelf.new) }

    // The shelf is asked for no other page: one call names a page, and each further one is for a piece, at most one for
    // each byte that was given, and one.
    ensures fetched { AsksForPage (IsUnopened result) (S.fetches shelf.old) (S.fetches shelf.new) (S.given shelf.new) }
    ensures named { S.named shelf.new ≡ counted (S.named shelf.old) }

    // Why it wasn't read to its end. Out of memory is reported as such.
    ensures memory { IsWrapped result → ⊥ }
    ensures failed { Counts (IsReadFetch fetch.Failed result) (S.faults shelf.old) (S.faults shelf.new) }
    ensures missing { Counts (IsReadFetch fetch.Missing result) (S.misses shelf.old) (S.misses shelf.new) }
    ensures too_long { Counts (IsReadFetch fetch.TooLong result) (S.overs shelf.old) (S.overs shelf.new) }
    ensures written { Counts (IsPartFault P.IsFault result) (P.faults with.old) (P.faults with.new) }
{
    match shelf.open_page(name) {
        Ok(()) => {}
        Err(fault) => return Err(stop_unopened(fault)),
    }
    let mut reader = TextReader::start(alloc);
    match read_pieces(alloc, shelf, &mut reader, so_far, with) {
        Ok(()) => match reader.end() {
            Ok(()) => Ok(()),
            Err(fault) => Err(stop_of_reader(fault)),
        },
        Err(stop) => {
            drop(reader);
            Err(stop)
        }
    }
}
