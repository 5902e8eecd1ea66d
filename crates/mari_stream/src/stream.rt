//! A page of a form's text that is read in pieces, by whatever takes its parts.

ghost use Rattle.std.specs.Prelude.{◌≡◌, ◌≤◌, ◌++◌, ◌∷◌, [], ℕ, List, Option, Some, true, vec_len, IfErr, IsErrAnd, OnOk};
ghost use Rattle.mari_io.specs.Outside.{Counts, Pages, counted, page_of};
ghost use Rattle.mari_io.specs.declared.shelf.Fetch.TheVariants as fetch;
ghost use Rattle.mari_io.specs.declared.shelf.Fetch.{Fetch as AnyFetch};
ghost use Rattle.mari_publish.specs.Streams.{AsksForPage, AsksForPieces, IsPartFault, IsReadFetch, IsUnopened, IsWrapped};
ghost use Rattle.mari_publish.specs.Streams.{stop_of_fetch, stop_of_opening, stop_of_text};
ghost use Rattle.mari_stream.specs.Coming.{AllCome, come_of};
ghost use Rattle.mari_stream.specs.Forms.{HasPart};
ghost use Rattle.mari_stream.specs.Streams.{HasTaken, PartsReport, PiecesReport, ReadStates, ReadStops, SomePieces, SomeStates};

use crate::coming::{Coming, append, end, keep_lines, next_part, nothing_come};
use crate::form::TextForm;
use mari_io::{Fetch, Shelf};
use mari_publish::{ReadStop, TextFault};
use std::alloc::Global;

/// What takes the parts of a text of the form `F` as they come. `W` is what is lent for it, such as where something is
/// written of each part.
pub trait TakesParts<F: TextForm, W> {
    /// Why a part isn't taken.
    type Stop;

    /// These parts were taken: from the first two states on, by now the last two.
    ghost Took: { Self → W → Self → W → List F.Part → Type 0 };

    /// The same, and then this part wasn't taken, for this reason.
    ghost Breaks: { Self → W → Self → W → List F.Part → F.Part → Self.Stop → Type 0 };

    /// A count of faults that what is lent keeps.
    ghost faults: { W → ℕ };

    /// It comes of a fault that is counted there.
    ghost IsFault: { Self.Stop → Type 0 };

    /// Takes one part more. After an error it is used no more.
    fn take(&mut self, alloc: Global, part: F::Part, with: &mut W) -> Result<(), Self::Stop>
        requires { (first : Self) × (lent : W) × (text : List ℕ) × (parts : List F.Part)
            × Took first lent self.old with.old parts × HasPart F.form text parts part }
        ensures took { (first : Self) (lent : W) (text : List ℕ) (parts : List F.Part)
            → Took first lent self.old with.old parts → HasPart F.form text parts part
            → OnOk result (Took first lent self.new with.new (parts ++ part ∷ [])) }
        ensures breaks { (first : Self) (lent : W) (text : List ℕ) (parts : List F.Part)
            → Took first lent self.old with.old parts → HasPart F.form text parts part
            → IfErr result (Breaks first lent self.new with.new parts part) }
        ensures cause { Counts (IsErrAnd result IsFault) (faults with.old) (faults with.new) };
}

/// What a fault of the shelf is reported as where no page was opened.
fn stop_unopened<T>(fault: Fetch) -> ReadStop<T>
    ensures { result ≡ stop_of_opening fault }
{
    match fault {
        Fetch::Memory => ReadStop::Memory,
        other => ReadStop::Unopened(other),
    }
}

/// What a fault of the shelf is reported as once a page is open.
fn stop_of_shelf<T>(fault: Fetch) -> ReadStop<T>
    ensures { result ≡ stop_of_fetch fault }
{
    match fault {
        Fetch::Memory => ReadStop::Memory,
        other => ReadStop::Fetch(other),
    }
}

/// What a fault of the text is reported as.
fn stop_of_form<T>(fault: TextFault) -> ReadStop<T>
    ensures { result ≡ stop_of_text fault }
{
    match fault {
        TextFault::Memory => ReadStop::Memory,
        other => ReadStop::Text(other),
    }
}

/// Takes all parts that have come, up to a fault of the text.
fn take_parts<W, F: TextForm, P: TakesParts<F, W>>(
    alloc: Global,
    coming: &mut Coming<F>,
    so_far: &mut P,
    with: &mut W,
) -> Result<(), ReadStop<P::Stop>>
    requires handled { coming.old.handled ≤ vec_len coming.old.bytes }
    requires taken { (first : P) × (lent : W) × (text : List ℕ) × (parts : List F.Part)
        × HasTaken F.form (P.Took first lent so_far.old with.old) text parts (come_of coming.old) }
    ensures handled { coming.new.handled ≤ vec_len coming.new.bytes }
    ensures report { (first : P) (lent : W) (text : List ℕ) (parts : List F.Part)
        → HasTaken F.form (P.Took first lent so_far.old with.old) text parts (come_of coming.old)
        → PartsReport F.form (P.Took first lent so_far.new with.new) (P.Breaks first lent so_far.new with.new) text (come_of coming.new) result }

    // It is no fault of the shelf, and out of memory is reported as such.
    ensures opened { IsUnopened result → ⊥ }
    ensures fetch { (fault : AnyFetch) → IsReadFetch fault result → ⊥ }
    ensures memory { IsWrapped result → ⊥ }
    ensures written { Counts (IsPartFault P.IsFault result) (P.faults with.old) (P.faults with.new) }
{
    'parts: loop {
        match next_part(alloc, coming) {
            Ok(Some(part)) => match so_far.take(alloc, part, with) {
                Ok(()) => {}
                Err(stop) => return Err(ReadStop::Part(stop)),
            },
            Ok(None) => return Ok(()),
            Err(fault) => return Err(stop_of_form(fault)),
        }
    }
}

/// Reads the page that is open to its end, piece by piece, up to a fault.
fn read_pieces<W, S: Shelf, F: TextForm, P: TakesParts<F, W>>(
    alloc: Global,
    shelf: &mut S,
    coming: &mut Coming<F>,
    so_far: &mut P,
    with: &mut W,
) -> Result<(), ReadStop<P::Stop>>
    // Nothing of the text is read yet.
    requires open { S.is_open shelf.old ≡ true }
    requires given { S.given shelf.old ≡ 0 }
    requires handled { coming.old.handled ≤ vec_len coming.old.bytes }
    requires nothing { AllCome F.form (come_of coming.old) [] [] }
    requires none { P.Took so_far.old with.old so_far.old with.old [] }

    // What was read: on any shelf, and where what was left of the page is reported.
    ensures same { S.pages shelf.new ≡ S.pages shelf.old }
    ensures handled { coming.new.handled ≤ vec_len coming.new.bytes }
    ensures any { SomePieces F.form (P.Took so_far.old with.old so_far.new with.new) (P.Breaks so_far.old with.old so_far.new with.new)
        (come_of coming.new) result }
    ensures reported { (page : List ℕ) → S.rest shelf.old ≡ Some page
        → PiecesReport F.form (P.Took so_far.old with.old so_far.new with.new) (P.Breaks so_far.old with.old so_far.new with.new)
        page (come_of coming.new) result }
    ensures stops { (page : List ℕ) → S.rest shelf.old ≡ Some page → IfErr result (ReadStops F.form S.rest S.fetches page shelf.new) }
    ensures fetched { AsksForPieces (S.fetches shelf.old) (S.fetches shelf.new) (S.given shelf.new) }
    ensures named { S.named shelf.new ≡ S.named shelf.old }

    // Why it wasn't read to its end. Out of memory is reported as such.
    ensures opened { IsUnopened result → ⊥ }
    ensures memory { IsWrapped result → ⊥ }
    ensures failed { Counts (IsReadFetch fetch.Failed result) (S.faults shelf.old) (S.faults shelf.new) }
    ensures missing { Counts (IsReadFetch fetch.Missing result) (S.misses shelf.old) (S.misses shelf.new) }
    ensures too_long { Counts (IsReadFetch fetch.TooLong result) (S.overs shelf.old) (S.overs shelf.new) }
    ensures written { Counts (IsPartFault P.IsFault result) (P.faults with.old) (P.faults with.new) }
{
    keep_lines::<F>();
    let mut piece = Vec::new(alloc);
    'pieces: loop {
        piece.clear();
        let count = match shelf.next_piece(&mut piece) {
            Ok(count) => count,
            Err(fault) => return Err(stop_of_shelf(fault)),
        };
        match append(coming, piece.as_slice()) {
            Ok(()) => {}
            Err(_) => return Err(ReadStop::Memory),
        }
        match take_parts(alloc, coming, so_far, with) {
            Ok(()) => {}
            Err(stop) => return Err(stop),
        }
        if count == 0 {
            return Ok(());
        }
    }
}

/// Reads the text of the form that is the page of that name, in pieces, and has its parts taken. Where pages are reported, a
/// fault of the text is reported after all parts that are whole before it were taken.
pub fn read_text_parts<W, S: Shelf, F: TextForm, P: TakesParts<F, W>>(
    alloc: Global,
    shelf: &mut S,
    name: &str,
    so_far: &mut P,
    with: &mut W,
) -> Result<(), ReadStop<P::Stop>>
    // No part is taken yet.
    requires { P.Took so_far.old with.old so_far.old with.old [] }

    // What was taken: on any shelf, and where pages are reported.
    ensures same { S.pages shelf.new ≡ S.pages shelf.old }
    ensures any { SomeStates F.form (P.Took so_far.old with.old so_far.new with.new) (P.Breaks so_far.old with.old so_far.new with.new) result }
    ensures reported { (reported : Pages) → S.pages shelf.old ≡ Some reported
        → ReadStates F.form (P.Took so_far.old with.old so_far.new with.new) (P.Breaks so_far.old with.old so_far.new with.new)
        (page_of reported name.now) result }

    // After a fault of a line nothing more is read.
    ensures stops { (reported : Pages) (page : List ℕ) → S.pages shelf.old ≡ Some reported → page_of reported name.now ≡ Some page
        → IfErr result (ReadStops F.form S.rest S.fetches page shelf.new) }

    // The shelf is asked for no other page: one call names a page, and each further one is for a piece, at most one for
    // each byte that was given, and one.
    ensures fetched { AsksForPage (IsUnopened result) (S.fetches shelf.old) (S.fetches shelf.new) (S.given shelf.new) }
    ensures named { S.named shelf.new ≡ counted (S.named shelf.old) }

    // Why it wasn't read to its end. Out of memory is reported as such.
    ensures memory { IsWrapped result → ⊥ }
    ensures failed { Counts (IsReadFetch fetch.Failed result) (S.faults shelf.old) (S.faults shelf.new) }
    ensures missing { Counts (IsReadFetch fetch.Missing result) (S.misses shelf.old) (S.misses shelf.new) }
    ensures too_long { Counts (IsReadFetch fetch.TooLong result) (S.overs shelf.old) (S.overs shelf.new) }
    ensures written { Counts (IsPartFault P.IsFault result) (P.faults with.old) (P.faults with.new) }
{
    match shelf.open_page(name) {
        Ok(()) => {}
        Err(fault) => return Err(stop_unopened(fault)),
    }
    let mut coming = nothing_come::<F>(alloc);
    match read_pieces(alloc, shelf, &mut coming, so_far, with) {
        Ok(()) => match end(&coming) {
            Ok(()) => Ok(()),
            Err(fault) => Err(stop_of_form(fault)),
        },
        Err(stop) => Err(stop),
    }
}
