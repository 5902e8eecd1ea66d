//! What limits are worth in a publication that is read in pieces.

ghost use Rattle.std.specs.Prelude.{◌≡◌, ◌≤◌, ◌+◌, ◌⊎◌, ◌++◌, ◌∷◌, [], ℕ, List, Some, Ok, IfErr, IfOk, IsSome, OnOk, length};
ghost use Rattle.mari_io.specs.Outside.{Counts, Pages, most_given, page_of};
ghost use Rattle.mari_io.specs.declared.shelf.Fetch.{Fetch as TheFetch};
ghost use Rattle.mari_io.specs.declared.shelf.Fetch.TheVariants as fetch;
ghost use Rattle.mari_publish.specs.Streams.{AsksForPage};
ghost use Rattle.mari_publish.specs.declared.publication.Block.{Block as PrintedBlock};
ghost use Rattle.mari_publish.specs.declared.publication.Part.{Part as ThePart};
ghost use Rattle.mari_remain.specs.Accepted.{IsAccepted};
ghost use Rattle.mari_remain.specs.declared.books.Books.{Books as TheBooks};
ghost use Rattle.mari_progress.specs.Progress.{published_block};
ghost use Rattle.mari_check.specs.Checked.{IsChecked};
ghost use Rattle.mari_check.specs.Day.{IsFreeIn};
ghost use Rattle.mari_check.specs.Faults.{FindsNumber};
ghost use Rattle.mari_check.specs.Streams.{Comes};
ghost use Rattle.mari_capacity.specs.Ends.{IsEndOf};
ghost use Rattle.mari_capacity.specs.Values.{IsValueText};
ghost use Rattle.mari_capacity.specs.Streams.{EndsAs, EndsPage, IsPageEnd, IsPageFault, IsWrapped, LinesReport, ValueStates};
ghost use Rattle.mari_capacity.specs.declared.ending.ValueEnd.{ValueEnd as TheEnd};

use crate::ending::{ValueEnd, ValueStop, Valued, stop_at};
use crate::lines::{put_opening, put_run, put_unpublished};
use crate::worth::worths_of;
use mari_check::{DayCheck, Verdict};
use mari_io::Shelf;
use mari_lines::put_done;
use mari_progress::run_count;
use mari_publish::{Block, FullBlock, Part, PartsSoFar, ReadStop, read_parts};
use mari_remain::Books;
use mari_units::{Items, MOST_RAISE, Memory};
use std::alloc::Global;

/// The values of the parts that have come.
#[derive(Drop)]
struct ValuesSoFar<'a> {
    books: &'a Books,
    day: DayCheck,
    more: u32,
    lines: Vec<u8>,
    found: Option<Verdict>,
}

impl<'a> ValuesSoFar<'a> {
    ghost use Rattle.mari_capacity.specs.Taking.{HasTaken, IsSameButDay, StopsAtPart, StopsValues, TookWhole};

    /// What there is before the first part.
    fn start(alloc: Global, books: &'a Books, more: u32) -> Result<Self, Memory>
        requires accepted { IsAccepted books.now }
        ensures books { IfOk result (λ so_far. so_far.books.now ≡ books.now) }
        ensures taken { IfOk result (HasTaken books.now more []) }
    {
        let day = DayCheck::start(alloc, books)?;
        let mut lines = Vec::new(alloc);
        put_opening(alloc, &mut lines, more)?;
        Ok(ValuesSoFar {
            books,
            day,
            more,
            lines,
            found: None,
        })
    }

    /// The number of the least fault of a published block; or none, and then there are its lines, in the market after
    /// the blocks before it.
    fn add_published(
        &mut self,
        alloc: Global,
        books: &Books,
        block: &Block,
        full: &FullBlock,
    ) -> Result<Option<u8>, Memory>
        requires accepted { IsAccepted books.now }
        requires is { block.now ≡ published_block full.now }
        requires more { self.old.more ≤ MOST_RAISE }
        requires stands { (blocks : List PrintedBlock) × IsChecked books.now blocks self.old.day }
        ensures finds { (blocks : List PrintedBlock) → IsChecked books.now blocks self.old.day
            → IfOk result (FindsNumber (IsFreeIn books.now self.old.day.budget blocks block.now)) }
        ensures stands { (blocks : List PrintedBlock) → IsChecked books.now blocks self.old.day → result ≡ Ok None
            → IsChecked books.now (blocks ++ block.now ∷ []) self.new.day }
        ensures lines { (blocks : List PrintedBlock) → IsChecked books.now blocks self.old.day
            → IsValueText books.now self.old.more blocks self.old.lines.items → result ≡ Ok None
            → IsValueText books.now self.old.more (blocks ++ block.now ∷ []) self.new.lines.items }
        ensures kept { IfOk result (λ found. IsSome found → self.new.lines ≡ self.old.lines) }
        ensures same { IsSameButDay self.old self.new }
    {
        let run = self.day.next_run();
        if run > run_count(books) {
            return self.day.block(alloc, books, block);
        }
        let made = self.day.progress.market_of(alloc, books, run)?;
        match self.day.block(alloc, books, block)? {
            Some(fault) => Ok(Some(fault)),
            None => {
                let worths = worths_of(alloc, &made.market, full, self.more)?;
                put_run(alloc, &mut self.lines, full, &worths)?;
                Ok(None)
            }
        }
    }

    /// The number of the least fault of a block of either kind; or none, and then there are its lines.
    fn add_block(
        &mut self,
        alloc: Global,
        books: &Books,
        block: &Block,
    ) -> Result<Option<u8>, Memory>
        requires accepted { IsAccepted books.now }
        requires more { self.old.more ≤ MOST_RAISE }
        requires stands { (blocks : List PrintedBlock) × IsChecked books.now blocks self.old.day }
        ensures finds { (blocks : List PrintedBlock) → IsChecked books.now blocks self.old.day
            → IfOk result (FindsNumber (IsFreeIn books.now self.old.day.budget blocks block.now)) }
        ensures stands { (blocks : List PrintedBlock) → IsChecked books.now blocks self.old.day → result ≡ Ok None
            → IsChecked books.now (blocks ++ block.now ∷ []) self.new.day }
        ensures lines { (blocks : List PrintedBlock) → IsChecked books.now blocks self.old.day
            → IsValueText books.now self.old.more blocks self.old.lines.items → result ≡ Ok None
            → IsValueText books.now self.old.more (blocks ++ block.now ∷ []) self.new.lines.items }
        ensures kept { IfOk result (λ found. IsSome found → self.new.lines ≡ self.old.lines) }
        ensures same { IsSameButDay self.old self.new }
    {
        match block {
            Block::Published(full) => self.add_published(alloc, books, block, full),
            Block::Unpublished(heading, _) => match self.day.block(alloc, books, block)? {
                Some(fault) => Ok(Some(fault)),
                None => {
                    put_unpublished(alloc, &mut self.lines, heading.run)?;
                    Ok(None)
                }
            },
        }
    }

    /// Takes a part, or stops at its fault. That of the totals is reported at the end.
    fn take_part(&mut self, alloc: Global, books: &Books, part: &Part) -> Result<(), ValueStop>
        requires accepted { IsAccepted books.now }
        requires more { self.old.more ≤ MOST_RAISE }
        requires comes { (parts : List ThePart) × HasTaken books.now self.old.more parts self.old × Comes parts part.now }
        ensures taken { (parts : List ThePart) → HasTaken books.now self.old.more parts self.old → Comes parts part.now
            → OnOk result (HasTaken books.now self.old.more (parts ++ part.now ∷ []) self.new) }
        ensures stops { (parts : List ThePart) → HasTaken books.now self.old.more parts self.old → Comes parts part.now
            → IfErr result (StopsAtPart books.now self.old.more parts part.now self.new.lines.items) }
        ensures books { self.new.books.now ≡ self.old.books.now }
        ensures more { self.new.more ≡ self.old.more }
    {
        match part {
            Part::Head {
                date,
                quarters,
                budget,
            } => stop_at(0, Ok(self.day.head(books, date, *quarters, *budget))),
            Part::Block(block) => {
                let run = self.day.next_run();
                stop_at(run, self.add_block(alloc, books, block))
            }
            Part::Totals {
                operators,
                providers,
            } => {
                let lines = operators.as_slice();
                self.found = Some(self.day.end(books, lines, providers.as_slice()));
                Ok(())
            }
        }
    }

    /// The lines so far, and how they end where the page isn't read to its end.
    fn stopped(self, alloc: Global, stop: ReadStop<ValueStop>) -> Result<Valued, Memory>
        ensures { StopsValues stop self.entry.lines.items result }
    {
        let ValuesSoFar { day, lines, .. } = self;
        drop(day);
        let (text, end) = match stop {
            ReadStop::Unopened(fault) => {
                drop(lines);
                (Vec::new(alloc), ValueEnd::Fetch(fault))
            }
            ReadStop::Fetch(fault) => (lines, ValueEnd::Fetch(fault)),
            ReadStop::Text(fault) => (lines, ValueEnd::Text(fault)),
            ReadStop::Part(ValueStop::At(end)) => (lines, end),
            ReadStop::Part(ValueStop::Memory) | ReadStop::Memory => return Err(Memory),
        };
        Ok(Valued {
            text: Items::of(text),
            end,
        })
    }

    /// The lines of a whole publication, and how they end.
    fn end(self, alloc: Global) -> Result<Valued, Memory>
        requires read { (books : TheBooks) × (more : ℕ) × (text : List ℕ) × TookWhole books more text self }
        ensures reported { (books : TheBooks) (more : ℕ) (text : List ℕ) → TookWhole books more text self.entry → length text ≤ most_given
            → IfOk result (λ v. EndsPage books more text v.text v.end) }
        ensures lines { (books : TheBooks) (more : ℕ) (text : List ℕ) → TookWhole books more text self.entry
            → IfOk result (λ v. LinesReport books more v.text v.end) }
        ensures memory { IfOk result (λ v. IsWrapped v.end → ⊥) }
        ensures page { (why : TheFetch) → IfOk result (λ v. IsPageEnd why v.end → ⊥) }
    {
        let ValuesSoFar {
            day,
            mut lines,
            found,
            ..
        } = self;
        drop(day);
        let end = match found.unwrap() {
            Verdict::Invalid { run, fault } => ValueEnd::Invalid { run, fault },
            Verdict::Valid {
                published,
                unpublished,
            } => {
                put_done(alloc, &mut lines, published, unpublished)?;
                ValueEnd::Valid {
                    published,
                    unpublished,
                }
            }
        };
        Ok(Valued {
            text: Items::of(lines),
            end,
        })
    }
}

impl<'a> PartsSoFar<()> for ValuesSoFar<'a> {
    ghost use Rattle.mari_capacity.specs.Taking.{KeepsValues, StopsAtPart};

    type Stop = ValueStop;

    ghost Took = { λ first lent now left parts. KeepsValues first.books.now first.more parts now };

    ghost Breaks = { λ first lent now left parts part stop. StopsAtPart first.books.now first.more parts part now.lines.items stop };

    ghost faults = { λ lent. 0 };

    ghost IsFault = { λ stop. ⊥ };

    /// Takes a part, which isn't kept.
    fn take(&mut self, alloc: Global, part: Part, _with: &mut ()) -> Result<(), ValueStop> {
        let books = self.books;
        self.take_part(alloc, books, &part)
    }
}

/// What each border's limits raised by `more` MW are worth in each published run of the publication whose text is the
/// page of that name, which is read in pieces. Each block is checked before its line is made. The valuing ends at the first
/// fault: one of the check stands where its head or its block ends, and one that the end of a publication shows stands
/// after every fault of the text.
///
/// The first line is `value 1 K`. A published block has a line `run RUN` and a line for each border, with the gain and
/// the rise forth and then back, as money; another block has the line `run RUN unpublished`. The last line of a valid
/// publication is `done PUBLISHED UNPUBLISHED`, and no other has it. Over a shelf that doesn't report its pages nothing
/// is said of which publication it is.
pub fn value_stream<S: Shelf>(
    alloc: Global,
    books: &Books,
    shelf: &mut S,
    name: &str,
    more: u32,
) -> Result<Valued, Memory>
    requires accepted { IsAccepted books.now }
    requires some { 1 ≤ more }
    requires more { more ≤ MOST_RAISE }
    ensures same { S.pages shelf.new ≡ S.pages shelf.old }

    // What is said of the page, where pages are reported; and on any shelf, that the lines are those of checked blocks.
    ensures reported { (reported : Pages) → S.pages shelf.old ≡ Some reported
        → IfOk result (λ v. ValueStates books.now more (page_of reported name.now) v.text v.end) }
    ensures lines { IfOk result (λ v. LinesReport books.now more v.text v.end) }

    // It ends as the page does and in no other way, unless a call of the shelf failed.
    ensures exact { (reported : Pages) (end : TheEnd) → S.pages shelf.old ≡ Some reported → IsEndOf books.now (page_of reported name.now) end
        → IfOk result (EndsAs end) }

    // The shelf is asked for no other page: one call names a page, and each further one is for a piece, at most one for
    // each byte that was given, and one. Where there is no memory for the first line, it isn't asked.
    ensures fetched { (S.fetches shelf.new ≡ S.fetches shelf.old)
        ⊎ AsksForPage (IsPageFault fetch.Missing result) (S.fetches shelf.old) (S.fetches shelf.new) (S.given shelf.new) }
    ensures named { S.named shelf.new ≤ S.named shelf.old + 1 }

    // Why the page wasn't had. Out of memory is reported as such.
    ensures memory { IfOk result (λ v. IsWrapped v.end → ⊥) }
    ensures failed { Counts (IsPageFault fetch.Failed result) (S.faults shelf.old) (S.faults shelf.new) }
    ensures missing { Counts (IsPageFault fetch.Missing result) (S.misses shelf.old) (S.misses shelf.new) }
    ensures too_long { Counts (IsPageFault fetch.TooLong result) (S.overs shelf.old) (S.overs shelf.new) }
{
    let mut so_far = ValuesSoFar::start(alloc, books, more)?;
    match read_parts(alloc, shelf, name, &mut so_far, &mut ()) {
        Ok(()) => so_far.end(alloc),
        Err(stop) => so_far.stopped(alloc, stop),
    }
}
