//! The books of a folder, or the first refusal.

ghost use Rattle.std.specs.Prelude.{◌≡◌, ◌≤◌, IfOk, IfSome, Some, Result as Res, is_some, length, if◌then◌else◌};
ghost use Rattle.mari_io.specs.Outside.{Counts, Pages};
ghost use Rattle.mari_io.specs.declared.shelf.Fetch.TheVariants as fetch;
ghost use Rattle.mari_rows.specs.Books.{book_in, GivesBook};
ghost use Rattle.mari_rows.specs.declared.faults.BookFault.{BookFault as Fault};
ghost use Rattle.mari_zones.specs.Zones.{zone_grammar, IsZoneBook};
ghost use Rattle.mari_zones.specs.Borders.{borders_in, IsBorderBook};
ghost use Rattle.mari_bids.specs.Bids.{bid_grammar, IsBidBook};
ghost use Rattle.mari_links.specs.Links.{link_grammar, IsLinkBook};
ghost use Rattle.mari_demands.specs.Demands.{demand_grammar, IsDemandBook};
ghost use Rattle.mari_demands.specs.LimitPairs.{IsLimitTable};
ghost use Rattle.mari_demands.specs.Runs.{run_grammar, IsRunBook};
ghost use Rattle.mari_remain.specs.Accepted.{IsAccepted};
ghost use Rattle.mari_day.specs.CalendarPage.{calendar_day_in, IsCalendarDay};
ghost use Rattle.mari_day.specs.Dated.{IsDated};
ghost use Rattle.mari_day.specs.Files.{page_among, IsFileNumber};
ghost use Rattle.mari_day.specs.Reading.{books_at, file_refusal, limits_of_pages, of_file, BooksReport, FetchesFiles, IsFetchFault, NamesAFile, ReadsAs};
ghost use Rattle.mari_day.specs.Refusals.{RefusesByCheck};

use crate::calendar_page::CalendarDay;
use crate::files::File;
use crate::pages::{Folder, PagesFault, fetch_pages};
use mari_bids::BidBook;
use mari_demands::{DemandBook, LimitBook, RunBook};
use mari_io::{Fetch, Shelf};
use mari_links::LinkBook;
use mari_remain::Books;
use mari_rows::BookFault;
use mari_units::{MOST_BORDERS, MOST_RUNS, Refusal};
use mari_zones::{BorderBook, ZoneBook};
use std::alloc::Global;

/// Why there are no books.
#[derive(Clone, Copy, Debug, PartialEq, Eq)]
pub enum BooksFault {
    /// The fetch of the file of this number gave no page.
    Fetch(u8, Fetch),
    /// The first refusal of a page.
    Refused(Refusal),
    /// Out of memory.
    Memory,
}

/// The refusal of a file.
fn refusal_of(file: File, line: u32, number: u8) -> Refusal
    ensures refusal { result ≡ file_refusal file line number }
    ensures file { IsFileNumber result.file }
{
    Refusal {
        file: file.number(),
        line,
        number,
    }
}

/// What was read of a file, its refusal naming the file.
fn named<T: Drop>(file: File, read: Result<T, BookFault>) -> Result<T, BooksFault>
    ensures reads { (given : Res T Fault) → GivesBook read given → ReadsAs result (of_file file given) }
    ensures ok { IfOk result (λ book. read ≡ Ok book) }
    ensures file { NamesAFile result }
{
    match read {
        Ok(book) => Ok(book),
        Err(BookFault::At { line, number }) => {
            Err(BooksFault::Refused(refusal_of(file, line, number)))
        }
        Err(BookFault::Memory) => Err(BooksFault::Memory),
    }
}

/// Reads the day and its calendar.
fn read_day(alloc: Global, folder: &Folder) -> Result<CalendarDay, BooksFault>
    ensures reads { ReadsAs result (of_file File.Day (calendar_day_in (page_among folder.now File.Day))) }
    ensures file { NamesAFile result }
    ensures facts { IfOk result IsCalendarDay }
{
    named(File::Day, CalendarDay::read(alloc, folder.page(File::Day)))
}

/// Reads the zones.
fn read_zones(alloc: Global, folder: &Folder) -> Result<ZoneBook, BooksFault>
    ensures reads { ReadsAs result (of_file File.Zones (book_in zone_grammar (page_among folder.now File.Zones))) }
    ensures file { NamesAFile result }
    ensures facts { IfOk result IsZoneBook }
{
    named(File::Zones, ZoneBook::read(alloc, folder.page(File::Zones)))
}

/// Reads the borders between the zones.
fn read_borders(alloc: Global, folder: &Folder, zones: &ZoneBook) -> Result<BorderBook, BooksFault>
    ensures reads { ReadsAs result (of_file File.Borders (borders_in zones.now (page_among folder.now File.Borders))) }
    ensures file { NamesAFile result }
    ensures facts { IfOk result (IsBorderBook zones.now) }
{
    named(
        File::Borders,
        BorderBook::read(alloc, folder.page(File::Borders), zones),
    )
}

/// Reads the bids in the zones.
fn read_bids(
    alloc: Global,
    folder: &Folder,
    zones: &ZoneBook,
    quarters: u32,
) -> Result<BidBook, BooksFault>
    ensures reads { ReadsAs result (of_file File.Bids (book_in (bid_grammar zones.now quarters) (page_among folder.now File.Bids))) }
    ensures file { NamesAFile result }
    ensures facts { IfOk result (IsBidBook zones.now quarters) }
{
    named(
        File::Bids,
        BidBook::read(alloc, folder.page(File::Bids), zones, quarters),
    )
}

/// Reads the links between the bids.
fn read_links(alloc: Global, folder: &Folder, bids: &BidBook) -> Result<LinkBook, BooksFault>
    ensures reads { ReadsAs result (of_file File.Links (book_in (link_grammar bids.now) (page_among folder.now File.Links))) }
    ensures file { NamesAFile result }
    ensures facts { IfOk result (IsLinkBook bids.now) }
{
    named(
        File::Links,
        LinkBook::read(alloc, folder.page(File::Links), bids),
    )
}

/// Reads the runs.
fn read_runs(alloc: Global, folder: &Folder, quarters: u32) -> Result<RunBook, BooksFault>
    ensures reads { ReadsAs result (of_file File.Runs (book_in (run_grammar quarters) (page_among folder.now File.Runs))) }
    ensures file { NamesAFile result }
    ensures facts { IfOk result (IsRunBook quarters) }
{
    named(
        File::Runs,
        RunBook::read(alloc, folder.page(File::Runs), quarters),
    )
}

/// Reads the demands of the runs in the zones.
fn read_demands(
    alloc: Global,
    folder: &Folder,
    runs: &RunBook,
    zones: &ZoneBook,
) -> Result<DemandBook, BooksFault>
    requires { length runs.now.runs ≤ MOST_RUNS }
    ensures reads { ReadsAs result (of_file File.Demands (book_in (demand_grammar zones.now (length runs.now.runs)) (page_among folder.now File.Demands))) }
    ensures file { NamesAFile result }
    ensures facts { IfOk result (IsDemandBook zones.now (length runs.now.runs)) }
{
    named(
        File::Demands,
        DemandBook::read(alloc, folder.page(File::Demands), runs, zones),
    )
}

/// Reads the limits of each run, where the folder states them in a file of their own.
fn read_limits(
    alloc: Global,
    folder: &Folder,
    zones: &ZoneBook,
    borders: &BorderBook,
    runs: &RunBook,
) -> Result<Option<LimitBook>, BooksFault>
    requires borders { length borders.now.borders ≤ MOST_BORDERS }
    requires runs { length runs.now.runs ≤ MOST_RUNS }
    ensures reads { ReadsAs result (limits_of_pages zones.now borders.now (length runs.now.runs) folder.now) }
    ensures file { NamesAFile result }
    ensures count { IfOk result (λ limits. length folder.now ≡ (if is_some limits then 8 else 7)) }
    ensures facts { IfOk result (λ limits. IfSome limits (IsLimitTable (length runs.now.runs) (length borders.now.borders))) }
{
    let Some(page) = folder.limits() else {
        return Ok(None);
    };
    match named(
        File::Limits,
        LimitBook::read(alloc, page, zones, borders, runs),
    ) {
        Ok(limits) => Ok(Some(limits)),
        Err(fault) => Err(fault),
    }
}

/// The books of the pages, in the order of their files, or the first refusal.
#[tactic(auto, unfolding(crate::specs::Reading::books_at))]
fn books_of(alloc: Global, folder: &Folder) -> Result<Books, BooksFault>
    ensures reads { ReadsAs result (books_at folder.now) }
    ensures file { NamesAFile result }
    ensures count { IfOk result (λ books. length folder.now ≡ (if is_some books.limits then 8 else 7)) }
    ensures accepted { IfOk result IsAccepted }
    ensures dated { IfOk result IsDated }
{
    let day = read_day(alloc, folder)?;
    let zones = read_zones(alloc, folder)?;
    let borders = read_borders(alloc, folder, &zones)?;
    let bids = read_bids(alloc, folder, &zones, day.quarters)?;
    let links = read_links(alloc, folder, &bids)?;
    let runs = read_runs(alloc, folder, day.quarters)?;
    let demands = read_demands(alloc, folder, &runs, &zones)?;
    let limits = read_limits(alloc, folder, &zones, &borders, &runs)?;
    Ok(Books {
        date: day.date,
        quarters: day.quarters,
        zones,
        borders,
        bids,
        links,
        runs,
        demands,
        limits,
    })
}

/// Fetches the pages of a folder in the order of its files, and then reads them in that order.
///
/// The files are the seven that every folder has, and after them limits.csv exactly where the borders are of version
/// 2, which leave their limits to it.
pub fn read_books<S: Shelf>(alloc: Global, shelf: &mut S, folder: &str) -> Result<Books, BooksFault>
    ensures same { S.pages shelf.new ≡ S.pages shelf.old }

    // One fetch is counted for each file of the folder, up to the first whose page can't be had; out of memory no
    // more than that.
    ensures fetched { FetchesFiles (S.pages shelf.old) folder.now (S.fetches shelf.old) (S.fetches shelf.new) result }

    // What was read.
    ensures reported { (reported : Pages) → S.pages shelf.old ≡ Some reported → BooksReport reported folder.now result }
    ensures accepted { IfOk result IsAccepted }
    ensures dated { IfOk result IsDated }

    // Why nothing was. A refusal is by a check of its file. Out of memory in a fetch is reported as out of memory.
    ensures file { NamesAFile result }
    ensures check { RefusesByCheck result }
    ensures memory { IsFetchFault fetch.Memory result → ⊥ }
    ensures failed { Counts (IsFetchFault fetch.Failed result) (S.faults shelf.old) (S.faults shelf.new) }
    ensures missing { Counts (IsFetchFault fetch.Missing result) (S.misses shelf.old) (S.misses shelf.new) }
    ensures too_long { Counts (IsFetchFault fetch.TooLong result) (S.overs shelf.old) (S.overs shelf.new) }
{
    match fetch_pages(alloc, shelf, folder) {
        Ok(pages) => books_of(alloc, &pages),
        Err(PagesFault::Memory) => Err(BooksFault::Memory),
        Err(PagesFault::Fetch(file, why)) => Err(BooksFault::Fetch(file.number(), why)),
    }
}
