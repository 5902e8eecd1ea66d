//! Pages of books, and how many records they have or why they are refused.

ghost use Rattle.std.specs.Prelude.{◌≤◌, length};

use crate::same::same;
use mari_bids::BidBook;
use mari_demands::{DemandBook, LimitBook, RunBook};
use mari_links::LinkBook;
use mari_rows::BookFault;
use mari_units::MOST_PAGE;
use mari_zones::{BorderBook, ZoneBook};
use std::alloc::{AllocError, Global};
use std::process::Abort;
use std::test::Fail;

/// What a page is of; bids and runs are of a day of this number of quarter hours.
#[derive(Clone, Copy)]
pub(crate) enum Kind {
    /// Zones.
    Zones,
    /// Borders between the zones of `ZONES`.
    Borders,
    /// Bids in these zones.
    Bids(u32),
    /// Links between the bids of `BIDS`.
    Links,
    /// Runs.
    Runs(u32),
    /// Demands of the runs of `RUNS`.
    Demands,
    /// Limits of the borders of `BORDERS` in these runs, which aren't counted.
    Limits,
}

/// How many records a page has, or the line and the check by which it is refused.
pub(crate) type Read = Result<usize, (u32, u8)>;

/// The end of a page, and what is read of the page then.
pub(crate) type Row = (&'static [u8], Read);

/// Three zones.
pub(crate) const ZONES: &[u8] = b"zone,operator\nA,TA\nB,TB\nC,TC\n";

/// Two borders between them.
pub(crate) const BORDERS: &[u8] = b"from,to\nB,A\nA,C\n";

/// Six bids of four quarters.
const BIDS: &[u8] = b"id,provider,zone,quarter,direction,price,least,greatest,kind\n\
a1,P,A,1,up,1,0,1,both\na2,P,A,2,up,1,0,1,both\na3,P,A,3,up,1,0,1,both\na4,P,A,4,up,1,0,1,both\n\
b4,P,A,4,up,1,0,1,both\nc4,P,A,4,up,1,0,1,both\n";

/// Three runs of two quarters.
pub(crate) const RUNS: &[u8] =
    b"run,quarter,kind,reference\n1,1,scheduled,40\n2,1,direct,-0.5\n3,2,direct,0\n";

/// Adds a number to a page.
fn add_number(alloc: Global, page: &mut Vec<u8>, number: u32) -> Result<(), AllocError> {
    let digits = number.to_string(alloc)?;
    let added = page.extend_from_slice(digits.as_bytes());
    drop(digits);
    added
}

/// Adds bytes to a page, with a number in place of each `#`.
fn add(alloc: Global, page: &mut Vec<u8>, bytes: &[u8], number: u32) -> Result<(), AllocError> {
    for byte in bytes {
        if *byte == b'#' {
            add_number(alloc, page, number)?;
        } else {
            page.push(*byte)?;
        }
    }
    Ok(())
}

/// The page of these parts, of which each comes some times, each time with its number from 1 in place of `#`.
pub(crate) fn page_of(alloc: Global, parts: &[(&[u8], u32)]) -> Result<Vec<u8>, AllocError> {
    let mut page = Vec::new(alloc);
    for (bytes, times) in parts {
        for number in 1..=*times {
            add(alloc, &mut page, bytes, number)?;
        }
    }
    Ok(page)
}

fn count_of_zones(alloc: Global, page: &[u8]) -> Result<usize, BookFault>
    requires { length page.now ≤ MOST_PAGE }
{
    let book = ZoneBook::read(alloc, page)?;
    let count = book.zones.len() as usize;
    drop(book);
    Ok(count)
}

fn count_of_borders(alloc: Global, page: &[u8], zones: &ZoneBook) -> Result<usize, BookFault>
    requires { length page.now ≤ MOST_PAGE }
{
    let book = BorderBook::read(alloc, page, zones)?;
    let count = book.borders.as_slice().len();
    drop(book);
    Ok(count)
}

fn count_of_bids(
    alloc: Global,
    page: &[u8],
    zones: &ZoneBook,
    quarters: u32,
) -> Result<usize, BookFault>
    requires { length page.now ≤ MOST_PAGE }
{
    let book = BidBook::read(alloc, page, zones, quarters)?;
    let count = book.ids.len() as usize;
    drop(book);
    Ok(count)
}

/// How many links a page has between bids of these.
pub(crate) fn count_of_links(alloc: Global, page: &[u8], bids: &BidBook) -> Result<usize, BookFault>
    requires { length page.now ≤ MOST_PAGE }
{
    let book = LinkBook::read(alloc, page, bids)?;
    let count = book.links.as_slice().len();
    drop(book);
    Ok(count)
}

fn count_of_links_in(alloc: Global, page: &[u8], zones: &ZoneBook) -> Result<usize, BookFault>
    requires { length page.now ≤ MOST_PAGE }
{
    let bids = BidBook::read(alloc, BIDS, zones, 4)?;
    let count = count_of_links(alloc, page, &bids);
    drop(bids);
    count
}

fn count_of_runs(alloc: Global, page: &[u8], quarters: u32) -> Result<usize, BookFault>
    requires { length page.now ≤ MOST_PAGE }
{
    let book = RunBook::read(alloc, page, quarters)?;
    let count = book.runs.as_slice().len();
    drop(book);
    Ok(count)
}

fn count_of_demands(
    alloc: Global,
    page: &[u8],
    zones: &ZoneBook,
    runs: &RunBook,
) -> Result<usize, BookFault>
    requires { length page.now ≤ MOST_PAGE }
{
    if runs.runs.as_slice().len() > 3 {
        return Err(BookFault::Memory);
    }
    let book = DemandBook::read(alloc, page, runs, zones)?;
    let count = book.demands.as_slice().len();
    drop(book);
    Ok(count)
}

fn count_of_limits(
    alloc: Global,
    page: &[u8],
    zones: &ZoneBook,
    borders: &BorderBook,
    runs: &RunBook,
) -> Result<usize, BookFault>
    requires { length page.now ≤ MOST_PAGE }
{
    if borders.borders.as_slice().len() > 2 || runs.runs.as_slice().len() > 3 {
        return Err(BookFault::Memory);
    }
    let book = LimitBook::read(alloc, page, zones, borders, runs)?;
    drop(book);
    Ok(0)
}

fn count_of_limits_in(
    alloc: Global,
    page: &[u8],
    zones: &ZoneBook,
    runs: &RunBook,
) -> Result<usize, BookFault>
    requires { length page.now ≤ MOST_PAGE }
{
    let borders = BorderBook::read(alloc, BORDERS, zones)?;
    let count = count_of_limits(alloc, page, zones, &borders, runs);
    drop(borders);
    count
}

/// How many demands or limits a page has.
fn count_of_run(
    alloc: Global,
    page: &[u8],
    zones: &ZoneBook,
    are_limits: bool,
) -> Result<usize, BookFault>
    requires { length page.now ≤ MOST_PAGE }
{
    let runs = RunBook::read(alloc, RUNS, 2)?;
    let count = if are_limits {
        count_of_limits_in(alloc, page, zones, &runs)
    } else {
        count_of_demands(alloc, page, zones, &runs)
    };
    drop(runs);
    count
}

/// How many records a page has.
fn count_of(alloc: Global, page: &[u8], kind: Kind, zones: &ZoneBook) -> Result<usize, BookFault>
    requires { length page.now ≤ MOST_PAGE }
{
    match kind {
        Kind::Zones => count_of_zones(alloc, page),
        Kind::Borders => count_of_borders(alloc, page, zones),
        Kind::Bids(quarters) => count_of_bids(alloc, page, zones, quarters),
        Kind::Links => count_of_links_in(alloc, page, zones),
        Kind::Runs(quarters) => count_of_runs(alloc, page, quarters),
        Kind::Demands => count_of_run(alloc, page, zones, false),
        Kind::Limits => count_of_run(alloc, page, zones, true),
    }
}

/// What is read of a page; where memory runs out, it isn't refused at a line.
pub(crate) fn read_of(count: Result<usize, BookFault>) -> Read {
    match count {
        Ok(count) => Ok(count),
        Err(BookFault::At { line, number }) => Err((line, number)),
        Err(BookFault::Memory) => Err((0, 0)),
    }
}

/// What is read of a page that ends with these bytes.
fn read(
    alloc: Global,
    kind: Kind,
    zones: &ZoneBook,
    front: &[(&[u8], u32)],
    end: &[u8],
) -> Result<Read, AllocError> {
    let mut page = page_of(alloc, front)?;
    if page.extend_from_slice(end).is_err() || page.len() > MOST_PAGE {
        drop(page);
        return Err(AllocError);
    }
    let count = count_of(alloc, page.as_slice(), kind, zones);
    drop(page);
    Ok(read_of(count))
}

/// Compares what is read of pages of these zones, each of them with these parts before its end.
pub(crate) fn compare_in(
    rt: &impl Abort,
    alloc: Global,
    zones: &ZoneBook,
    kind: Kind,
    front: &[(&[u8], u32)],
    rows: &[Row],
) -> Result<(), Fail> {
    for (end, want) in rows {
        same(rt, read(alloc, kind, zones, front, end)?, *want);
    }
    Ok(())
}

/// The same of the zones of `ZONES`.
pub(crate) fn compare(
    rt: &impl Abort,
    alloc: Global,
    kind: Kind,
    front: &[(&[u8], u32)],
    rows: &[Row],
) -> Result<(), Fail> {
    let zones = ZoneBook::read(alloc, ZONES)?;
    let compared = compare_in(rt, alloc, &zones, kind, front, rows);
    drop(zones);
    compared
}
