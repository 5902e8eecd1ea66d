//! The quarters of a folder, from its pages to their text.

ghost use Rattle.std.specs.Prelude.{◌≡◌, ◌≤◌, ℕ, List, IfOk, Some, length};
ghost use Rattle.mari_units.specs.declared.limits.TheConstants.{MOST_PAGE, MOST_QUARTERS};
ghost use Rattle.mari_io.specs.Outside.{Counts, Pages};
ghost use Rattle.mari_io.specs.declared.shelf.Fetch.{Fetch as FetchFault};
ghost use Rattle.mari_io.specs.declared.shelf.Fetch.TheVariants as fetch;
ghost use Rattle.mari_market.specs.Clearing.{IsBudget};
ghost use Rattle.mari_remain.specs.Accepted.{IsAccepted};
ghost use Rattle.mari_day.specs.Reading.{IsFetchFault};
ghost use Rattle.mari_blocks.specs.Blocks.{IsBlockBook};
ghost use Rattle.mari_quarters.specs.Quarters.{FetchesQuarters, HasPage, NamesQuartersFile, QuartersReport, RefusesAfterFiles, RefusesQuartersByCheck, blocks_in, blocks_page};
ghost use Rattle.mari_quarters.specs.Stages.{ClearsQuarters, FetchesOne, IsOfBlocks, PageStates, ReadsBlocks};

use mari_blocks::{BlockBook, JointFault, JointText, clear_joint};
use mari_day::{BLOCKS, BooksFault, file_name, path_in, read_books};
use mari_io::{Fetch, Shelf};
use mari_market::Clearer;
use mari_remain::Books;
use mari_rows::BookFault;
use mari_units::{Items, Refusal};
use std::alloc::Global;

/// Fetches the page of a folder's blocks.csv.
fn fetch_blocks<S: Shelf>(
    alloc: Global,
    shelf: &mut S,
    folder: &str,
) -> Result<Items<u8>, BooksFault>
    ensures same { S.pages shelf.new ≡ S.pages shelf.old }
    ensures small { IfOk result (λ page. length page ≤ MOST_PAGE) }
    ensures fetched { FetchesOne (S.fetches shelf.old) (S.fetches shelf.new) result }

    // What it says of the page, where pages are reported.
    ensures reported { (reported : Pages) → S.pages shelf.old ≡ Some reported → PageStates (blocks_page reported folder.now) result }

    // Why there is no page. Out of memory in a fetch is reported as out of memory.
    ensures file { IsOfBlocks result }
    ensures memory { IsFetchFault fetch.Memory result → ⊥ }
    ensures failed { Counts (IsFetchFault fetch.Failed result) (S.faults shelf.old) (S.faults shelf.new) }
    ensures missing { Counts (IsFetchFault fetch.Missing result) (S.misses shelf.old) (S.misses shelf.new) }
    ensures too_long { Counts (IsFetchFault fetch.TooLong result) (S.overs shelf.old) (S.overs shelf.new) }
{
    let Ok(path) = path_in(alloc, folder, file_name(BLOCKS)) else {
        return Err(BooksFault::Memory);
    };
    let mut bytes = Vec::new(alloc);
    match shelf.fetch(path.as_str(), &mut bytes) {
        Ok(()) => Ok(Items::of(bytes)),
        Err(Fetch::Memory) => Err(BooksFault::Memory),
        Err(fault) => Err(BooksFault::Fetch(BLOCKS, fault)),
    }
}

/// Reads the book of blocks of these quarters from its page.
fn read_blocks(
    alloc: Global,
    page: &[u8],
    books: &Books,
    first: u32,
    last: u32,
) -> Result<BlockBook, BooksFault>
    requires small { length page.now ≤ MOST_PAGE }
    requires accepted { IsAccepted books.now }
    ensures read { ReadsBlocks result (blocks_in books.now first last page.now) }
    ensures blocks { IfOk result (IsBlockBook books.now.bids books.now.links first last) }
    ensures file { NamesQuartersFile result }
    ensures check { RefusesQuartersByCheck result }
{
    match BlockBook::read(alloc, page, &books.bids, &books.links, first, last) {
        Ok(blocks) => Ok(blocks),
        Err(BookFault::At { line, number }) => Err(BooksFault::Refused(Refusal {
            file: BLOCKS,
            line,
            number,
        })),
        Err(BookFault::Memory) => Err(BooksFault::Memory),
    }
}

/// Clears the quarters of these books as one market, with these blocks, and gives the text of it. It returns if the
/// clearer does.
fn clear_blocks<C: Clearer>(
    alloc: Global,
    books: &Books,
    blocks: &BlockBook,
    first: u32,
    last: u32,
    budget: u32,
    clearer: &mut C,
) -> Result<JointText, BooksFault>
    requires accepted { IsAccepted books.now }
    requires book { IsBlockBook books.now.bids books.now.links first last blocks.now }
    requires in_order { first ≤ last }
    requires last { last ≤ MOST_QUARTERS }
    requires budget { IsBudget budget }
    requires ready { C.ready clearer.old }
    ensures ready { C.ready clearer.new }
    ensures text { ClearsQuarters books.now blocks.now first last budget result }
    ensures check { RefusesQuartersByCheck result }
    ensures file { NamesQuartersFile result }
{
    match clear_joint(alloc, books, blocks, first, last, budget, clearer) {
        Ok(printed) => Ok(printed),
        Err(JointFault::Refused(refusal)) => Err(BooksFault::Refused(refusal)),
        Err(JointFault::Memory) => Err(BooksFault::Memory),
    }
}

/// Clears the quarters of these books as one market, with the blocks of this page, and gives the text of it. It returns
/// if the clearer does.
fn clear_books<C: Clearer>(
    alloc: Global,
    books: &Books,
    page: &[u8],
    first: u32,
    last: u32,
    budget: u32,
    clearer: &mut C,
) -> Result<JointText, BooksFault>
    requires accepted { IsAccepted books.now }
    requires small { length page.now ≤ MOST_PAGE }
    requires in_order { first ≤ last }
    requires last { last ≤ MOST_QUARTERS }
    requires budget { IsBudget budget }
    requires ready { C.ready clearer.old }
    ensures ready { C.ready clearer.new }

    // What is found where these are a folder's books, and its blocks.csv is this page.
    ensures reported { (reported : Pages) (folder : List ℕ) → HasPage reported folder books.now page.now
        → QuartersReport reported folder first last budget result }

    // Why there is no text. Nothing is fetched.
    ensures fetch { (fault : FetchFault) → IsFetchFault fault result → ⊥ }
    ensures file { NamesQuartersFile result }
    ensures check { RefusesQuartersByCheck result }
    ensures late { RefusesAfterFiles result }
{
    match read_blocks(alloc, page, books, first, last) {
        Ok(blocks) => clear_blocks(alloc, books, &blocks, first, last, budget, clearer),
        Err(fault) => Err(fault),
    }
}

/// Clears the scheduled runs of a folder's quarters from the first to the last, which count from 1, as one market with
/// the blocks of its blocks.csv, within a budget of 1 to `MOST_NODES` nodes, and gives the text of it. The market files
/// are fetched and read as `read_books` does, then blocks.csv. It returns if the clearer does.
pub fn clear_quarters<S: Shelf, C: Clearer>(
    alloc: Global,
    shelf: &mut S,
    folder: &str,
    first: u32,
    last: u32,
    budget: u32,
    clearer: &mut C,
) -> Result<JointText, BooksFault>
    // The quarters.
    requires in_order { first ≤ last }
    requires last { last ≤ MOST_QUARTERS }

    // What clears their market, which may clear on.
    requires budget { IsBudget budget }
    requires ready { C.ready clearer.old }
    ensures ready { C.ready clearer.new }

    // What is found of the folder's pages, where the shelf reports them.
    ensures same { S.pages shelf.new ≡ S.pages shelf.old }
    ensures reported { (reported : Pages) → S.pages shelf.old ≡ Some reported → QuartersReport reported folder.now first last budget result }

    // One fetch is counted for each market file, and one for blocks.csv where they give books, up to the first whose page
    // can't be had; when out of memory no more than that.
    ensures fetched { FetchesQuarters (S.pages shelf.old) folder.now (S.fetches shelf.old) (S.fetches shelf.new) result }

    // Why there is no text. A refusal is by a check of its file. Out of memory in a fetch is reported as out of memory.
    ensures file { NamesQuartersFile result }
    ensures check { RefusesQuartersByCheck result }
    ensures memory { IsFetchFault fetch.Memory result → ⊥ }
    ensures failed { Counts (IsFetchFault fetch.Failed result) (S.faults shelf.old) (S.faults shelf.new) }
    ensures missing { Counts (IsFetchFault fetch.Missing result) (S.misses shelf.old) (S.misses shelf.new) }
    ensures too_long { Counts (IsFetchFault fetch.TooLong result) (S.overs shelf.old) (S.overs shelf.new) }
{
    let books = match read_books(alloc, shelf, folder) {
        Ok(books) => books,
        Err(fault) => return Err(fault),
    };
    match fetch_blocks(alloc, shelf, folder) {
        Ok(page) => clear_books(alloc, &books, page.as_slice(), first, last, budget, clearer),
        Err(fault) => Err(fault),
    }
}
