//! The book of blocks.
ghost use Rattle.std.specs.Prelude.{◌≡◌, ◌≤◌, ◌<◌, ◌||◌, ℕ, List, [], false, get_or, is_some, length, true, IfOk, OnOk};
ghost use Rattle.mari_links.specs.Links.{IsLinkBook};
ghost use Rattle.mari_remain.specs.Lists.{parent_at};
ghost use Rattle.mari_rows.specs.Books.{book_in, first_failing, GivesBook};
ghost use Rattle.mari_rows.specs.Checks.{IsRead};
ghost use Rattle.mari_rows.specs.declared.rows.Row.{Row as Line};
ghost use Rattle.mari_units.specs.Names.{is_name};
ghost use Rattle.mari_blocks.specs.BlockChecks.{block_check_name, block_check_number};
ghost use Rattle.mari_blocks.specs.Blocks.{IsBlockBook, bid_at, block_grammar, block_name, is_linked as is_linked_in, is_parent, is_within as is_within_of, line_checks};

use mari_bids::BidBook;
use mari_links::{BidLinks, LinkBook};
use mari_remain::{bid_of, group_of, parent_of};
use mari_rows::{BookFault, BookSoFar, FileCheck, LineFault, NameIndex, Row, read_book};
use mari_units::{Items, MOST_PAGE, is_name_text};
use std::alloc::{AllocError, Global};

const COLUMNS: &str = "block,bid";

/// A check of blocks.csv.
#[derive(Clone, Copy, Debug, PartialEq, Eq)]
pub enum BlockCheck {
    /// The block isn't a name.
    BadField,
    /// The bid isn't in bids.csv.
    UnknownBid,
    /// The bid's quarter isn't one of those that are joined.
    Quarter,
    /// An earlier line puts the bid into a block.
    Repeated,
    /// The bid is in a group, or is a child or a parent.
    Linked,
}

impl FileCheck for BlockCheck {
    const ALL: &'static [Self] = &[
        BlockCheck::BadField,
        BlockCheck::UnknownBid,
        BlockCheck::Quarter,
        BlockCheck::Repeated,
        BlockCheck::Linked,
    ];

    ghost number = { block_check_number };

    ghost name = { block_check_name };

    #[tactic(auto, unfolding(crate::specs::BlockChecks::block_check_name))]
    fn entry(self) -> (u8, &'static str) {
        match self {
            BlockCheck::BadField => (11, "BadField"),
            BlockCheck::UnknownBid => (12, "UnknownBid"),
            BlockCheck::Quarter => (13, "Quarter"),
            BlockCheck::Repeated => (14, "Repeated"),
            BlockCheck::Linked => (15, "Linked"),
        }
    }
}

/// A book of blocks.
#[derive(Drop)]
pub struct BlockBook {
    /// The names of the blocks, in order of first appearance.
    pub names: NameIndex,
    /// For each bid the place of its block among these, from 0, if it is in one.
    pub block_of: Items<Option<u32>>,
}

impl BlockBook {
    /// The book of a page of blocks of bids of the quarters from the first to the last, which count from 1, or the
    /// page's first refusal.
    pub fn read(
        alloc: Global,
        blocks: &[u8],
        bids: &BidBook,
        links: &LinkBook,
        first: u32,
        last: u32,
    ) -> Result<BlockBook, BookFault>
        requires page { length blocks.now ≤ MOST_PAGE }
        requires links { IsLinkBook bids.now links.now }
        ensures book { GivesBook result (book_in (block_grammar bids.now links.now first last) blocks.now) }
        ensures blocks { IfOk result (IsBlockBook bids.now links.now first last) }
    {
        let none = BlocksSoFar::new(alloc, bids, links, first, last)?;
        read_book(alloc, blocks, COLUMNS, none)
    }
}

/// Whether a quarter is one of those from the first to the last.
pub(crate) fn is_within(first: u32, last: u32, quarter: u32) -> bool
    ensures { result ≡ is_within_of first last quarter }
{
    first <= quarter && quarter <= last
}

/// Which of `count` bids are parents.
fn parents_of(alloc: Global, links: &[BidLinks], count: usize) -> Result<Vec<bool>, AllocError>
    requires { (child parent : ℕ) → parent_at links.now child ≡ Some parent → parent < count }
    ensures { IfOk result (λ parents. (bid : ℕ) → get_or parents.items bid false ≡ is_parent links.now bid) }
{
    let mut parents = vec![in alloc; false; count]?;
    for entry in links {
        if let Some(parent) = entry.parent {
            parents[parent as usize] = true;
        }
    }
    Ok(parents)
}

/// What the lines so far say of blocks of these bids, and which bids are parents.
#[derive(Drop)]
struct BlocksSoFar<'a> {
    bids: &'a BidBook,
    links: &'a LinkBook,
    first: u32,
    last: u32,
    parents: Vec<bool>,
    names: NameIndex,
    block_of: Vec<Option<u32>>,
}

impl<'a> BlocksSoFar<'a> {
    ghost use Rattle.mari_blocks.specs.SoFar.{HoldsBlocks};

    /// No blocks.
    fn new(
        alloc: Global,
        bids: &'a BidBook,
        links: &'a LinkBook,
        first: u32,
        last: u32,
    ) -> Result<Self, AllocError>
        requires { IsLinkBook bids.now links.now }
        ensures bids { IfOk result (λ so_far. so_far.bids.now ≡ bids.now) }
        ensures links { IfOk result (λ so_far. so_far.links.now ≡ links.now) }
        ensures first { IfOk result (λ so_far. so_far.first ≡ first) }
        ensures last { IfOk result (λ so_far. so_far.last ≡ last) }
        ensures none { IfOk result (HoldsBlocks []) }
    {
        let count = bids.ids.len() as usize;
        Ok(BlocksSoFar {
            bids,
            links,
            first,
            last,
            parents: parents_of(alloc, links.links.as_slice(), count)?,
            names: NameIndex::new(alloc),
            block_of: vec![in alloc; None; count]?,
        })
    }

    /// Whether a bid is in a group, or is a child or a parent.
    fn is_linked(&self, bid: u32) -> bool
        requires { get_or self.now.parents.items bid false ≡ is_parent self.now.links.now.links bid }
        ensures { result ≡ is_linked_in self.now.links.now.links bid }
    {
        let links = self.links.links.as_slice();
        group_of(links, bid).is_some()
            || parent_of(links, bid).is_some()
            || self.parents.get(bid as usize).copied().unwrap_or(false)
    }

    /// The bid of a line, or the first check that the line fails.
    fn bid_of_line(&self, line: &Row) -> Result<u32, BlockCheck>
        requires { (earlier : List Line) × HoldsBlocks earlier self.now }
        ensures bid { (earlier : List Line) → HoldsBlocks earlier self.now
            → IsRead block_check_number result
            (first_failing (line_checks self.now.bids.now self.now.links.now self.now.first self.now.last earlier line.now))
            (bid_at self.now.bids.now line.now) }
        ensures there { IfOk result (λ bid. bid < length self.now.bids.now.ids) }
        ensures name { OnOk result (is_name (block_name line.now) ≡ true) }
    {
        if !is_name_text(line.field(0)) {
            return Err(BlockCheck::BadField);
        }
        let Some(bid) = self.bids.ids.find(line.field(1)) else {
            return Err(BlockCheck::UnknownBid);
        };
        let quarter = bid_of(self.bids.bids.as_slice(), bid).quarter;
        if !is_within(self.first, self.last, quarter) {
            return Err(BlockCheck::Quarter);
        }
        if self.block_of[bid as usize].is_some() {
            return Err(BlockCheck::Repeated);
        }
        if self.is_linked(bid) {
            return Err(BlockCheck::Linked);
        }
        Ok(bid)
    }
}

impl<'a> BookSoFar for BlocksSoFar<'a> {
    ghost use Rattle.mari_blocks.specs.SoFar.{HoldsBlocks};

    type Check = BlockCheck;

    type Book = BlockBook;

    ghost grammar = { λ so_far. block_grammar so_far.bids.now so_far.links.now so_far.first so_far.last };

    ghost Holds = { λ so_far lines. HoldsBlocks lines so_far };

    fn take(&mut self, alloc: Global, line: &Row) -> Result<(), LineFault<BlockCheck>> {
        let bid = match self.bid_of_line(line) {
            Ok(bid) => bid,
            Err(check) => return Err(LineFault::Fails(check)),
        };
        let block = self.names.find_or_add(alloc, line.field(0))?;
        self.block_of[bid as usize] = Some(block);
        Ok(())
    }

    fn end(self, _alloc: Global) -> Result<BlockBook, LineFault<BlockCheck>> {
        Ok(BlockBook {
            names: self.names,
            block_of: Items::of(self.block_of),
        })
    }
}
