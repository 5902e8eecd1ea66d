//! The bids of a day.
ghost use Rattle.std.specs.Prelude.{◌≡◌, ◌≤◌, ◌+◌, ℕ, true, false, List, map, length, IfOk, OnOk, []};
ghost use Rattle.mari_units.specs.Names.{is_name};
ghost use Rattle.mari_rows.specs.Books.{book_in, first_failing, GivesBook};
ghost use Rattle.mari_rows.specs.Checks.{IsRead};
ghost use Rattle.mari_rows.specs.Names.{is_among};
ghost use Rattle.mari_rows.specs.declared.rows.Row.{Row as Line};
ghost use Rattle.mari_zones.specs.declared.zones.ZoneBook.{ZoneBook};
ghost use Rattle.mari_bids.specs.BidChecks.{bid_check_name, bid_check_number};
ghost use Rattle.mari_bids.specs.Columns.{AreColumnsOf};
ghost use Rattle.mari_bids.specs.Bids.{bid_at, bid_checks, bid_grammar, has_bad_field as has_bad_field_in, id_of, IsBidBook, is_both as is_both_in, is_up as is_up_in, provider_of};

use mari_rows::{
    BookFault, BookSoFar, FileCheck, LineFault, NameIndex, Row, count_one, is_first_of, is_written,
    read_book, read_number, read_price,
};
use mari_units::{Cents, Items, MOST_BID_MW, MOST_BIDS, MOST_PAGE, NumberFault, is_name_text};
use mari_zones::ZoneBook;
use std::alloc::{AllocError, Global};

const COLUMNS: &str = "id,provider,zone,quarter,direction,price,least,greatest,kind";

/// A check of bids.csv.
#[derive(Clone, Copy, Debug, PartialEq, Eq)]
pub enum BidCheck {
    /// A field isn't written as its column asks.
    BadField,
    /// An earlier line has this id.
    Repeated,
    /// The zone isn't in zones.csv.
    UnknownZone,
    /// The day has no such quarter.
    Quarter,
    /// The price, the least or the greatest quantity lies outside its range.
    Range,
    /// The least quantity is above the greatest.
    LeastAboveGreatest,
    /// The quarter has more than `MOST_BIDS` bids.
    TooMany,
}

impl FileCheck for BidCheck {
    const ALL: &'static [Self] = &[
        BidCheck::BadField,
        BidCheck::Repeated,
        BidCheck::UnknownZone,
        BidCheck::Quarter,
        BidCheck::Range,
        BidCheck::LeastAboveGreatest,
        BidCheck::TooMany,
    ];

    ghost number = { bid_check_number };

    ghost name = { bid_check_name };

    #[tactic(auto, unfolding(crate::specs::BidChecks::bid_check_name))]
    fn entry(self) -> (u8, &'static str) {
        match self {
            BidCheck::BadField => (11, "BadField"),
            BidCheck::Repeated => (12, "Repeated"),
            BidCheck::UnknownZone => (13, "UnknownZone"),
            BidCheck::Quarter => (14, "Quarter"),
            BidCheck::Range => (15, "Range"),
            BidCheck::LeastAboveGreatest => (16, "LeastAboveGreatest"),
            BidCheck::TooMany => (17, "TooMany"),
        }
    }
}

/// A bid of one quarter hour.
#[derive(Clone, Copy, Debug, PartialEq, Eq)]
pub struct Bid {
    /// The place of its provider among the providers, from 0.
    pub provider: u32,
    /// The place of its zone among the zones, from 0.
    pub zone: u32,
    /// Its quarter hour, from 1.
    pub quarter: u32,
    /// Whether it is upward: it gives energy. A downward one takes it.
    pub up: bool,
    /// Its price, in cents per MWh.
    pub price: Cents,
    /// The least quantity that it may run, in MW, as the file states it.
    pub least: u32,
    /// The greatest quantity that it may run, in MW.
    pub greatest: u32,
    /// Whether it is for scheduled and direct runs, and not for scheduled runs alone.
    pub both: bool,
}

/// The bids in the order of the file.
#[derive(Drop)]
pub struct BidBook {
    /// The name of each bid.
    pub ids: NameIndex,
    /// The providers, in order of first appearance.
    pub providers: NameIndex,
    /// The bids.
    pub bids: Items<Bid>,
}

impl BidBook {
    /// The book of a page on a day of `quarters` quarters, or its first refusal.
    pub fn read(
        alloc: Global,
        bids: &[u8],
        zones: &ZoneBook,
        quarters: u32,
    ) -> Result<BidBook, BookFault>
        requires { length bids.now ≤ MOST_PAGE }
        ensures book { GivesBook result (book_in (bid_grammar zones.now quarters) bids.now) }
        ensures bids { IfOk result (IsBidBook zones.now quarters) }
    {
        let none = BidsSoFar::new(alloc, zones, quarters)?;
        read_book(alloc, bids, COLUMNS, none)
    }
}

/// Whether a line is of an upward bid. A word that is no direction gives none.
#[tactic(auto, unfolding(crate::specs::Bids::up_word, crate::specs::Bids::down_word))]
fn is_up(line: &Row) -> Option<bool>
    ensures { result ≡ is_up_in line.now }
{
    is_first_of(line.field(4), b"up", b"down")
}

/// Whether a line is of a bid for scheduled and direct runs. A word that is no kind gives none.
#[tactic(auto, unfolding(crate::specs::Bids::both_word, crate::specs::Bids::scheduled_word))]
fn is_both(line: &Row) -> Option<bool>
    ensures { result ≡ is_both_in line.now }
{
    is_first_of(line.field(8), b"both", b"scheduled")
}

/// What a line's numbers and words say, each read once.
#[derive(Clone, Copy, Drop)]
struct Columns {
    quarter: Result<u32, NumberFault>,
    up: Option<bool>,
    price: Result<Cents, NumberFault>,
    least: Result<u32, NumberFault>,
    greatest: Result<u32, NumberFault>,
    both: Option<bool>,
}

/// What the numbers and words of a line say on a day of `quarters` quarters.
fn columns_of(line: &Row, quarters: u32) -> Columns
    ensures { AreColumnsOf quarters line.now result }
{
    Columns {
        quarter: read_number(line.field(3), 1, quarters),
        up: is_up(line),
        price: read_price(line.field(5)),
        least: read_number(line.field(6), 0, MOST_BID_MW),
        greatest: read_number(line.field(7), 1, MOST_BID_MW),
        both: is_both(line),
    }
}

/// Whether a field is no name, no number, no price or no word of its column.
fn has_bad_field(line: &Row, columns: &Columns) -> bool
    requires { (quarters : ℕ) × AreColumnsOf quarters line.now columns.now }
    ensures { result ≡ has_bad_field_in line.now }
{
    !(is_name_text(line.field(0))
        && is_name_text(line.field(1))
        && is_written(&columns.quarter)
        && is_written(&columns.least)
        && is_written(&columns.greatest)
        && is_written(&columns.price)
        && columns.up.is_some()
        && columns.both.is_some())
}

/// The bid of a line after others with these names, but for the place of its provider, or the first check that fails.
fn read_bid(zones: &ZoneBook, quarters: u32, ids: &NameIndex, line: &Row) -> Result<Bid, BidCheck>
    ensures bid { (earlier : List Line) → ids.now ≡ map id_of earlier
        → IsRead bid_check_number result (first_failing (bid_checks zones.now quarters earlier line.now)) (bid_at zones.now quarters 0 line.now) }
    ensures quarter { IfOk result (λ bid. bid.quarter ≤ quarters) }
    ensures id { OnOk result (is_name (id_of line.now) ≡ true) }
    ensures new { OnOk result (is_among ids.now (id_of line.now) ≡ false) }
    ensures provider { OnOk result (is_name (provider_of line.now) ≡ true) }
{
    let columns = columns_of(line, quarters);
    if has_bad_field(line, &columns) {
        return Err(BidCheck::BadField);
    }
    if ids.find(line.field(0)).is_some() {
        return Err(BidCheck::Repeated);
    }
    let Some(zone) = zones.zones.find(line.field(2)) else {
        return Err(BidCheck::UnknownZone);
    };
    let Ok(quarter) = columns.quarter else {
        return Err(BidCheck::Quarter);
    };
    let Ok(price) = columns.price else {
        return Err(BidCheck::Range);
    };
    let Ok(greatest) = columns.greatest else {
        return Err(BidCheck::Range);
    };
    let Ok(least) = columns.least else {
        return Err(BidCheck::Range);
    };
    if least > greatest {
        return Err(BidCheck::LeastAboveGreatest);
    }
    Ok(Bid {
        provider: 0,
        zone,
        quarter,
        up: columns.up.unwrap_or(false),
        price,
        least,
        greatest,
        both: columns.both.unwrap_or(false),
    })
}

/// The bids of the lines so far, and how many there are of each quarter.
#[derive(Drop)]
struct BidsSoFar<'a> {
    zones: &'a ZoneBook,
    quarters: u32,
    ids: NameIndex,
    providers: NameIndex,
    bids: Vec<Bid>,
    counts: Vec<u32>,
}

impl<'a> BidsSoFar<'a> {
    ghost use Rattle.mari_bids.specs.SoFar.{HoldsBids};

    /// None so far.
    fn new(alloc: Global, zones: &'a ZoneBook, quarters: u32) -> Result<Self, AllocError>
        ensures zones { IfOk result (λ so_far. so_far.zones.now ≡ zones.now) }
        ensures quarters { IfOk result (λ so_far. so_far.quarters ≡ quarters) }
        ensures none { IfOk result (HoldsBids []) }
    {
        Ok(BidsSoFar {
            zones,
            quarters,
            ids: NameIndex::new(alloc),
            providers: NameIndex::new(alloc),
            bids: Vec::new(alloc),
            counts: vec![in alloc; 0u32; quarters as usize + 1]?,
        })
    }
}

impl<'a> BookSoFar for BidsSoFar<'a> {
    ghost use Rattle.mari_bids.specs.SoFar.{HoldsBids};

    type Check = BidCheck;

    type Book = BidBook;

    ghost grammar = { λ so_far. bid_grammar so_far.zones.now so_far.quarters };

    ghost Holds = { λ so_far lines. HoldsBids lines so_far };

    fn take(&mut self, alloc: Global, line: &Row) -> Result<(), LineFault<BidCheck>> {
        let mut bid = match read_bid(self.zones, self.quarters, &self.ids, line) {
            Ok(bid) => bid,
            Err(check) => return Err(LineFault::Fails(check)),
        };
        if !count_one(&mut self.counts, bid.quarter, MOST_BIDS as u32) {
            return Err(LineFault::Fails(BidCheck::TooMany));
        }
        self.ids.add_new(alloc, line.field(0))?;
        bid.provider = self.providers.find_or_add(alloc, line.field(1))?;
        self.bids.push(bid)?;
        Ok(())
    }

    fn end(self, _alloc: Global) -> Result<BidBook, LineFault<BidCheck>> {
        Ok(BidBook {
            ids: self.ids,
            providers: self.providers,
            bids: Items::of(self.bids),
        })
    }
}
