//! The demands of each run.
ghost use Rattle.std.specs.Prelude.{◌≡◌, ◌≤◌, ◌+◌, [], length, IfOk};
ghost use Rattle.mari_rows.specs.Books.{book_in, first_failing, GivesBook};
ghost use Rattle.mari_rows.specs.Checks.{IsRead};
ghost use Rattle.mari_demands.specs.DemandChecks.{demand_check_name, demand_check_number};
ghost use Rattle.mari_demands.specs.Demands.{IsDemandBook, demand_checks, demand_grammar, demand_of, mw_in};

use crate::runs::RunBook;
use mari_rows::{
    BookFault, BookSoFar, FileCheck, LineFault, Row, cents_of, count_one, is_whole, number_of,
    read_book, writes_price,
};
use mari_units::{Cents, Items, MOST_DEMANDS, MOST_MW, MOST_PAGE, MOST_RUNS, read_mw};
use mari_zones::ZoneBook;
use std::alloc::{AllocError, Global};

const COLUMNS: &str = "run,zone,mw,price";

/// A check of demands.csv.
#[derive(Clone, Copy, Debug, PartialEq, Eq)]
pub enum DemandCheck {
    /// A field isn't written as its column asks.
    BadField,
    /// The run isn't in runs.csv.
    UnknownRun,
    /// The zone isn't in zones.csv.
    UnknownZone,
    /// The size lies beyond `MOST_MW` on either side, or the price beyond `CAP`.
    Range,
    /// The run has more than `MOST_DEMANDS` demands.
    TooMany,
}

impl FileCheck for DemandCheck {
    const ALL: &'static [Self] = &[
        DemandCheck::BadField,
        DemandCheck::UnknownRun,
        DemandCheck::UnknownZone,
        DemandCheck::Range,
        DemandCheck::TooMany,
    ];

    ghost number = { demand_check_number };

    ghost name = { demand_check_name };

    #[tactic(auto, unfolding(crate::specs::DemandChecks::demand_check_name))]
    fn entry(self) -> (u8, &'static str) {
        match self {
            DemandCheck::BadField => (11, "BadField"),
            DemandCheck::UnknownRun => (12, "UnknownRun"),
            DemandCheck::UnknownZone => (13, "UnknownZone"),
            DemandCheck::Range => (14, "Range"),
            DemandCheck::TooMany => (15, "TooMany"),
        }
    }
}

/// A demand of a run in a zone.
#[derive(Clone, Copy, Debug, PartialEq, Eq)]
pub struct Demand {
    /// The number of its run, from 1.
    pub run: u32,
    /// The place of its zone among the zones, from 0.
    pub zone: u32,
    /// Its size in MW, below 0 for a surplus.
    pub mw: i64,
    /// The greatest price that a demand pays, or the least that a surplus takes, in cents per MWh; none where it is
    /// inelastic.
    pub price: Option<Cents>,
}

/// The demands in the order of the file.
#[derive(Drop)]
pub struct DemandBook {
    /// The demands of all runs.
    pub demands: Items<Demand>,
}

impl DemandBook {
    /// The book of a page, or its first refusal.
    pub fn read(
        alloc: Global,
        demands: &[u8],
        runs: &RunBook,
        zones: &ZoneBook,
    ) -> Result<DemandBook, BookFault>
        requires page { length demands.now ≤ MOST_PAGE }
        requires runs { length runs.now.runs ≤ MOST_RUNS }
        ensures book { GivesBook result (book_in (demand_grammar zones.now (length runs.now.runs)) demands.now) }
        ensures demands { IfOk result (IsDemandBook zones.now (length runs.now.runs)) }
    {
        let none = DemandsSoFar::new(alloc, zones, runs.runs.as_slice().len() as u32)?;
        read_book(alloc, demands, COLUMNS, none)
    }
}

/// A line's quantity.
fn mw_of(line: &Row) -> Option<i64>
    ensures { result ≡ mw_in line.now }
{
    match read_mw(line.field(2), -i64::from(MOST_MW), i64::from(MOST_MW)) {
        Ok(mw) => Some(mw.0),
        Err(_) => None,
    }
}

/// The demand of a line, or the first check that fails.
fn read_demand(zones: &ZoneBook, runs: u32, line: &Row) -> Result<Demand, DemandCheck>
    ensures demand { IsRead demand_check_number result (first_failing (demand_checks zones.now runs line.now)) (demand_of zones.now runs line.now) }
    ensures run { IfOk result (λ demand. demand.run ≤ runs) }
{
    let price = line.field(3);
    if !(is_whole(line.field(0))
        && is_whole(line.field(2))
        && (price.is_empty() || writes_price(price)))
    {
        return Err(DemandCheck::BadField);
    }
    let Some(run) = number_of(line.field(0), 1, runs) else {
        return Err(DemandCheck::UnknownRun);
    };
    let Some(zone) = zones.zones.find(line.field(1)) else {
        return Err(DemandCheck::UnknownZone);
    };
    let Some(mw) = mw_of(line) else {
        return Err(DemandCheck::Range);
    };
    let cents = cents_of(price);
    if !(price.is_empty() || cents.is_some()) {
        return Err(DemandCheck::Range);
    }
    Ok(Demand {
        run,
        zone,
        mw,
        price: cents,
    })
}

/// The demands of the lines so far, and how many there are of each run.
#[derive(Drop)]
struct DemandsSoFar<'a> {
    zones: &'a ZoneBook,
    runs: u32,
    demands: Vec<Demand>,
    counts: Vec<u32>,
}

impl<'a> DemandsSoFar<'a> {
    ghost use Rattle.mari_demands.specs.SoFar.{HoldsDemands};

    /// None so far.
    fn new(alloc: Global, zones: &'a ZoneBook, runs: u32) -> Result<Self, AllocError>
        ensures zones { IfOk result (λ so_far. so_far.zones.now ≡ zones.now) }
        ensures runs { IfOk result (λ so_far. so_far.runs ≡ runs) }
        ensures none { IfOk result (HoldsDemands []) }
    {
        Ok(DemandsSoFar {
            zones,
            runs,
            demands: Vec::new(alloc),
            counts: vec![in alloc; 0u32; runs as usize + 1]?,
        })
    }
}

impl<'a> BookSoFar for DemandsSoFar<'a> {
    ghost use Rattle.mari_demands.specs.SoFar.{HoldsDemands};

    type Check = DemandCheck;

    type Book = DemandBook;

    ghost grammar = { λ so_far. demand_grammar so_far.zones.now so_far.runs };

    ghost Holds = { λ so_far lines. HoldsDemands lines so_far };

    fn take(&mut self, _alloc: Global, line: &Row) -> Result<(), LineFault<DemandCheck>> {
        let demand = match read_demand(self.zones, self.runs, line) {
            Ok(demand) => demand,
            Err(check) => return Err(LineFault::Fails(check)),
        };
        if !count_one(&mut self.counts, demand.run, MOST_DEMANDS as u32) {
            return Err(LineFault::Fails(DemandCheck::TooMany));
        }
        self.demands.push(demand)?;
        Ok(())
    }

    fn end(self, _alloc: Global) -> Result<DemandBook, LineFault<DemandCheck>> {
        Ok(DemandBook {
            demands: Items::of(self.demands),
        })
    }
}
