//! What earlier blocks of a day left.

ghost use Rattle.std.specs.Prelude.{◌≡◌, ◌≤◌, ◌<◌, ◌+◌, [], IfOk, get_or, length, map, unsigned_abs};
ghost use Rattle.std.specs.List.{All, range_with_len};
ghost use Rattle.mari_remain.specs.Accepted.{IsAccepted};
ghost use Rattle.mari_remain.specs.FirstBlocks.{StandsFor, activated_in, direct_in, is_kept_of, kept_flow};
ghost use Rattle.mari_remain.specs.Lists.{bids_of_quarter, numbers_of_run};
ghost use Rattle.mari_bids.specs.declared.bids.Bid.{Bid as TheBid};
ghost use Rattle.mari_demands.specs.declared.demands.Demand.{Demand as TheDemand};

use crate::books::Books;
use crate::index::{Numbers, index_of};
use mari_bids::Bid;
use mari_demands::Demand;
use mari_units::{MOST_MW, Memory};
use std::alloc::Global;
use std::marker::Model;

/// What the blocks of a day's first runs took, and the bids of each quarter and the demands of each run.
#[derive(Drop)]
pub struct Remaining {
    /// How many MW of each bid were taken.
    pub(crate) mw: Vec<u32>,
    /// Which bids a direct run activated.
    pub(crate) direct: Vec<bool>,
    /// The quarter of the last published block.
    pub(crate) quarter: Option<u32>,
    /// The sum of each border's flows in that quarter, in MW.
    pub(crate) flow: Vec<i64>,
    /// The numbers of the bids of each quarter.
    pub(crate) of_quarter: Vec<Numbers>,
    /// The numbers of the demands of each run.
    pub(crate) of_run: Vec<Numbers>,
}

impl Model for Remaining {
    ghost use Rattle.mari_remain.specs.FirstBlocks.{Tally};

    ghost Value = { Tally };

    ghost view = { λ r. record {
      mw = r.mw.items;
      direct = r.direct.items;
      quarter = r.quarter;
      flow = r.flow.items;
      of_quarter = r.of_quarter.items;
      of_run = r.of_run.items;
    } };
}

/// The quarter of each bid.
fn bid_quarters(alloc: Global, bids: &[Bid]) -> Result<Vec<u32>, Memory>
    ensures { IfOk result (λ quarters. quarters.items ≡ map (λ (bid : TheBid). bid.quarter) bids.now) }
{
    let mut quarters = Vec::new(alloc);
    for bid in bids {
        quarters.push(bid.quarter)?;
    }
    Ok(quarters)
}

/// The bids of each quarter of the day.
fn bids_by_quarter(alloc: Global, books: &Books) -> Result<Vec<Numbers>, Memory>
    requires { IsAccepted books.now }
    ensures { IfOk result (λ index. index.items ≡ map (bids_of_quarter books.now.bids.bids) (range_with_len 0 (books.now.quarters + 1))) }
{
    let quarters = bid_quarters(alloc, books.bids.bids.as_slice())?;
    let index = index_of(alloc, &quarters, books.quarters + 1)?;
    Ok(index)
}

/// The run of each demand.
fn demand_runs(alloc: Global, demands: &[Demand]) -> Result<Vec<u32>, Memory>
    ensures { IfOk result (λ runs. runs.items ≡ map (λ (demand : TheDemand). demand.run) demands.now) }
{
    let mut runs = Vec::new(alloc);
    for demand in demands {
        runs.push(demand.run)?;
    }
    Ok(runs)
}

/// The demands of each run of the day.
fn demands_by_run(alloc: Global, books: &Books) -> Result<Vec<Numbers>, Memory>
    requires { IsAccepted books.now }
    ensures { IfOk result (λ index. index.items ≡ map (numbers_of_run books.now.demands.demands) (range_with_len 0 (length books.now.runs.runs + 1))) }
{
    let runs = demand_runs(alloc, books.demands.demands.as_slice())?;
    let count = books.runs.runs.as_slice().len() as u32;
    let index = index_of(alloc, &runs, count + 1)?;
    Ok(index)
}

impl Remaining {
    /// What is left before the first run: everything.
    pub fn start(alloc: Global, books: &Books) -> Result<Remaining, Memory>
        requires { IsAccepted books.now }
        ensures { IfOk result (StandsFor books.now []) }
    {
        let bids = books.bids.bids.as_slice().len();
        let borders = books.borders.borders.as_slice().len();
        Ok(Remaining {
            mw: vec![in alloc; 0u32; bids]?,
            direct: vec![in alloc; false; bids]?,
            quarter: None,
            flow: vec![in alloc; 0i64; borders]?,
            of_quarter: bids_by_quarter(alloc, books)?,
            of_run: demands_by_run(alloc, books)?,
        })
    }

    /// The MW of a bid so far.
    pub(crate) fn mw_of(&self, bid: u32) -> u32
        ensures { result ≡ get_or self.now.mw bid 0 }
    {
        self.mw.get(bid as usize).copied().unwrap_or(0)
    }

    /// The MW so far of a bid that is there.
    pub(crate) fn mw_at(&self, bid: u32) -> u32
        requires { bid < length self.now.mw }
        ensures { result ≡ get_or self.now.mw bid 0 }
    {
        self.mw[bid as usize]
    }

    /// Whether a bid was activated.
    pub(crate) fn is_activated(&self, bid: u32) -> bool
        ensures { result ≡ activated_in self.now bid }
    {
        self.mw_of(bid) > 0
    }

    /// Whether a direct run activated a bid.
    pub(crate) fn by_direct_run(&self, bid: u32) -> bool
        ensures { result ≡ direct_in self.now bid }
    {
        self.direct.get(bid as usize).copied().unwrap_or(false)
    }

    /// Whether the last published block is of a quarter.
    pub(crate) fn is_of(&self, quarter: u32) -> bool
        ensures { result ≡ is_kept_of self.now quarter }
    {
        self.quarter == Some(quarter)
    }

    /// The sum of a border's flows in the published blocks of a quarter, in MW: 0 of any quarter but that of the last
    /// published block.
    pub(crate) fn flow_of(&self, quarter: u32, border: u32) -> i64
        ensures flow { result ≡ kept_flow self.now quarter border }
        ensures small { All (λ flow. unsigned_abs flow ≤ MOST_MW) self.now.flow → unsigned_abs result ≤ MOST_MW }
    {
        if self.quarter == Some(quarter) {
            self.flow.get(border as usize).copied().unwrap_or(0)
        } else {
            0
        }
    }

    /// The bids of a quarter.
    pub(crate) fn bids_of(&self, quarter: u32) -> &[u32]
        requires { quarter < length self.now.of_quarter }
        ensures { result.now ≡ get_or self.now.of_quarter quarter [] }
    {
        self.of_quarter[quarter as usize].as_slice()
    }

    /// The demands of a run.
    pub(crate) fn demands_of(&self, run: u32) -> &[u32]
        requires { run < length self.now.of_run }
        ensures { result.now ≡ get_or self.now.of_run run [] }
    {
        self.of_run[run as usize].as_slice()
    }
}
