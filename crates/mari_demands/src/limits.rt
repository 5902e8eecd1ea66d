//! The limits of each border in each run.

ghost use Rattle.std.specs.Prelude.{◌≡◌, ◌≤◌, ◌<◌, ◌-◌, ◌*◌, [], get_or, length, position, IfOk};
ghost use Rattle.mari_rows.specs.Books.{book_in, first_failing, GivesBook};
ghost use Rattle.mari_rows.specs.Checks.{IsRead};
ghost use Rattle.mari_demands.specs.LimitChecks.{limit_check_name, limit_check_number};
ghost use Rattle.mari_demands.specs.LimitPairs.{limits_in, IsLimitTable};
ghost use Rattle.mari_demands.specs.Limits.{border_in, leads, limit_grammar, limits_of, name_checks, pair_place};

use crate::runs::RunBook;
use mari_rows::{BookFault, BookSoFar, FileCheck, LineFault, Row, is_whole, number_of, read_book};
use mari_units::{MOST_BORDERS, MOST_PAGE, MOST_RUNS};
use mari_zones::{BorderBook, ZoneBook, file_limit_of};
use std::alloc::{AllocError, Global};
use std::marker::Model;

/// The columns of limits.csv.
pub const LIMIT_COLUMNS: &str = "run,from,to,limit,back";

/// A check of limits.csv.
#[derive(Clone, Copy, Debug, PartialEq, Eq)]
pub enum LimitCheck {
    /// A field isn't written as its column asks.
    BadField,
    /// The run isn't in runs.csv.
    UnknownRun,
    /// No border of borders.csv has these two zones in this order.
    UnknownBorder,
    /// An earlier line has the same run and border.
    Repeated,
    /// A limit isn't from 0 to `MOST_MW` MW.
    Range,
}

impl FileCheck for LimitCheck {
    const ALL: &'static [Self] = &[
        LimitCheck::BadField,
        LimitCheck::UnknownRun,
        LimitCheck::UnknownBorder,
        LimitCheck::Repeated,
        LimitCheck::Range,
    ];

    ghost number = { limit_check_number };

    ghost name = { limit_check_name };

    #[tactic(auto, unfolding(crate::specs::LimitChecks::limit_check_name))]
    fn entry(self) -> (u8, &'static str) {
        match self {
            LimitCheck::BadField => (11, "BadField"),
            LimitCheck::UnknownRun => (12, "UnknownRun"),
            LimitCheck::UnknownBorder => (13, "UnknownBorder"),
            LimitCheck::Repeated => (14, "Repeated"),
            LimitCheck::Range => (15, "Range"),
        }
    }
}

/// The limits of a border in a run.
#[derive(Clone, Copy, Debug, PartialEq, Eq)]
pub struct Limits {
    /// The most that may flow from the border's first zone to its second, in MW.
    pub limit: u32,
    /// The most that may flow from its second zone to its first, in MW.
    pub back: u32,
}

/// The limits of each border in each run, which contracts see as a table with a line for each run.
///
/// A border that no line of the page names in a run has the limits 0 and 0 in it.
#[derive(Drop)]
pub struct LimitBook {
    // what is stated of the first run's borders, then of the second's, and so on
    limits: Vec<Option<Limits>>,
    runs: u32,
    borders: u32,
}

impl Model for LimitBook {
    ghost use Rattle.std.specs.Prelude.{◌≡◌, ◌≤◌, ◌*◌, List, length};
    ghost use Rattle.mari_demands.specs.LimitPairs.{table_of};
    ghost use Rattle.mari_demands.specs.declared.limits.Limits.{Limits};
    ghost use Rattle.mari_units.specs.declared.limits.TheConstants.{MOST_BORDERS, MOST_RUNS};

    ghost Value = { List (List Limits) };

    ghost view = { λ b. table_of b.runs b.borders b.limits.items };

    ghost invariant = { λ b. (length b.limits.items ≡ b.runs * b.borders) × (b.runs ≤ MOST_RUNS) × (b.borders ≤ MOST_BORDERS) };
}

impl LimitBook {
    /// The book of a page of limits for these runs and borders, or its first refusal.
    pub fn read(
        alloc: Global,
        limits: &[u8],
        zones: &ZoneBook,
        borders: &BorderBook,
        runs: &RunBook,
    ) -> Result<LimitBook, BookFault>
        requires page { length limits.now ≤ MOST_PAGE }
        requires borders { length borders.now.borders ≤ MOST_BORDERS }
        requires runs { length runs.now.runs ≤ MOST_RUNS }
        ensures book { GivesBook result (book_in (limit_grammar zones.now borders.now (length runs.now.runs)) limits.now) }
        ensures limits { IfOk result (IsLimitTable (length runs.now.runs) (length borders.now.borders)) }
    {
        let count = runs.runs.as_slice().len() as u32;
        let none = LimitsSoFar::new(alloc, zones, borders, count)?;
        read_book(alloc, limits, LIMIT_COLUMNS, none)
    }

    /// The limits of a border, which counts from 0, in a run, which counts from 1: there and back, in MW.
    pub fn of(&self, run: u32, border: u32) -> (u32, u32)
        requires first { 1 ≤ run }
        requires last { run ≤ length self.now }
        requires border { border < length (get_or self.now (run - 1) []) }
        ensures { result ≡ record { 0 = (limits_in self.now run border).limit; 1 = (limits_in self.now run border).back } }
    {
        match self.limits[(run as usize - 1) * self.borders as usize + border as usize] {
            Some(limits) => (limits.limit, limits.back),
            None => (0, 0),
        }
    }
}

/// The border that leads from one zone to another.
fn border_between(borders: &BorderBook, from: u32, to: u32) -> Option<usize>
    ensures { result ≡ position (leads from to) borders.now.borders }
{
    borders
        .borders
        .as_slice()
        .iter()
        .position(|border| border.from == from && border.to == to)
}

/// The border that a line names.
fn border_of(zones: &ZoneBook, borders: &BorderBook, line: &Row) -> Option<usize>
    ensures { result ≡ border_in zones.now borders.now line.now }
{
    let Some(from) = zones.zones.find(line.field(1)) else {
        return None;
    };
    let Some(to) = zones.zones.find(line.field(2)) else {
        return None;
    };
    border_between(borders, from, to)
}

/// The limits that a line states.
fn read_limits(line: &Row) -> Option<Limits>
    ensures { result ≡ limits_of line.now }
{
    let Some(limit) = file_limit_of(line.field(3)) else {
        return None;
    };
    match file_limit_of(line.field(4)) {
        Some(back) => Some(Limits { limit, back }),
        None => None,
    }
}

/// What the lines so far state of each border in each run.
#[derive(Drop)]
struct LimitsSoFar<'a> {
    zones: &'a ZoneBook,
    borders: &'a BorderBook,
    runs: u32,
    limits: Vec<Option<Limits>>,
}

impl<'a> LimitsSoFar<'a> {
    ghost use Rattle.mari_demands.specs.SoFar.{HoldsLimits};

    /// None so far.
    fn new(
        alloc: Global,
        zones: &'a ZoneBook,
        borders: &'a BorderBook,
        runs: u32,
    ) -> Result<Self, AllocError>
        requires borders { length borders.now.borders ≤ MOST_BORDERS }
        requires runs { runs ≤ MOST_RUNS }
        ensures zones { IfOk result (λ so_far. so_far.zones.now ≡ zones.now) }
        ensures borders { IfOk result (λ so_far. so_far.borders.now ≡ borders.now) }
        ensures runs { IfOk result (λ so_far. so_far.runs ≡ runs) }
        ensures none { IfOk result (HoldsLimits []) }
    {
        let count = runs as usize * borders.borders.as_slice().len();
        Ok(LimitsSoFar {
            zones,
            borders,
            runs,
            limits: vec![in alloc; None; count]?,
        })
    }

    /// The place of what is stated of the run and the border that a line names, or the first check that it fails.
    fn place_of_pair(&self, line: &Row) -> Result<usize, LimitCheck>
        requires borders { length self.now.borders.now.borders ≤ MOST_BORDERS }
        requires runs { self.now.runs ≤ MOST_RUNS }
        ensures { IsRead limit_check_number result (first_failing (name_checks self.now.zones.now self.now.borders.now self.now.runs line.now))
            (pair_place self.now.zones.now self.now.borders.now self.now.runs line.now) }
    {
        if !(is_whole(line.field(0)) && is_whole(line.field(3)) && is_whole(line.field(4))) {
            return Err(LimitCheck::BadField);
        }
        let Some(run) = number_of(line.field(0), 1, self.runs) else {
            return Err(LimitCheck::UnknownRun);
        };
        let Some(border) = border_of(self.zones, self.borders, line) else {
            return Err(LimitCheck::UnknownBorder);
        };
        Ok((run as usize - 1) * self.borders.borders.as_slice().len() + border)
    }
}

impl<'a> BookSoFar for LimitsSoFar<'a> {
    ghost use Rattle.mari_demands.specs.SoFar.{HoldsLimits};

    type Check = LimitCheck;

    type Book = LimitBook;

    ghost grammar = { λ so_far. limit_grammar so_far.zones.now so_far.borders.now so_far.runs };

    ghost Holds = { λ so_far lines. HoldsLimits lines so_far };

    fn take(&mut self, _alloc: Global, line: &Row) -> Result<(), LineFault<LimitCheck>> {
        let place = match self.place_of_pair(line) {
            Ok(place) => place,
            Err(check) => return Err(LineFault::Fails(check)),
        };
        if self.limits[place].is_some() {
            return Err(LineFault::Fails(LimitCheck::Repeated));
        }
        let Some(limits) = read_limits(line) else {
            return Err(LineFault::Fails(LimitCheck::Range));
        };
        self.limits[place] = Some(limits);
        Ok(())
    }

    fn end(self, _alloc: Global) -> Result<LimitBook, LineFault<LimitCheck>> {
        Ok(LimitBook {
            limits: self.limits,
            runs: self.runs,
            borders: self.borders.borders.as_slice().len() as u32,
        })
    }
}
