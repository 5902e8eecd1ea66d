//! The borders between zones and their limits.
ghost use Rattle.std.specs.Prelude.{◌≡◌, ◌≤◌, IfOk, List, length, map};
ghost use Rattle.std.specs.List.{list_any};
ghost use Rattle.mari_rows.specs.Books.{first_failing, GivesBook};
ghost use Rattle.mari_rows.specs.Checks.{IsRead};
ghost use Rattle.mari_rows.specs.declared.rows.Row.{Row as Line};
ghost use Rattle.mari_zones.specs.BorderChecks.{border_check_name, border_check_number};
ghost use Rattle.mari_zones.specs.Borders.{IsBorderBook, bare_columns, border_checks, border_columns, border_grammar, border_of, borders_in, columns_in, file_limit_in, is_between_same as is_between_same_in, limit_in, version_in};

use crate::zones::ZoneBook;
use mari_rows::{
    BookFault, BookSoFar, FileCheck, LineFault, Row, has_header, number_of, read_book,
};
use mari_units::{Items, MOST_BORDERS, MOST_MW, MOST_PAGE, Memory};
use std::alloc::Global;

const COLUMNS: &str = "from,to,limit,back";

/// The columns of borders.csv in version 2, where limits are stated for each run.
pub const BARE_COLUMNS: &str = "from,to";

/// A check of borders.csv.
#[derive(Clone, Copy, Debug, PartialEq, Eq)]
pub enum BorderCheck {
    /// There are more than `MOST_BORDERS` borders.
    TooManyBorders,
    /// One of the two isn't a zone of zones.csv.
    Unknown,
    /// Both are one zone.
    SelfBorder,
    /// An earlier line has the same two zones, in this order or the other.
    Repeated,
    /// A limit isn't a whole number from 0 to `MOST_MW` MW.
    Range,
}

impl FileCheck for BorderCheck {
    const ALL: &'static [Self] = &[
        BorderCheck::TooManyBorders,
        BorderCheck::Unknown,
        BorderCheck::SelfBorder,
        BorderCheck::Repeated,
        BorderCheck::Range,
    ];

    ghost number = { border_check_number };

    ghost name = { border_check_name };

    #[tactic(auto, unfolding(crate::specs::BorderChecks::border_check_name))]
    fn entry(self) -> (u8, &'static str) {
        match self {
            BorderCheck::TooManyBorders => (11, "TooManyBorders"),
            BorderCheck::Unknown => (12, "Unknown"),
            BorderCheck::SelfBorder => (13, "SelfBorder"),
            BorderCheck::Repeated => (14, "Repeated"),
            BorderCheck::Range => (15, "Range"),
        }
    }
}

/// A border from one zone to another.
#[derive(Clone, Copy, Debug, PartialEq, Eq)]
pub struct BorderEnds {
    /// The place of its first zone among the zones, from 0.
    pub from: u32,
    /// The place of its second zone among the zones, from 0.
    pub to: u32,
    /// The most that may flow from the first zone to the second, in MW.
    pub limit: u32,
    /// The most that may flow from the second zone to the first, in MW.
    pub back: u32,
}

/// The borders in the order of the file.
#[derive(Drop)]
pub struct BorderBook {
    /// The borders; what flows over each is read at the same place.
    pub borders: Items<BorderEnds>,
}

impl BorderBook {
    /// The book of a page of either version, or its first refusal. In version 2 all its limits are 0.
    pub fn read(alloc: Global, borders: &[u8], zones: &ZoneBook) -> Result<BorderBook, BookFault>
        requires { length borders.now ≤ MOST_PAGE }
        ensures book { GivesBook result (borders_in zones.now borders.now) }
        ensures borders { IfOk result (IsBorderBook zones.now) }
    {
        let version = version_of(alloc, borders)?;
        let none = BordersSoFar {
            zones,
            version,
            borders: Vec::new(alloc),
        };
        read_book(alloc, borders, columns_of(version), none)
    }
}

/// The version of a page of borders: 2 where its first record is the columns `from,to`, and else 1.
#[tactic(auto, unfolding(crate::specs::Borders::bare_columns))]
pub fn version_of(alloc: Global, borders: &[u8]) -> Result<u8, Memory>
    ensures { IfOk result (λ version. version ≡ version_in borders.now) }
{
    if has_header(alloc, borders, BARE_COLUMNS)? {
        Ok(2)
    } else {
        Ok(1)
    }
}

/// The columns of a version.
#[tactic(auto, unfolding(crate::specs::Borders::bare_columns, crate::specs::Borders::border_columns))]
fn columns_of(version: u8) -> &'static str
    ensures { result.now ≡ columns_in version }
{
    if version == 2 { BARE_COLUMNS } else { COLUMNS }
}

/// The limit of a border, in MW, as a file states it: from 0 to `MOST_MW`.
pub fn file_limit_of(text: &[u8]) -> Option<u32>
    ensures { result ≡ file_limit_in text.now }
{
    number_of(text, 0, MOST_MW)
}

/// The limit that a field writes, which is 0 in version 2.
fn limit_of(version: u8, text: &[u8]) -> Option<u32>
    ensures { result ≡ limit_in version text.now }
{
    if version == 2 {
        Some(0)
    } else {
        file_limit_of(text)
    }
}

/// Whether two borders are between the same two zones, in either order.
fn is_between_same(border: BorderEnds, other: BorderEnds) -> bool
    ensures { result ≡ is_between_same_in border other }
{
    (border.from == other.from && border.to == other.to)
        || (border.from == other.to && border.to == other.from)
}

/// Whether one of these borders is between the same two zones.
fn is_repeated(border: BorderEnds, earlier: &[BorderEnds]) -> bool
    ensures { result ≡ list_any (is_between_same_in border) earlier.now }
{
    earlier.iter().any(|other| is_between_same(border, *other))
}

/// The border of a line after these, or the first check that fails.
fn read_border(
    zones: &ZoneBook,
    version: u8,
    earlier: &[BorderEnds],
    line: &Row,
) -> Result<BorderEnds, BorderCheck>
    ensures { (lines : List Line) → earlier.now ≡ map (border_of zones.now version) lines
        → IsRead border_check_number result (first_failing (border_checks zones.now version lines line.now)) (border_of zones.now version line.now) }
{
    if earlier.len() >= MOST_BORDERS {
        return Err(BorderCheck::TooManyBorders);
    }
    let Some(from) = zones.zones.find(line.field(0)) else {
        return Err(BorderCheck::Unknown);
    };
    let Some(to) = zones.zones.find(line.field(1)) else {
        return Err(BorderCheck::Unknown);
    };
    if from == to {
        return Err(BorderCheck::SelfBorder);
    }
    let limit = limit_of(version, line.field(2));
    let back = limit_of(version, line.field(3));
    let border = BorderEnds {
        from,
        to,
        limit: limit.unwrap_or(0),
        back: back.unwrap_or(0),
    };
    if is_repeated(border, earlier) {
        return Err(BorderCheck::Repeated);
    }
    if limit.is_none() || back.is_none() {
        return Err(BorderCheck::Range);
    }
    Ok(border)
}

/// The borders of the lines so far.
#[derive(Drop)]
struct BordersSoFar<'a> {
    zones: &'a ZoneBook,
    version: u8,
    borders: Vec<BorderEnds>,
}

impl<'a> BookSoFar for BordersSoFar<'a> {
    ghost use Rattle.mari_zones.specs.SoFar.{HoldsBorders};

    type Check = BorderCheck;

    type Book = BorderBook;

    ghost grammar = { λ so_far. border_grammar so_far.zones.now so_far.version };

    ghost Holds = { λ so_far lines. HoldsBorders lines so_far };

    fn take(&mut self, _alloc: Global, line: &Row) -> Result<(), LineFault<BorderCheck>> {
        match read_border(self.zones, self.version, self.borders.as_slice(), line) {
            Ok(border) => Ok(self.borders.push(border)?),
            Err(check) => Err(LineFault::Fails(check)),
        }
    }

    fn end(self, _alloc: Global) -> Result<BorderBook, LineFault<BorderCheck>> {
        Ok(BorderBook {
            borders: Items::of(self.borders),
        })
    }
}
