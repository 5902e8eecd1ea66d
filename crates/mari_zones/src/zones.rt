//! The zones, their operators, and the operator of each zone.
ghost use Rattle.std.specs.Prelude.{◌≡◌, ◌≤◌, ◌<◌, List, true, false, length, option_map, IfNone, IfOk};
ghost use Rattle.mari_units.specs.Names.{is_name};
ghost use Rattle.mari_rows.specs.Books.{book_in, first_failing, GivesBook};
ghost use Rattle.mari_rows.specs.Names.{is_among};
ghost use Rattle.mari_rows.specs.declared.rows.Row.{Row as Line};
ghost use Rattle.mari_zones.specs.Zones.{IsZoneBook, operator_of, zone_checks, zone_grammar, zone_of, zones_of};
ghost use Rattle.mari_zones.specs.ZoneChecks.{zone_check_name, zone_check_number};

use mari_rows::{BookFault, BookSoFar, FileCheck, LineFault, NameIndex, Row, read_book};
use mari_units::{Items, MOST_PAGE, MOST_ZONES, is_name_text};
use std::alloc::Global;

const COLUMNS: &str = "zone,operator";

/// A check of zones.csv.
#[derive(Clone, Copy, Debug, PartialEq, Eq)]
pub enum ZoneCheck {
    /// There are more than `MOST_ZONES` zones.
    TooManyZones,
    /// The zone or the operator isn't a name.
    BadField,
    /// An earlier line has this zone.
    Repeated,
    /// The file has no zone.
    NoZone,
}

impl FileCheck for ZoneCheck {
    const ALL: &'static [Self] = &[
        ZoneCheck::TooManyZones,
        ZoneCheck::BadField,
        ZoneCheck::Repeated,
        ZoneCheck::NoZone,
    ];

    ghost number = { zone_check_number };

    ghost name = { zone_check_name };

    #[tactic(auto, unfolding(crate::specs::ZoneChecks::zone_check_name))]
    fn entry(self) -> (u8, &'static str) {
        match self {
            ZoneCheck::TooManyZones => (11, "TooManyZones"),
            ZoneCheck::BadField => (12, "BadField"),
            ZoneCheck::Repeated => (13, "Repeated"),
            ZoneCheck::NoZone => (14, "NoZone"),
        }
    }
}

/// Zones and operators in the order in which they first appear in the file.
#[derive(Drop)]
pub struct ZoneBook {
    /// The names of the zones.
    pub zones: NameIndex,
    /// The names of the operators.
    pub operators: NameIndex,
    /// For each zone the place of its operator among the operators, from 0.
    pub operator_of: Items<u32>,
}

impl ZoneBook {
    /// The book of a page, or its first refusal.
    pub fn read(alloc: Global, zones: &[u8]) -> Result<ZoneBook, BookFault>
        requires { length zones.now ≤ MOST_PAGE }
        ensures book { GivesBook result (book_in zone_grammar zones.now) }
        ensures zones { IfOk result IsZoneBook }
    {
        let none = ZonesSoFar {
            zones: NameIndex::new(alloc),
            operators: NameIndex::new(alloc),
            operator_of: Vec::new(alloc),
        };
        read_book(alloc, zones, COLUMNS, none)
    }
}

/// The zones of the lines so far.
#[derive(Drop)]
struct ZonesSoFar {
    zones: NameIndex,
    operators: NameIndex,
    operator_of: Vec<u32>,
}

/// The first check that a line fails after others with these zones.
fn failing_check(zones: &NameIndex, line: &Row) -> Option<ZoneCheck>
    ensures first { (earlier : List Line) → zones.now ≡ zones_of earlier
        → option_map zone_check_number result ≡ first_failing (zone_checks earlier line.now) }
    ensures zone { IfNone result (is_name (zone_of line.now) ≡ true) }
    ensures operator { IfNone result (is_name (operator_of line.now) ≡ true) }
    ensures new { IfNone result (is_among zones.now (zone_of line.now) ≡ false) }
{
    let zone = line.field(0);
    if zones.len() as usize >= MOST_ZONES {
        Some(ZoneCheck::TooManyZones)
    } else if !(is_name_text(zone) && is_name_text(line.field(1))) {
        Some(ZoneCheck::BadField)
    } else if zones.find(zone).is_some() {
        Some(ZoneCheck::Repeated)
    } else {
        None
    }
}

impl BookSoFar for ZonesSoFar {
    ghost use Rattle.mari_zones.specs.SoFar.{HoldsZones};

    type Check = ZoneCheck;

    type Book = ZoneBook;

    ghost grammar = { λ _. zone_grammar };

    ghost Holds = { λ so_far lines. HoldsZones lines so_far };

    fn take(&mut self, alloc: Global, line: &Row) -> Result<(), LineFault<ZoneCheck>> {
        if let Some(check) = failing_check(&self.zones, line) {
            return Err(LineFault::Fails(check));
        }
        self.zones.find_or_add(alloc, line.field(0))?;
        let operator = self.operators.find_or_add(alloc, line.field(1))?;
        self.operator_of.push(operator)?;
        Ok(())
    }

    fn end(self, _alloc: Global) -> Result<ZoneBook, LineFault<ZoneCheck>> {
        if self.zones.len() == 0 {
            return Err(LineFault::Fails(ZoneCheck::NoZone));
        }
        Ok(ZoneBook {
            zones: self.zones,
            operators: self.operators,
            operator_of: Items::of(self.operator_of),
        })
    }
}
