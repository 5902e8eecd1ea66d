//! The day that day.csv states: its date, and how many quarter hours it has.

ghost use Rattle.std.specs.Prelude.{◌≡◌, ◌≤◌, IfErr, IfOk, length};
ghost use Rattle.mari_rows.specs.Books.{GivesBook};
ghost use Rattle.mari_rows.specs.declared.faults.BookFault.{BookFault as Fault};
ghost use Rattle.mari_lines.specs.Ranges.{IsDate};
ghost use Rattle.mari_day.specs.CalendarPage.{IsCalendarDay, calendar_day_in, check_of as check_by, day_of_row, not_one as not_one_at};
ghost use Rattle.mari_day.specs.DateChecks.{date_check_name, date_check_number};

use mari_calendar::{CalendarFault, quarters_of};
use mari_rows::{BookFault, FileCheck, LineFault, Row, read_rows};
use mari_units::{MOST_PAGE, Name, NameFault, read_name};
use std::alloc::Global;

const COLUMNS: &str = "date,rule";

/// A check of day.csv.
#[derive(Clone, Copy, Debug, PartialEq, Eq)]
pub enum DateCheck {
    /// The file doesn't have exactly one record.
    NotOneRecord,
    /// The text is no date.
    BadDate,
    /// The rule is no POSIX rule of a clock.
    BadZoneText,
    /// The day, or the midnight at its end, lies beyond the calendar.
    OutOfRange,
    /// The day isn't of 1 to `MOST_QUARTERS` whole quarter hours.
    NotWholeQuarters,
}

impl FileCheck for DateCheck {
    const ALL: &'static [Self] = &[
        DateCheck::NotOneRecord,
        DateCheck::BadDate,
        DateCheck::BadZoneText,
        DateCheck::OutOfRange,
        DateCheck::NotWholeQuarters,
    ];

    ghost number = { date_check_number };

    ghost name = { date_check_name };

    #[tactic(auto, unfolding(crate::specs::DateChecks::date_check_name))]
    fn entry(self) -> (u8, &'static str) {
        match self {
            DateCheck::NotOneRecord => (15, "NotOneRecord"),
            DateCheck::BadDate => (11, "BadDate"),
            DateCheck::BadZoneText => (12, "BadZoneText"),
            DateCheck::OutOfRange => (14, "OutOfRange"),
            DateCheck::NotWholeQuarters => (13, "NotWholeQuarters"),
        }
    }
}

/// A date and the number of its quarter hours.
#[derive(Drop)]
pub struct CalendarDay {
    /// The date, written `YYYY-MM-DD`.
    pub date: Name,
    /// How many quarter hours it has.
    pub quarters: u32,
}

impl CalendarDay {
    /// The day of a page, or its first refusal. That there is exactly one record is tested before the record.
    #[tactic(auto, unfolding(mari_calendar::specs::Columns::day_columns))]
    pub fn read(alloc: Global, page: &[u8]) -> Result<CalendarDay, BookFault>
        requires { length page.now ≤ MOST_PAGE }
        ensures day { GivesBook result (calendar_day_in page.now) }
        ensures facts { IfOk result IsCalendarDay }
    {
        let mut records = read_rows(alloc, page, COLUMNS)?;
        let Some(row) = records.next()? else {
            return Err(not_one(1));
        };
        match records.next()? {
            Some(second) => Err(not_one(second.line)),
            None => calendar_day_of(alloc, &row),
        }
    }
}

/// The refusal of a page that doesn't have exactly one record.
fn not_one(line: u32) -> BookFault
    ensures { result ≡ not_one_at line }
{
    LineFault::Fails(DateCheck::NotOneRecord).at(line)
}

/// The day of a record: its date, with its quarter hours by the rule of a clock.
fn calendar_day_of(alloc: Global, row: &Row) -> Result<CalendarDay, BookFault>
    ensures day { GivesBook result (day_of_row row.now) }
    ensures facts { IfOk result IsCalendarDay }
{
    let date = row.field(0);
    match quarters_of(date, row.field(1)) {
        Ok(quarters) => Ok(CalendarDay {
            date: kept(alloc, date)?,
            quarters,
        }),
        Err(fault) => Err(check_of(fault).at(row.line)),
    }
}

/// The check that a fault of the calendar fails.
fn check_of(fault: CalendarFault) -> LineFault<DateCheck>
    ensures { result ≡ check_by fault }
{
    match fault {
        CalendarFault::BadDate => LineFault::Fails(DateCheck::BadDate),
        CalendarFault::BadZoneText => LineFault::Fails(DateCheck::BadZoneText),
        CalendarFault::OutOfRange => LineFault::Fails(DateCheck::OutOfRange),
        CalendarFault::NotWholeQuarters => LineFault::Fails(DateCheck::NotWholeQuarters),
        CalendarFault::Memory => LineFault::Memory,
    }
}

/// A date, kept.
fn kept(alloc: Global, date: &[u8]) -> Result<Name, BookFault>
    requires { IsDate date.now }
    ensures date { IfOk result (λ kept. kept ≡ date.now) }
    ensures memory { IfErr result (λ fault. fault ≡ Fault.Memory) }
{
    match read_name(alloc, date) {
        Ok(date) => Ok(date),
        Err(NameFault::NotAName) => unreachable!(),
        Err(NameFault::Memory) => Err(BookFault::Memory),
    }
}
