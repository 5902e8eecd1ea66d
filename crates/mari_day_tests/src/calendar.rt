//! How many quarter hours a date has by a rule of the clock.

use mari_calendar::{CalendarFault, quarters_of};

const CET: &str = "CET-1CEST,M3.5.0,M10.5.0/3";

/// A date, a rule, and how many quarter hours it has then, or why none.
const DAYS: &[(&str, &str, Result<u32, CalendarFault>)] = &[
    ("2025-03-30", CET, Ok(92)),
    ("2025-03-12", CET, Ok(96)),
    ("2025-10-26", CET, Ok(100)),
    // what isn't a date, which is reported before the rule is read
    ("2025-02-29", CET, Err(CalendarFault::BadDate)),
    ("2025-13-01", CET, Err(CalendarFault::BadDate)),
    ("2025-00-10", CET, Err(CalendarFault::BadDate)),
    ("2025-3-12", CET, Err(CalendarFault::BadDate)),
    ("2025-03-12 ", CET, Err(CalendarFault::BadDate)),
    ("20250312", CET, Err(CalendarFault::BadDate)),
    ("", CET, Err(CalendarFault::BadDate)),
    ("+025-03-12", CET, Err(CalendarFault::BadDate)),
    ("2025-02-29", "no rule", Err(CalendarFault::BadDate)),
    // leap days that are dates
    ("0000-02-29", "UTC0", Ok(96)),
    ("2024-02-29", "no rule", Err(CalendarFault::BadZoneText)),
    // the end of the calendar
    ("9999-12-29", "UTC0", Ok(96)),
    ("9999-12-30", "UTC0", Err(CalendarFault::OutOfRange)),
    ("9999-12-31", "UTC0", Err(CalendarFault::OutOfRange)),
    // a day that is no whole quarters
    (
        "2025-03-30",
        "AAA-1BBB-1:10,M3.5.0,M10.5.0/3",
        Err(CalendarFault::NotWholeQuarters),
    ),
];

#[test]
fn a_date_has_quarters_by_its_rule(rt: HostRuntime) {
    for (date, rule, want) in DAYS {
        let quarters = quarters_of(date.as_bytes(), rule.as_bytes());
        assert_eq!(rt; quarters, *want, "{date} {rule}");
    }
}
