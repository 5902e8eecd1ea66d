//! The quarter hours between two midnights.

ghost use Rattle.std.specs.Prelude.{◌≡◌, ◌≤◌, ◌≤ℤ◌, neg_ℤ, pos, IfOk};
ghost use Rattle.jiff_core.specs.Date.{epoch_day};
ghost use Rattle.jiff_tz.specs.PosixText.{tz_view};
ghost use Rattle.mari_units.specs.declared.limits.TheConstants.{MOST_QUARTERS};
ghost use Rattle.mari_calendar.specs.Midnights.{midnight_in, quarters_at, whole_quarters};

use crate::date::date_in;
use jiff_core::civil::{Date, DateTime, Time};
use jiff_tz::{TimeZone, posix};
use mari_units::MOST_QUARTERS;
use thiserror::Error;

/// The seconds of a quarter of an hour.
const QUARTER: i64 = 900;

/// Why there are no quarter hours.
#[derive(Clone, Copy, Debug, PartialEq, Eq, Error)]
pub enum CalendarFault {
    /// The text is no date.
    #[error("no date")]
    BadDate,
    /// The rule is no POSIX rule.
    #[error("no POSIX rule of a clock")]
    BadZoneText,
    /// The next date, or one of the two midnights, lies outside the calendar's range.
    #[error("outside the calendar's range")]
    OutOfRange,
    /// The day isn't of 1 to `MOST_QUARTERS` whole quarter hours.
    #[error("not 1 to {most} whole quarter hours", most = MOST_QUARTERS)]
    NotWholeQuarters,
    /// Out of memory, which never comes.
    #[error("out of memory")]
    Memory,
}

/// The instant at which a date begins in a zone, in seconds since 1970 began in UTC.
fn midnight(zone: posix::TimeZone, date: Date) -> Result<i64, CalendarFault>
    ensures instant { result ≡ midnight_in (tz_view zone) (epoch_day date) }
    ensures range { IfOk result (λ s. (neg_ℤ (pos 377705023201) ≤ℤ s) × (s ≤ℤ pos 253402207200)) }
{
    let midnight = DateTime {
        date,
        time: Time::MIN,
    };
    match TimeZone::Posix(zone).to_timestamp(midnight) {
        Ok(instant) => Ok(instant.floor_second()),
        Err(_) => Err(CalendarFault::OutOfRange),
    }
}

/// Seconds in quarters of an hour.
fn whole(seconds: i64) -> Result<u32, CalendarFault>
    ensures value { result ≡ whole_quarters seconds }
    ensures range { IfOk result (λ n. (1 ≤ n) × (n ≤ MOST_QUARTERS)) }
{
    if seconds < QUARTER || seconds > QUARTER * i64::from(MOST_QUARTERS) || seconds % QUARTER != 0 {
        return Err(CalendarFault::NotWholeQuarters);
    }
    Ok((seconds / QUARTER) as u32)
}

/// The quarter hours of a date, written `YYYY-MM-DD`, on a clock that keeps a POSIX rule: the seconds from its
/// midnight to the next date's midnight, over 900. A midnight that the clock skips or shows twice is the one by the
/// offset before the change.
#[tactic(auto, unfolding(crate::specs::Midnights::quarters_at))]
pub fn quarters_of(date: &[u8], rule: &[u8]) -> Result<u32, CalendarFault>
    ensures quarters { result ≡ quarters_at date.now rule.now }
    ensures range { IfOk result (λ n. (1 ≤ n) × (n ≤ MOST_QUARTERS)) }
{
    let Some(date) = date_in(date) else {
        return Err(CalendarFault::BadDate);
    };
    let Ok(zone) = posix::TimeZone::parse(rule) else {
        return Err(CalendarFault::BadZoneText);
    };
    let Ok(next) = date.tomorrow() else {
        return Err(CalendarFault::OutOfRange);
    };
    let begin = midnight(zone, date)?;
    let end = midnight(zone, next)?;
    whole(end - begin)
}
