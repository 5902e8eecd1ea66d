//! A date as ten bytes.

ghost use Rattle.std.specs.Prelude.{◌≡◌, ◌≤◌, option_map, IfSome};
ghost use Rattle.jiff_core.specs.Date.{epoch_day};
ghost use Rattle.mari_units.specs.Numbers.{two_digits};
ghost use Rattle.mari_calendar.specs.Dates.{existing_day, day_by, day_in};

use jiff_core::civil::Date;

/// The number that two digits write.
fn number(tens: u8, ones: u8) -> Option<u8>
    ensures number { result ≡ two_digits tens ones }
    ensures most { IfSome result (λ n. n ≤ 99) }
{
    if tens.is_ascii_digit() && ones.is_ascii_digit() {
        Some(10 * (tens - b'0') + (ones - b'0'))
    } else {
        None
    }
}

/// The date of a year, month and day, if the calendar has it.
fn existing(year: u16, month: u8, day: u8) -> Option<Date>
    requires year { year ≤ 9999 }
    requires month { month ≤ 99 }
    requires day { day ≤ 99 }
    ensures { option_map epoch_day result ≡ existing_day year month day }
{
    match Date::new(year as i16, month as i8, day as i8) {
        Ok(date) => Some(date),
        Err(_) => None,
    }
}

/// The date of the pairs of its digits, if each is one and the calendar has it.
fn of_pairs(
    hundreds: Option<u8>,
    year: Option<u8>,
    month: Option<u8>,
    day: Option<u8>,
) -> Option<Date>
    requires hundreds { IfSome hundreds (λ n. n ≤ 99) }
    requires year { IfSome year (λ n. n ≤ 99) }
    requires month { IfSome month (λ n. n ≤ 99) }
    requires day { IfSome day (λ n. n ≤ 99) }
    ensures { option_map epoch_day result ≡ day_by hundreds year month day }
{
    existing(100 * u16::from(hundreds?) + u16::from(year?), month?, day?)
}

/// The date that a text `YYYY-MM-DD` names.
pub fn date_in(text: &[u8]) -> Option<Date>
    ensures { option_map epoch_day result ≡ day_in text.now }
{
    match text {
        [a, b, c, d, b'-', e, f, b'-', g, h] => of_pairs(
            number(*a, *b),
            number(*c, *d),
            number(*e, *f),
            number(*g, *h),
        ),
        _ => None,
    }
}
