//! Numbers, prices and words of a field.
ghost use Rattle.std.specs.Prelude.{◌≡◌, is_some};
ghost use Rattle.std.specs.Result.{result_ok};
ghost use Rattle.mari_units.specs.Numbers.{price_of, whole_of};
ghost use Rattle.mari_rows.specs.Fields.{cents_in, is_first_of as is_first, is_written as is_written_in, number_in};

use mari_units::{Cents, NumberFault, read_cents, read_mw};

/// The whole number that a text writes, where it is from `least` to `greatest`, or why there is none.
pub fn read_number(text: &[u8], least: u32, greatest: u32) -> Result<u32, NumberFault>
    ensures number { result_ok result ≡ number_in least greatest text.now }
    ensures written { is_written_in result ≡ is_some (whole_of text.now) }
{
    let number = read_mw(text, i64::from(least), i64::from(greatest))?;
    Ok(number.0 as u32)
}

/// The price that a text writes, where it is from -CAP to CAP, or why there is none.
pub fn read_price(text: &[u8]) -> Result<Cents, NumberFault>
    ensures price { result_ok result ≡ cents_in text.now }
    ensures written { is_written_in result ≡ is_some (price_of text.now) }
{
    read_cents(text)
}

/// Whether a number was written, within its range or outside it.
pub fn is_written<T>(number: &Result<T, NumberFault>) -> bool
    ensures { result ≡ is_written_in number.now }
{
    !matches!(number, Err(NumberFault::NotANumber))
}

/// The whole number that a text writes, where it is from `least` to `greatest`.
pub fn number_of(text: &[u8], least: u32, greatest: u32) -> Option<u32>
    ensures { result ≡ number_in least greatest text.now }
{
    read_number(text, least, greatest).ok()
}

/// Whether a text writes a whole number.
pub fn is_whole(text: &[u8]) -> bool
    ensures { result ≡ is_some (whole_of text.now) }
{
    is_written(&read_number(text, 0, 0))
}

/// Whether a text writes a price.
pub fn writes_price(text: &[u8]) -> bool
    ensures { result ≡ is_some (price_of text.now) }
{
    is_written(&read_price(text))
}

/// The price that a text writes, where it is from -CAP to CAP.
pub fn cents_of(text: &[u8]) -> Option<Cents>
    ensures { result ≡ cents_in text.now }
{
    read_price(text).ok()
}

/// Whether a text is the first of two words, where it is one of them.
pub fn is_first_of(text: &[u8], first: &[u8], second: &[u8]) -> Option<bool>
    ensures { result ≡ is_first first.now second.now text.now }
{
    if text == first {
        Some(true)
    } else if text == second {
        Some(false)
    } else {
        None
    }
}
