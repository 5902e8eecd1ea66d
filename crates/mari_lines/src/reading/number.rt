//! Names, numbers, prices and money as they are printed.

ghost use Rattle.std.specs.Prelude.{◌≡◌, ◌≢◌, ◌≤◌, ◌<◌, ◌^◌, ◌≤ℤ◌, ◌/◌, ◌%◌, ◌+◌, ◌++◌, ◌∷◌, [], List, min, ◌-◌, pos, neg_ℤ, int_lt, unsigned_abs, ℕ, MatchOption, true, false};
ghost use Rattle.std.specs.Char.{is_ascii_digit};
ghost use Rattle.std.specs.List.{list_all};
ghost use Rattle.std.specs.Fmt.{decimal, signed_decimal};
ghost use Rattle.mari_market.specs.Price.{IsCapped};
ghost use Rattle.mari_units.specs.Names.{IsName};
ghost use Rattle.mari_units.specs.Numbers.{Within, has_minus, sign_of};
ghost use Rattle.mari_lines.specs.Ranges.{Between, IsDate, IsMoney, IsZone, is_date as is_date_text};
ghost use Rattle.mari_lines.specs.Spelling.{price_text, money_text, zone_text};
ghost use Rattle.mari_lines.specs.Reading.{Reads, digits_in as digits_of, value_in};

use super::canonical::{is_money_text, is_whole_text};
use crate::fault::FormFault;
use crate::line::MOST_MONEY;
use mari_units::{CAP, Cents, MOST_FLOW, MOST_ZONES, Name, NameFault, Quarters, read_name};
use std::alloc::Global;

/// The number that the digits of a text write, or the greatest of 128 bits where it is greater.
fn digits_in(text: &[u8]) -> u128
    ensures { result ≡ min (digits_of text.now) (2 ^ 128 - 1) }
{
    let mut value = 0u128;
    for byte in text {
        if byte.is_ascii_digit() {
            value = value
                .saturating_mul(10)
                .saturating_add(u128::from(*byte - b'0'));
        }
    }
    value
}

/// The number up to `greatest` that is printed so.
fn natural(text: &[u8], greatest: u32) -> Option<u32>
    ensures { MatchOption result ((n : ℕ) → n ≤ greatest → decimal n ≢ text.now) (λ n. (n ≤ greatest) × (decimal n ≡ text.now)) }
{
    if text.is_empty() {
        return None;
    }
    if text[0] == b'0' && text.len() > 1 {
        return None;
    }
    let mut value = 0u64;
    for byte in text {
        if !byte.is_ascii_digit() {
            return None;
        }
        value = 10 * value + u64::from(*byte - b'0');
        if value > u64::from(greatest) {
            return None;
        }
    }
    Some(value as u32)
}

/// The number that the digits of a text write, in units, after the sign that stands first.
fn value_of(text: &[u8], unit: u128) -> i128
    requires { 0 < unit }
    ensures { result ≡ value_in unit text.now }
{
    let size = (digits_in(text) / unit).min(i128::MAX as u128) as i128;
    match text {
        [b'-', ..] => -size,
        _ => size,
    }
}

/// The whole number from `least` to `greatest` that is printed so.
fn read_whole(text: &[u8], least: i128, greatest: i128) -> Result<i128, FormFault>
    requires { (neg_ℤ (pos (2 ^ 63)) ≤ℤ least) × (greatest ≤ℤ pos (2 ^ 63)) }
    ensures { Reads (λ z. (least ≤ℤ z) × (z ≤ℤ greatest)) signed_decimal text.now result }
{
    let value = value_of(text, 1);
    if value < least {
        return Err(FormFault::Formless);
    }
    if value > greatest {
        return Err(FormFault::Formless);
    }
    if !is_whole_text(text, value) {
        return Err(FormFault::Formless);
    }
    Ok(value)
}

/// The number from `least` to `greatest` that is printed so.
pub fn read_number(text: &[u8], least: u32, greatest: u32) -> Result<u32, FormFault>
    ensures { Reads (Between least greatest) decimal text.now result }
{
    let Some(number) = natural(text, greatest) else {
        return Err(FormFault::Formless);
    };
    if number < least {
        return Err(FormFault::Formless);
    }
    Ok(number)
}

/// The welfare that is printed so.
pub fn read_welfare(text: &[u8]) -> Result<u64, FormFault>
    ensures { Reads (λ n. n < 2 ^ 63) decimal text.now result }
{
    let value = read_whole(text, 0, i128::from(i64::MAX))?;
    Ok(value as u64)
}

/// Whether a text begins with a minus, and what stands after it.
fn split_sign(text: &[u8]) -> (bool, &[u8])
    ensures parts { text.now ≡ sign_of result.0 ++ result.1.now }
    ensures unsigned { result.0 ≡ false → has_minus result.1.now ≡ false }
{
    match text {
        [b'-', size @ ..] => (true, size),
        _ => (false, text),
    }
}

/// The number of this sign and size: none where a minus stands before zero.
fn signed(negative: bool, size: u32) -> Option<i64>
    ensures { MatchOption result ((negative ≡ true) × (size ≡ 0)) (λ z. (int_lt z (pos 0) ≡ negative) × (unsigned_abs z ≡ size)) }
{
    if !negative {
        return Some(i64::from(size));
    }
    if size == 0 {
        return None;
    }
    Some(-i64::from(size))
}

/// The flow that is printed so.
pub fn read_flow(text: &[u8]) -> Result<i64, FormFault>
    ensures { Reads (λ z. Within MOST_FLOW z) signed_decimal text.now result }
{
    let (negative, size) = split_sign(text);
    let Some(mw) = natural(size, MOST_FLOW) else {
        return Err(FormFault::Formless);
    };
    match signed(negative, mw) {
        Some(flow) => Ok(flow),
        None => Err(FormFault::Formless),
    }
}

/// What stands before a point and two bytes, and these two bytes.
fn at_point(text: &[u8]) -> Option<(&[u8], u8, u8)>
    ensures { MatchOption result ((whole : List ℕ) (tenths ones : ℕ) → text.now ≢ whole ++ 46 ∷ tenths ∷ ones ∷ [])
        (λ x. text.now ≡ x.0.now ++ 46 ∷ x.1 ∷ x.2 ∷ []) }
{
    match text {
        [whole @ .., b'.', tenths, ones] => Some((whole, *tenths, *ones)),
        _ => None,
    }
}

/// The number of hundredths up to `greatest` that is printed so.
fn hundredths(text: &[u8], greatest: u32) -> Option<u32>
    ensures { let printed : ℕ → List ℕ = λ n. decimal (n / 100) ++ 46 ∷ (48 + n % 100 / 10) ∷ (48 + n % 10) ∷ [] in
        MatchOption result ((n : ℕ) → n ≤ greatest → printed n ≢ text.now) (λ n. (n ≤ greatest) × (printed n ≡ text.now)) }
{
    let (whole, tenths, ones) = at_point(text)?;
    if !tenths.is_ascii_digit() {
        return None;
    }
    if !ones.is_ascii_digit() {
        return None;
    }
    let Some(whole) = natural(whole, greatest / 100) else {
        return None;
    };
    let parts = 10 * u64::from(tenths - b'0') + u64::from(ones - b'0');
    let number = 100 * u64::from(whole) + parts;
    if number > u64::from(greatest) {
        return None;
    }
    Some(number as u32)
}

/// The price from -CAP to CAP that is printed so.
pub fn read_price(text: &[u8]) -> Result<Cents, FormFault>
    ensures { Reads IsCapped price_text text.now result }
{
    let (negative, size) = split_sign(text);
    let Some(cents) = hundredths(size, CAP as u32) else {
        return Err(FormFault::Formless);
    };
    match signed(negative, cents) {
        Some(price) => Ok(Cents(price)),
        None => Err(FormFault::Formless),
    }
}

/// The money that is printed so.
pub fn read_money(text: &[u8]) -> Result<Quarters, FormFault>
    ensures { Reads IsMoney money_text text.now result }
{
    let value = value_of(text, 25);
    if value < -i128::from(MOST_MONEY) {
        return Err(FormFault::Formless);
    }
    if value > i128::from(MOST_MONEY) {
        return Err(FormFault::Formless);
    }
    let money = Quarters(value);
    if !is_money_text(text, money) {
        return Err(FormFault::Formless);
    }
    Ok(money)
}

/// The name that is written so.
pub fn read_name_text(alloc: Global, text: &[u8]) -> Result<Name, FormFault>
    ensures { Reads IsName (λ name. name) text.now result }
{
    match read_name(alloc, text) {
        Ok(name) => Ok(name),
        Err(NameFault::NotAName) => Err(FormFault::Formless),
        Err(NameFault::Memory) => Err(FormFault::Memory),
    }
}

/// Whether each byte is a digit.
fn all_digits(text: &[u8]) -> bool
    ensures { result ≡ list_all is_ascii_digit text.now }
{
    text.iter().all(|byte| byte.is_ascii_digit())
}

/// Whether a text has the form of a date: four digits, a hyphen, two digits, a hyphen and two digits.
pub fn is_date(text: &[u8]) -> bool
    ensures { result ≡ is_date_text text.now }
{
    text.len() == 10
        && all_digits(&text[..4])
        && text[4] == b'-'
        && all_digits(&text[5..7])
        && text[7] == b'-'
        && all_digits(&text[8..])
}

/// The date that is written so.
pub fn read_date(alloc: Global, text: &[u8]) -> Result<Name, FormFault>
    ensures { Reads IsDate (λ date. date) text.now result }
{
    if is_date(text) {
        read_name_text(alloc, text)
    } else {
        Err(FormFault::Formless)
    }
}

/// The zone that is written so: its number from 0.
pub fn read_zone_number(text: &[u8]) -> Result<u32, FormFault>
    ensures { Reads IsZone zone_text text.now result }
{
    let zone = read_number(text, 1, MOST_ZONES as u32)?;
    Ok(zone - 1)
}
