//! Numbers and prices as the market files write them.

ghost use Rattle.std.specs.Prelude.{◌≡◌, ◌<◌, ◌+◌, length, take, drop, ℕ, Option, IfSome, neg_ℤ, position, ◌==◌};
ghost use Rattle.mari_units.specs.Numbers.{natural_of, has_minus, without_minus, whole_of, hundredths_of, cents_at, price_of, ranged, saturated, cents_of_parts};

use crate::faults::NumberFault;
use crate::numbers::{CAP, Cents, Mw};

/// The number that digits write, or the greatest of 64 bits where it is greater.
fn natural(digits: &[u8]) -> Option<u64>
    ensures { result ≡ saturated (natural_of digits.now) }
{
    if digits.is_empty() {
        return None;
    }
    let mut value = 0u64;
    for digit in digits {
        if !digit.is_ascii_digit() {
            return None;
        }
        value = value
            .saturating_mul(10)
            .saturating_add(u64::from(*digit - b'0'));
    }
    Some(value)
}

/// Whether the text begins with a minus, and what stands after it.
fn split_sign(text: &[u8]) -> (bool, &[u8])
    ensures sign { result.0 ≡ has_minus text.now }
    ensures rest { result.1.now ≡ without_minus text.now }
{
    match text {
        [b'-', rest @ ..] => (true, rest),
        _ => (false, text),
    }
}

/// Reads a whole number of MW, or any other whole number, from `least` to `greatest`: a minus or none, and digits.
/// Leading zeros are allowed, a plus isn't.
pub fn read_mw(text: &[u8], least: i64, greatest: i64) -> Result<Mw, NumberFault>
    ensures { result ≡ ranged (λ z. record { 0 = z }) least greatest (whole_of text.now) }
{
    let (minus, digits) = split_sign(text);
    let Some(size) = natural(digits) else {
        return Err(NumberFault::NotANumber);
    };
    let value = if minus {
        -i128::from(size)
    } else {
        i128::from(size)
    };
    if value < i128::from(least) || value > i128::from(greatest) {
        return Err(NumberFault::OutOfRange);
    }
    Ok(Mw(value as i64))
}

/// One or two digits after the point, in hundredths.
fn hundredths(digits: &[u8]) -> Option<u64>
    ensures { result ≡ hundredths_of digits.now }
{
    match digits {
        [tenths] if tenths.is_ascii_digit() => Some(10 * u64::from(*tenths - b'0')),
        [tenths, ones] if tenths.is_ascii_digit() && ones.is_ascii_digit() => {
            Some(10 * u64::from(*tenths - b'0') + u64::from(*ones - b'0'))
        }
        _ => None,
    }
}

/// The place of the first point.
fn point_in(text: &[u8]) -> Option<usize>
    ensures point { result ≡ position (λ b. b == 46) text.now }
    ensures place { IfSome result (λ i. i < length text.now) }
{
    text.iter().position(|byte| *byte == b'.')
}

/// The cents of a price without its sign, or the greatest number of 64 bits where they are more.
fn unsigned_cents(text: &[u8]) -> Option<u64>
    ensures { result ≡ saturated (cents_at (position (λ b. b == 46) text.now) text.now) }
{
    match point_in(text) {
        None => euros_and(natural(text), Some(0)),
        Some(point) => {
            let (euros, cents) = parts_at(text, point);
            euros_and(natural(euros), hundredths(cents))
        }
    }
}

/// What stands before a place, and what stands after it.
fn parts_at(text: &[u8], place: usize) -> (&[u8], &[u8])
    requires { place < length text.now }
    ensures before { result.0.now ≡ take place text.now }
    ensures after { result.1.now ≡ drop (place + 1) text.now }
{
    (&text[..place], &text[place + 1..])
}

/// Euros and cents in cents, where both are there.
fn euros_and(euros: Option<u64>, cents: Option<u64>) -> Option<u64>
    ensures { (e : Option ℕ) → euros ≡ saturated e → result ≡ saturated (cents_of_parts e cents) }
{
    match (euros, cents) {
        (Some(euros), Some(cents)) => Some(euros.saturating_mul(100).saturating_add(cents)),
        _ => None,
    }
}

/// Reads a price in euro per MWh: a minus or none, digits, and a point with one or two digits or nothing.
///
/// It lies from -`CAP` to `CAP`.
pub fn read_cents(text: &[u8]) -> Result<Cents, NumberFault>
    ensures { result ≡ ranged (λ z. record { 0 = z }) (neg_ℤ CAP) CAP (price_of text.now) }
{
    let (minus, digits) = split_sign(text);
    let Some(size) = unsigned_cents(digits) else {
        return Err(NumberFault::NotANumber);
    };
    if size > CAP as u64 {
        return Err(NumberFault::OutOfRange);
    }
    let value = size as i64;
    Ok(Cents(if minus { -value } else { value }))
}
