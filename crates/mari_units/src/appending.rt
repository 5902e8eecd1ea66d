//! Texts that grow piece by piece.

ghost use Rattle.std.specs.Prelude.{◌≡◌, ◌≤◌, ◌<◌, ◌^◌, ◌++◌, ◌∷◌, [], OnOk, OnErr, unsigned_abs};
ghost use Rattle.std.specs.Fmt.{decimal, signed_decimal};
ghost use Rattle.mari_units.specs.Appending.{AppendsPart};
ghost use Rattle.mari_units.specs.Numbers.{printed_cents, printed_euros, printed_ten_thousandths, sign_of};

use crate::faults::Memory;
use crate::numbers::{Cents, Quarters};
use itoa::Buffer;
use std::alloc::Global;

/// Appends a piece to a text. Out of memory, the text stays as it is.
pub fn put(text: &mut Vec<u8>, piece: &[u8]) -> Result<(), Memory>
    ensures put { OnOk result (text.new.items ≡ text.old.items ++ piece.now) }
    ensures same { OnErr result (text.new.items ≡ text.old.items) }
{
    Ok(text.extend_from_slice(piece)?)
}

/// The digits of a number below 10,000, as they are printed.
#[derive(Clone, Copy, Drop)]
struct Digits {
    thousands: u8,
    hundreds: u8,
    tens: u8,
    ones: u8,
}

/// The digits that a number is printed with, after leading zeros.
fn digits_of(number: u32) -> Digits
    requires short { number < 10_000 }
    ensures one { number < 10 → decimal number ≡ result.ones ∷ [] }
    ensures two { 10 ≤ number → number < 100 → decimal number ≡ result.tens ∷ result.ones ∷ [] }
    ensures three { 100 ≤ number → number < 1_000 → decimal number ≡ result.hundreds ∷ result.tens ∷ result.ones ∷ [] }
    ensures four { 1_000 ≤ number → decimal number ≡ result.thousands ∷ result.hundreds ∷ result.tens ∷ result.ones ∷ [] }
{
    Digits {
        thousands: b'0' + (number / 1_000) as u8,
        hundreds: b'0' + (number / 100 % 10) as u8,
        tens: b'0' + (number / 10 % 10) as u8,
        ones: b'0' + (number % 10) as u8,
    }
}

/// Appends a number of up to four digits to a text, as one piece. Most numbers are such, and need no buffer.
fn put_short(text: &mut Vec<u8>, number: u32) -> Result<(), Memory>
    requires short { number < 10_000 }
    ensures put { OnOk result (text.new.items ≡ text.old.items ++ decimal number) }
    ensures same { OnErr result (text.new.items ≡ text.old.items) }
{
    let digits = digits_of(number);
    if number < 10 {
        return put(text, &[digits.ones]);
    }
    if number < 100 {
        return put(text, &[digits.tens, digits.ones]);
    }
    if number < 1_000 {
        return put(text, &[digits.hundreds, digits.tens, digits.ones]);
    }
    put(
        text,
        &[digits.thousands, digits.hundreds, digits.tens, digits.ones],
    )
}

/// Appends a space and a number of up to four digits to a text, as one piece.
fn put_short_field(text: &mut Vec<u8>, number: u32) -> Result<(), Memory>
    requires short { number < 10_000 }
    ensures put { OnOk result (text.new.items ≡ text.old.items ++ 32 ∷ decimal number) }
    ensures same { OnErr result (text.new.items ≡ text.old.items) }
{
    let digits = digits_of(number);
    if number < 10 {
        return put(text, &[b' ', digits.ones]);
    }
    if number < 100 {
        return put(text, &[b' ', digits.tens, digits.ones]);
    }
    if number < 1_000 {
        return put(text, &[b' ', digits.hundreds, digits.tens, digits.ones]);
    }
    put(
        text,
        &[
            b' ',
            digits.thousands,
            digits.hundreds,
            digits.tens,
            digits.ones,
        ],
    )
}

/// Appends a space, a number of up to four digits and the end of a line to a text, as one piece.
fn put_short_end(text: &mut Vec<u8>, number: u32) -> Result<(), Memory>
    requires short { number < 10_000 }
    ensures put { OnOk result (text.new.items ≡ text.old.items ++ 32 ∷ decimal number ++ 10 ∷ []) }
    ensures same { OnErr result (text.new.items ≡ text.old.items) }
{
    let digits = digits_of(number);
    if number < 10 {
        return put(text, &[b' ', digits.ones, b'\n']);
    }
    if number < 100 {
        return put(text, &[b' ', digits.tens, digits.ones, b'\n']);
    }
    if number < 1_000 {
        return put(
            text,
            &[b' ', digits.hundreds, digits.tens, digits.ones, b'\n'],
        );
    }
    put(
        text,
        &[
            b' ',
            digits.thousands,
            digits.hundreds,
            digits.tens,
            digits.ones,
            b'\n',
        ],
    )
}

/// Appends a number of any size to a text, in digits.
fn put_long(alloc: Global, text: &mut Vec<u8>, number: u128) -> Result<(), Memory>
    ensures put { OnOk result (text.new.items ≡ text.old.items ++ decimal number) }
    ensures same { OnErr result (text.new.items ≡ text.old.items) }
{
    if let Ok(short) = u64::try_from(number) {
        let mut buffer = Buffer::new();
        return put(text, buffer.format(short).as_bytes());
    }
    put(text, number.to_string(alloc)?.as_bytes())
}

/// Appends a number to a text, in digits, without leading zeros. Out of memory, the text stays as it is.
pub fn put_number(alloc: Global, text: &mut Vec<u8>, number: u128) -> Result<(), Memory>
    ensures put { OnOk result (text.new.items ≡ text.old.items ++ decimal number) }
    ensures same { OnErr result (text.new.items ≡ text.old.items) }
{
    if number < 10_000 {
        put_short(text, number as u32)
    } else {
        put_long(alloc, text, number)
    }
}

/// Appends a space and a number to a text, in digits, without leading zeros. Out of memory, a first part of them may
/// stay, here and below.
#[tactic(auto, using(crate::proofs::Appended::none_of, crate::proofs::Appended::begun, crate::proofs::Appended::gone_on))]
pub fn put_spaced_number(alloc: Global, text: &mut Vec<u8>, number: u64) -> Result<(), Memory>
    ensures put { OnOk result (text.new.items ≡ text.old.items ++ 32 ∷ decimal number) }
    ensures part { OnErr result (AppendsPart (32 ∷ decimal number) text.old.items text.new.items) }
{
    if number < 10_000 {
        put_short_field(text, number as u32)
    } else {
        put(text, b" ")?;
        put_long(alloc, text, u128::from(number))
    }
}

/// Appends a space, a number and the end of a line to a text.
#[tactic(auto, using(crate::proofs::Appended::none_of, crate::proofs::Appended::begun, crate::proofs::Appended::gone_on))]
pub fn put_number_end(alloc: Global, text: &mut Vec<u8>, number: u64) -> Result<(), Memory>
    ensures put { OnOk result (text.new.items ≡ text.old.items ++ 32 ∷ decimal number ++ 10 ∷ []) }
    ensures part { OnErr result (AppendsPart (32 ∷ decimal number ++ 10 ∷ []) text.old.items text.new.items) }
{
    if number < 10_000 {
        put_short_end(text, number as u32)
    } else {
        put_spaced_number(alloc, text, number)?;
        put(text, b"\n")
    }
}

/// Appends a minus to a text, or nothing.
fn put_sign(text: &mut Vec<u8>, negative: bool) -> Result<(), Memory>
    ensures put { OnOk result (text.new.items ≡ text.old.items ++ sign_of negative) }
    ensures same { OnErr result (text.new.items ≡ text.old.items) }
{
    if negative { put(text, b"-") } else { Ok(()) }
}

/// Appends a whole number to a text, in digits, without leading zeros, after a minus where it is negative.
#[tactic(auto, using(crate::proofs::Appended::none_of, crate::proofs::Appended::begun, crate::proofs::Appended::gone_on))]
pub fn put_whole(alloc: Global, text: &mut Vec<u8>, n: i128) -> Result<(), Memory>
    ensures put { OnOk result (text.new.items ≡ text.old.items ++ signed_decimal n) }
    ensures part { OnErr result (AppendsPart (signed_decimal n) text.old.items text.new.items) }
{
    put_sign(text, n < 0)?;
    put_number(alloc, text, n.unsigned_abs())
}

/// Appends a price to a text, in euro per MWh with two decimals, as `-0.05` for -5 cents.
#[tactic(auto, using(crate::proofs::Appended::none_of, crate::proofs::Appended::begun, crate::proofs::Appended::gone_on))]
pub fn put_cents(alloc: Global, text: &mut Vec<u8>, cents: Cents) -> Result<(), Memory>
    ensures put { OnOk result (text.new.items ≡ text.old.items ++ printed_cents cents.0) }
    ensures part { OnErr result (AppendsPart (printed_cents cents.0) text.old.items text.new.items) }
{
    let size = cents.0.unsigned_abs();
    put_sign(text, cents.0 < 0)?;
    put_number(alloc, text, u128::from(size / 100))?;
    put(
        text,
        &[
            b'.',
            b'0' + (size % 100 / 10) as u8,
            b'0' + (size % 10) as u8,
        ],
    )
}

/// Appends a number of ten-thousandths of a euro to a text, in euros with four decimals.
#[tactic(auto, using(crate::proofs::Appended::none_of, crate::proofs::Appended::begun, crate::proofs::Appended::gone_on))]
fn put_ten_thousandths(alloc: Global, text: &mut Vec<u8>, size: u128) -> Result<(), Memory>
    ensures put { OnOk result (text.new.items ≡ text.old.items ++ printed_ten_thousandths size) }
    ensures part { OnErr result (AppendsPart (printed_ten_thousandths size) text.old.items text.new.items) }
{
    put_number(alloc, text, size / 10_000)?;
    put(
        text,
        &[
            b'.',
            b'0' + (size % 10_000 / 1_000) as u8,
            b'0' + (size % 1_000 / 100) as u8,
            b'0' + (size % 100 / 10) as u8,
            b'0' + (size % 10) as u8,
        ],
    )
}

/// Appends money to a text, in euros with four decimals, as `0.0025` for one quarter-cent.
#[tactic(auto, using(crate::proofs::Appended::none_of, crate::proofs::Appended::begun, crate::proofs::Appended::gone_on))]
pub fn put_euros(alloc: Global, text: &mut Vec<u8>, quarters: Quarters) -> Result<(), Memory>
    requires { unsigned_abs quarters.0 ≤ 10 ^ 30 }
    ensures put { OnOk result (text.new.items ≡ text.old.items ++ printed_euros quarters.0) }
    ensures part { OnErr result (AppendsPart (printed_euros quarters.0) text.old.items text.new.items) }
{
    put_sign(text, quarters.0 < 0)?;
    put_ten_thousandths(alloc, text, 25 * quarters.0.unsigned_abs())
}
