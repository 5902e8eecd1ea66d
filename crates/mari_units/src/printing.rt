//! Numbers, prices and money as the program prints them, each as a text of its own.

ghost use Rattle.std.specs.Prelude.{◌≡◌, ◌≤◌, ◌^◌, IfOk, unsigned_abs};
ghost use Rattle.std.specs.Fmt.{signed_decimal};
ghost use Rattle.mari_units.specs.Numbers.{printed_cents, printed_euros};

use crate::appending::{put_cents, put_euros, put_whole};
use crate::faults::Memory;
use crate::numbers::{Cents, Quarters};
use std::alloc::Global;

/// A whole number in digits, without leading zeros, after a minus where it is negative.
pub fn whole_text(alloc: Global, n: i128) -> Result<Vec<u8>, Memory>
    ensures { IfOk result (λ text. text.items ≡ signed_decimal n) }
{
    let mut text = Vec::new(alloc);
    put_whole(alloc, &mut text, n)?;
    Ok(text)
}

/// A price in euro per MWh with two decimals, as `-0.05` for -5 cents.
pub fn cents_text(alloc: Global, cents: Cents) -> Result<Vec<u8>, Memory>
    ensures { IfOk result (λ text. text.items ≡ printed_cents cents.0) }
{
    let mut text = Vec::new(alloc);
    put_cents(alloc, &mut text, cents)?;
    Ok(text)
}

/// Money in euros with four decimals, as `0.0025` for one quarter-cent.
pub fn euros_text(alloc: Global, quarters: Quarters) -> Result<Vec<u8>, Memory>
    requires { unsigned_abs quarters.0 ≤ 10 ^ 30 }
    ensures { IfOk result (λ text. text.items ≡ printed_euros quarters.0) }
{
    let mut text = Vec::new(alloc);
    put_euros(alloc, &mut text, quarters)?;
    Ok(text)
}
