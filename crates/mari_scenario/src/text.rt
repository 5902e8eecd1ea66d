//! The pieces of a line.

ghost use Rattle.std.specs.Prelude.{◌≡◌, ◌++◌, ◌∷◌, [], OnOk};
ghost use Rattle.std.specs.Fmt.{signed_decimal};
ghost use Rattle.mari_units.specs.Numbers.{printed_cents};
ghost use Rattle.mari_scenario.specs.Pages.{bid, group, operator, provider, zone};

use mari_units::{Cents, Memory, cents_text, put, put_number, whole_text};
use std::alloc::Global;

/// Appends a comma.
pub fn put_comma(out: &mut Vec<u8>) -> Result<(), Memory>
    ensures { OnOk result (out.new.items ≡ out.old.items ++ 44 ∷ []) }
{
    put(out, b",")
}

/// Appends a whole number that may be negative.
pub fn put_whole(alloc: Global, out: &mut Vec<u8>, n: i64) -> Result<(), Memory>
    ensures { OnOk result (out.new.items ≡ out.old.items ++ signed_decimal n) }
{
    put(out, &whole_text(alloc, i128::from(n))?)
}

/// Appends a price.
pub fn put_price(alloc: Global, out: &mut Vec<u8>, cents: i64) -> Result<(), Memory>
    ensures { OnOk result (out.new.items ≡ out.old.items ++ printed_cents cents) }
{
    put(out, &cents_text(alloc, Cents(cents))?)
}

/// Appends a zone's name.
pub fn put_zone(alloc: Global, out: &mut Vec<u8>, i: u32) -> Result<(), Memory>
    ensures { OnOk result (out.new.items ≡ out.old.items ++ zone i) }
{
    put(out, b"Z")?;
    put_number(alloc, out, u128::from(i))
}

/// Appends an operator's name.
pub fn put_operator(alloc: Global, out: &mut Vec<u8>, i: u32) -> Result<(), Memory>
    ensures { OnOk result (out.new.items ≡ out.old.items ++ operator i) }
{
    put(out, b"T")?;
    put_number(alloc, out, u128::from(i))
}

/// Appends a provider's name.
pub fn put_provider(alloc: Global, out: &mut Vec<u8>, i: u32) -> Result<(), Memory>
    ensures { OnOk result (out.new.items ≡ out.old.items ++ provider i) }
{
    put(out, b"P")?;
    put_number(alloc, out, u128::from(i))
}

/// Appends the name of a quarter's bid.
pub fn put_bid(alloc: Global, out: &mut Vec<u8>, quarter: u32, place: u32) -> Result<(), Memory>
    ensures { OnOk result (out.new.items ≡ out.old.items ++ bid quarter place) }
{
    put(out, b"q")?;
    put_number(alloc, out, u128::from(quarter))?;
    put(out, b"b")?;
    put_number(alloc, out, u128::from(place))
}

/// Appends the name of a quarter's group.
pub fn put_group(alloc: Global, out: &mut Vec<u8>, quarter: u32) -> Result<(), Memory>
    ensures { OnOk result (out.new.items ≡ out.old.items ++ group quarter) }
{
    put(out, b"g")?;
    put_number(alloc, out, u128::from(quarter))
}
