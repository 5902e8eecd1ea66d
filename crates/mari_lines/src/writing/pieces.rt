//! The pieces of a line.

ghost use Rattle.std.specs.Prelude.{◌≡◌, ◌++◌, ◌∷◌, ◌≤◌, ◌^◌, OnOk};
ghost use Rattle.std.specs.Int.RustNames.{unsigned_abs};
ghost use Rattle.std.specs.Fmt.{decimal, signed_decimal};
ghost use Rattle.mari_lines.specs.Spelling.{price_text, money_text};

use mari_units::{
    Cents, Memory, Quarters, put, put_cents, put_euros, put_spaced_number, put_whole,
};
use std::alloc::Global;

/// Appends a space and a piece.
pub fn put_field(out: &mut Vec<u8>, piece: &[u8]) -> Result<(), Memory>
    ensures { OnOk result (out.new.items ≡ out.old.items ++ 32 ∷ piece.now) }
{
    put(out, b" ")?;
    put(out, piece)
}

/// Appends a space and a number.
pub fn put_number_field(alloc: Global, out: &mut Vec<u8>, n: u64) -> Result<(), Memory>
    ensures { OnOk result (out.new.items ≡ out.old.items ++ 32 ∷ decimal n) }
{
    put_spaced_number(alloc, out, n)
}

/// Appends a space and a price.
pub fn put_price(alloc: Global, out: &mut Vec<u8>, price: Cents) -> Result<(), Memory>
    ensures { OnOk result (out.new.items ≡ out.old.items ++ 32 ∷ price_text price) }
{
    put(out, b" ")?;
    put_cents(alloc, out, price)
}

/// Appends a space and a flow.
pub fn put_flow(alloc: Global, out: &mut Vec<u8>, flow: i64) -> Result<(), Memory>
    ensures { OnOk result (out.new.items ≡ out.old.items ++ 32 ∷ signed_decimal flow) }
{
    put(out, b" ")?;
    put_whole(alloc, out, i128::from(flow))
}

/// Appends a space and an amount of money, in quarter-cents.
pub fn put_money(alloc: Global, out: &mut Vec<u8>, money: Quarters) -> Result<(), Memory>
    requires { unsigned_abs money.0 ≤ 10 ^ 30 }
    ensures { OnOk result (out.new.items ≡ out.old.items ++ 32 ∷ money_text money) }
{
    put(out, b" ")?;
    put_euros(alloc, out, money)
}
