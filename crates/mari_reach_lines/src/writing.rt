//! Writing a line: each kind of line that the second form has alone, as it is spelled.

ghost use Rattle.std.specs.Prelude.{◌≡◌, ◌++◌, OnOk};
ghost use Rattle.std.specs.List.{flat_map};
ghost use Rattle.mari_lines.specs.Spelling.{spaced};
ghost use Rattle.mari_reach_lines.specs.Ranges.{IsClaim};
ghost use Rattle.mari_reach_lines.specs.Spelling.{claim_fields, reach_line_text};
ghost use Rattle.mari_reach_lines.specs.declared.line.ReachLine.TheVariants as reach;

use crate::line::Claim;
use mari_lines::{Heading, put_field, put_heading, put_money, put_number_field, put_price};
use mari_units::{Cents, Memory, Name, put, put_number_end};
use std::alloc::Global;

/// Appends the first line.
pub fn put_reach_head(
    alloc: Global,
    out: &mut Vec<u8>,
    date: &Name,
    quarters: u32,
    budget: u32,
) -> Result<(), Memory>
    ensures { OnOk result (out.new.items ≡ out.old.items ++ reach_line_text (reach.Head date.now quarters budget)) }
{
    put(out, b"mari 2")?;
    put_field(out, date.bytes())?;
    put_number_field(alloc, out, u64::from(quarters))?;
    put_number_end(alloc, out, u64::from(budget))
}

/// Appends what a run's line says of the activation.
fn put_claim(alloc: Global, out: &mut Vec<u8>, claim: Claim) -> Result<(), Memory>
    requires { IsClaim claim }
    ensures { OnOk result (out.new.items ≡ out.old.items ++ spaced (claim_fields claim)) }
{
    match claim {
        Claim::First => put_field(out, b"first"),
        Claim::Within(gap) => {
            put_field(out, b"within")?;
            put_money(alloc, out, gap)
        }
    }
}

/// Appends the line of a run.
pub fn put_reach_run(
    alloc: Global,
    out: &mut Vec<u8>,
    heading: Heading,
    claim: Claim,
) -> Result<(), Memory>
    requires { IsClaim claim }
    ensures { OnOk result (out.new.items ≡ out.old.items ++ reach_line_text (reach.Run heading claim)) }
{
    put_heading(alloc, out, heading)?;
    put_claim(alloc, out, claim)?;
    put(out, b"\n")
}

/// Appends the line of a branch at the gate of a bid.
pub fn put_reach_branch(out: &mut Vec<u8>, bid: &[u8]) -> Result<(), Memory>
    ensures { OnOk result (out.new.items ≡ out.old.items ++ reach_line_text (reach.Branch bid.now)) }
{
    put(out, b"branch")?;
    put_field(out, bid)?;
    put(out, b"\n")
}

/// Appends the line of a branch at the price of a zone.
pub fn put_reach_price(
    alloc: Global,
    out: &mut Vec<u8>,
    zone: &[u8],
    price: Cents,
) -> Result<(), Memory>
    ensures { OnOk result (out.new.items ≡ out.old.items ++ reach_line_text (reach.Price zone.now price)) }
{
    put(out, b"price")?;
    put_field(out, zone)?;
    put_price(alloc, out, price)?;
    put(out, b"\n")
}

/// Appends the line of a void state.
pub fn put_void(out: &mut Vec<u8>) -> Result<(), Memory>
    ensures { OnOk result (out.new.items ≡ out.old.items ++ reach_line_text reach.Void) }
{
    put(out, b"none\n")
}
