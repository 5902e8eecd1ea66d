//! Each kind of line of a certificate tree, as it is spelled.
#![tactic(auto, unfolding(crate::specs::Spelling::spelling))]

ghost use Rattle.std.specs.Prelude.{◌≡◌, ◌++◌, ◌<◌, ◌+◌, OnOk, map};
ghost use Rattle.std.specs.Fmt.{decimal, signed_decimal};
ghost use Rattle.mari_lines.specs.Spelling.{spaced, price_text, zone_text, side_text, line_text};
ghost use Rattle.mari_lines.specs.declared.line.Line.TheVariants as line;

use super::pieces::{put_flow, put_number_field, put_price};
use mari_market::{Cut, CutSide};
use mari_units::{Cents, Memory, put};
use std::alloc::Global;

/// Appends a space and a price, for each of the prices.
fn put_prices(alloc: Global, out: &mut Vec<u8>, prices: &[Cents]) -> Result<(), Memory>
    ensures { OnOk result (out.new.items ≡ out.old.items ++ spaced (map price_text prices.now)) }
{
    for price in prices {
        put_price(alloc, out, *price)?;
    }
    Ok(())
}

/// Appends a space and a flow, for each of the flows.
fn put_flows(alloc: Global, out: &mut Vec<u8>, flows: &[i64]) -> Result<(), Memory>
    ensures { OnOk result (out.new.items ≡ out.old.items ++ spaced (map signed_decimal flows.now)) }
{
    for flow in flows {
        put_flow(alloc, out, *flow)?;
    }
    Ok(())
}

/// Appends a space and a quantity, for each of the quantities.
fn put_mws(alloc: Global, out: &mut Vec<u8>, mws: &[u32]) -> Result<(), Memory>
    ensures { OnOk result (out.new.items ≡ out.old.items ++ spaced (map decimal mws.now)) }
{
    for mw in mws {
        put_number_field(alloc, out, u64::from(*mw))?;
    }
    Ok(())
}

/// Appends a space and a zone's number from 1 on, for each of the zones.
fn put_zones(alloc: Global, out: &mut Vec<u8>, zones: &[u32]) -> Result<(), Memory>
    ensures { OnOk result (out.new.items ≡ out.old.items ++ spaced (map zone_text zones.now)) }
{
    for zone in zones {
        put_number_field(alloc, out, u64::from(*zone) + 1)?;
    }
    Ok(())
}

/// Appends the line of a bound's prices.
pub fn put_bound(alloc: Global, out: &mut Vec<u8>, prices: &[Cents]) -> Result<(), Memory>
    ensures { OnOk result (out.new.items ≡ out.old.items ++ line_text (line.Bound prices.now)) }
{
    put(out, b"bound")?;
    put_prices(alloc, out, prices)?;
    put(out, b"\n")
}

/// Appends the word of a cut's side.
fn put_side(out: &mut Vec<u8>, side: CutSide) -> Result<(), Memory>
    ensures { OnOk result (out.new.items ≡ out.old.items ++ side_text side) }
{
    match side {
        CutSide::Out => put(out, b"out"),
        CutSide::In => put(out, b"in"),
    }
}

/// Appends a cut's line.
pub fn put_cut(alloc: Global, out: &mut Vec<u8>, cut: &Cut) -> Result<(), Memory>
    ensures { OnOk result (out.new.items ≡ out.old.items ++ line_text (line.Cut cut.now)) }
{
    put(out, b"cut ")?;
    put_side(out, cut.side)?;
    put_zones(alloc, out, cut.zones.as_slice())?;
    put(out, b"\n")
}

/// Appends the first of a conflict's lines: its zones.
pub fn put_conflict(alloc: Global, out: &mut Vec<u8>, zones: &[u32]) -> Result<(), Memory>
    ensures { OnOk result (out.new.items ≡ out.old.items ++ line_text (line.Conflict zones.now)) }
{
    put(out, b"conflict")?;
    put_zones(alloc, out, zones)?;
    put(out, b"\n")
}

/// Appends the second: its prices.
pub fn put_at(alloc: Global, out: &mut Vec<u8>, prices: &[Cents]) -> Result<(), Memory>
    ensures { OnOk result (out.new.items ≡ out.old.items ++ line_text (line.At prices.now)) }
{
    put(out, b"at")?;
    put_prices(alloc, out, prices)?;
    put(out, b"\n")
}

/// Appends the third: its flows.
pub fn put_flow_line(alloc: Global, out: &mut Vec<u8>, flows: &[i64]) -> Result<(), Memory>
    ensures { OnOk result (out.new.items ≡ out.old.items ++ line_text (line.Flows flows.now)) }
{
    put(out, b"flows")?;
    put_flows(alloc, out, flows)?;
    put(out, b"\n")
}

/// Appends the last: its quantities.
pub fn put_mw_line(alloc: Global, out: &mut Vec<u8>, mws: &[u32]) -> Result<(), Memory>
    ensures { OnOk result (out.new.items ≡ out.old.items ++ line_text (line.Mws mws.now)) }
{
    put(out, b"mws")?;
    put_mws(alloc, out, mws)?;
    put(out, b"\n")
}

/// Appends the line of a branch.
pub fn put_branch(out: &mut Vec<u8>) -> Result<(), Memory>
    ensures { OnOk result (out.new.items ≡ out.old.items ++ line_text line.Branch) }
{
    put(out, b"branch\n")
}
