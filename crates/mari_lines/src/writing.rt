//! Writing a line: each kind of line, as it is spelled.
#![tactic(auto, unfolding(crate::specs::Spelling::spelling))]

ghost use Rattle.std.specs.Prelude.{◌≡◌, ◌++◌, ◌∷◌, OnOk, codes};
ghost use Rattle.mari_lines.specs.Ranges.{IsMoney, IsMoneyLine, IsAmountLine};
ghost use Rattle.mari_lines.specs.Spelling.{line_text, spaced, money_fields, amount_fields, heading_fields, kind_text};
ghost use Rattle.mari_lines.specs.declared.line.Line.TheVariants as line;

mod pieces;
mod tree;

use crate::line::{AmountLine, BidLine, BorderLine, Heading, MoneyLine, ZoneLine};
use mari_units::{Memory, Name, put, put_number_end};
use pieces::put_flow;
pub use pieces::{put_field, put_money, put_number_field, put_price};
use std::alloc::Global;
pub use tree::{put_at, put_bound, put_branch, put_conflict, put_cut, put_flow_line, put_mw_line};

/// Appends the first line.
pub fn put_head(
    alloc: Global,
    out: &mut Vec<u8>,
    date: &Name,
    quarters: u32,
    budget: u32,
) -> Result<(), Memory>
    ensures { OnOk result (out.new.items ≡ out.old.items ++ line_text (line.Head date.now quarters budget)) }
{
    put(out, b"mari 1")?;
    put_field(out, date.bytes())?;
    put_number_field(alloc, out, u64::from(quarters))?;
    put_number_end(alloc, out, u64::from(budget))
}

/// Appends the kind of a run.
fn put_kind(out: &mut Vec<u8>, direct: bool) -> Result<(), Memory>
    ensures { OnOk result (out.new.items ≡ out.old.items ++ 32 ∷ kind_text direct) }
{
    if direct {
        put_field(out, b"direct")
    } else {
        put_field(out, b"scheduled")
    }
}

/// Appends a run's keyword, its number, its quarter and its kind.
pub fn put_heading(alloc: Global, out: &mut Vec<u8>, heading: Heading) -> Result<(), Memory>
    ensures { OnOk result (out.new.items ≡ out.old.items ++ codes "run" ++ spaced (heading_fields heading)) }
{
    put(out, b"run")?;
    put_number_field(alloc, out, u64::from(heading.run))?;
    put_number_field(alloc, out, u64::from(heading.quarter))?;
    put_kind(out, heading.direct)
}

/// Appends the heading of a published run.
pub fn put_run(alloc: Global, out: &mut Vec<u8>, heading: Heading) -> Result<(), Memory>
    ensures { OnOk result (out.new.items ≡ out.old.items ++ line_text (line.Run heading)) }
{
    put_heading(alloc, out, heading)?;
    put(out, b" published\n")
}

/// Appends the line of a run that isn't published.
pub fn put_unpublished(
    alloc: Global,
    out: &mut Vec<u8>,
    heading: Heading,
    count: u32,
) -> Result<(), Memory>
    ensures { OnOk result (out.new.items ≡ out.old.items ++ line_text (line.Unpublished heading count)) }
{
    put_heading(alloc, out, heading)?;
    put(out, b" unpublished")?;
    put_number_end(alloc, out, u64::from(count))
}

/// Appends a run's welfare.
pub fn put_welfare(alloc: Global, out: &mut Vec<u8>, welfare: u64) -> Result<(), Memory>
    ensures { OnOk result (out.new.items ≡ out.old.items ++ line_text (line.Welfare welfare)) }
{
    put(out, b"welfare")?;
    put_number_end(alloc, out, welfare)
}

/// Appends a zone's line.
pub fn put_zone(alloc: Global, out: &mut Vec<u8>, zone: &ZoneLine) -> Result<(), Memory>
    ensures { OnOk result (out.new.items ≡ out.old.items ++ line_text (line.Zone zone.now)) }
{
    put(out, b"zone")?;
    put_field(out, zone.name.bytes())?;
    put_price(alloc, out, zone.price)?;
    put_price(alloc, out, zone.least)?;
    put_price(alloc, out, zone.greatest)?;
    put_number_end(alloc, out, u64::from(zone.area))
}

/// Appends a border's line.
pub fn put_border(alloc: Global, out: &mut Vec<u8>, border: &BorderLine) -> Result<(), Memory>
    requires { IsMoney border.now.rent }
    ensures { OnOk result (out.new.items ≡ out.old.items ++ line_text (line.Border border.now)) }
{
    put(out, b"border")?;
    put_field(out, border.from.bytes())?;
    put_field(out, border.to.bytes())?;
    put_flow(alloc, out, border.flow)?;
    put_money(alloc, out, border.rent)?;
    put(out, b"\n")
}

/// Appends a bid's line.
pub fn put_bid(alloc: Global, out: &mut Vec<u8>, bid: &BidLine) -> Result<(), Memory>
    ensures { OnOk result (out.new.items ≡ out.old.items ++ line_text (line.Bid bid.now)) }
{
    put(out, b"bid ")?;
    put(out, bid.id.bytes())?;
    put_number_end(alloc, out, u64::from(bid.mw))
}

/// Appends the line of the demand at a place from 1.
pub fn put_demand(alloc: Global, out: &mut Vec<u8>, place: u32, mw: u32) -> Result<(), Memory>
    ensures { OnOk result (out.new.items ≡ out.old.items ++ line_text (line.Demand place mw)) }
{
    put(out, b"demand")?;
    put_number_field(alloc, out, u64::from(place))?;
    put_number_end(alloc, out, u64::from(mw))
}

/// Appends the first line of a certificate tree.
pub fn put_tree(alloc: Global, out: &mut Vec<u8>, count: u32) -> Result<(), Memory>
    ensures { OnOk result (out.new.items ≡ out.old.items ++ line_text (line.Tree count)) }
{
    put(out, b"tree")?;
    put_number_end(alloc, out, u64::from(count))
}

/// Appends an operator's name and amounts.
fn put_money_fields(alloc: Global, out: &mut Vec<u8>, operator: &MoneyLine) -> Result<(), Memory>
    requires { IsMoneyLine operator.now }
    ensures { OnOk result (out.new.items ≡ out.old.items ++ spaced (money_fields operator.now)) }
{
    put_field(out, operator.name.bytes())?;
    put_money(alloc, out, operator.payment)?;
    put_money(alloc, out, operator.rent)?;
    put_money(alloc, out, operator.net)
}

/// Appends an operator's line in a block.
pub fn put_operator(alloc: Global, out: &mut Vec<u8>, operator: &MoneyLine) -> Result<(), Memory>
    requires { IsMoneyLine operator.now }
    ensures { OnOk result (out.new.items ≡ out.old.items ++ line_text (line.Operator operator.now)) }
{
    put(out, b"operator")?;
    put_money_fields(alloc, out, operator)?;
    put(out, b"\n")
}

/// Appends an operator's line in the totals.
pub fn put_total_operator(
    alloc: Global,
    out: &mut Vec<u8>,
    operator: &MoneyLine,
) -> Result<(), Memory>
    requires { IsMoneyLine operator.now }
    ensures { OnOk result (out.new.items ≡ out.old.items ++ line_text (line.TotalOperator operator.now)) }
{
    put(out, b"total-operator")?;
    put_money_fields(alloc, out, operator)?;
    put(out, b"\n")
}

/// Appends a provider's name and amount.
fn put_amount_fields(alloc: Global, out: &mut Vec<u8>, provider: &AmountLine) -> Result<(), Memory>
    requires { IsAmountLine provider.now }
    ensures { OnOk result (out.new.items ≡ out.old.items ++ spaced (amount_fields provider.now)) }
{
    put_field(out, provider.name.bytes())?;
    put_money(alloc, out, provider.amount)
}

/// Appends a provider's line in a block.
pub fn put_provider(alloc: Global, out: &mut Vec<u8>, provider: &AmountLine) -> Result<(), Memory>
    requires { IsAmountLine provider.now }
    ensures { OnOk result (out.new.items ≡ out.old.items ++ line_text (line.Provider provider.now)) }
{
    put(out, b"provider")?;
    put_amount_fields(alloc, out, provider)?;
    put(out, b"\n")
}

/// Appends a provider's line in the totals.
pub fn put_total_provider(
    alloc: Global,
    out: &mut Vec<u8>,
    provider: &AmountLine,
) -> Result<(), Memory>
    requires { IsAmountLine provider.now }
    ensures { OnOk result (out.new.items ≡ out.old.items ++ line_text (line.TotalProvider provider.now)) }
{
    put(out, b"total-provider")?;
    put_amount_fields(alloc, out, provider)?;
    put(out, b"\n")
}

/// Appends the last line of a block.
pub fn put_end(alloc: Global, out: &mut Vec<u8>, run: u32) -> Result<(), Memory>
    ensures { OnOk result (out.new.items ≡ out.old.items ++ line_text (line.End run)) }
{
    put(out, b"end")?;
    put_number_end(alloc, out, u64::from(run))
}

/// Appends the last line of the text.
pub fn put_done(
    alloc: Global,
    out: &mut Vec<u8>,
    published: u32,
    unpublished: u32,
) -> Result<(), Memory>
    ensures { OnOk result (out.new.items ≡ out.old.items ++ line_text (line.Done published unpublished)) }
{
    put(out, b"done")?;
    put_number_field(alloc, out, u64::from(published))?;
    put_number_end(alloc, out, u64::from(unpublished))
}
