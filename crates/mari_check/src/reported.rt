//! What a block says of its run.

ghost use Rattle.std.specs.Prelude.{◌≡◌, IfOk, map};
ghost use Rattle.mari_lines.specs.declared.line.BidLine.{BidLine as TheBidLine};
ghost use Rattle.mari_lines.specs.declared.line.BorderLine.{BorderLine as TheBorderLine};
ghost use Rattle.mari_lines.specs.declared.line.ZoneLine.{ZoneLine as TheZoneLine};
ghost use Rattle.mari_progress.specs.Reported.{activation_of as activation_reported, areas_of as areas_reported, greatest_reported, least_reported, prices_of as prices_reported};

use mari_market::{Activation, Prices};
use mari_publish::{BidLine, BorderLine, FullBlock, ZoneLine};
use mari_units::{Cents, Items, Memory};
use std::alloc::Global;

/// How many MW the bids run.
fn mws_of(alloc: Global, lines: &[BidLine]) -> Result<Vec<u32>, Memory>
    ensures { IfOk result (λ mw. mw.items ≡ map (λ (l : TheBidLine). l.mw) lines.now) }
{
    let mw: Vec<u32> = lines.iter().map(|line| line.mw).collect(alloc)?;
    Ok(mw)
}

/// What flows over the borders.
fn flows_of(alloc: Global, lines: &[BorderLine]) -> Result<Vec<i64>, Memory>
    ensures { IfOk result (λ flow. flow.items ≡ map (λ (l : TheBorderLine). l.flow) lines.now) }
{
    let flow: Vec<i64> = lines.iter().map(|line| line.flow).collect(alloc)?;
    Ok(flow)
}

/// What the zones' prices are.
fn cents_of_zones(alloc: Global, lines: &[ZoneLine]) -> Result<Vec<Cents>, Memory>
    ensures { IfOk result (λ cents. cents.items ≡ map (λ (l : TheZoneLine). l.price) lines.now) }
{
    let cents: Vec<Cents> = lines.iter().map(|line| line.price).collect(alloc)?;
    Ok(cents)
}

/// The activation that a block states: what its bids and after them its demands run, and the flows of its borders, all
/// in MW and in the order of its lines.
pub fn activation_of(alloc: Global, block: &FullBlock) -> Result<Activation, Memory>
    ensures { IfOk result (λ activation. activation ≡ activation_reported block.now) }
{
    let mut mw = mws_of(alloc, block.bids.as_slice())?;
    mw.extend_from_slice(block.demands.as_slice())?;
    let flow = flows_of(alloc, block.borders.as_slice())?;
    Ok(Activation {
        mw: Items::of(mw),
        flow: Items::of(flow),
    })
}

/// The prices that a block states: one for each of its zones, in cents per MWh and in the order of its lines.
pub fn prices_of(alloc: Global, block: &FullBlock) -> Result<Prices, Memory>
    ensures { IfOk result (λ prices. prices.cents ≡ prices_reported block.now) }
{
    let cents = cents_of_zones(alloc, block.zones.as_slice())?;
    Ok(Prices {
        cents: Items::of(cents),
    })
}

/// The least prices that it states.
pub(crate) fn least_of(alloc: Global, block: &FullBlock) -> Result<Vec<Cents>, Memory>
    ensures { IfOk result (λ cents. cents.items ≡ least_reported block.now) }
{
    let zones = block.zones.as_slice();
    let cents: Vec<Cents> = zones.iter().map(|line| line.least).collect(alloc)?;
    Ok(cents)
}

/// The greatest prices that it states.
pub(crate) fn greatest_of(alloc: Global, block: &FullBlock) -> Result<Vec<Cents>, Memory>
    ensures { IfOk result (λ cents. cents.items ≡ greatest_reported block.now) }
{
    let zones = block.zones.as_slice();
    let cents: Vec<Cents> = zones.iter().map(|line| line.greatest).collect(alloc)?;
    Ok(cents)
}

/// The numbers of areas that it states.
pub(crate) fn areas_of(alloc: Global, block: &FullBlock) -> Result<Vec<u32>, Memory>
    ensures { IfOk result (λ areas. areas.items ≡ areas_reported block.now) }
{
    let zones = block.zones.as_slice();
    let areas: Vec<u32> = zones.iter().map(|line| line.area).collect(alloc)?;
    Ok(areas)
}
