//! What islands run, joined to an activation of the whole market.

ghost use Rattle.std.specs.Prelude.{◌≡◌, ◌≤◌, ◌<◌, Contains, IfOk, ℕ, length, map, pos, slice_index};
ghost use Rattle.std.specs.List.{All, AllZip, sum_by};
ghost use Rattle.mari_market.specs.declared.clearing.Clearing.{Clearing as ClearingRecord};
ghost use Rattle.mari_market.specs.Market.{IsValid};
ghost use Rattle.mari_market.specs.Sums.{int_at};
ghost use Rattle.mari_islands.specs.Cleared.{IsFirstOfIsland, IsFirstOfWhole, IsJoinedOf};
ghost use Rattle.mari_islands.specs.Islands.{AreIslands};
ghost use Rattle.mari_islands.specs.Placing.{AreNumbersOf, ArePlaced, FitsIsland, IsPlaced};

use crate::islands::Island;
use mari_market::{Activation, Clearing, MOST_ORDERS, Market};
use mari_units::{CAP, Items, MOST_MW, MOST_ZONES};
use std::alloc::{AllocError, Global};

/// The most that an activation of a market is worth, in quarter-cents: that of the most orders, each with the greatest
/// quantity at the greatest price.
const MOST_WELFARE: u64 = CAP as u64 * MOST_MW as u64 * MOST_ORDERS as u64;

/// An activation of the whole market, and its welfare.
#[derive(Drop)]
pub struct Joined {
    /// The activation.
    pub activation: Activation,
    /// Its welfare, in quarter-cents.
    pub welfare: u64,
}

/// Writes quantities to their places.
fn place_mw(mw: &mut [u32], numbers: &[u32], own: &[u32])
    requires numbers { AreNumbersOf (length mw.old) numbers.now }
    requires lengths { length own.now ≡ length numbers.now }
    ensures placed { map (slice_index mw.new) numbers.now ≡ own.now }
    ensures others { (k : ℕ) → (Contains numbers.now k → ⊥) → slice_index mw.new k ≡ slice_index mw.old k }
{
    for (place, number) in numbers.iter().enumerate() {
        mw[*number as usize] = own[place];
    }
}

/// Writes flows to their places.
fn place_flow(flow: &mut [i64], numbers: &[u32], own: &[i64])
    requires numbers { AreNumbersOf (length flow.old) numbers.now }
    requires lengths { length own.now ≡ length numbers.now }
    ensures placed { map (int_at flow.new) numbers.now ≡ own.now }
    ensures others { (k : ℕ) → (Contains numbers.now k → ⊥) → int_at flow.new k ≡ int_at flow.old k }
{
    for (place, number) in numbers.iter().enumerate() {
        flow[*number as usize] = own[place];
    }
}

/// Writes the activation of an island to its places.
fn place_island(mw: &mut [u32], flow: &mut [i64], island: &Island, own: &Activation)
    requires orders { AreNumbersOf (length mw.old) island.now.orders }
    requires borders { AreNumbersOf (length flow.old) island.now.borders }
    requires mw { length own.now.mw ≡ length island.now.orders }
    requires flow { length own.now.flow ≡ length island.now.borders }
    ensures { IsPlaced island.now own.now mw.old flow.old mw.new flow.new }
{
    place_mw(mw, island.orders.as_slice(), own.mw.as_slice());
    place_flow(flow, island.borders.as_slice(), own.flow.as_slice());
}

/// Writes the activations of all islands to their places.
fn place_all(
    market: &Market,
    islands: &[Island],
    clearings: &[Clearing],
    mw: &mut [u32],
    flow: &mut [i64],
)
    requires valid { IsValid market.now }
    requires islands { AreIslands market.now islands.now }
    requires clearings { AllZip FitsIsland islands.now clearings.now }
    requires mw { length mw.old ≡ length market.now.orders }
    requires flow { length flow.old ≡ length market.now.borders }
    requires still { (k : ℕ) → int_at flow.old k ≡ pos 0 }
    ensures { ArePlaced islands.now clearings.now mw.new flow.new }
{
    for (place, island) in islands.iter().enumerate() {
        place_island(mw, flow, island, &clearings[place].activation);
    }
}

/// The activation of the whole that has the quantities and flows of the islands' activations, and no flow over the
/// borders of no island.
fn activation_of(
    alloc: Global,
    market: &Market,
    islands: &[Island],
    clearings: &[Clearing],
) -> Result<Activation, AllocError>
    requires valid { IsValid market.now }
    requires islands { AreIslands market.now islands.now }
    requires clearings { AllZip FitsIsland islands.now clearings.now }
    ensures { IfOk result (IsJoinedOf market.now islands.now clearings.now) }
{
    let mut mw = vec![in alloc; 0; market.orders.as_slice().len()]?;
    let mut flow = vec![in alloc; 0; market.borders.as_slice().len()]?;
    place_all(market, islands, clearings, &mut mw, &mut flow);
    Ok(Activation {
        mw: Items::of(mw),
        flow: Items::of(flow),
    })
}

/// The welfare of the islands together, in quarter-cents.
fn welfare_of(clearings: &[Clearing]) -> u64
    requires few { length clearings.now ≤ MOST_ZONES }
    requires small { All (λ (c : ClearingRecord). c.welfare ≤ MOST_WELFARE) clearings.now }
    ensures { result ≡ sum_by (λ (c : ClearingRecord). c.welfare) clearings.now }
{
    let mut total = 0;
    for clearing in clearings {
        total += clearing.welfare;
    }
    total
}

/// What the islands run, joined: where each runs its first activation, the first activation of the whole.
pub(crate) fn joined_of(
    alloc: Global,
    market: &Market,
    islands: &[Island],
    clearings: &[Clearing],
) -> Result<Joined, AllocError>
    requires valid { IsValid market.now }
    requires islands { AreIslands market.now islands.now }
    requires firsts { AllZip IsFirstOfIsland islands.now clearings.now }
    ensures together { IfOk result (λ joined. IsJoinedOf market.now islands.now clearings.now joined.activation) }
    ensures sum { IfOk result (λ joined. joined.welfare ≡ sum_by (λ (c : ClearingRecord). c.welfare) clearings.now) }
    ensures first { IfOk result (IsFirstOfWhole market.now) }
{
    let activation = activation_of(alloc, market, islands, clearings)?;
    Ok(Joined {
        activation,
        welfare: welfare_of(clearings),
    })
}
