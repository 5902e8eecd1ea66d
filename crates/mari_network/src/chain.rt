//! Moving energy along chains of borders.

ghost use Rattle.std.specs.Prelude.{◌≡◌, true, false, ℕ, ℤ, pos, ◌+ℤ◌, ◌-ℤ◌, ◌*ℤ◌, ◌≤ℤ◌, ◌<ℤ◌, ◌<◌, length, slice_set, slice_index_or};
ghost use Rattle.std.specs.List.{AllZip};
ghost use Rattle.mari_market.specs.Sums.{sum_along, int_at};
ghost use Rattle.mari_market.specs.Activation.{IsWithinLimits, carried_out};
ghost use Rattle.mari_network.specs.Slots.{slot_at, at_zone, slot_gain, IsSmallSlot};
ghost use Rattle.mari_network.specs.Network.{border_at, IsNetwork, Runs};
ghost use Rattle.mari_network.specs.Margins.{IsMoved};
ghost use Rattle.mari_network.specs.Searching.{IsMovedAlong};
ghost use Rattle.mari_network.specs.Chain.{hop_at, hop_room, room_of, head_of, tail_of, more_flow, HasRoom, IsTrace, IsImproving};

use crate::network::Network;
use crate::slots::{Slot, move_amount, room_above, room_below};
use mari_market::{Border, worth};
use mari_units::Cents;

/// A border over which energy can move from a zone to that of an earlier hop.
#[derive(Clone, Copy, Drop)]
pub struct Hop {
    /// The zone that energy leaves.
    pub zone: u32,
    /// The place of the border.
    pub border: usize,
    /// Whether the energy flows from the border's `from` to its `to`.
    pub forth: bool,
    /// The place of the earlier hop.
    pub before: usize,
}

/// A flow after more goes that way, in MW.
fn flow_after(border: &Border, now: i64, more: i64, forth: bool) -> i64
    requires within { IsWithinLimits border.now now }
    requires more { pos 0 ≤ℤ more }
    requires room { more ≤ℤ room_of forth border.now now }
    ensures { result ≡ now +ℤ more_flow forth more }
{
    // The limits are read so that the proof knows them: the flow is bounded by them.
    let (_limit, _back) = (border.limit, border.back);
    if forth { now + more } else { now - more }
}

/// A chain of hops from the zone of a slot that may put in more, its source, to that of a dearer one that may put in
/// less, its sink: the hops lead from place `at` back to the first, which is the sink's zone.
#[derive(Drop)]
pub struct Chain {
    /// The place of the slot that puts in less.
    pub sink: usize,
    /// The place of the slot that puts in more.
    pub source: usize,
    /// The place of the hop of the source's zone.
    pub at: usize,
    /// The hops of the search, of which those on the way from `at` to the first are the chain.
    pub hops: Vec<Hop>,
}

/// Lets more flow over the border of a hop, in MW.
fn push_hop(borders: &[Border], flows: &mut [i64], hop: Hop, more: i64)
    // The border of the hop can carry that much.
    requires lengths { length flows.old ≡ length borders.now }
    requires there { hop.border < length borders.now }
    requires more { pos 0 ≤ℤ more }
    requires room { more ≤ℤ hop_room borders.now flows.old hop }
    requires within { AllZip IsWithinLimits borders.now flows.old }

    // One flow changes, and none leaves its limits.
    ensures flows { flows.new ≡ slice_set flows.old hop.border (slice_index_or flows.old hop.border (pos 0) +ℤ more_flow hop.forth more) }
    ensures within { AllZip IsWithinLimits borders.now flows.new }

    // What leaves one of its two zones comes into the other.
    ensures carried { (z : ℕ) → sum_along (carried_out z) borders.now flows.new
        ≡ (sum_along (carried_out z) borders.now flows.old +ℤ at_zone z (tail_of hop.forth (border_at borders.now hop.border)) more)
        -ℤ at_zone z (head_of hop.forth (border_at borders.now hop.border)) more }
{
    let now = flows[hop.border];
    flows[hop.border] = flow_after(&borders[hop.border], now, more, hop.forth);
}

/// How much more the border can carry that way.
pub fn room_over(border: &Border, now: i64, forth: bool) -> i64
    requires { IsWithinLimits border.now now }
    ensures value { result ≡ room_of forth border.now now }
    ensures low { pos 0 ≤ℤ result }
{
    if forth {
        i64::from(border.limit) - now
    } else {
        now + i64::from(border.back)
    }
}

/// How much more the border of a hop can carry.
fn room_at(borders: &[Border], flows: &[i64], hop: Hop) -> i64
    requires lengths { length flows.now ≡ length borders.now }
    requires there { hop.border < length borders.now }
    requires within { AllZip IsWithinLimits borders.now flows.now }
    ensures { result ≡ hop_room borders.now flows.now hop }
{
    room_over(&borders[hop.border], flows[hop.border], hop.forth)
}

/// Whether anything can be moved along hops back to the first zone.
pub fn has_room(borders: &[Border], flows: &[i64], hops: &[Hop], at: usize) -> bool
    requires lengths { length flows.now ≡ length borders.now }
    requires at { at < length hops.now }
    requires trace { IsTrace borders.now hops.now }
    requires within { AllZip IsWithinLimits borders.now flows.now }
    ensures some { result ≡ true → HasRoom borders.now flows.now hops.now (pos 1) at }
    ensures none { result ≡ false → HasRoom borders.now flows.now hops.now (pos 1) at → ⊥ }
{
    let mut place = at;
    while place > 0 {
        let hop = hops[place];
        if room_at(borders, flows, hop) < 1 {
            return false;
        }
        place = hop.before;
    }
    true
}

/// How much can be moved along a chain back to its first zone, and no more than asked for.
fn room(borders: &[Border], flows: &[i64], hops: &[Hop], at: usize, most: i64) -> i64
    // Flows that may be, and a chain that has room.
    requires lengths { length flows.now ≡ length borders.now }
    requires at { at < length hops.now }
    requires most { pos 1 ≤ℤ most }
    requires trace { IsTrace borders.now hops.now }
    requires within { AllZip IsWithinLimits borders.now flows.now }
    requires some { HasRoom borders.now flows.now hops.now (pos 1) at }

    // There is room for the answer, which is at least a MW.
    ensures some { pos 1 ≤ℤ result }
    ensures most { result ≤ℤ most }
    ensures room { HasRoom borders.now flows.now hops.now result at }
{
    let mut least = most;
    let mut place = at;
    while place > 0 {
        let hop = hops[place];
        least = least.min(room_at(borders, flows, hop));
        place = hop.before;
    }
    least
}

/// Moves energy along a chain back to its first zone.
fn push_chain(borders: &[Border], flows: &mut [i64], hops: &[Hop], at: usize, most: i64)
    // Flows that may be, and a chain that has room for `most`.
    requires lengths { length flows.old ≡ length borders.now }
    requires at { at < length hops.now }
    requires most { pos 0 ≤ℤ most }
    requires trace { IsTrace borders.now hops.now }
    requires within { AllZip IsWithinLimits borders.now flows.old }
    requires room { HasRoom borders.now flows.old hops.now most at }

    // No flow leaves its limits, those over borders of no hop stay, and the zones within the chain carry out what they
    // did.
    ensures within { AllZip IsWithinLimits borders.now flows.new }
    ensures others { (i : ℕ) → ((k : ℕ) → 0 < k → k < length hops.now → (hop_at hops.now k).border ≡ i → ⊥) → int_at flows.new i ≡ int_at flows.old i }
    ensures carried { (z : ℕ) → (sum_along (carried_out z) borders.now flows.new +ℤ at_zone z (hop_at hops.now 0).zone most)
        ≡ sum_along (carried_out z) borders.now flows.old +ℤ at_zone z (hop_at hops.now at).zone most }
{
    let mut place = at;
    while place > 0 {
        let hop = hops[place];
        push_hop(borders, flows, hop, most);
        place = hop.before;
    }
}

/// How much can be moved from a chain's source to its sink.
fn most_along(network: &Network, amounts: &[i64], flows: &[i64], chain: &Chain) -> i64
    // What the caller knows of what runs, and of the chain.
    requires network { IsNetwork network.now }
    requires runs { Runs network.now amounts.now flows.now }
    requires chain { IsImproving network.now amounts.now flows.now chain.now }

    // At least a MW, which both slots and every hop have room for.
    ensures some { pos 1 ≤ℤ result }
    ensures sink { result ≤ℤ (int_at amounts.now chain.now.sink -ℤ (slot_at network.now.slots.now chain.now.sink).low) }
    ensures source { result ≤ℤ ((slot_at network.now.slots.now chain.now.source).high -ℤ int_at amounts.now chain.now.source) }
    ensures room { HasRoom network.now.borders.now flows.now chain.now.hops.items result chain.now.at }
{
    let below = room_below(network.slots[chain.sink], amounts[chain.sink]);
    let above = room_above(network.slots[chain.source], amounts[chain.source]);
    room(
        network.borders,
        flows,
        &chain.hops,
        chain.at,
        below.min(above),
    )
}

/// What it is worth to move an amount from a cheaper slot to a dearer one, in quarter-cents.
fn worth_of_move(source: Slot, sink: Slot, more: i64) -> i128
    requires source { IsSmallSlot source }
    requires sink { IsSmallSlot sink }
    ensures { result ≡ (sink.price -ℤ source.price) *ℤ more }
{
    worth(Cents(sink.price - source.price), more)
}

/// Moves as much as can be from a chain's source to its sink. It gives back by how much that raises what the amounts
/// are worth together, in quarter-cents.
pub fn improve(network: &Network, amounts: &mut [i64], flows: &mut [i64], chain: &Chain) -> i128
    // What the caller knows of what runs, and of the chain.
    requires network { IsNetwork network.now }
    requires runs { Runs network.now amounts.old flows.old }
    requires chain { IsImproving network.now amounts.old flows.old chain.now }

    // What runs then, with the amounts of two slots moved.
    ensures runs { Runs network.now amounts.new flows.new }
    ensures moved { IsMoved network.now.slots.now amounts.old amounts.new chain.now.sink chain.now.source }
    ensures along { IsMovedAlong network.now.slots.now network.now.borders.now chain.now.hops.items amounts.old flows.old amounts.new flows.new }

    // By how much it is better.
    ensures worth { sum_along slot_gain network.now.slots.now amounts.new ≡ sum_along slot_gain network.now.slots.now amounts.old +ℤ result }
    ensures rises { sum_along slot_gain network.now.slots.now amounts.old <ℤ sum_along slot_gain network.now.slots.now amounts.new }
{
    let more = most_along(network, amounts, flows, chain);
    push_chain(network.borders, flows, &chain.hops, chain.at, more);
    move_amount(network.slots, amounts, chain.sink, -more);
    move_amount(network.slots, amounts, chain.source, more);
    worth_of_move(network.slots[chain.source], network.slots[chain.sink], more)
}
