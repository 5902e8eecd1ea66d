//! Improving along the hops of one search while they have room.

ghost use Rattle.std.specs.Prelude.{◌≡◌, ◌<◌, ◌<ℤ◌, true, ℕ, pos, length, Some, IfSome};
ghost use Rattle.std.specs.List.{AllZip};
ghost use Rattle.mari_market.specs.Sums.{sum_along};
ghost use Rattle.mari_market.specs.Activation.{IsWithinLimits};
ghost use Rattle.mari_network.specs.Chain.{hop_at, HasRoom, IsImproving};
ghost use Rattle.mari_paths.specs.Drains.{AreHops, AreEnds};
ghost use Rattle.mari_network.specs.Margins.{dearest_at, cheapest_at, AreMargins, AreMarginsOf};
ghost use Rattle.mari_network.specs.Network.{IsNetwork, Runs};
ghost use Rattle.mari_network.specs.Searching.{IsMovedAlong};
ghost use Rattle.mari_network.specs.Slots.{slot_gain};

use mari_network::{Chain, Hop, Margin, Margins, Network, Slot, has_room, improve, renew};

/// Where a chain ends and starts.
#[derive(Clone, Copy, Drop)]
pub struct Ends {
    /// The place of the slot that puts in less.
    pub sink: usize,
    /// The place of the slot that puts in more.
    pub source: usize,
    /// The place of the hop of the source's zone.
    pub at: usize,
}

/// The cheapest slot of the zones of these hops, of those that may put in more, if it is cheaper than a sink.
fn cheapest_end(slots: &[Slot], margins: &[Margin], hops: &[Hop], sink: usize) -> Option<Ends>
    requires sink { sink < length slots.now }
    requires zones { (k : ℕ) → k < length hops.now → (hop_at hops.now k).zone < length margins.now }
    requires there { (z i : ℕ) → z < length margins.now → cheapest_at margins.now z ≡ Some i → i < length slots.now }
    ensures { IfSome result (AreEnds slots.now margins.now hops.now sink) }
{
    let mut best = None;
    let mut below = slots[sink].price;
    for (at, hop) in hops.iter().enumerate() {
        if let Some(source) = margins[hop.zone as usize].cheapest {
            if slots[source].price < below {
                below = slots[source].price;
                best = Some(Ends { sink, source, at });
            }
        }
    }
    best
}

/// Whether no slot of the zones of these hops that may put in more is cheaper than this price. No clause says so.
fn none_cheaper(slots: &[Slot], margins: &[Margin], hops: &[Hop], price: i64) -> bool
    requires zones { (k : ℕ) → k < length hops.now → (hop_at hops.now k).zone < length margins.now }
    requires there { (z i : ℕ) → z < length margins.now → cheapest_at margins.now z ≡ Some i → i < length slots.now }
{
    for hop in hops {
        if let Some(source) = margins[hop.zone as usize].cheapest {
            if slots[source].price < price {
                return false;
            }
        }
    }
    true
}

/// The ends of a chain within the first hop's zone, if its source is cheaper than a sink, and none of another hop's
/// zone is cheaper still.
fn own_ends(slots: &[Slot], margins: &[Margin], hops: &[Hop], sink: usize) -> Option<Ends>
    requires sink { sink < length slots.now }
    requires some { 0 < length hops.now }
    requires zones { (k : ℕ) → k < length hops.now → (hop_at hops.now k).zone < length margins.now }
    requires there { (z i : ℕ) → z < length margins.now → cheapest_at margins.now z ≡ Some i → i < length slots.now }
    ensures ends { IfSome result (AreEnds slots.now margins.now hops.now sink) }
    ensures at { IfSome result (λ e. e.at ≡ 0) }
{
    let source = margins[hops[0].zone as usize].cheapest?;
    let price = slots[source].price;
    if price < slots[sink].price && none_cheaper(slots, margins, hops, price) {
        Some(Ends {
            sink,
            source,
            at: 0,
        })
    } else {
        None
    }
}

/// The ends of another improving chain along the same hops, whose sink has this price or lies in its source's zone.
fn next_ends(
    network: &Network,
    flows: &[i64],
    margins: &[Margin],
    hops: &[Hop],
    price: i64,
) -> Option<Ends>
    // Flows that may be, and hops along which they can be changed.
    requires network { IsNetwork network.now }
    requires lengths { length flows.now ≡ length network.now.borders.now }
    requires within { AllZip IsWithinLimits network.now.borders.now flows.now }
    requires hops { AreHops (length margins.now) network.now.borders.now hops.now }

    // The margins name slots that there are.
    requires dearest { (z i : ℕ) → z < length margins.now → dearest_at margins.now z ≡ Some i → i < length network.now.slots.now }
    requires cheapest { (z i : ℕ) → z < length margins.now → cheapest_at margins.now z ≡ Some i → i < length network.now.slots.now }

    // Ends by which the hops improve, if the margins are right.
    ensures ends { IfSome result (λ e. AreEnds network.now.slots.now margins.now hops.now e.sink e) }
    ensures sink { IfSome result (λ e. dearest_at margins.now (hop_at hops.now 0).zone ≡ Some e.sink) }
    ensures room { IfSome result (λ e. HasRoom network.now.borders.now flows.now hops.now (pos 1) e.at) }
{
    let sink = margins[hops[0].zone as usize].dearest?;
    // To a sink of another price energy goes on from its own zone alone.
    if network.slots[sink].price != price {
        return own_ends(network.slots, margins, hops, sink);
    }
    let ends = cheapest_end(network.slots, margins, hops, sink)?;
    if has_room(network.borders, flows, hops, ends.at) {
        Some(ends)
    } else {
        None
    }
}

/// Puts other ends to a chain of the same hops, where there are any that improve and by which it is to go on.
fn go_on(
    network: &Network,
    amounts: &[i64],
    flows: &[i64],
    margins: &[Margin],
    chain: &mut Chain,
    price: i64,
) -> bool
    requires network { IsNetwork network.now }
    requires runs { Runs network.now amounts.now flows.now }
    requires margins { AreMargins network.now.slots.now amounts.now (length network.now.meeting.now) (length network.now.slots.now) margins.now }
    requires hops { AreHops (length network.now.meeting.now) network.now.borders.now chain.old.hops.items }
    ensures hops { chain.new.hops ≡ chain.old.hops }
    ensures improving { result ≡ true → IsImproving network.now amounts.now flows.now chain.new }
{
    // What the ends are is said by the margins, which are those of these amounts.
    let _amounts = amounts;
    match next_ends(network, flows, margins, &chain.hops, price) {
        None => false,
        Some(ends) => {
            chain.sink = ends.sink;
            chain.source = ends.source;
            chain.at = ends.at;
            true
        }
    }
}

/// Moves energy along a chain, and brings up to date what the amounts are worth together, in quarter-cents, and the
/// margins of the zones of its ends.
fn push_along(
    network: &Network,
    amounts: &mut [i64],
    flows: &mut [i64],
    worth: &mut i128,
    margins: &mut Margins,
    chain: &Chain,
)
    // What the caller knows of what runs and what it is worth, and of the chain.
    requires network { IsNetwork network.now }
    requires runs { Runs network.now amounts.old flows.old }
    requires worth { worth.old ≡ sum_along slot_gain network.now.slots.now amounts.old }
    requires margins { AreMarginsOf network.now amounts.old margins.old }
    requires chain { IsImproving network.now amounts.old flows.old chain.now }

    // The same of what runs then, and that it is better.
    ensures runs { Runs network.now amounts.new flows.new }
    ensures worth { worth.new ≡ sum_along slot_gain network.now.slots.now amounts.new }
    ensures margins { AreMarginsOf network.now amounts.new margins.new }
    ensures rises { sum_along slot_gain network.now.slots.now amounts.old <ℤ sum_along slot_gain network.now.slots.now amounts.new }
    ensures along { IsMovedAlong network.now.slots.now network.now.borders.now chain.now.hops.items amounts.old flows.old amounts.new flows.new }
{
    *worth += improve(network, amounts, flows, chain);
    let Chain { sink, source, .. } = chain;
    let to = network.slots[*sink].zone as usize;
    let from = network.slots[*source].zone as usize;
    renew(network, amounts, margins, to, *sink, *source);
    if from != to {
        renew(network, amounts, margins, from, *sink, *source);
    }
}

/// Improves along a chain, and then along others of the same hops while there are any, to sinks of the same price or
/// within the sink's zone.
pub fn drain(
    network: &Network,
    amounts: &mut [i64],
    flows: &mut [i64],
    worth: &mut i128,
    margins: &mut Margins,
    chain: &mut Chain,
)
    // What the caller knows of what runs and what it is worth, and of the first chain.
    requires network { IsNetwork network.now }
    requires runs { Runs network.now amounts.old flows.old }
    requires worth { worth.old ≡ sum_along slot_gain network.now.slots.now amounts.old }
    requires margins { AreMarginsOf network.now amounts.old margins.old }
    requires chain { IsImproving network.now amounts.old flows.old chain.old }

    // The same of what runs then, and that it is better.
    ensures runs { Runs network.now amounts.new flows.new }
    ensures worth { worth.new ≡ sum_along slot_gain network.now.slots.now amounts.new }
    ensures margins { AreMarginsOf network.now amounts.new margins.new }
    ensures rises { sum_along slot_gain network.now.slots.now amounts.old <ℤ sum_along slot_gain network.now.slots.now amounts.new }

    // The hops are those of before, and energy moved along them alone.
    ensures hops { chain.new.hops ≡ chain.old.hops }
    ensures along { IsMovedAlong network.now.slots.now network.now.borders.now chain.old.hops.items amounts.old flows.old amounts.new flows.new }
{
    let price = network.slots[chain.sink].price;
    push_along(network, amounts, flows, worth, margins, chain);
    while go_on(network, amounts, flows, &margins.all, chain, price) {
        push_along(network, amounts, flows, worth, margins, chain);
    }
}
