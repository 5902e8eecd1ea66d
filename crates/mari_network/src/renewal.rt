//! The marginal slots of zones, found on their ladders and among all their slots, and brought up to date after energy
//! moved.

ghost use Rattle.std.specs.Prelude.{◌≡◌, ◌≢◌, ℕ, ℤ, ◌<◌, List, length, slice_index_or, Some, IfOk};
ghost use Rattle.mari_network.specs.Network.{IsNetwork};
ghost use Rattle.mari_network.specs.Margins.{no_margin, dearest_at, cheapest_at, IsDearestIn, IsCheapestIn, IsDearestBut, IsCheapestBut, IsMarginIn, IsMoved, AreMargins, AreMarginsOf};

use crate::ladders::{cheapest_from, cheapest_with_stand_in, dearest_to, dearest_with_stand_in};
use crate::margins::{Margin, Margins, cheaper_in_order, dearer_in_order};
use crate::network::Network;
use crate::slots::BEYOND;
use std::alloc::{AllocError, Global};

/// The marginal slots of a zone's ladder.
fn margin_on_ladder(network: &Network, amounts: &[i64], zone: usize) -> Margin
    requires network { IsNetwork network.now }
    requires amounts { length amounts.now ≡ length network.now.slots.now }
    requires zone { zone < length network.now.meeting.now }
    ensures { IsMarginIn network.now.slots.now amounts.now zone network.now.on_ladders result }
{
    Margin {
        dearest: dearest_to(network, amounts, zone, BEYOND),
        cheapest: cheapest_from(network, amounts, zone, -BEYOND),
    }
}

/// The marginal slots of a zone, of which those of its ladder are these.
fn margin_with_stand_in(
    network: &Network,
    amounts: &[i64],
    on_ladder: Margin,
    zone: usize,
) -> Margin
    requires network { IsNetwork network.now }
    requires amounts { length amounts.now ≡ length network.now.slots.now }
    requires zone { zone < length network.now.meeting.now }
    requires dearest { (i : ℕ) → on_ladder.dearest ≡ Some i → i < length network.now.slots.now }
    requires cheapest { (i : ℕ) → on_ladder.cheapest ≡ Some i → i < length network.now.slots.now }
    ensures { IsMarginIn network.now.slots.now amounts.now zone network.now.on_ladders on_ladder
        → IsMarginIn network.now.slots.now amounts.now zone (length network.now.slots.now) result }
{
    Margin {
        dearest: dearest_with_stand_in(network, amounts, on_ladder.dearest, zone),
        cheapest: cheapest_with_stand_in(network, amounts, on_ladder.cheapest, zone),
    }
}

/// The dearest slot of a zone's ladder that may put in less, but for the source, after energy moved from it to a sink.
/// Where the sink was the dearest and may put in no less, no dearer one may, so only those that cost no more are looked
/// at.
fn dearest_left(
    network: &Network,
    amounts: &[i64],
    before: Option<usize>,
    zone: usize,
    sink: usize,
) -> Option<usize>
    requires network { IsNetwork network.now }
    requires amounts { length amounts.now ≡ length network.now.slots.now }
    requires zone { zone < length network.now.meeting.now }
    requires sink { sink < length network.now.slots.now }
    requires before { (i : ℕ) → before ≡ Some i → i < length network.now.slots.now }
    ensures there { (i : ℕ) → result ≡ Some i → i < length network.now.slots.now }
    ensures left { (old : List ℤ) (source : ℕ) → IsMoved network.now.slots.now old amounts.now sink source
        → IsDearestIn network.now.slots.now old zone network.now.on_ladders before
        → IsDearestBut network.now.slots.now amounts.now zone network.now.on_ladders source result }
{
    let slots = network.slots;
    match before {
        Some(first) if first == sink && amounts[sink] <= slots[sink].low => {
            dearest_to(network, amounts, zone, slots[sink].price)
        }
        _ => before,
    }
}

/// The cheapest slot of a zone's ladder that may put in more, but for the sink, after energy moved to it from a source.
/// Where the source was the cheapest and may put in no more, no cheaper one may, so only those that cost no less are
/// looked at.
fn cheapest_left(
    network: &Network,
    amounts: &[i64],
    before: Option<usize>,
    zone: usize,
    source: usize,
) -> Option<usize>
    requires network { IsNetwork network.now }
    requires amounts { length amounts.now ≡ length network.now.slots.now }
    requires zone { zone < length network.now.meeting.now }
    requires source { source < length network.now.slots.now }
    requires before { (i : ℕ) → before ≡ Some i → i < length network.now.slots.now }
    ensures there { (i : ℕ) → result ≡ Some i → i < length network.now.slots.now }
    ensures left { (old : List ℤ) (sink : ℕ) → IsMoved network.now.slots.now old amounts.now sink source
        → IsCheapestIn network.now.slots.now old zone network.now.on_ladders before
        → IsCheapestBut network.now.slots.now amounts.now zone network.now.on_ladders sink result }
{
    let slots = network.slots;
    match before {
        Some(first) if first == source && amounts[source] >= slots[source].high => {
            cheapest_from(network, amounts, zone, slots[source].price)
        }
        _ => before,
    }
}

/// The dearest slot of a zone's ladder that may put in less, after energy moved from a source to a sink.
fn dearest_after(
    network: &Network,
    amounts: &[i64],
    before: Option<usize>,
    zone: usize,
    sink: usize,
    source: usize,
) -> Option<usize>
    requires network { IsNetwork network.now }
    requires amounts { length amounts.now ≡ length network.now.slots.now }
    requires zone { zone < length network.now.meeting.now }
    requires sink { sink < length network.now.slots.now }
    requires source { source < length network.now.slots.now }
    requires before { (i : ℕ) → before ≡ Some i → i < length network.now.slots.now }
    ensures there { (i : ℕ) → result ≡ Some i → i < length network.now.slots.now }
    ensures right { (old : List ℤ) → IsMoved network.now.slots.now old amounts.now sink source
        → IsDearestIn network.now.slots.now old zone network.now.on_ladders before
        → IsDearestIn network.now.slots.now amounts.now zone network.now.on_ladders result }
{
    let left = dearest_left(network, amounts, before, zone, sink);
    if source < network.on_ladders && network.slots[source].zone as usize == zone {
        return dearer_in_order(network.slots, left, source);
    }
    left
}

/// The cheapest slot of a zone's ladder that may put in more, after energy moved from a source to a sink.
fn cheapest_after(
    network: &Network,
    amounts: &[i64],
    before: Option<usize>,
    zone: usize,
    sink: usize,
    source: usize,
) -> Option<usize>
    requires network { IsNetwork network.now }
    requires amounts { length amounts.now ≡ length network.now.slots.now }
    requires zone { zone < length network.now.meeting.now }
    requires sink { sink < length network.now.slots.now }
    requires source { source < length network.now.slots.now }
    requires before { (i : ℕ) → before ≡ Some i → i < length network.now.slots.now }
    ensures there { (i : ℕ) → result ≡ Some i → i < length network.now.slots.now }
    ensures right { (old : List ℤ) → IsMoved network.now.slots.now old amounts.now sink source
        → IsCheapestIn network.now.slots.now old zone network.now.on_ladders before
        → IsCheapestIn network.now.slots.now amounts.now zone network.now.on_ladders result }
{
    let left = cheapest_left(network, amounts, before, zone, source);
    if sink < network.on_ladders && network.slots[sink].zone as usize == zone {
        return cheaper_in_order(network.slots, left, sink);
    }
    left
}

/// Brings the marginal slots of a zone up to date, after energy moved from a source to a sink.
pub fn renew(
    network: &Network,
    amounts: &[i64],
    margins: &mut Margins,
    zone: usize,
    sink: usize,
    source: usize,
)
    // What the caller knows of what runs.
    requires network { IsNetwork network.now }
    requires amounts { length amounts.now ≡ length network.now.slots.now }
    requires sink { sink < length network.now.slots.now }
    requires source { source < length network.now.slots.now }

    // One of the zones, each of which has entries that name slots.
    requires zone { zone < length network.now.meeting.now }
    requires long { (length margins.old.on_ladders.items ≡ length network.now.meeting.now) × (length margins.old.all.items ≡ length network.now.meeting.now) }
    requires dearest { (i : ℕ) → dearest_at margins.old.on_ladders.items zone ≡ Some i → i < length network.now.slots.now }
    requires cheapest { (i : ℕ) → cheapest_at margins.old.on_ladders.items zone ≡ Some i → i < length network.now.slots.now }

    // The entries of this zone are right, where that of its ladder was right before.
    ensures long { (length margins.new.on_ladders.items ≡ length margins.old.on_ladders.items) × (length margins.new.all.items ≡ length margins.old.all.items) }
    ensures here { (old : List ℤ) → IsMoved network.now.slots.now old amounts.now sink source
        → IsMarginIn network.now.slots.now old zone network.now.on_ladders (slice_index_or margins.old.on_ladders.items zone no_margin)
        → IsMarginIn network.now.slots.now amounts.now zone network.now.on_ladders (slice_index_or margins.new.on_ladders.items zone no_margin)
        × IsMarginIn network.now.slots.now amounts.now zone (length network.now.slots.now) (slice_index_or margins.new.all.items zone no_margin) }
    ensures others { (z : ℕ) → z ≢ zone → (slice_index_or margins.new.on_ladders.items z no_margin ≡ slice_index_or margins.old.on_ladders.items z no_margin)
        × (slice_index_or margins.new.all.items z no_margin ≡ slice_index_or margins.old.all.items z no_margin) }
{
    let before = margins.on_ladders[zone];
    let after = Margin {
        dearest: dearest_after(network, amounts, before.dearest, zone, sink, source),
        cheapest: cheapest_after(network, amounts, before.cheapest, zone, sink, source),
    };
    margins.on_ladders[zone] = after;
    margins.all[zone] = margin_with_stand_in(network, amounts, after, zone);
}

/// The marginal slots of each zone's ladder.
pub fn margins_on_ladders(
    alloc: Global,
    network: &Network,
    amounts: &[i64],
) -> Result<Vec<Margin>, AllocError>
    requires network { IsNetwork network.now }
    requires amounts { length amounts.now ≡ length network.now.slots.now }
    ensures { IfOk result (λ v. AreMargins network.now.slots.now amounts.now (length network.now.meeting.now) network.now.on_ladders v.items) }
{
    let mut margins = Vec::with_capacity(alloc, network.meeting.len())?;
    for zone in 0..network.meeting.len() {
        margins.push(margin_on_ladder(network, amounts, zone))?;
    }
    Ok(margins)
}

/// The marginal slots of each zone, of which those of ladders are these.
pub fn with_stand_ins(
    alloc: Global,
    network: &Network,
    amounts: &[i64],
    on_ladders: Vec<Margin>,
) -> Result<Margins, AllocError>
    requires network { IsNetwork network.now }
    requires amounts { length amounts.now ≡ length network.now.slots.now }
    requires margins { AreMargins network.now.slots.now amounts.now (length network.now.meeting.now) network.now.on_ladders on_ladders.items }
    ensures { IfOk result (AreMarginsOf network.now amounts.now) }
{
    let mut all = Vec::with_capacity(alloc, on_ladders.len())?;
    for (zone, on_ladder) in on_ladders.iter().enumerate() {
        all.push(margin_with_stand_in(network, amounts, *on_ladder, zone))?;
    }
    Ok(Margins { on_ladders, all })
}

/// The marginal slots of each zone.
pub fn margins_of(alloc: Global, network: &Network, amounts: &[i64]) -> Result<Margins, AllocError>
    requires network { IsNetwork network.now }
    requires amounts { length amounts.now ≡ length network.now.slots.now }
    ensures { IfOk result (AreMarginsOf network.now amounts.now) }
{
    let on_ladders = margins_on_ladders(alloc, network, amounts)?;
    with_stand_ins(alloc, network, amounts, on_ladders)
}
