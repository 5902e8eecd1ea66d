//! The search for an improving chain, and for prices where there is none.

ghost use Rattle.std.specs.Prelude.{◌≡◌, ℕ, ℤ, pos, ◌<ℤ◌, ◌+◌, ◌<◌, ◌≤◌, true, false, not, Bool, List, length, count_by, OnOk, IfOk, IfSome, MatchOption, Some};
ghost use Rattle.std.specs.List.{All, AllZip};
ghost use Rattle.mari_market.specs.Activation.{IsWithinLimits};
ghost use Rattle.mari_market.specs.Sums.{int_at};
ghost use Rattle.mari_network.specs.Network.{border_at, IsCrossing, IsNetwork, Runs};
ghost use Rattle.mari_market.specs.declared.market.Border.{Border as TheBorder};
ghost use Rattle.mari_market.specs.Market.{IsBetween};
ghost use Rattle.mari_network.specs.Chain.{hop_at, room_of, IsImproving};
ghost use Rattle.mari_network.specs.Spread.{is_marked, IsSpread, AreClosed, MarkedInto, Keeps};
ghost use Rattle.mari_network.specs.Margins.{dearest_at, AreMargins, IsDearestOf};
ghost use Rattle.mari_network.specs.Slots.{IsSmallSlot};
ghost use Rattle.mari_network.specs.Levels.{AreLevels};
ghost use Rattle.mari_network.specs.Searching.{AreTightPrices, AreUnmarked, HasLevels, HasZones, IsFresh, IsOfNone};

use crate::chain::{Chain, Hop, room_over};
use crate::margins::{Margin, cheapest, dearest};
use crate::network::{Crossing, Network, meeting_at};
use crate::slots::{BEYOND, Slot};
use mari_market::Border;
use std::alloc::{AllocError, Global};
use std::mem;

/// What searches work on, kept from one to the next.
#[derive(Drop)]
pub struct ChainSearch {
    /// Whether each zone is marked.
    pub marked: Vec<bool>,
    /// How many zones aren't marked.
    pub left: usize,
    /// The price of each zone, in cents per MWh. Where a search finds no chain they are tight.
    pub prices: Vec<i64>,
    /// Where hops are listed. A chain takes the list along, and may be asked for it back.
    pub hops: Vec<Hop>,
}

/// What searches of a network with this number of zones work on.
pub fn search_of(alloc: Global, zones: usize) -> Result<ChainSearch, AllocError>
    ensures zones { IfOk result (HasZones zones) }
    ensures fresh { IfOk result IsFresh }
{
    let marked = vec![in alloc; false; zones]?;
    let prices = vec![in alloc; 0i64; zones]?;
    let hops = Vec::with_capacity(alloc, zones)?;
    Ok(ChainSearch {
        marked,
        left: zones,
        prices,
        hops,
    })
}

/// Marks the zone that a crossing leads from and adds a hop, where energy can come over it and the zone is not marked.
fn reach_over(
    borders: &[Border],
    flows: &[i64],
    marked: &mut [bool],
    hops: &mut Vec<Hop>,
    crossing: Crossing,
    before: usize,
) -> Result<(), AllocError>
    // A crossing into the zone of a hop that was found.
    requires before { before < length hops.old.items }
    requires crossing { IsCrossing borders.now (hop_at hops.old.items before).zone crossing }

    // Flows that may be, between zones that can be marked.
    requires flows { length flows.now ≡ length borders.now }
    requires limits { AllZip IsWithinLimits borders.now flows.now }
    requires ends { All (IsBetween (length marked.old)) borders.now }

    // The hops are still a spread, from wherever it began.
    ensures spread { OnOk result ((old : List Bool) (start : ℕ) → IsSpread borders.now flows.now old start marked.old hops.old.items
        → IsSpread borders.now flows.now old start marked.new hops.new.items) }

    // Nothing is taken back.
    ensures keeps { Keeps marked.old marked.new }
    ensures stay { (k : ℕ) → k < length hops.old.items → hop_at hops.new.items k ≡ hop_at hops.old.items k }
    ensures more { length hops.old.items ≤ length hops.new.items }

    // Over this crossing nothing comes from a zone that isn't marked.
    ensures into { OnOk result (pos 0 <ℤ room_of crossing.forth (border_at borders.now crossing.border) (int_at flows.now crossing.border)
        → is_marked marked.new crossing.from ≡ true) }
{
    if marked[crossing.from as usize] {
        return Ok(());
    }
    let border = crossing.border;
    if room_over(&borders[border], flows[border], crossing.forth) <= 0 {
        return Ok(());
    }
    marked[crossing.from as usize] = true;
    hops.push(Hop {
        zone: crossing.from,
        border,
        forth: crossing.forth,
        before,
    })?;
    Ok(())
}

/// Marks the zones from which energy can come over one border to that of a hop.
fn look(
    network: &Network,
    flows: &[i64],
    marked: &mut [bool],
    hops: &mut Vec<Hop>,
    at: usize,
) -> Result<(), AllocError>
    // One of the hops that were found.
    requires network { IsNetwork network.now }
    requires marks { length marked.old ≡ length network.now.meeting.now }
    requires at { at < length hops.old.items }
    requires zone { (hop_at hops.old.items at).zone < length network.now.meeting.now }

    // Flows that may be.
    requires flows { length flows.now ≡ length network.now.borders.now }
    requires limits { AllZip IsWithinLimits network.now.borders.now flows.now }

    // The hops are still a spread, from wherever it began.
    ensures spread { OnOk result ((old : List Bool) (start : ℕ) → IsSpread network.now.borders.now flows.now old start marked.old hops.old.items
        → IsSpread network.now.borders.now flows.now old start marked.new hops.new.items) }

    // Nothing is taken back.
    ensures keeps { Keeps marked.old marked.new }
    ensures stay { (k : ℕ) → k < length hops.old.items → hop_at hops.new.items k ≡ hop_at hops.old.items k }
    ensures more { length hops.old.items ≤ length hops.new.items }

    // By no border anything comes to its zone from one that isn't marked.
    ensures into { OnOk result (AllZip (MarkedInto marked.new (hop_at hops.old.items at).zone) network.now.borders.now flows.now) }
{
    let crossings = meeting_at(network, hops[at].zone);
    for crossing in crossings {
        reach_over(network.borders, flows, marked, hops, *crossing, at)?;
    }
    Ok(())
}

/// Marks the zones from which energy can come to one, and lists the hops by which it does. Of the zones so many are not
/// marked yet.
fn spread(
    network: &Network,
    flows: &[i64],
    marked: &mut [bool],
    hops: &mut Vec<Hop>,
    start: u32,
    left: usize,
) -> Result<(), AllocError>
    // A zone to begin from.
    requires network { IsNetwork network.now }
    requires marks { length marked.old ≡ length network.now.meeting.now }
    requires start { start < length marked.old }
    requires fresh { is_marked marked.old start ≡ false }
    requires left { left ≡ count_by not marked.old }

    // Flows that may be, and marks that earlier levels left.
    requires flows { length flows.now ≡ length network.now.borders.now }
    requires limits { AllZip IsWithinLimits network.now.borders.now flows.now }
    requires closed { AreClosed network.now.borders.now flows.now marked.old }

    // The hops, and marks as a next level needs them.
    ensures spread { OnOk result (IsSpread network.now.borders.now flows.now marked.old start marked.new hops.new.items) }
    ensures closed { OnOk result (AreClosed network.now.borders.now flows.now marked.new) }
{
    hops.clear();
    marked[start as usize] = true;
    hops.push(Hop {
        zone: start,
        border: 0,
        forth: false,
        before: 0,
    })?;
    let mut at = 0;
    while at < hops.len() && hops.len() < left {
        look(network, flows, marked, hops, at)?;
        at += 1;
    }
    Ok(())
}

/// Gives the zones of hops this price.
fn level(prices: &mut [i64], hops: &[Hop], price: i64)
    requires zones { (k : ℕ) → k < length hops.now → (hop_at hops.now k).zone < length prices.old }
    ensures here { (k : ℕ) → k < length hops.now → int_at prices.new (hop_at hops.now k).zone ≡ price }
    ensures others { (z : ℕ) → ((k : ℕ) → k < length hops.now → (hop_at hops.now k).zone ≡ z → ⊥) → int_at prices.new z ≡ int_at prices.old z }
{
    for hop in hops {
        prices[hop.zone as usize] = price;
    }
}

/// Gives each zone that is not marked this price.
fn level_rest(prices: &mut [i64], marked: &[bool], price: i64)
    requires { length prices.old ≡ length marked.now }
    ensures keep { (z : ℕ) → is_marked marked.now z ≡ true → int_at prices.new z ≡ int_at prices.old z }
    ensures level { (z : ℕ) → is_marked marked.now z ≡ false → z < length marked.now → int_at prices.new z ≡ price }
{
    for z in 0..marked.len() {
        if !marked[z] {
            prices[z] = price;
        }
    }
}

/// Takes all marks back.
fn unmark(marked: &mut [bool])
    ensures { (z : ℕ) → is_marked marked.new z ≡ false }
{
    for mark in marked.iter_mut() {
        *mark = false;
    }
}

/// Takes all marks of a search back.
fn begin_anew(search: &mut ChainSearch)
    ensures zones { (zones : ℕ) → HasZones zones search.old → HasZones zones search.new }
    ensures fresh { IsFresh search.new }
{
    unmark(&mut search.marked);
    search.left = search.marked.len();
}

/// Takes the marks of the zones of hops back.
fn unmark_hops(marked: &mut [bool], hops: &[Hop])
    requires zones { (k : ℕ) → k < length hops.now → (hop_at hops.now k).zone < length marked.old }
    ensures here { AreUnmarked marked.new hops.now }
    ensures others { (z : ℕ) → IsOfNone hops.now z → is_marked marked.new z ≡ is_marked marked.old z }
{
    for hop in hops {
        marked[hop.zone as usize] = false;
    }
}

/// Takes the marks of a level back, before which so many zones were left.
fn take_back(marked: &mut [bool], hops: &[Hop], left: usize)
    requires zones { (k : ℕ) → k < length hops.now → (hop_at hops.now k).zone < length marked.old }
    ensures { (bs : List TheBorder) (fs : List ℤ) (old : List Bool) (start : ℕ)
        → IsSpread bs fs old start marked.old hops.now → left ≡ count_by not old → old ≡ marked.new }
{
    if left == marked.len() {
        unmark(marked);
    } else {
        unmark_hops(marked, hops);
    }
}

/// The dearest slot of a zone that is not marked, of those that may put in less, where so many zones are left.
fn next_sink(slots: &[Slot], margins: &[Margin], marked: &[bool], left: usize) -> Option<usize>
    requires small { All IsSmallSlot slots.now }
    requires marks { length marked.now ≡ length margins.now }
    requires there { (z i : ℕ) → z < length margins.now → dearest_at margins.now z ≡ Some i → i < length slots.now }
    requires left { left ≡ count_by not marked.now }
    ensures there { IfSome result (λ i. i < length slots.now) }
    ensures dearest { IsDearestOf slots.now margins.now marked.now (length margins.now) result }
{
    if left == 0 {
        return None;
    }
    dearest(slots, margins, marked)
}

/// An improving chain, or none, with prices that show it; from the levels that an earlier search was left with.
///
/// The zones are marked in levels, the dearest slot that may put in less first: that slot's zone, and all zones from
/// which energy can still be moved to it, have its price, and a cheaper slot of one of them that may put in more makes
/// a chain. That level is then taken back. Zones that are left at the end have the least price of all.
fn chain_by_levels(
    network: &Network,
    amounts: &[i64],
    flows: &[i64],
    margins: &[Margin],
    marked: &mut [bool],
    left: &mut usize,
    prices: &mut [i64],
    mut hops: Vec<Hop>,
) -> Result<Option<Chain>, AllocError>
    // A network, what its slots and borders run at, and how far each slot may still go.
    requires network { IsNetwork network.now }
    requires margins { AreMargins network.now.slots.now amounts.now (length network.now.meeting.now) (length network.now.slots.now) margins.now }
    requires runs { Runs network.now amounts.now flows.now }

    // A place for each zone, and the levels of those that are marked.
    requires marks { length marked.old ≡ length network.now.meeting.now }
    requires prices { length prices.old ≡ length network.now.meeting.now }
    requires levels { AreLevels network.now.slots.now network.now.borders.now amounts.now flows.now marked.old (int_at prices.old) }
    requires left { left.old ≡ count_by not marked.old }

    // Prices that show that nothing improves, or a chain that does.
    ensures found { IfOk result
        (λ r. MatchOption r (AreTightPrices network.now amounts.now flows.now prices.new) (IsImproving network.now amounts.now flows.now)) }

    // With a chain the levels before its own, of which none has a zone of its hops.
    ensures levels { IfOk result
        (λ r. IfSome r (λ _. AreLevels network.now.slots.now network.now.borders.now amounts.now flows.now marked.new (int_at prices.new))) }
    ensures left { IfOk result (λ r. IfSome r (λ _. left.new ≡ count_by not marked.new)) }
    ensures unmarked { IfOk result (λ r. IfSome r (λ chain. AreUnmarked marked.new chain.hops.items)) }
{
    let slots = network.slots;
    while let Some(sink) = next_sink(slots, margins, marked, *left) {
        let slot = slots[sink];
        spread(network, flows, marked, &mut hops, slot.zone, *left)?;
        if let Some(source) = cheapest(slots, margins, &hops, slot.price) {
            take_back(marked, &hops, *left);
            return Ok(Some(Chain {
                sink,
                source: source.slot,
                at: source.at,
                hops,
            }));
        }
        level(prices, &hops, slot.price);
        *left -= hops.len();
    }
    level_rest(prices, marked, -BEYOND);
    Ok(None)
}

/// An improving chain, or none, where the prices that the search is left with are tight; from the levels that an
/// earlier search was left with.
///
/// The levels before that of a chain stay as they are where energy moved along its hops alone. So it finds what
/// `find_chain` does; no clause says so.
pub fn next_chain(
    alloc: Global,
    network: &Network,
    amounts: &[i64],
    flows: &[i64],
    margins: &[Margin],
    search: &mut ChainSearch,
) -> Result<Option<Chain>, AllocError>
    requires network { IsNetwork network.now }
    requires margins { AreMargins network.now.slots.now amounts.now (length network.now.meeting.now) (length network.now.slots.now) margins.now }
    requires runs { Runs network.now amounts.now flows.now }
    requires levels { HasLevels network.now amounts.now flows.now search.old }
    ensures found { IfOk result
        (λ r. MatchOption r (AreTightPrices network.now amounts.now flows.now search.new.prices.items) (IsImproving network.now amounts.now flows.now)) }
    ensures zones { HasZones (length network.now.meeting.now) search.new }
    ensures levels { IfOk result (λ r. IfSome r (λ _. HasLevels network.now amounts.now flows.now search.new)) }
    ensures unmarked { IfOk result (λ r. IfSome r (λ chain. AreUnmarked search.new.marked.items chain.hops.items)) }
{
    let hops = mem::replace(&mut search.hops, Vec::new(alloc));
    chain_by_levels(
        network,
        amounts,
        flows,
        margins,
        &mut search.marked,
        &mut search.left,
        &mut search.prices,
        hops,
    )
}

/// An improving chain, or none, where the prices that the search is left with are tight.
pub fn find_chain(
    alloc: Global,
    network: &Network,
    amounts: &[i64],
    flows: &[i64],
    margins: &[Margin],
    search: &mut ChainSearch,
) -> Result<Option<Chain>, AllocError>
    requires network { IsNetwork network.now }
    requires margins { AreMargins network.now.slots.now amounts.now (length network.now.meeting.now) (length network.now.slots.now) margins.now }
    requires runs { Runs network.now amounts.now flows.now }
    requires search { HasZones (length network.now.meeting.now) search.old }
    ensures found { IfOk result
        (λ r. MatchOption r (AreTightPrices network.now amounts.now flows.now search.new.prices.items) (IsImproving network.now amounts.now flows.now)) }
    ensures search { HasZones (length network.now.meeting.now) search.new }
{
    begin_anew(search);
    next_chain(alloc, network, amounts, flows, margins, search)
}
