//! What a solver works on: slots, and borders between zones.

ghost use Rattle.std.specs.Prelude.{◌≡◌, ◌≢◌, ◌<◌, ◌≤◌, ◌^◌, ◌++◌, ◌∷◌, [], ℕ, length, map, take, IfOk, OnOk, slice_index_or};
ghost use Rattle.std.specs.List.{All, AllZip};
ghost use Rattle.std.specs.List.Sorted.{IsPermutation};
ghost use Rattle.mari_market.specs.Market.{IsValid, IsBetween};
ghost use Rattle.mari_network.specs.Fits.{IsNetworkSlot};
ghost use Rattle.mari_network.specs.Network.{crossing_of, tail_of, AreInOrder, AreMeeting, ArePlaces, AreRungs, IsLadder, IsNetwork, IsRising};
ghost use Rattle.mari_network.specs.Orders.{CanPut};
ghost use Rattle.mari_network.specs.Slots.{IsSmallSlot};
ghost use Rattle.mari_network.specs.Solving.{IsNetworkOf};
ghost use Rattle.mari_network.specs.Words.{rung_in};
ghost use Rattle.mari_network.specs.declared.network.TheConstants.{WORD_PLACES};

use crate::slots::{BEYOND, Slot};
use mari_market::{Border, Market};
use std::alloc::{AllocError, Global};

/// A slot on a ladder.
#[derive(Clone, Copy, Drop)]
pub struct Rung {
    /// The slot's price, in cents per MWh.
    pub price: i64,
    /// The slot's place.
    pub place: usize,
}

/// A crossing of a border into a zone.
#[derive(Clone, Copy, Drop)]
pub struct Crossing {
    /// The zone from which it leads.
    pub from: u32,
    /// The place of the border.
    pub border: usize,
    /// Whether it leads from the border's `from` to its `to`.
    pub forth: bool,
}

/// Slots and borders between zones, lent, with the places of both by zone.
#[derive(Drop)]
pub struct Network<'a> {
    /// The slots of all zones.
    pub slots: &'a [Slot],
    /// The market's borders.
    pub borders: &'a [Border],
    /// For each zone its slots on the ladder, the cheapest first.
    pub ladders: &'a [Vec<Rung>],
    /// How many slots stand on ladders. After them stands one for each zone, in order of the zones, or none.
    pub on_ladders: usize,
    /// For each zone the crossings into it.
    pub meeting: &'a [Vec<Crossing>],
}

/// For each zone the places of its slots and borders, which a network lends.
#[derive(Drop)]
pub struct Places {
    /// For each zone its slots on the ladder, the cheapest first.
    pub ladders: Vec<Vec<Rung>>,
    /// How many slots stand on ladders: the first.
    pub on_ladders: usize,
    /// For each zone the crossings into it.
    pub meeting: Vec<Vec<Crossing>>,
}

/// An empty list for each zone, with room for `room` items.
fn empty_lists<T: Drop>(alloc: Global, zones: usize, room: usize) -> Result<Vec<Vec<T>>, AllocError>
    ensures long { IfOk result (λ v. length v.items ≡ zones) }
    ensures none { IfOk result (λ v. (z : ℕ) (d : _) → z < zones → (slice_index_or v.items z d).items ≡ []) }
{
    let mut lists = Vec::with_capacity(alloc, zones)?;
    for _ in 0..zones {
        let list = Vec::with_capacity(alloc, room)?;
        lists.push(list)?;
    }
    Ok(lists)
}

/// Adds an item to the list of a zone.
fn add_to<T: Drop>(lists: &mut Vec<Vec<T>>, zone: usize, item: T) -> Result<(), AllocError>
    requires zone { zone < length lists.old.items }
    ensures long { length lists.new.items ≡ length lists.old.items }
    ensures here { OnOk result ((d e : _) → (slice_index_or lists.new.items zone d).items ≡ (slice_index_or lists.old.items zone e).items ++ item ∷ []) }
    ensures others { (z : ℕ) (d : _) → z ≢ zone → slice_index_or lists.new.items z d ≡ slice_index_or lists.old.items z d }
{
    lists[zone].push(item)?;
    Ok(())
}

/// Where energy leaves for the border.
fn tail(border: &Border, forth: bool) -> u32
    ensures { result ≡ tail_of forth border.now }
{
    if forth { border.from } else { border.to }
}

/// The crossing of a border.
fn crossing_over(borders: &[Border], border: usize, forth: bool) -> Crossing
    requires { border < length borders.now }
    ensures { result ≡ crossing_of borders.now border forth }
{
    Crossing {
        from: tail(&borders[border], forth),
        border,
        forth,
    }
}

/// For each zone the crossings into it.
fn meeting_borders(
    alloc: Global,
    borders: &[Border],
    zones: usize,
) -> Result<Vec<Vec<Crossing>>, AllocError>
    requires ends { All (IsBetween zones) borders.now }
    ensures long { IfOk result (λ v. length v.items ≡ zones) }
    ensures meeting { IfOk result (λ v. (z : ℕ) (d : _) → z < zones → AreMeeting borders.now z (slice_index_or v.items z d).items) }
{
    let mut meeting = empty_lists(alloc, zones, 8)?;
    for (i, border) in borders.iter().enumerate() {
        add_to(
            &mut meeting,
            border.from as usize,
            crossing_over(borders, i, false),
        )?;
        add_to(
            &mut meeting,
            border.to as usize,
            crossing_over(borders, i, true),
        )?;
    }
    Ok(meeting)
}

/// How many places a word tells apart.
const WORD_PLACES: u64 = 1 << 32;

/// The rung of a slot, as one word. Words are in the order of prices, and at one price in that of places.
fn word_of(slot: Slot, place: usize) -> u64
    requires slot { IsSmallSlot slot }
    requires place { place < WORD_PLACES }
    ensures { rung_in result ≡ record { price = slot.price; place = place } }
{
    (slot.price + BEYOND) as u64 * WORD_PLACES + place as u64
}

/// The rung of a word.
fn rung_of_word(word: u64) -> Rung
    ensures { result ≡ rung_in word }
{
    Rung {
        price: (word / WORD_PLACES) as i64 - BEYOND,
        place: (word % WORD_PLACES) as usize,
    }
}

/// For each zone the words of those of the first slots that are of it.
fn words_by_zone(
    alloc: Global,
    slots: &[Slot],
    zones: usize,
    on_ladders: usize,
) -> Result<Vec<Vec<u64>>, AllocError>
    requires slots { All (IsNetworkSlot zones) slots.now }
    requires some { 0 < zones }
    requires few { on_ladders ≤ length slots.now }
    requires places { on_ladders ≤ WORD_PLACES }
    ensures long { IfOk result (λ v. length v.items ≡ zones) }
    ensures rungs { IfOk result (λ v. (z : ℕ) (d : _) → z < zones → AreRungs slots.now on_ladders z (map rung_in (slice_index_or v.items z d).items)) }
{
    let even = on_ladders / zones;
    let mut words = empty_lists(alloc, zones, even + even / 2)?;
    for place in 0..on_ladders {
        let slot = slots[place];
        add_to(&mut words, slot.zone as usize, word_of(slot, place))?;
    }
    Ok(words)
}

/// The rungs of words.
fn rungs_of(alloc: Global, words: &[u64]) -> Result<Vec<Rung>, AllocError>
    ensures { IfOk result (λ v. v.items ≡ map rung_in words.now) }
{
    words.iter().map(|word| rung_of_word(*word)).collect(alloc)
}

/// The ladder of rungs given as words, which it sorts: the cheapest first, and of two that cost the same the one that
/// stands first among the slots; of that no clause speaks.
fn ladder_of(alloc: Global, words: &mut Vec<u64>) -> Result<Vec<Rung>, AllocError>
    ensures words { IsPermutation words.old.items words.new.items }
    ensures same { IfOk result (λ v. IsPermutation (map rung_in words.old.items) v.items) }
    ensures rising { IfOk result (λ v. IsRising v.items) }
{
    words.sort_unstable();
    rungs_of(alloc, words)
}

/// For each zone its ladder: the rungs of those of the first slots that are of it, the cheapest first.
fn ladders_of(
    alloc: Global,
    slots: &[Slot],
    zones: usize,
    on_ladders: usize,
) -> Result<Vec<Vec<Rung>>, AllocError>
    requires slots { All (IsNetworkSlot zones) slots.now }
    requires some { 0 < zones }
    requires few { on_ladders ≤ length slots.now }
    requires places { on_ladders ≤ WORD_PLACES }
    ensures long { IfOk result (λ v. length v.items ≡ zones) }
    ensures ladders { IfOk result (λ v. (z : ℕ) (d : _) → z < zones → IsLadder slots.now on_ladders z (slice_index_or v.items z d).items) }
{
    let mut words = words_by_zone(alloc, slots, zones, on_ladders)?;
    let mut ladders = Vec::with_capacity(alloc, zones)?;
    for zone in 0..zones {
        ladders.push(ladder_of(alloc, &mut words[zone])?)?;
    }
    Ok(ladders)
}

/// The places by zone of these slots and of a market's borders. The first slots stand on ladders; after them one may
/// stand for each zone, whose price may change. Places rest on how many zones there are, on the zones of the slots and
/// of the borders, and on the prices of the slots on ladders.
pub fn places_of(
    alloc: Global,
    market: &Market,
    slots: &[Slot],
    on_ladders: usize,
) -> Result<Places, AllocError>
    requires market { IsValid market.now }
    requires slots { All (IsNetworkSlot market.now.zones) slots.now }
    requires few { on_ladders ≤ length slots.now }
    requires places { on_ladders ≤ 2 ^ 32 }
    requires stand_ins { AreInOrder on_ladders slots.now }
    ensures places { IfOk result (ArePlaces market.now.zones slots.now market.now.borders) }
    ensures on_ladders { IfOk result (λ p. p.on_ladders ≡ on_ladders) }
{
    let borders = market.borders.as_slice();
    let ladders = ladders_of(alloc, slots, market.zones as usize, on_ladders)?;
    let meeting = meeting_borders(alloc, borders, market.zones as usize)?;
    Ok(Places {
        ladders,
        on_ladders,
        meeting,
    })
}

/// The network of a market's borders and of these slots, of which the first are those of its orders, with the places
/// of both.
pub fn network_of<'a>(market: &'a Market, slots: &'a [Slot], places: &'a Places) -> Network<'a>
    requires market { IsValid market.now }
    requires slots { All (IsNetworkSlot market.now.zones) slots.now }
    requires sides { AllZip (λ o s. CanPut o.side s.low × CanPut o.side s.high) market.now.orders (take (length market.now.orders) slots.now) }
    requires places { ArePlaces market.now.zones slots.now market.now.borders places.now }
    ensures network { IsNetwork result }
    ensures same { IsNetworkOf market.now result }
    ensures slots { result.slots.now ≡ slots.now }
    ensures on_ladders { result.on_ladders ≡ places.now.on_ladders }
{
    let borders = market.borders.as_slice();
    let ladders = places.ladders.as_slice();
    let meeting = places.meeting.as_slice();
    Network {
        slots,
        borders,
        ladders,
        on_ladders: places.on_ladders,
        meeting,
    }
}

/// A zone's ladder.
pub fn ladder_at<'a>(network: &'a Network, zone: usize) -> &'a [Rung]
    requires network { IsNetwork network.now }
    requires zone { zone < length network.now.meeting.now }
    ensures { IsLadder network.now.slots.now network.now.on_ladders zone result.now }
{
    network.ladders[zone].as_slice()
}

/// The crossings into a zone.
pub fn meeting_at<'a>(network: &'a Network, zone: u32) -> &'a [Crossing]
    requires network { IsNetwork network.now }
    requires zone { zone < length network.now.meeting.now }
    ensures { AreMeeting network.now.borders.now zone result.now }
{
    network.meeting[zone as usize].as_slice()
}
