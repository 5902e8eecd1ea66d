//! Which bids are available in a run.

ghost use Rattle.std.specs.Prelude.{false, ◌≡◌, ◌≤◌, ◌<◌, ◌+◌, ◌-◌, ◌==◌, ◌&&◌, ◌||◌, ◌++◌, ◌∷◌, [], if◌then◌else◌, IfOk, OnOk, None, Some, filter, get_or, is_some, length, map, nat_lt, not, slice_get, true};
ghost use Rattle.std.specs.Option.{option_map_or};
ghost use Rattle.std.specs.List.{list_all, list_any, range_with_len};
ghost use Rattle.mari_bids.specs.Bids.{bid_numbered};
ghost use Rattle.mari_links.specs.Links.{has_gate};
ghost use Rattle.mari_remain.specs.Accepted.{IsAccepted};
ghost use Rattle.mari_remain.specs.Available.{Taken, has_free_group as has_free_group_in, is_available, is_for as is_for_in, is_left as is_left_in, may_run as may_run_in, share_group as share_group_in};
ghost use Rattle.mari_remain.specs.Choice.{is_alone as is_alone_in, is_let_in, keeps_links_in, rivals_in};
ghost use Rattle.mari_remain.specs.FirstBlocks.{activated_in, direct_in, taken_in};
ghost use Rattle.mari_remain.specs.Lists.{bids_of_quarter, group_at, parent_at};
ghost use Rattle.mari_remain.specs.RunMarket.{bid_order as bid_order_of, gate_of};

use crate::books::Books;
use crate::market::bid_order;
use crate::remaining::Remaining;
use mari_bids::Bid;
use mari_demands::Run;
use mari_links::{BidLinks, LinkBook};
use mari_market::Order;
use mari_units::{MOST_GATES, Memory};
use std::alloc::Global;

/// The available bids of a run.
#[derive(Drop)]
pub(crate) struct Choice {
    /// The numbers of the available bids, from 0.
    pub numbers: Vec<u32>,
    /// The numbers of the gated ones among them.
    pub gated: Vec<u32>,
    /// The orders of the available bids, in the same order.
    pub orders: Vec<Order>,
}

impl Choice {
    /// No bids yet, with room for so many bids and for `more` orders after theirs.
    fn with_room(alloc: Global, bids: usize, more: usize) -> Result<Choice, Memory>
        ensures numbers { IfOk result (λ choice. choice.numbers.items ≡ []) }
        ensures gated { IfOk result (λ choice. choice.gated.items ≡ []) }
        ensures orders { IfOk result (λ choice. choice.orders.items ≡ []) }
    {
        Ok(Choice {
            numbers: Vec::with_capacity(alloc, bids)?,
            gated: Vec::new(alloc),
            orders: Vec::with_capacity(alloc, bids.saturating_add(more))?,
        })
    }

    /// Adds a bid with its order.
    fn add_order(&mut self, number: u32, order: Order) -> Result<(), Memory>
        ensures numbers { OnOk result (self.new.numbers.items ≡ self.old.numbers.items ++ number ∷ []) }
        ensures gated { self.new.gated.items ≡ self.old.gated.items }
        ensures orders { OnOk result (self.new.orders.items ≡ self.old.orders.items ++ order ∷ []) }
    {
        self.numbers.push(number)?;
        self.orders.push(order)?;
        Ok(())
    }

    /// Adds a gated bid, whose gate comes after those of the gated bids before it. Few bids are gated, so that this is
    /// no part of the loop over all.
    #[inline(never)]
    fn add_gated(&mut self, number: u32, bid: &Bid, taken: u32) -> Result<(), Memory>
        requires few { length self.old.gated.items ≤ MOST_GATES }
        ensures numbers { OnOk result (self.new.numbers.items ≡ self.old.numbers.items ++ number ∷ []) }
        ensures gated { OnOk result (self.new.gated.items ≡ self.old.gated.items ++ number ∷ []) }
        ensures orders { OnOk result (self.new.orders.items ≡ self.old.orders.items ++ bid_order_of bid.now (Some (length self.old.gated.items)) taken ∷ []) }
    {
        let gate = self.gated.len() as u32;
        self.gated.push(number)?;
        self.add_order(number, bid_order(*bid, Some(gate), taken))
    }

    /// Adds the next bid, of which `taken` MW were taken, with its order.
    fn add(&mut self, books: &Books, number: u32, taken: u32) -> Result<(), Memory>
        requires accepted { IsAccepted books.now }
        requires there { number < length books.now.bids.bids }
        requires few { length self.old.gated.items ≤ MOST_GATES }
        ensures numbers { OnOk result (self.new.numbers.items ≡ self.old.numbers.items ++ number ∷ []) }
        ensures gated { OnOk result
            (self.new.gated.items ≡ (if has_gate books.now.links number then self.old.gated.items ++ number ∷ [] else self.old.gated.items)) }
        ensures orders { OnOk result (self.new.orders.items ≡ self.old.orders.items
            ++ bid_order_of (bid_numbered books.now.bids.bids number)
            (if has_gate books.now.links number then Some (length self.old.gated.items) else None) taken ∷ []) }
    {
        let bid = &books.bids.bids.as_slice()[number as usize];
        let gated = books.links.links.as_slice()[number as usize].gated;
        if gated {
            self.add_gated(number, bid, taken)
        } else {
            self.add_order(number, bid_order(*bid, None, taken))
        }
    }
}

/// The group of a bid, if it is in one.
pub fn group_of(links: &[BidLinks], number: u32) -> Option<u32>
    ensures { result ≡ group_at links.now number }
{
    match links.get(number as usize) {
        Some(links) => links.group,
        None => None,
    }
}

/// The parent of a bid, if it has one.
pub fn parent_of(links: &[BidLinks], number: u32) -> Option<u32>
    ensures { result ≡ parent_at links.now number }
{
    match links.get(number as usize) {
        Some(links) => links.parent,
        None => None,
    }
}

/// Whether a bid has a gate.
pub fn is_gated(links: &LinkBook, number: u32) -> bool
    ensures { result ≡ has_gate links.now number }
{
    match links.links.as_slice().get(number as usize) {
        Some(links) => links.gated,
        None => false,
    }
}

/// Whether two bids are in one group.
fn share_group(links: &[BidLinks], number: u32, other: u32) -> bool
    ensures { result ≡ share_group_in links.now number other }
{
    match (group_of(links, number), group_of(links, other)) {
        (Some(group), Some(other)) => other == group,
        _ => false,
    }
}

/// Whether something is left of a bid of which `taken` MW were taken in its quarter.
fn is_left(bid: &Bid, gated: bool, taken: u32) -> bool
    ensures { result ≡ (if gated then not (nat_lt 0 taken) else nat_lt 0 (bid.now.greatest - taken)) }
{
    if gated {
        taken == 0
    } else {
        taken < bid.greatest
    }
}

/// Whether all of these bids were activated.
fn are_activated(remaining: &Remaining, bids: &[u32]) -> bool
    ensures { result ≡ list_all (λ i. activated_in remaining.now i) bids.now }
{
    bids.iter().all(|bid| remaining.is_activated(*bid))
}

/// Whether one of these bids was activated.
fn is_one_activated(remaining: &Remaining, bids: &[u32]) -> bool
    ensures { result ≡ list_any (λ i. activated_in remaining.now i) bids.now }
{
    bids.iter().any(|bid| remaining.is_activated(*bid))
}

/// Whether a direct run activated one of these bids.
fn is_one_by_direct_run(remaining: &Remaining, bids: &[u32]) -> bool
    ensures { result ≡ list_any (λ i. direct_in remaining.now i) bids.now }
{
    bids.iter().any(|bid| remaining.by_direct_run(*bid))
}

/// Whether the bids that this one names were activated, or not, as they have to be.
fn keeps_links(remaining: &Remaining, links: &BidLinks) -> bool
    ensures { result ≡ keeps_links_in remaining.now links.now }
{
    are_activated(remaining, links.needs.as_slice())
        && !is_one_activated(remaining, links.bars.as_slice())
        && !is_one_by_direct_run(remaining, links.technical.as_slice())
}

/// The bids of a quarter that were activated and are in a group.
fn rivals_of(
    alloc: Global,
    books: &Books,
    remaining: &Remaining,
    numbers: &[u32],
) -> Result<Vec<u32>, Memory>
    ensures { IfOk result (λ rivals. rivals.items ≡ filter (rivals_in books.now remaining.now) numbers.now) }
{
    let mut rivals = Vec::new(alloc);
    for number in numbers {
        if remaining.is_activated(*number)
            && group_of(books.links.links.as_slice(), *number).is_some()
        {
            rivals.push(*number)?;
        }
    }
    Ok(rivals)
}

/// Whether another bid is in the group of this one.
fn is_rival(links: &[BidLinks], number: u32, other: u32) -> bool
    ensures { result ≡ (not (other == number) && share_group_in links.now number other) }
{
    other != number && share_group(links, number, other)
}

/// Whether another one of these bids is in the group of this one.
fn has_rival(links: &[BidLinks], rivals: &[u32], number: u32) -> bool
    ensures { result ≡ list_any (λ j. not (j == number) && share_group_in links.now number j) rivals.now }
{
    rivals.iter().any(|other| is_rival(links, number, *other))
}

/// Whether a bid is for this kind of run.
fn is_for(bid: &Bid, run: Run) -> bool
    ensures { result ≡ is_for_in run bid.now }
{
    bid.both || !run.direct
}

/// Whether no other bid of its group was activated. A bid in no group has no rivals.
fn has_free_group(
    books: &Books,
    remaining: &Remaining,
    quarter: u32,
    rivals: &[u32],
    number: u32,
    group: Option<u32>,
) -> bool
    requires accepted { IsAccepted books.now }
    requires rivals { rivals.now ≡ filter (rivals_in books.now remaining.now) (bids_of_quarter books.now.bids.bids quarter) }
    requires group { group ≡ group_at books.now.links.links number }
    ensures { result ≡ has_free_group_in books.now.links.links (taken_in books.now remaining.now quarter) number }
{
    let rival = group.is_some() && has_rival(books.links.links.as_slice(), rivals, number);
    !rival
}

/// Whether a bid is among these.
fn is_among(numbers: &[u32], number: u32) -> bool
    ensures { result ≡ list_any (λ j. j == number) numbers.now }
{
    numbers.iter().any(|other| *other == number)
}

/// Whether a bid is in no group and names no other bid, so that no other bid can keep it from a run.
fn is_alone(links: &BidLinks) -> bool
    ensures { result ≡ is_alone_in links.now }
{
    links.group.is_none()
        && links.parent.is_none()
        && links.needs.as_slice().is_empty()
        && links.bars.as_slice().is_empty()
        && links.technical.as_slice().is_empty()
}

/// Whether a parent, if a bid has one, was activated or is among the available gated bids before it.
fn parent_allows(remaining: &Remaining, gated: &[u32], parent: Option<u32>) -> bool
    ensures { result ≡ option_map_or (λ p. activated_in remaining.now p || list_any (λ j. j == p) gated.now) parent true }
{
    match parent {
        None => true,
        Some(parent) => remaining.is_activated(parent) || is_among(gated, parent),
    }
}

/// Whether the other bids of its group, those that it names and its parent let a bid run. It is asked of few bids, so
/// that this is no part of the loop over all.
#[inline(never)]
fn linked_allow(
    books: &Books,
    remaining: &Remaining,
    quarter: u32,
    rivals: &[u32],
    choice: &Choice,
    number: u32,
) -> bool
    requires accepted { IsAccepted books.now }
    requires there { number < length books.now.bids.bids }
    requires rivals { rivals.now ≡ filter (rivals_in books.now remaining.now) (bids_of_quarter books.now.bids.bids quarter) }
    ensures { result ≡ is_let_in books.now remaining.now (taken_in books.now remaining.now quarter) choice.now.gated.items number }
{
    let links = &books.links.links.as_slice()[number as usize];
    let free = has_free_group(books, remaining, quarter, rivals, number, links.group);
    free && keeps_links(remaining, links) && parent_allows(remaining, &choice.gated, links.parent)
}

/// Whether no other bid keeps a bid from a run.
fn others_allow(
    books: &Books,
    remaining: &Remaining,
    quarter: u32,
    rivals: &[u32],
    choice: &Choice,
    number: u32,
) -> bool
    requires accepted { IsAccepted books.now }
    requires there { number < length books.now.bids.bids }
    requires rivals { rivals.now ≡ filter (rivals_in books.now remaining.now) (bids_of_quarter books.now.bids.bids quarter) }
    ensures { result ≡ is_let_in books.now remaining.now (taken_in books.now remaining.now quarter) choice.now.gated.items number }
{
    let alone = is_alone(&books.links.links.as_slice()[number as usize]);
    if alone {
        true
    } else {
        linked_allow(books, remaining, quarter, rivals, choice, number)
    }
}

/// Whether a bid of which `taken` MW were taken is for this kind of run, and something is left of it.
fn is_offered(books: &Books, run: Run, number: u32, taken: u32) -> bool
    requires accepted { IsAccepted books.now }
    requires there { number < length books.now.bids.bids }
    ensures { (t : Taken) → t.mw number ≡ taken → result ≡ (is_for_in run (bid_numbered books.now.bids.bids number) && is_left_in books.now t number) }
{
    let bid = &books.bids.bids.as_slice()[number as usize];
    if !is_for(bid, run) {
        return false;
    }
    let links = &books.links.links.as_slice()[number as usize];
    is_left(bid, links.gated, taken)
}

/// Whether a bid of which `taken` MW were taken is available, after the available gated bids before it.
fn is_next(
    books: &Books,
    remaining: &Remaining,
    run: Run,
    rivals: &[u32],
    choice: &Choice,
    number: u32,
    taken: u32,
) -> bool
    requires accepted { IsAccepted books.now }
    requires there { number < length books.now.bids.bids }
    requires taken { taken ≡ get_or remaining.now.mw number 0 }
    requires quarter { (bid_numbered books.now.bids.bids number).quarter ≡ run.quarter }
    requires rivals { rivals.now ≡ filter (rivals_in books.now remaining.now) (bids_of_quarter books.now.bids.bids run.quarter) }
    ensures { result ≡ (may_run_in books.now (taken_in books.now remaining.now run.quarter) run number
        && option_map_or (λ p. activated_in remaining.now p || list_any (λ j. j == p) choice.now.gated.items) (parent_at books.now.links.links number) true) }
{
    let offered = is_offered(books, run, number, taken);
    if !offered {
        return false;
    }
    others_allow(books, remaining, run.quarter, rivals, choice, number)
}

/// The available bids of a run with their orders, and room for `more` orders after them. A parent stands before its
/// children, so it is chosen before they are.
#[inline(never)]
pub(crate) fn choose(
    alloc: Global,
    books: &Books,
    remaining: &Remaining,
    run: Run,
    more: usize,
) -> Result<Choice, Memory>
    requires accepted { IsAccepted books.now }
    requires quarter { run.quarter ≤ books.now.quarters }
    requires index { remaining.now.of_quarter ≡ map (bids_of_quarter books.now.bids.bids) (range_with_len 0 (books.now.quarters + 1)) }
    requires mws { length remaining.now.mw ≡ length books.now.bids.bids }
    ensures numbers { IfOk result (λ choice. choice.numbers.items ≡ filter (is_available books.now (taken_in books.now remaining.now run.quarter) run)
        (bids_of_quarter books.now.bids.bids run.quarter)) }
    ensures gated { IfOk result (λ choice. choice.gated.items ≡ filter (has_gate books.now.links) choice.numbers.items) }
    ensures orders { IfOk result (λ choice. choice.orders.items ≡ map (λ i. bid_order_of (bid_numbered books.now.bids.bids i) (gate_of choice.gated.items i)
        ((taken_in books.now remaining.now run.quarter).mw i)) choice.numbers.items) }
{
    let all = remaining.bids_of(run.quarter);
    let rivals = rivals_of(alloc, books, remaining, all)?;
    let mut choice = Choice::with_room(alloc, all.len(), more)?;
    for number in all {
        let taken = remaining.mw_at(*number);
        if is_next(books, remaining, run, &rivals, &choice, *number, taken) {
            choice.add(books, *number, taken)?;
        }
    }
    Ok(choice)
}
