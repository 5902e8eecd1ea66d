//! Each line of the pages, as its definition has it.

ghost use Rattle.std.specs.Prelude.{◌≡◌, ◌++◌, ◌∷◌, [], ◌<◌, ◌≤◌, ◌+◌, ◌-◌, ◌/◌, ◌%◌, ◌-ℤ◌, pos, IfOk, OnOk, codes, if◌then◌else◌};
ghost use Rattle.std.specs.Fmt.{decimal, signed_decimal};
ghost use Rattle.mari_units.specs.Numbers.{printed_cents};
ghost use Rattle.mari_rows.specs.Printed.{line_of};
ghost use Rattle.mari_demands.specs.Runs.{scheduled_word};
ghost use Rattle.mari_scenario.specs.Draws.{after, below as below_of, draw};
ghost use Rattle.mari_scenario.specs.Pages.{bid, bid_least, bid_line, bid_price as bid_price_of, border_line, demand_line, direction, from_of, greatest as greatest_of, group, is_both, is_up, kind, link_lines, provider, run_line, to_of, zone, zone_line};

use crate::draws::{below, next};
use crate::text::{
    put_bid, put_comma, put_group, put_operator, put_price, put_provider, put_whole, put_zone,
};
use mari_units::{Cents, Memory, cents_text, put, put_number};
use std::alloc::Global;

/// Appends the line of zone number `i + 1`.
pub fn put_zone_line(alloc: Global, out: &mut Vec<u8>, i: u32, state: u32) -> Result<u32, Memory>
    requires { i < 8 }
    ensures text { OnOk result (out.new.items ≡ out.old.items ++ (zone_line i state).text) }
    ensures state { IfOk result (λ after. after ≡ (zone_line i state).state) }
{
    put_zone(alloc, out, i + 1)?;
    put_comma(out)?;
    put_operator(alloc, out, i % 4 + 1)?;
    put(out, b"\n")?;
    Ok(state)
}

/// The zone at which border number `i + 1` begins.
fn from(i: u32) -> u32
    requires { i < 10 }
    ensures { result ≡ from_of i }
{
    if i < 8 {
        i + 1
    } else if i == 8 {
        1
    } else {
        3
    }
}

/// The zone at which border number `i + 1` ends.
fn to(i: u32) -> u32
    requires { i < 10 }
    ensures { result ≡ to_of i }
{
    if i < 7 {
        i + 2
    } else if i == 7 {
        1
    } else if i == 8 {
        5
    } else {
        7
    }
}

/// Appends the zones of a border.
fn put_ends(alloc: Global, out: &mut Vec<u8>, from: u32, to: u32) -> Result<(), Memory>
    ensures { OnOk result (out.new.items ≡ out.old.items ++ zone from ++ 44 ∷ zone to ++ 44 ∷ []) }
{
    put_zone(alloc, out, from)?;
    put_comma(out)?;
    put_zone(alloc, out, to)?;
    put_comma(out)
}

/// Appends two numbers that end a line.
fn put_last_two(alloc: Global, out: &mut Vec<u8>, first: u32, second: u32) -> Result<(), Memory>
    ensures { OnOk result (out.new.items ≡ out.old.items ++ line_of (decimal first ∷ decimal second ∷ [])) }
{
    put_number(alloc, out, u128::from(first))?;
    put_comma(out)?;
    put_number(alloc, out, u128::from(second))?;
    put(out, b"\n")
}

/// Appends the line of border number `i + 1`.
pub fn put_border_line(alloc: Global, out: &mut Vec<u8>, i: u32, state: u32) -> Result<u32, Memory>
    requires { i < 10 }
    ensures text { OnOk result (out.new.items ≡ out.old.items ++ (border_line i state).text) }
    ensures state { IfOk result (λ after. after ≡ (border_line i state).state) }
{
    let limit = next(state);
    let back = next(limit);
    put_ends(alloc, out, from(i), to(i))?;
    put_last_two(alloc, out, 20 + below(80, limit), 20 + below(80, back))?;
    Ok(back)
}

/// The price of a bid, in cents, by its direction and the state after its draw.
fn bid_price(up: bool, state: u32) -> i64
    ensures { result ≡ (if up then pos (3000 + below_of 9000 state) else (pos (below_of 6000 state) -ℤ pos 1000)) }
{
    if up {
        3_000 + i64::from(below(9_000, state))
    } else {
        i64::from(below(6_000, state)) - 1_000
    }
}

/// What the draws of a bid give, and the state after them.
#[derive(Clone, Copy)]
struct DrawnBid {
    zone: u32,
    up: bool,
    cents: i64,
    greatest: u32,
    both: bool,
    state: u32,
}

/// Draws a bid.
fn drawn_bid(state: u32) -> DrawnBid
    ensures zone { result.zone ≡ 1 + draw 1 8 state }
    ensures up { result.up ≡ is_up state }
    ensures cents { result.cents ≡ bid_price_of state }
    ensures greatest { result.greatest ≡ greatest_of state }
    ensures both { result.both ≡ is_both state }
    ensures state { result.state ≡ after 5 state }
{
    let zone = next(state);
    let side = next(zone);
    let price = next(side);
    let size = next(price);
    let last = next(size);
    let up = below(4, side) < 3;
    DrawnBid {
        zone: 1 + below(8, zone),
        up,
        cents: bid_price(up, price),
        greatest: 5 + below(46, size),
        both: below(2, last) == 0,
        state: last,
    }
}

/// The least quantity of a bid at a place of its quarter, by its greatest.
fn least(place: u32, greatest: u32) -> u32
    ensures { result ≡ bid_least place greatest }
{
    if place % 5 == 0 { greatest } else { 0 }
}

/// Appends a direction.
fn put_direction(out: &mut Vec<u8>, up: bool) -> Result<(), Memory>
    ensures { OnOk result (out.new.items ≡ out.old.items ++ direction up) }
{
    if up {
        put(out, b"up")
    } else {
        put(out, b"down")
    }
}

/// Appends the kind of a bid.
fn put_kind(out: &mut Vec<u8>, both: bool) -> Result<(), Memory>
    ensures { OnOk result (out.new.items ≡ out.old.items ++ kind both) }
{
    if both {
        put(out, b"both")
    } else {
        put(out, b"scheduled")
    }
}

/// Appends the names of a bid and of its provider.
fn put_bid_names(alloc: Global, out: &mut Vec<u8>, quarter: u32, place: u32) -> Result<(), Memory>
    requires { 1 ≤ place }
    ensures { OnOk result (out.new.items ≡ out.old.items ++ bid quarter place ++ 44 ∷ provider ((place - 1) % 10 + 1) ++ 44 ∷ []) }
{
    put_bid(alloc, out, quarter, place)?;
    put_comma(out)?;
    put_provider(alloc, out, (place - 1) % 10 + 1)?;
    put_comma(out)
}

/// Appends the zone, the quarter and the direction of a bid.
fn put_bid_place(
    alloc: Global,
    out: &mut Vec<u8>,
    at: u32,
    quarter: u32,
    up: bool,
) -> Result<(), Memory>
    ensures { OnOk result (out.new.items ≡ out.old.items ++ zone at ++ 44 ∷ decimal quarter ++ 44 ∷ direction up ++ 44 ∷ []) }
{
    put_zone(alloc, out, at)?;
    put_comma(out)?;
    put_number(alloc, out, u128::from(quarter))?;
    put_comma(out)?;
    put_direction(out, up)?;
    put_comma(out)
}

/// Appends the price and the least quantity of a bid.
fn put_bid_offer(alloc: Global, out: &mut Vec<u8>, price: i64, least: u32) -> Result<(), Memory>
    ensures { OnOk result (out.new.items ≡ out.old.items ++ printed_cents price ++ 44 ∷ decimal least ++ 44 ∷ []) }
{
    put_price(alloc, out, price)?;
    put_comma(out)?;
    put_number(alloc, out, u128::from(least))?;
    put_comma(out)
}

/// Appends the greatest quantity and the kind of a bid.
fn put_bid_end(alloc: Global, out: &mut Vec<u8>, greatest: u32, both: bool) -> Result<(), Memory>
    ensures { OnOk result (out.new.items ≡ out.old.items ++ line_of (decimal greatest ∷ kind both ∷ [])) }
{
    put_number(alloc, out, u128::from(greatest))?;
    put_comma(out)?;
    put_kind(out, both)?;
    put(out, b"\n")
}

/// Appends the line of bid number `i + 1`.
pub fn put_bid_line(alloc: Global, out: &mut Vec<u8>, i: u32, state: u32) -> Result<u32, Memory>
    requires { i < 960 }
    ensures text { OnOk result (out.new.items ≡ out.old.items ++ (bid_line i state).text) }
    ensures state { IfOk result (λ after. after ≡ (bid_line i state).state) }
{
    let (quarter, place) = (i / 40 + 1, i % 40 + 1);
    let drawn = drawn_bid(state);
    put_bid_names(alloc, out, quarter, place)?;
    put_bid_place(alloc, out, drawn.zone, quarter, drawn.up)?;
    put_bid_offer(alloc, out, drawn.cents, least(place, drawn.greatest))?;
    put_bid_end(alloc, out, drawn.greatest, drawn.both)?;
    Ok(drawn.state)
}

/// Appends a line that puts a bid into a quarter's group.
fn put_member(alloc: Global, out: &mut Vec<u8>, quarter: u32, place: u32) -> Result<(), Memory>
    ensures { OnOk result (out.new.items ≡ out.old.items ++ line_of (codes "group" ∷ group quarter ∷ bid quarter place ∷ [])) }
{
    put(out, b"group,")?;
    put_group(alloc, out, quarter)?;
    put_comma(out)?;
    put_bid(alloc, out, quarter, place)?;
    put(out, b"\n")
}

/// Appends the links of quarter `i + 1`.
pub fn put_link_lines(alloc: Global, out: &mut Vec<u8>, i: u32, state: u32) -> Result<u32, Memory>
    requires { i < 24 }
    ensures text { OnOk result (out.new.items ≡ out.old.items ++ (link_lines i state).text) }
    ensures state { IfOk result (λ after. after ≡ (link_lines i state).state) }
{
    put_member(alloc, out, i + 1, 10)?;
    put_member(alloc, out, i + 1, 15)?;
    put(out, b"child,")?;
    put_bid(alloc, out, i + 1, 25)?;
    put_comma(out)?;
    put_bid(alloc, out, i + 1, 20)?;
    put(out, b"\n")?;
    Ok(state)
}

/// Appends the word of a scheduled run.
#[tactic(auto, unfolding(mari_demands::specs::Runs::scheduled_word))]
fn put_scheduled(out: &mut Vec<u8>) -> Result<(), Memory>
    ensures { OnOk result (out.new.items ≡ out.old.items ++ scheduled_word) }
{
    put(out, b"scheduled")
}

/// Appends a run's fields before its reference price.
fn put_run_front(alloc: Global, out: &mut Vec<u8>, run: u32) -> Result<(), Memory>
    ensures { OnOk result (out.new.items ≡ out.old.items ++ decimal run ++ 44 ∷ decimal run ++ 44 ∷ []) }
{
    put_number(alloc, out, u128::from(run))?;
    put_comma(out)?;
    put_number(alloc, out, u128::from(run))?;
    put_comma(out)
}

/// Appends a run's fields, its reference price as it is printed.
fn put_run(alloc: Global, out: &mut Vec<u8>, run: u32, reference: &[u8]) -> Result<(), Memory>
    ensures { OnOk result (out.new.items ≡ out.old.items ++ line_of (decimal run ∷ decimal run ∷ scheduled_word ∷ reference.now ∷ [])) }
{
    put_run_front(alloc, out, run)?;
    put_scheduled(out)?;
    put_comma(out)?;
    put(out, reference)?;
    put(out, b"\n")
}

/// Appends the line of the run of quarter `i + 1`.
pub fn put_run_line(alloc: Global, out: &mut Vec<u8>, i: u32, state: u32) -> Result<u32, Memory>
    requires { i < 24 }
    ensures text { OnOk result (out.new.items ≡ out.old.items ++ (run_line i state).text) }
    ensures state { IfOk result (λ after. after ≡ (run_line i state).state) }
{
    let after = next(state);
    let reference = Cents(4_000 + i64::from(below(4_000, after)));
    put_run(alloc, out, i + 1, &cents_text(alloc, reference)?)?;
    Ok(after)
}

/// Appends the fields of demand number `i + 1` before its price, by the state after its first draw.
fn put_demand_fields(alloc: Global, out: &mut Vec<u8>, i: u32, size: u32) -> Result<(), Memory>
    requires { i < 192 }
    ensures { OnOk result
        (out.new.items ≡ out.old.items ++ decimal (i / 8 + 1) ++ 44 ∷ zone (i % 8 + 1) ++ 44 ∷ signed_decimal (pos (below_of 61 size) -ℤ pos 20) ++ 44 ∷ []) }
{
    put_number(alloc, out, u128::from(i / 8 + 1))?;
    put_comma(out)?;
    put_zone(alloc, out, i % 8 + 1)?;
    put_comma(out)?;
    put_whole(alloc, out, i64::from(below(61, size)) - 20)?;
    put_comma(out)
}

/// Appends the line of demand number `i + 1`.
pub fn put_demand_line(alloc: Global, out: &mut Vec<u8>, i: u32, state: u32) -> Result<u32, Memory>
    requires { i < 192 }
    ensures text { OnOk result (out.new.items ≡ out.old.items ++ (demand_line i state).text) }
    ensures state { IfOk result (λ after. after ≡ (demand_line i state).state) }
{
    let size = next(state);
    let choice = next(size);
    put_demand_fields(alloc, out, i, size)?;
    if below(3, choice) == 2 {
        let price = next(choice);
        put_price(alloc, out, 5_000 + i64::from(below(10_000, price)))?;
        put(out, b"\n")?;
        Ok(price)
    } else {
        put(out, b"\n")?;
        Ok(choice)
    }
}
