//! The relaxed optimum within bounds, from an optimum within others.
//!
//! What the start runs is moved into the bounds, and then zone by zone is balanced: what a zone lacks comes from the
//! cheapest order that can reach it, what it has too much goes to the dearest. Potentials stay tight.

use crate::around::{Around, other_end};
use crate::lists::{add, at, nearest, set};
use crate::places::Places;
use crate::rungs::{next_rung, room, signed};
use crate::spans::Spans;
use mari_market::{Cut, CutSide, Market, Order, Side};
use mari_units::MOST_ZONES;
use std::alloc::{AllocError, Global};

/// The most pushes into one zone.
const MOST_PUSHES: u32 = 20_000;

/// What runs within bounds, with potentials.
#[derive(Clone, Drop)]
pub(crate) struct Optimum {
    /// What each order puts into its zone, in MW: negative where it takes.
    pub(crate) amounts: Vec<i64>,
    /// What flows over each border, in MW.
    pub(crate) flows: Vec<i64>,
    /// The potential of each zone, in cents per MWh.
    pub(crate) potentials: Vec<i64>,
    /// The welfare, in quarter-cents.
    pub(crate) value: i64,
}

/// What is found within bounds.
#[derive(Drop)]
pub(crate) enum Solved {
    /// The optimum.
    Optimum(Optimum),
    /// Zones that nothing within the bounds balances.
    Cut(Cut),
    /// The pushes were spent.
    Stuck,
}

/// Where a push begins.
#[derive(Clone, Copy, Drop)]
struct Source {
    /// Four times what a MW costs, in cents, and the turn of an order among equal prices: 1 to 3, or 0 of a zone's rest.
    cost: i64,
    /// The price to which potentials go.
    price: i64,
    /// The zone where it begins.
    zone: u32,
    /// The order that is moved; none where the zone has a rest of its own.
    order: Option<u32>,
}

/// What the balancing of a zone comes to.
#[derive(Drop)]
enum Balance {
    /// It is in balance.
    Even,
    /// Nothing balances these zones.
    Never(Around),
    /// The pushes were spent.
    Stuck,
}

/// What runs, moved into bounds.
#[derive(Drop)]
struct Run {
    /// What runs.
    optimum: Optimum,
    /// What each zone has too much, in MW.
    over: Vec<i64>,
}

impl Run {
    /// What a start in balance runs, moved into the bounds.
    fn start(
        alloc: Global,
        market: &Market,
        spans: &Spans,
        optimum: Optimum,
    ) -> Result<Run, AllocError> {
        let over = vec![in alloc; 0i64; market.zones as usize]?;
        let mut run = Run { optimum, over };
        run.move_amounts(market, spans);
        run.move_flows(market, spans);
        Ok(run)
    }

    /// What runs at the price 0.
    fn at_zero(alloc: Global, market: &Market) -> Result<Run, AllocError> {
        let mut over = vec![in alloc; 0i64; market.zones as usize]?;
        let mut amounts = Vec::new(alloc);
        for order in market.orders.as_slice() {
            let amount = put_at_zero(order);
            amounts.push(amount)?;
            add(&mut over, order.zone as usize, amount);
        }
        let optimum = Optimum {
            amounts,
            flows: vec![in alloc; 0i64; market.borders.as_slice().len()]?,
            potentials: vec![in alloc; 0i64; market.zones as usize]?,
            value: 0,
        };
        Ok(Run { optimum, over })
    }

    /// Moves what orders put in into the bounds.
    fn move_amounts(&mut self, market: &Market, spans: &Spans) {
        let orders = market.orders.as_slice();
        for place in 0..orders.len() {
            let (low, high) = (at(&spans.low, place), at(&spans.high, place));
            let amount = at(&self.optimum.amounts, place);
            if amount < low || amount > high {
                let moved = nearest(amount, low, high);
                set(&mut self.optimum.amounts, place, moved);
                let more = moved.saturating_sub(amount);
                add(&mut self.over, orders[place].zone as usize, more);
            }
        }
    }

    /// Moves flows into the bounds.
    fn move_flows(&mut self, market: &Market, spans: &Spans) {
        let borders = market.borders.as_slice();
        for place in 0..borders.len() {
            let (back, limit) = (at(&spans.back, place), at(&spans.limit, place));
            let flow = at(&self.optimum.flows, place);
            if flow < back || flow > limit {
                let moved = nearest(flow, back, limit);
                set(&mut self.optimum.flows, place, moved);
                let more = moved.saturating_sub(flow);
                add(
                    &mut self.over,
                    borders[place].from as usize,
                    0i64.saturating_sub(more),
                );
                add(&mut self.over, borders[place].to as usize, more);
            }
        }
    }

    /// How much more, or less, may flow over a border.
    fn flow_room(&self, spans: &Spans, border: usize, rises: bool) -> i64 {
        let flow = at(&self.optimum.flows, border);
        if rises {
            at(&spans.limit, border).saturating_sub(flow)
        } else {
            flow.saturating_sub(at(&spans.back, border))
        }
    }

    /// The zones that can send to a zone, or that it can send to.
    fn around(
        &self,
        market: &Market,
        places: &Places,
        spans: &Spans,
        zone: u32,
        raise: bool,
    ) -> Around {
        let borders = market.borders.as_slice();
        let mut around = Around::start(zone);
        for place in 0..MOST_ZONES {
            let Some(here) = around.zone(place) else {
                break;
            };
            for number in places.borders(here) {
                if let Some(border) = borders.get(*number as usize) {
                    let rises = (border.from == here) != raise;
                    if self.flow_room(spans, *number as usize, rises) > 0 {
                        around.add(other_end(border, here), *number);
                    }
                }
            }
        }
        around
    }

    /// Where a push from or to this zone may begin.
    fn source_at(&self, places: &Places, spans: &Spans, zone: u32, raise: bool) -> Option<Source> {
        let over = at(&self.over, zone as usize);
        let potential = at(&self.optimum.potentials, zone as usize);
        if over != 0 && (over < 0) != raise {
            let cost = signed(potential, raise).saturating_mul(4);
            return Some(Source {
                cost,
                price: potential,
                zone,
                order: None,
            });
        }
        let rung = next_rung(
            places.ladder(zone),
            spans,
            &self.optimum.amounts,
            potential,
            raise,
        )?;
        let cost = signed(rung.price, raise)
            .saturating_mul(4)
            .saturating_add(rung.turn.place(raise))
            .saturating_add(1);
        Some(Source {
            cost,
            price: rung.price,
            zone,
            order: Some(rung.order),
        })
    }

    /// Where the best push begins.
    fn source(
        &self,
        places: &Places,
        spans: &Spans,
        around: &Around,
        raise: bool,
    ) -> Option<Source> {
        let mut best: Option<Source> = None;
        for place in 0..MOST_ZONES {
            let Some(zone) = around.zone(place) else {
                break;
            };
            if let Some(source) = self.source_at(places, spans, zone, raise) {
                let is_better = match best {
                    Some(held) => source.cost < held.cost,
                    None => true,
                };
                if is_better {
                    best = Some(source);
                }
            }
        }
        best
    }

    /// Raises or lowers the potentials of zones to a price.
    fn move_potentials(&mut self, around: &Around, price: i64, raise: bool) {
        for place in 0..MOST_ZONES {
            let Some(zone) = around.zone(place) else {
                break;
            };
            let zone = zone as usize;
            let potential = at(&self.optimum.potentials, zone);
            let moved = if raise {
                potential.max(price)
            } else {
                potential.min(price)
            };
            set(&mut self.optimum.potentials, zone, moved);
        }
    }

    /// Walks on the way from a zone to another, and adds an amount to each flow there. The answer is the least room on the
    /// way before.
    fn walk(
        &mut self,
        market: &Market,
        spans: &Spans,
        around: &Around,
        from: u32,
        to: u32,
        raise: bool,
        amount: i64,
    ) -> i64 {
        let borders = market.borders.as_slice();
        let mut here = from;
        let mut least = i64::MAX;
        for _ in 0..MOST_ZONES {
            if here == to {
                break;
            }
            let number = around.border_from(here);
            if let Some(border) = borders.get(number) {
                let rises = (border.from == here) == raise;
                least = least.min(self.flow_room(spans, number, rises));
                add(&mut self.optimum.flows, number, signed(amount, rises));
                here = other_end(border, here);
            }
        }
        least
    }

    /// Pushes as much as goes from a source. It says whether anything went.
    fn push(
        &mut self,
        market: &Market,
        spans: &Spans,
        around: &Around,
        source: Source,
        zone: u32,
        raise: bool,
    ) -> bool {
        let wanted = at(&self.over, zone as usize).saturating_abs();
        let there = match source.order {
            Some(order) => room(spans, &self.optimum.amounts, order, raise),
            None => at(&self.over, source.zone as usize).saturating_abs(),
        };
        let way = self.walk(market, spans, around, source.zone, zone, raise, 0);
        let amount = wanted.min(there).min(way);
        if amount <= 0 {
            return false;
        }
        self.walk(market, spans, around, source.zone, zone, raise, amount);
        let put = signed(amount, raise);
        match source.order {
            Some(order) => add(&mut self.optimum.amounts, order as usize, put),
            None => add(
                &mut self.over,
                source.zone as usize,
                0i64.saturating_sub(put),
            ),
        }
        add(&mut self.over, zone as usize, put);
        true
    }

    /// Balances a zone.
    fn balance(&mut self, market: &Market, places: &Places, spans: &Spans, zone: u32) -> Balance {
        for _ in 0..MOST_PUSHES {
            let over = at(&self.over, zone as usize);
            if over == 0 {
                return Balance::Even;
            }
            let raise = over < 0;
            let around = self.around(market, places, spans, zone, raise);
            let Some(source) = self.source(places, spans, &around, raise) else {
                return Balance::Never(around);
            };
            self.move_potentials(&around, source.price, raise);
            if !self.push(market, spans, &around, source, zone, raise) {
                return Balance::Stuck;
            }
        }
        Balance::Stuck
    }
}

/// The welfare of what orders put in, in quarter-cents.
pub(crate) fn value_of(market: &Market, amounts: &[i64]) -> i64 {
    let mut value = 0i64;
    let mut place = 0usize;
    for order in market.orders.as_slice() {
        value = value.saturating_sub(order.price.0.saturating_mul(at(amounts, place)));
        place = place.saturating_add(1);
    }
    value
}

/// Balances each zone of what runs.
fn balanced(
    alloc: Global,
    market: &Market,
    places: &Places,
    spans: &Spans,
    mut run: Run,
) -> Result<Solved, AllocError> {
    for zone in 0..market.zones {
        let is_over = at(&run.over, zone as usize) > 0;
        match run.balance(market, places, spans, zone) {
            Balance::Even => {}
            Balance::Stuck => return Ok(Solved::Stuck),
            Balance::Never(around) => {
                let side = if is_over { CutSide::Out } else { CutSide::In };
                return Ok(Solved::Cut(around.cut(alloc, side)?));
            }
        }
    }
    let Run { mut optimum, over } = run;
    drop(over);
    optimum.value = value_of(market, &optimum.amounts);
    Ok(Solved::Optimum(optimum))
}

/// The relaxed optimum within bounds, from an optimum within others.
pub(crate) fn solve(
    alloc: Global,
    market: &Market,
    places: &Places,
    spans: &Spans,
    start: &Optimum,
) -> Result<Solved, AllocError> {
    let run = Run::start(alloc, market, spans, start.clone()?)?;
    balanced(alloc, market, places, spans, run)
}

/// The relaxed optimum where nothing is decided, from nothing.
pub(crate) fn solve_root(
    alloc: Global,
    market: &Market,
    places: &Places,
    spans: &Spans,
) -> Result<Solved, AllocError> {
    let mut run = Run::at_zero(alloc, market)?;
    run.move_amounts(market, spans);
    run.move_flows(market, spans);
    balanced(alloc, market, places, spans, run)
}

/// What an order puts in at the price 0.
fn put_at_zero(order: &Order) -> i64 {
    let greatest = i64::from(order.greatest);
    match order.side {
        Side::Inject if order.price.0 < 0 => greatest,
        Side::Withdraw if order.price.0 > 0 => -greatest,
        Side::Inject | Side::Withdraw => 0,
    }
}
