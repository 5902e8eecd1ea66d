//! The bounds of orders and borders, as what is put into a zone: negative where it is taken.

ghost use Rattle.mari_market.specs.Market.{IsValid, IsValidBorder};
ghost use Rattle.std.specs.List.{All};
ghost use Rattle.std.specs.Prelude.{◌<◌};

use crate::words::has;
use mari_market::{Border, Market, Order, Prefix, Side};
use mari_reach::State;
use mari_units::MOST_ZONES;
use std::alloc::{AllocError, Global};

/// The least and the greatest that each order puts into its zone, and that flows over each border, in MW.
#[derive(Drop)]
pub(crate) struct Spans {
    /// The least of each order.
    pub(crate) low: Vec<i64>,
    /// The greatest of each order.
    pub(crate) high: Vec<i64>,
    /// The least flow over each border.
    pub(crate) back: Vec<i64>,
    /// The greatest flow over each border.
    pub(crate) limit: Vec<i64>,
}

/// The bounds of an order where exactly the gates of a word are open, whatever prices are.
fn span_by_word(word: &Prefix, order: &Order) -> (u32, u32) {
    match order.gate {
        None => (0, order.greatest),
        Some(gate) if has(word, gate) => (order.least, order.greatest),
        Some(_) => (0, 0),
    }
}

impl Spans {
    /// No bounds, with room for those of a market.
    fn none(alloc: Global, market: &Market) -> Result<Spans, AllocError> {
        let orders = market.orders.as_slice().len();
        let borders = market.borders.as_slice().len();
        Ok(Spans {
            low: Vec::with_capacity(alloc, orders)?,
            high: Vec::with_capacity(alloc, orders)?,
            back: Vec::with_capacity(alloc, borders)?,
            limit: Vec::with_capacity(alloc, borders)?,
        })
    }

    /// Adds the least and the greatest quantity of an order.
    fn add_order(&mut self, order: &Order, span: (u32, u32)) -> Result<(), AllocError> {
        let (least, greatest) = (i64::from(span.0), i64::from(span.1));
        let (low, high) = match order.side {
            Side::Inject => (least, greatest),
            Side::Withdraw => (-greatest, -least),
        };
        self.low.push(low)?;
        self.high.push(high)?;
        Ok(())
    }

    /// Adds the most that flows over a border, and the most that flows back.
    fn add_border(&mut self, flows: (i64, i64)) -> Result<(), AllocError> {
        self.back.push(0i64.saturating_sub(flows.1))?;
        self.limit.push(flows.0)?;
        Ok(())
    }

    /// Adds the bounds of orders in a state.
    fn add_orders_in(&mut self, state: &State, orders: &[Order]) -> Result<(), AllocError>
        requires { All (λ o. o.zone < MOST_ZONES) orders.now }
    {
        for order in orders {
            self.add_order(order, state.span(order))?;
        }
        Ok(())
    }

    /// Adds the bounds of borders in a state.
    fn add_borders_in(&mut self, state: &State, borders: &[Border]) -> Result<(), AllocError>
        requires { All (IsValidBorder MOST_ZONES) borders.now }
    {
        for border in borders {
            self.add_border(state.flows(border))?;
        }
        Ok(())
    }

    /// The bounds of a state.
    pub(crate) fn of(alloc: Global, market: &Market, state: &State) -> Result<Spans, AllocError>
        requires { IsValid market.now }
    {
        let mut spans = Spans::none(alloc, market)?;
        spans.add_orders_in(state, market.orders.as_slice())?;
        spans.add_borders_in(state, market.borders.as_slice())?;
        Ok(spans)
    }

    /// The bounds of a word, whatever prices are.
    pub(crate) fn of_word(
        alloc: Global,
        market: &Market,
        word: &Prefix,
    ) -> Result<Spans, AllocError> {
        let mut spans = Spans::none(alloc, market)?;
        for order in market.orders.as_slice() {
            spans.add_order(order, span_by_word(word, order))?;
        }
        for border in market.borders.as_slice() {
            spans.add_border((i64::from(border.limit), i64::from(border.back)))?;
        }
        Ok(spans)
    }
}
