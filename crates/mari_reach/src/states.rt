//! States: what decisions of gates and prices leave to other gates, to prices, to orders and to borders.

ghost use Rattle.std.specs.Prelude.{◌≡◌, ◌↔◌, ◌<◌, ◌≤◌, ℤ, pos, neg_ℤ, ◌≤ℤ◌, ◌<ℤ◌, IsTrue, List, length};
ghost use Rattle.std.specs.List.{list_any, range_with_len};
ghost use Rattle.mari_market.specs.declared.market.Market.{Market};
ghost use Rattle.mari_market.specs.Bounds.GateState.{Free};
ghost use Rattle.mari_market.specs.Market.{IsValid, IsValidBorder, IsValidOrder};
ghost use Rattle.mari_market.specs.Sums.{int_at};
ghost use Rattle.mari_reach.specs.declared.decisions.Decision.{Decision};
ghost use Rattle.mari_reach.specs.State.{bounds_in, flows_in, gate_span, plain_span, AreDecisions, IsFree, IsVoid};
ghost use Rattle.mari_reach.specs.Values.{is_void_by};
ghost use Rattle.mari_reach.specs.Tables.{IsStateOf, IsTwinsOf, SpeaksFor, falls_in, flow_in, is_priceless, is_torn, rises_in, span_in, state_in};

use crate::closing::{close_all_below, set_opened, set_shut};
use crate::decisions::Decision;
use crate::marks::Marks;
use crate::prices::PriceBox;
use crate::ranks::Twins;
use mari_market::{Border, Market, Order};
use mari_units::{Cents, MOST_FLOW, MOST_GATES, MOST_ZONES};

/// What decisions leave to gates, prices, orders and borders.
#[derive(Drop)]
pub struct State {
    /// The gates that they open.
    pub opened: Marks,
    /// The gates that they close.
    pub shut: Marks,
    /// The prices that they leave.
    pub prices: PriceBox,
}

impl State {
    /// Every gate free and every price left, whatever the market.
    pub(crate) fn whole() -> State {
        State {
            opened: Marks::none(),
            shut: Marks::none(),
            prices: PriceBox::whole(),
        }
    }

    /// Makes it what decisions leave, by orders among which are all of a gate, and by the market's twins.
    pub(crate) fn set(
        &mut self,
        market: &Market,
        orders: &[Order],
        twins: &Twins,
        decisions: &[Decision],
    )
        requires market { IsValid market.now }
        requires orders { SpeaksFor market.now orders.now }
        requires twins { IsTwinsOf market.now twins.now }
        requires decisions { AreDecisions market.now decisions.now }
        ensures { IsStateOf market.now decisions.now self.new }
    {
        set_opened(&mut self.opened, market, twins, decisions);
        self.prices.set(market, &self.opened, decisions, orders);
        set_shut(
            &mut self.shut,
            market,
            orders,
            twins,
            decisions,
            &self.opened,
            &self.prices,
        );
        close_all_below(&mut self.shut, market.gates.as_slice());
    }
}

/// What decisions of gates and zones that are there leave to gates, prices, orders and borders.
pub fn state_of(market: &Market, decisions: &[Decision]) -> State
    requires market { IsValid market.now }
    requires decisions { AreDecisions market.now decisions.now }
    ensures { IsStateOf market.now decisions.now result }
{
    let twins = Twins::of_few_states(market);
    let mut state = State::whole();
    state.set(market, market.orders.as_slice(), &twins, decisions);
    state
}

/// A plain order's least and greatest quantity, in MW.
fn plain_span(gains: bool, loses: bool, order: &Order) -> (u32, u32)
    ensures least { result.0 ≡ (plain_span gains loses order.now).lo }
    ensures greatest { result.1 ≡ (plain_span gains loses order.now).hi }
{
    if gains {
        (order.greatest, order.greatest)
    } else if loses {
        (0, 0)
    } else {
        (0, order.greatest)
    }
}

impl State {
    /// The least and the greatest quantity of an order of a gate, in MW.
    fn gate_span(&self, gate: u32, gains: bool, order: &Order) -> (u32, u32)
        ensures least { result.0 ≡ (gate_span gains (state_in self.now gate) order.now).lo }
        ensures greatest { result.1 ≡ (gate_span gains (state_in self.now gate) order.now).hi }
    {
        match (self.opened.has(gate), self.shut.has(gate)) {
            (true, _) if gains => (order.greatest, order.greatest),
            (true, _) => (order.least, order.greatest),
            (false, true) => (0, 0),
            (false, false) => (0, order.greatest),
        }
    }

    /// The least and the greatest quantity of an order, in MW.
    pub fn span(&self, order: &Order) -> (u32, u32)
        requires { order.now.zone < MOST_ZONES }
        ensures least { result.0 ≡ (span_in self.now order.now).lo }
        ensures greatest { result.1 ≡ (span_in self.now order.now).hi }

        // They are the order's bounds in the state that the tables are of.
        ensures least_there { (m : Market) (ds : List Decision) → IsStateOf m ds self.now
            → IsValidOrder m.zones (length m.gates) order.now → result.0 ≡ (bounds_in m ds order.now).lo }
        ensures greatest_there { (m : Market) (ds : List Decision) → IsStateOf m ds self.now
            → IsValidOrder m.zones (length m.gates) order.now → result.1 ≡ (bounds_in m ds order.now).hi }
    {
        let gains = self.prices.gains(order);
        match order.gate {
            None => plain_span(gains, self.prices.loses(order), order),
            Some(gate) => self.gate_span(gate, gains, order),
        }
    }

    /// Whether a gate is neither open nor closed.
    pub fn is_free(&self, gate: u32) -> bool
        ensures free { IsTrue result ↔ (state_in self.now gate ≡ Free) }
        ensures there { (m : Market) (ds : List Decision) → IsStateOf m ds self.now → gate < length m.gates → (IsTrue result ↔ IsFree m ds gate) }
    {
        !self.opened.has(gate) && !self.shut.has(gate)
    }

    /// Whether some of the first gates is both open and closed.
    fn is_torn(&self, gates: u32) -> bool
        requires { gates ≤ MOST_GATES }
        ensures { result ≡ list_any (is_torn self.now) (range_with_len 0 gates) }
    {
        for gate in 0..gates {
            if self.opened.at(gate) && self.shut.at(gate) {
                return true;
            }
        }
        false
    }

    /// Whether a zone has no price.
    fn is_priceless(&self, zones: u32) -> bool
        requires { zones ≤ MOST_ZONES }
        ensures { result ≡ list_any (is_priceless self.now) (range_with_len 0 zones) }
    {
        for zone in 0..zones {
            if self.prices.is_dearer(zone, zone) {
                return true;
            }
        }
        false
    }

    /// Whether one of the gates is both open and closed, or a zone has no price.
    fn contradicts(&self, market: &Market) -> bool
        requires { IsValid market.now }
        ensures { result ≡ is_void_by market.now self.now }
    {
        self.is_torn(market.gates.as_slice().len() as u32) || self.is_priceless(market.zones)
    }

    /// Whether the state is void: one of its gates is both open and closed, or a zone has no price.
    pub fn is_void(&self, market: &Market) -> bool
        requires { IsValid market.now }
        ensures by_tables { result ≡ is_void_by market.now self.now }
        ensures there { (ds : List Decision) → IsStateOf market.now ds self.now → (IsTrue result ↔ IsVoid market.now ds) }
    {
        self.contradicts(market)
    }

    /// Whether a border's second zone is dearer than its first at all prices.
    pub(crate) fn rises(&self, border: &Border) -> bool
        requires from { border.now.from < MOST_ZONES }
        requires to { border.now.to < MOST_ZONES }
        ensures { result ≡ rises_in self.now.prices border.now }
    {
        self.prices.is_dearer(border.to, border.from)
    }

    /// Whether a border's second zone is cheaper than its first at all prices.
    pub(crate) fn falls(&self, border: &Border) -> bool
        requires from { border.now.from < MOST_ZONES }
        requires to { border.now.to < MOST_ZONES }
        ensures { result ≡ falls_in self.now.prices border.now }
    {
        self.prices.is_dearer(border.from, border.to)
    }

    /// The most that may flow from a border's first zone to its second, and the most that may flow back, in MW; where one is
    /// negative, at least so much has to flow the other way.
    pub fn flows(&self, border: &Border) -> (i64, i64)
        requires { IsValidBorder MOST_ZONES border.now }
        ensures limit { result.0 ≡ (flow_in self.now border.now).limit }
        ensures back { result.1 ≡ (flow_in self.now border.now).back }

        // They are the border's bounds in the state that the tables are of.
        ensures limit_there { (m : Market) (ds : List Decision) → IsStateOf m ds self.now → IsValidBorder m.zones border.now
            → result.0 ≡ (flows_in m ds border.now).limit }
        ensures back_there { (m : Market) (ds : List Decision) → IsStateOf m ds self.now → IsValidBorder m.zones border.now
            → result.1 ≡ (flows_in m ds border.now).back }

        // They are small enough to be summed.
        ensures low { neg_ℤ (pos MOST_FLOW) ≤ℤ result.0 }
        ensures high { result.0 ≤ℤ pos MOST_FLOW }
        ensures low_back { neg_ℤ (pos MOST_FLOW) ≤ℤ result.1 }
        ensures high_back { result.1 ≤ℤ pos MOST_FLOW }
    {
        let limit = i64::from(border.limit);
        let back = i64::from(border.back);
        if self.rises(border) {
            (limit, -limit)
        } else if self.falls(border) {
            (-back, back)
        } else {
            (limit, back)
        }
    }

    /// Whether a price is less than the greatest and at least the least of a zone.
    pub(crate) fn is_between(&self, zone: u32, price: Cents) -> bool
        requires { zone < MOST_ZONES }
        ensures low { IsTrue result → int_at self.now.prices.low zone ≤ℤ price.0 }
        ensures high { IsTrue result → price.0 <ℤ int_at self.now.prices.high zone }
        ensures within { int_at self.now.prices.low zone ≤ℤ price.0 → price.0 <ℤ int_at self.now.prices.high zone → IsTrue result }
    {
        self.prices.low[zone as usize] <= price.0 && price.0 < self.prices.high[zone as usize]
    }
}
