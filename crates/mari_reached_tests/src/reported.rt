//! What is reported of an answer, as plain values.

use mari_market::{Market, Order};
use mari_reached::{Answer, Found};

/// What is reported of an activation and its tree: the welfare in quarter-cents, the bits of the gates that run, and how
/// many items the tree has.
#[derive(Clone, Copy, Debug, Drop, PartialEq, Eq)]
pub(crate) struct Activated {
    /// The welfare.
    pub welfare: u64,
    /// The gates.
    pub opened: u64,
    /// The items.
    pub items: usize,
}

/// What is reported of an answer.
#[derive(Clone, Copy, Debug, Drop, PartialEq, Eq)]
pub(crate) enum Reported {
    /// The first activation.
    First(Activated),
    /// An activation within a gap, in quarter-cents.
    Within(Activated, i128),
}

/// The bits of the gates whose orders run.
pub(crate) fn opened(orders: &[Order], mw: &[u32]) -> u64 {
    let mut bits = 0;
    for (order, mw) in orders.iter().zip(mw) {
        if let Some(gate) = order.gate
            && *mw > 0
            && gate < 64
        {
            bits |= 1 << gate;
        }
    }
    bits
}

fn activation_in(market: &Market, found: &Found) -> Activated {
    Activated {
        welfare: found.welfare,
        opened: opened(market.orders.as_slice(), found.activation.mw.as_slice()),
        items: found.tree.as_slice().len(),
    }
}

/// What is reported of an answer.
pub(crate) fn report_of(market: &Market, answer: &Answer) -> Reported {
    match answer {
        Answer::First(found) => Reported::First(activation_in(market, found)),
        Answer::Within(found, gap) => Reported::Within(activation_in(market, found), gap.0),
    }
}
