//! The dual value where nothing is decided.

use crate::same::same_in;
use crate::small::{CHEAPER, MarketRow, OVERSIZED, market_of, prices_of};
use mari_reach::root_value;
use mari_units::Quarters;
use std::alloc::{AllocError, Global};
use std::test::Fail;

/// The dual value of potentials where nothing is decided, where they fit the market.
fn root_in(alloc: Global, row: &MarketRow, cents: &[i64]) -> Result<Option<Quarters>, AllocError> {
    let market = market_of(alloc, row)?;
    let potentials = prices_of(alloc, cents)?;
    let value = if market.valid() && market.are_prices(potentials.cents.as_slice()) {
        Some(root_value(&market, &potentials))
    } else {
        None
    };
    drop(potentials);
    drop(market);
    Ok(value)
}

#[test]
fn free_gates_and_the_demand_gain_at_the_root(rt: HostRuntime) -> Result<(), Fail> {
    // 20.00 for 40 MW, nothing for the dearer bid, and 99949.00 for 30 MW.
    let value = root_in(rt.alloc(), &OVERSIZED, &[5000])?;
    same_in(&rt, "one zone", value, Some(Quarters(299_927_000)));
    // 10.00 for 5 MW and 0.00 for 100 MW, 970.00 for 15 MW, and nothing for the dear bid and the border.
    let value = root_in(rt.alloc(), &CHEAPER, &[3000, 3000])?;
    same_in(&rt, "two zones", value, Some(Quarters(1_460_000)));
    Ok(())
}
