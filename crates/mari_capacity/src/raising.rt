//! A market with one limit of one border raised.

ghost use Rattle.std.specs.Prelude.{◌≡◌, ◌<◌, ◌≤◌, IfOk, length};
ghost use Rattle.mari_market.specs.Market.{IsValid, IsValidBorder};
ghost use Rattle.mari_capacity.specs.Raised.{raised_border as border_raised, raised_limit as limit_raised, raised_market as market_raised};

use mari_market::{Border, Market};
use mari_units::{Items, MOST_FLOW, MOST_RAISE, MOST_ZONES, Memory};
use std::alloc::Global;

/// One limit of a border, raised.
#[derive(Clone, Copy, Debug, Drop, PartialEq, Eq)]
pub struct Raise {
    /// The border, counted from 0.
    pub border: u32,
    /// Whether the limit is that of what flows from the border's first zone to its second; else it is the other one.
    pub forth: bool,
    /// By how many MW it is raised.
    pub more: u32,
}

/// A limit that is raised by `more` MW, to at most the greatest that a run may have.
fn raised_limit(limit: u32, more: u32) -> u32
    requires limit { limit ≤ MOST_FLOW }
    requires more { more ≤ MOST_RAISE }
    ensures { result ≡ limit_raised limit more }
{
    (limit + more).min(MOST_FLOW)
}

/// The border with one of its limits raised.
fn raised_border(border: Border, forth: bool, more: u32) -> Border
    requires valid { IsValidBorder MOST_ZONES border }
    requires more { more ≤ MOST_RAISE }
    ensures { result ≡ border_raised forth more border }
{
    if forth {
        Border {
            limit: raised_limit(border.limit, more),
            ..border
        }
    } else {
        Border {
            back: raised_limit(border.back, more),
            ..border
        }
    }
}

/// The market with one limit raised.
pub(crate) fn raised_market(alloc: Global, market: &Market, raise: Raise) -> Result<Market, Memory>
    requires valid { IsValid market.now }
    requires border { raise.border < length market.now.borders }
    requires more { raise.more ≤ MOST_RAISE }
    ensures market { IfOk result (λ raised. raised ≡ market_raised market.now raise) }
{
    let Market {
        zones,
        borders,
        orders,
        gates,
        reference,
    } = market.clone()?;
    let mut borders = borders.into_vec();
    let place = raise.border as usize;
    borders[place] = raised_border(borders[place], raise.forth, raise.more);
    Ok(Market {
        zones,
        borders: Items::of(borders),
        orders,
        gates,
        reference,
    })
}
