//! What more MW on each border of a run's market are worth for its published gates.

ghost use Rattle.std.specs.Prelude.{◌≡◌, ◌<◌, ◌≤◌, pos, IfOk, length};
ghost use Rattle.mari_market.specs.Activation.{welfare_of};
ghost use Rattle.mari_market.specs.Market.{IsValid};
ghost use Rattle.mari_market.specs.Optimal.{IsConsistent, IsFeasible};
ghost use Rattle.mari_progress.specs.Reported.{activation_of as activation_reported, prices_of as prices_reported};
ghost use Rattle.mari_capacity.specs.Worth.{AreWorths, IsBorderWorth, IsPublished, IsWorth};

use crate::gains::gain_from;
use crate::raising::Raise;
use crate::rises::rise;
use mari_check::{activation_of, prices_of};
use mari_gates::gate_word;
use mari_market::{Activation, Market, Prefix, Prices};
use mari_publish::FullBlock;
use mari_units::{MOST_RAISE, Memory, Quarters};
use std::alloc::Global;

/// What more MW on one limit of a border are worth, in quarter-cents.
#[derive(Clone, Copy, Debug, PartialEq, Eq)]
pub struct Worth {
    /// What the published gates gain by them.
    pub gain: Quarters,
    /// The most that they could gain, by the published prices.
    pub rise: Quarters,
}

/// What they are worth on either limit of a border.
#[derive(Clone, Copy, Debug, PartialEq, Eq)]
pub struct BorderWorth {
    /// On the limit of what flows from the border's first zone to its second.
    pub forth: Worth,
    /// On the other limit.
    pub back: Worth,
}

/// What is published of a market.
#[derive(Drop)]
pub struct Published {
    /// Which gates are open.
    pub word: Prefix,
    /// The welfare, in quarter-cents.
    pub welfare: u64,
    /// What runs and flows.
    pub activation: Activation,
    /// The prices.
    pub prices: Prices,
}

/// What a raised limit is worth for what is published. Where by the prices nothing can be gained, nothing is; else the
/// optimum is sought from the published activation.
fn worth_of(
    alloc: Global,
    market: &Market,
    published: &Published,
    raise: Raise,
) -> Result<Worth, Memory>
    requires valid { IsValid market.now }
    requires published { IsPublished market.now published.now }
    requires border { raise.border < length market.now.borders }
    requires more { raise.more ≤ MOST_RAISE }
    ensures { IfOk result (IsWorth market.now published.now.activation published.now.prices.cents raise) }
{
    let border = &market.borders.as_slice()[raise.border as usize];
    let rise = rise(&published.prices, border, raise.forth, raise.more);
    if rise.0 == 0 {
        return Ok(Worth {
            gain: Quarters(0),
            rise,
        });
    }
    let start = Some(&published.activation);
    let raised = gain_from(
        alloc,
        market,
        &published.word,
        published.welfare,
        raise,
        start,
    )?;
    Ok(Worth {
        gain: Quarters(i128::from(raised.welfare) - i128::from(published.welfare)),
        rise,
    })
}

/// What the limits of a border raised by `more` MW are worth, forth and back.
fn border_worth(
    alloc: Global,
    market: &Market,
    published: &Published,
    border: u32,
    more: u32,
) -> Result<BorderWorth, Memory>
    requires valid { IsValid market.now }
    requires published { IsPublished market.now published.now }
    requires border { border < length market.now.borders }
    requires more { more ≤ MOST_RAISE }
    ensures { IfOk result (IsBorderWorth market.now published.now.activation published.now.prices.cents more border) }
{
    let forth = Raise {
        border,
        forth: true,
        more,
    };
    let back = Raise {
        border,
        forth: false,
        more,
    };
    Ok(BorderWorth {
        forth: worth_of(alloc, market, published, forth)?,
        back: worth_of(alloc, market, published, back)?,
    })
}

/// What each border's limits raised by `more` MW are worth.
fn border_worths(
    alloc: Global,
    market: &Market,
    published: &Published,
    more: u32,
) -> Result<Vec<BorderWorth>, Memory>
    requires valid { IsValid market.now }
    requires published { IsPublished market.now published.now }
    requires more { more ≤ MOST_RAISE }
    ensures { IfOk result (λ worths. AreWorths market.now published.now.activation published.now.prices.cents more worths.items) }
{
    let count = market.borders.as_slice().len();
    let mut worths = Vec::with_capacity(alloc, count)?;
    for border in 0..count {
        worths.push(border_worth(alloc, market, published, border as u32, more)?)?;
    }
    Ok(worths)
}

/// What each border's limits raised by `more` MW are worth in a market, for the gates of its published block.
pub(crate) fn worths_of(
    alloc: Global,
    market: &Market,
    block: &FullBlock,
    more: u32,
) -> Result<Vec<BorderWorth>, Memory>
    // What the check found of the block.
    requires valid { IsValid market.now }
    requires feasible { IsFeasible market.now (activation_reported block.now) }
    requires consistent { IsConsistent market.now (activation_reported block.now) (prices_reported block.now) }
    requires welfare { welfare_of market.now (activation_reported block.now) ≡ pos block.now.welfare }
    requires more { more ≤ MOST_RAISE }
    ensures { IfOk result (λ worths. AreWorths market.now (activation_reported block.now) (prices_reported block.now) more worths.items) }
{
    let activation = activation_of(alloc, block)?;
    let prices = prices_of(alloc, block)?;
    let published = Published {
        word: gate_word(market, &activation),
        welfare: block.welfare,
        activation,
        prices,
    };
    border_worths(alloc, market, &published, more)
}
