//! What gate words gain by a raised limit, and rises by prices, with values computed by hand.

ghost use Rattle.std.specs.Prelude.{◌<◌, pos, IfOk, IfSome};
ghost use Rattle.mari_market.specs.Finding.{IsFinding};
ghost use Rattle.mari_market.specs.Market.{IsValid};
ghost use Rattle.mari_market.specs.Prefix.{IsFeasiblePrefix, word_of};
ghost use Rattle.mari_market.specs.Relaxation.{IsRelaxedWelfare};

use crate::same::{same, same_in};
use crate::small::{CONGESTED, DOWN, MarketRow, UP, market_of, prefix, prices_of};
use mari_capacity::{gain, rise};
use mari_gates::prefix_feasible;
use mari_market::{Border, Finding, Market, Prefix, Prices};
use mari_node::examine;
use std::alloc::Global;
use std::test::Fail;

/// A market with one border, the gate word of `length` gates with these `bits`, which of the border's limits is raised
/// and by how many MW, and the word's welfare before and after, in quarter-cents.
struct Case {
    name: &'static str,
    market: MarketRow,
    length: u32,
    bits: u64,
    forth: bool,
    more: u32,
    before: u64,
    after: u64,
}

/// A bid of 40 MW or nothing in the first zone, beside a cheaper one that the border takes whole.
const GATED: MarketRow = MarketRow {
    limits: &[(50, 50)],
    orders: &[
        (0, UP, 0, 50, 2000, None),
        (0, UP, 40, 40, 3000, Some(0)),
        (1, UP, 0, 100, 6000, None),
        (1, DOWN, 0, 80, 9_999_900, None),
    ],
    gates: &[(None, None)],
};

/// A limit of 8 MW less than the greatest, and more demand than that.
const WIDE: MarketRow = MarketRow {
    limits: &[(199_990, 0)],
    orders: &[
        (0, UP, 0, 99_999, 2000, None),
        (0, UP, 0, 99_999, 2000, None),
        (0, UP, 0, 99_999, 2000, None),
        (1, UP, 0, 99_999, 6000, None),
        (1, UP, 0, 99_999, 6000, None),
        (1, DOWN, 0, 99_999, 9_999_900, None),
        (1, DOWN, 0, 99_999, 9_999_900, None),
        (1, DOWN, 0, 99_999, 9_999_900, None),
    ],
    gates: &[],
};

const CASES: &[Case] = &[
    Case {
        name: "10 MW more on a full border",
        market: CONGESTED,
        length: 0,
        bits: 0,
        forth: true,
        more: 10,
        before: 799_712_000,
        after: 799_752_000,
    },
    Case {
        name: "40 MW more, of which the demand takes 30",
        market: CONGESTED,
        length: 0,
        bits: 0,
        forth: true,
        more: 40,
        before: 799_712_000,
        after: 799_832_000,
    },
    Case {
        name: "more on the limit back",
        market: CONGESTED,
        length: 0,
        bits: 0,
        forth: false,
        more: 1000,
        before: 799_712_000,
        after: 799_712_000,
    },
    Case {
        name: "a gate that stays closed",
        market: GATED,
        length: 1,
        bits: 0,
        forth: true,
        more: 40,
        before: 799_712_000,
        after: 799_712_000,
    },
    Case {
        name: "a gate that stays open",
        market: GATED,
        length: 1,
        bits: 1,
        forth: true,
        more: 40,
        before: 799_672_000,
        after: 799_792_000,
    },
    Case {
        name: "a limit that is raised to 199,998 MW",
        market: WIDE,
        length: 0,
        bits: 0,
        forth: true,
        more: 1000,
        before: 2_998_939_978_300,
        after: 2_998_940_010_300,
    },
];

/// The bound of a finding of a prefix, or 0 where it has none.
fn bound_of(market: &Market, prefix: &Prefix, finding: &Finding) -> u64
    requires { IsFinding market.now (word_of prefix.now) finding.now }
    ensures { 0 < result → IsRelaxedWelfare market.now (word_of prefix.now) (pos result) }
{
    // What the finding is of.
    let (_market, _prefix) = (market, prefix);
    match finding {
        Finding::Empty(_) => 0,
        Finding::Relaxed(relaxed) => relaxed.bound,
    }
}

/// The relaxed welfare that a finding of a prefix shows, where it is above 0.
fn welfare_in(market: &Market, prefix: &Prefix, finding: &Finding) -> Option<u64>
    requires { IsFinding market.now (word_of prefix.now) finding.now }
    ensures { IfSome result (λ welfare. IsRelaxedWelfare market.now (word_of prefix.now) (pos welfare)) }
{
    let bound = bound_of(market, prefix, finding);
    if bound > 0 { Some(bound) } else { None }
}

/// The relaxed welfare of a prefix, where it is above 0.
fn welfare_at(alloc: Global, market: &Market, prefix: &Prefix) -> Result<u64, Fail>
    requires valid { IsValid market.now }
    requires prefix { IsFeasiblePrefix market.now prefix.now }
    ensures { IfOk result (λ welfare. IsRelaxedWelfare market.now (word_of prefix.now) (pos welfare)) }
{
    let finding = examine(alloc, market, prefix)?;
    let welfare = welfare_in(market, prefix, &finding);
    drop(finding);
    match welfare {
        Some(welfare) => Ok(welfare),
        None => Err("the welfare is above 0".into()),
    }
}

/// The welfare of a gate word, and that with one limit of the first border raised.
fn gained(
    alloc: Global,
    market: &Market,
    word: &Prefix,
    forth: bool,
    more: u32,
) -> Result<(u64, u64), Fail> {
    if !(market.valid() && prefix_feasible(market, word)) {
        return Err("the market is valid, and the word is feasible in it".into());
    }
    if word.length as usize != market.gates.as_slice().len() {
        return Err("the word decides every gate".into());
    }
    if market.borders.as_slice().is_empty() || more == 0 || more > 1000 {
        return Err("there is a border, and its limit is raised by 1 to 1,000 MW".into());
    }
    let before = welfare_at(alloc, market, word)?;
    let raised = gain(alloc, market, word, before, 0, forth, more)?;
    let after = raised.welfare;
    drop(raised);
    Ok((before, after))
}

#[test]
fn what_gate_words_gain_by_a_raised_limit(rt: HostRuntime) -> Result<(), Fail> {
    for case in CASES {
        let market = market_of(rt.alloc(), &case.market)?;
        let word = prefix(case.length, case.bits);
        let gained = gained(rt.alloc(), &market, &word, case.forth, case.more);
        drop(market);
        same_in(&rt, case.name, gained?, (case.before, case.after));
    }
    Ok(())
}

/// What 10 MW more bring at two prices, on the limit of what flows from the first zone to the second, and on the other.
fn rises_at(prices: &Prices) -> Result<(i128, i128), Fail> {
    if prices.cents.as_slice().len() < 2 {
        return Err("there are two prices".into());
    }
    let border = Border {
        from: 0,
        to: 1,
        limit: 50,
        back: 50,
    };
    let there = rise(prices, &border, true, 10);
    let back = rise(prices, &border, false, 10);
    Ok((there.0, back.0))
}

#[test]
fn rises_by_two_prices(rt: HostRuntime) -> Result<(), Fail> {
    let prices = prices_of(rt.alloc(), &[2000, 6000])?;
    let rises = rises_at(&prices);
    drop(prices);
    same(&rt, rises?, (40_000, 0));
    Ok(())
}
