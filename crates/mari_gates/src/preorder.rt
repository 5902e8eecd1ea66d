//! Prefixes in preorder: after each prefix stand those below its closed child, and then those below its open child.

ghost use Rattle.std.specs.Prelude.{◌≡◌, IfSome};
ghost use Rattle.mari_market.specs.Market.{IsValid};
ghost use Rattle.mari_market.specs.Prefix.{word_of, IsFeasiblePrefix};
ghost use Rattle.mari_gates.specs.Preorder.{left_at, waiting_after};

use crate::prefixes::{child_of, may_branch_up, opens, without_last};
use mari_market::{Market, Prefix};

/// The prefix that comes after all those below this one: the open child of the last closed gate that may be open.
pub fn next_after(market: &Market, prefix: &Prefix) -> Option<Prefix>
    requires market { IsValid market.now }
    requires prefix { IsFeasiblePrefix market.now prefix.now }
    ensures left { left_at market.now.gates result ≡ waiting_after market.now.gates (word_of prefix.now) }
    ensures feasible { IfSome result (IsFeasiblePrefix market.now) }
{
    let mut at = *prefix;
    while at.length > 0 {
        let was_open = opens(&at, at.length - 1);
        at = without_last(&at);
        if !was_open && may_branch_up(market, &at) {
            return Some(child_of(&at, true));
        }
    }
    None
}
