//! The gate word of an activation, and the order of gate words.

ghost use Rattle.std.specs.Prelude.{◌≡◌, ◌↔◌, ◌||◌, ◌<◌, ◌≤◌, ℕ, length, IfSome, IsTrue};
ghost use Rattle.mari_market.specs.Activation.{gate_word_of, is_run_of};
ghost use Rattle.mari_market.specs.First.{ComesBefore};
ghost use Rattle.mari_market.specs.Market.{IsValid};
ghost use Rattle.mari_market.specs.Optimal.{IsFeasible};
ghost use Rattle.mari_market.specs.Prefix.{bit_of, word_of, IsFeasiblePrefix, IsCleared};

use crate::prefixes::{empty_prefix, opens, set_bit};
use mari_market::{Activation, Market, Order, Prefix};
use mari_units::MOST_GATES;

/// Sets the bit of an order's gate, if it has one and runs.
fn mark(prefix: &mut Prefix, order: &Order, mw: u32)
    requires { IfSome order.now.gate (λ g. g < MOST_GATES) }
    ensures bits { (g : ℕ) → bit_of prefix.new g ≡ (bit_of prefix.old g || is_run_of g order.now mw) }
    ensures length { prefix.new.length ≡ prefix.old.length }
{
    if let Some(gate) = order.gate
        && mw > 0
    {
        set_bit(prefix, gate, true);
    }
}

/// The gate word of a feasible activation: the prefix that decides every gate, as open where an order of it runs.
pub fn gate_word(market: &Market, activation: &Activation) -> Prefix
    requires market { IsValid market.now }
    requires activation { IsFeasible market.now activation.now }
    ensures word { word_of result ≡ gate_word_of market.now activation.now }
    ensures length { result.length ≡ length market.now.gates }
    ensures feasible { IsFeasiblePrefix market.now result }
{
    let mut word = empty_prefix();
    let gates = market.gates.as_slice().len();
    if gates == 0 {
        return word;
    }
    word.length = gates as u32;
    let mw = activation.mw.as_slice();
    for (i, order) in market.orders.as_slice().iter().enumerate() {
        mark(&mut word, order, mw[i]);
    }
    word
}

/// Whether a prefix, continued with closed gates, comes before a gate word: at the first gate that differs it is
/// closed.
pub fn comes_before(prefix: &Prefix, word: &Prefix) -> bool
    requires prefix { IsCleared prefix.now }
    requires few { word.now.length ≤ MOST_GATES }
    ensures { IsTrue result ↔ ComesBefore (word_of prefix.now) (word_of word.now) }
{
    for gate in 0..word.length {
        let opened = opens(word, gate);
        if opens(prefix, gate) != opened {
            return opened;
        }
    }
    false
}
