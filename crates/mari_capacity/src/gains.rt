//! What a raised limit brings a gate word.

ghost use Rattle.std.specs.Prelude.{◌≡◌, ◌<◌, ◌≤◌, pos, ◌+ℤ◌, ◌≤ℤ◌, List, IfOk, length};
ghost use Rattle.mari_units.specs.declared.numbers.Cents.{Cents as TheCents};
ghost use Rattle.mari_market.specs.Activation.{gate_word_of};
ghost use Rattle.mari_market.specs.Dual.{dual_value_of};
ghost use Rattle.mari_market.specs.Market.{IsValid};
ghost use Rattle.mari_market.specs.Optimal.{IsConsistent, IsFeasible};
ghost use Rattle.mari_market.specs.Prefix.{IsFeasiblePrefix, bounds_of_word, word_of};
ghost use Rattle.mari_market.specs.Price.{ArePrices};
ghost use Rattle.mari_market.specs.Relaxation.{IsRelaxedWelfare};
ghost use Rattle.mari_market.specs.declared.activation.Activation.{Activation as TheActivation};
ghost use Rattle.mari_network.specs.Network.{border_at};
ghost use Rattle.mari_capacity.specs.Raised.{raised_market as market_raised};
ghost use Rattle.mari_capacity.specs.Rise.{rise_of};

use crate::raising::{Raise, raised_market};
use mari_market::{Activation, Market, Prefix, Prices};
use mari_paths::{SolveFault, solve_from};
use mari_units::{MOST_RAISE, Memory};
use std::alloc::Global;

/// The relaxed optimum of a gate word in a market with one limit raised.
#[derive(Drop)]
pub struct Raised {
    /// Its welfare, in quarter-cents.
    pub welfare: u64,
    /// Potentials that show it: one for each zone, in cents per MWh.
    pub potentials: Prices,
}

/// What a gate word reaches in the market with one limit raised, where its relaxed welfare without that is this one, in
/// quarter-cents. The gate word decides every gate.
///
/// `forth` raises the limit of what flows from the border's first zone to its second, else the other one is raised; by
/// `more` MW, and to at most the greatest limit of a run. What is gained is the answer's welfare less the one given.
pub fn gain(
    alloc: Global,
    market: &Market,
    word: &Prefix,
    welfare: u64,
    border: u32,
    forth: bool,
    more: u32,
) -> Result<Raised, Memory>
    // What the caller knows of the gate word and the border.
    requires valid { IsValid market.now }
    requires word { IsFeasiblePrefix market.now word.now }
    requires full { word.now.length ≡ length market.now.gates }
    requires welfare { IsRelaxedWelfare market.now (word_of word.now) (pos welfare) }
    requires border { border < length market.now.borders }
    requires some { 1 ≤ more }
    requires more { more ≤ MOST_RAISE }

    // The greatest welfare of the word with that limit raised, and potentials that show it.
    ensures relaxed { IfOk result (λ r. IsRelaxedWelfare (market_raised market.now (record { border = border; forth = forth; more = more }))
        (word_of word.now) (pos r.welfare)) }
    ensures dual { IfOk result (λ r. dual_value_of (bounds_of_word market.now (word_of word.now))
        (market_raised market.now (record { border = border; forth = forth; more = more })) r.potentials.cents ≡ pos r.welfare) }
    ensures potentials { IfOk result (λ r. ArePrices market.now r.potentials.cents) }

    // What is gained: at least nothing, and at most the rise at prices that are consistent with an activation of the
    // word.
    ensures at_least { IfOk result (λ r. welfare ≤ r.welfare) }
    ensures at_most { IfOk result (λ r. (a : TheActivation) (ps : List TheCents) → IsFeasible market.now a → gate_word_of market.now a ≡ word_of word.now
        → IsConsistent market.now a ps
        → pos r.welfare ≤ℤ (pos welfare +ℤ rise_of ps (border_at market.now.borders border) forth more)) }
{
    let raise = Raise {
        border,
        forth,
        more,
    };
    gain_from(alloc, market, word, welfare, raise, None)
}

/// The same, from an activation to start with, of any lengths and within the word's bounds or not. From one near the
/// optimum, as the best activation of the word before the limit is raised, few moves of energy are needed.
pub fn gain_from(
    alloc: Global,
    market: &Market,
    word: &Prefix,
    welfare: u64,
    raise: Raise,
    start: Option<&Activation>,
) -> Result<Raised, Memory>
    // What the caller knows of the gate word and the border; of the start nothing.
    requires valid { IsValid market.now }
    requires word { IsFeasiblePrefix market.now word.now }
    requires full { word.now.length ≡ length market.now.gates }
    requires welfare { IsRelaxedWelfare market.now (word_of word.now) (pos welfare) }
    requires border { raise.border < length market.now.borders }
    requires more { raise.more ≤ MOST_RAISE }

    // The greatest welfare of the word with that limit raised, and potentials that show it.
    ensures relaxed { IfOk result (λ r. IsRelaxedWelfare (market_raised market.now raise) (word_of word.now) (pos r.welfare)) }
    ensures dual { IfOk result (λ r. dual_value_of (bounds_of_word market.now (word_of word.now)) (market_raised market.now raise) r.potentials.cents
        ≡ pos r.welfare) }
    ensures potentials { IfOk result (λ r. ArePrices market.now r.potentials.cents) }

    // What is gained: at least nothing, and at most the rise at prices that are consistent with an activation of the
    // word.
    ensures at_least { IfOk result (λ r. welfare ≤ r.welfare) }
    ensures at_most { IfOk result (λ r. (a : TheActivation) (ps : List TheCents) → IsFeasible market.now a → gate_word_of market.now a ≡ word_of word.now
        → IsConsistent market.now a ps
        → pos r.welfare ≤ℤ (pos welfare +ℤ rise_of ps (border_at market.now.borders raise.border) raise.forth raise.more)) }
{
    // The gain is counted from it.
    let _welfare = welfare;
    let raised = raised_market(alloc, market, raise)?;
    match solve_from(alloc, &raised, word, start) {
        Ok(solved) => Ok(Raised {
            welfare: solved.welfare,
            potentials: solved.potentials,
        }),
        Err(SolveFault::Cut(_)) => unreachable!(),
        Err(SolveFault::Memory) => Err(Memory),
    }
}
