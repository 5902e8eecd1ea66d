//! The best activation with every gate closed, from which a search starts.

ghost use Rattle.std.specs.Prelude.{◌≡◌, ◌≤◌, ℤ, pos, length, IfOk};
ghost use Rattle.mari_market.specs.declared.finding.Finding.TheVariants.{Relaxed as RelaxedFinding};
ghost use Rattle.mari_market.specs.Activation.{gate_word_of};
ghost use Rattle.mari_market.specs.Finding.{IsAttained};
ghost use Rattle.mari_market.specs.Market.{IsValid};
ghost use Rattle.mari_market.specs.Prefix.{word_of, IsCleared};
ghost use Rattle.mari_market.specs.Relaxation.{all_closed, IsClosedWelfare};
ghost use Rattle.mari_workers.specs.Closed.{closed_finding, IsClosedOptimum};

use crate::alone::copy_of;
use mari_gates::empty_prefix;
use mari_market::{Attained, Finding, Market, Prefix, Prices, Relaxed};
use mari_node::examine;
use mari_units::{MOST_GATES, Memory};
use std::alloc::{AllocError, Global};

/// The best activation with every gate closed, and potentials that show that none is better.
#[derive(Drop)]
pub(crate) struct ClosedOptimum {
    /// The activation, from which a search starts.
    pub(crate) first: Attained,
    /// The potentials, whose dual value is its welfare.
    pub(crate) potentials: Prices,
}

impl ClosedOptimum {
    /// A copy, as an examination of the prefix that closes every gate reports it.
    pub(crate) fn finding(&self) -> Result<Finding, AllocError>
        ensures { IfOk result (λ finding. finding ≡ RelaxedFinding (closed_finding self.now)) }
    {
        let potentials = self.potentials.clone()?;
        let best = copy_of(&self.first)?;
        Ok(Finding::Relaxed(Relaxed {
            potentials,
            bound: best.welfare,
            best: Some(best),
            conflict: None,
        }))
    }
}

/// The prefix that closes every gate.
fn closed_prefix(market: &Market) -> Prefix
    requires { length market.now.gates ≤ MOST_GATES }
    ensures word { word_of result ≡ all_closed market.now }
    ensures cleared { IsCleared result }
{
    let mut prefix = empty_prefix();
    prefix.length = market.gates.as_slice().len() as u32;
    prefix
}

/// The best activation with every gate closed, with its potentials. Every search examines that prefix first, and a
/// market without gates has no other.
pub(crate) fn closed_optimum(alloc: Global, market: &Market) -> Result<ClosedOptimum, Memory>
    requires { IsValid market.now }
    ensures { IfOk result (IsClosedOptimum market.now) }
{
    let Finding::Relaxed(relaxed) = examine(alloc, market, &closed_prefix(market))? else {
        unreachable!()
    };
    let Relaxed {
        potentials,
        best,
        ..
    } = relaxed;
    match best {
        Some(first) => Ok(ClosedOptimum { first, potentials }),
        None => unreachable!(),
    }
}

/// The best activation with every gate closed, from which a search starts. Its welfare, in quarter-cents, is the closed
/// welfare, which then is one number and at least 0.
pub fn first_of(alloc: Global, market: &Market) -> Result<Attained, Memory>
    requires { IsValid market.now }
    ensures attained { IfOk result (IsAttained market.now) }
    ensures closed { IfOk result (λ first. IsClosedWelfare market.now (pos first.welfare)) }
    ensures one { (w : ℤ) → IsClosedWelfare market.now w → IfOk result (λ first. w ≡ pos first.welfare) }
    ensures gates { IfOk result (λ first. gate_word_of market.now first.activation ≡ all_closed market.now) }
{
    let closed = closed_optimum(alloc, market)?;
    Ok(closed.first)
}
