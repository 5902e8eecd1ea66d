//! The checks that stand between what a search finds and what is answered.

ghost use Rattle.std.specs.Prelude.{◌≡◌, ◌≤ℤ◌, pos, IfOk, IfSome, IsTrue, length};
ghost use Rattle.mari_market.specs.declared.activation.Activation.{Activation as TheActivation};
ghost use Rattle.mari_market.specs.Activation.{gate_word_of, welfare_of};
ghost use Rattle.mari_market.specs.Finding.{IsAttained};
ghost use Rattle.mari_market.specs.First.{IsFirst};
ghost use Rattle.mari_market.specs.Market.{IsValid};
ghost use Rattle.mari_market.specs.Optimal.{IsAdmissible};
ghost use Rattle.mari_market.specs.Prefix.{word_of};
ghost use Rattle.mari_market.specs.Relaxation.{all_closed};
ghost use Rattle.mari_reach.specs.Tree.{ReachHolds};
ghost use Rattle.mari_reached.specs.Answer.{IsWithinBudget};

use mari_gates::{empty_prefix, gate_word, prefix_feasible};
use mari_market::{Activation, Attained, Finding, Market, Prefix, Relaxed};
use mari_node::examine_from;
use mari_proofs::TreeVerdict;
use mari_reach::{ReachItem, check_tree};
use mari_units::{Memory, Quarters};
use std::alloc::{AllocError, Global};

/// The relaxed optimum where no gate is decided, from which the first form examines gate words.
fn relaxed_optimum(
    alloc: Global,
    market: &Market,
    closed: &Attained,
) -> Result<Option<Activation>, Memory>
    requires { IsValid market.now }
{
    let mut optimum = Some(closed.activation.clone()?);
    examine_from(alloc, market, &empty_prefix(), &mut optimum)?;
    Ok(optimum)
}

/// A copy of an activation and its welfare.
fn copy_of(market: &Market, attained: &Attained) -> Result<Attained, AllocError>
    requires { IsAttained market.now attained.now }
    ensures { IfOk result (IsAttained market.now) }
{
    // Of which market it is, only clauses say.
    let _market = market;
    attained.clone()
}

/// The best activation of a gate word, where the word is feasible and has one.
///
/// It is the one that the first form publishes of the word: the closed optimum where that opens no gate, and else what is
/// found from the relaxed optimum. No clause says so; tests compare what both forms publish.
pub(crate) fn best_of_word(
    alloc: Global,
    market: &Market,
    word: &Prefix,
    closed: &Attained,
) -> Result<Option<Attained>, Memory>
    requires market { IsValid market.now }
    requires closed { IsAttained market.now closed.now }
    ensures { IfOk result (λ best. IfSome best (IsAttained market.now)) }
{
    if !prefix_feasible(market, word) {
        return Ok(None);
    }
    if word.bits == empty_prefix().bits {
        return Ok(Some(copy_of(market, closed)?));
    }
    let mut start = relaxed_optimum(alloc, market, closed)?;
    match examine_from(alloc, market, word, &mut start)? {
        Finding::Relaxed(Relaxed { best, .. }) => Ok(best),
        Finding::Empty(_) => Ok(None),
    }
}

/// The gate word of an activation.
fn word_of_attained(market: &Market, attained: &Attained) -> Prefix
    requires market { IsValid market.now }
    requires attained { IsAttained market.now attained.now }
    ensures word { word_of result ≡ gate_word_of market.now attained.now.activation }
    ensures full { result.length ≡ length market.now.gates }
{
    gate_word(market, &attained.activation)
}

/// Whether a tree has an item, and no more than the budget.
pub(crate) fn is_within_budget(tree: &[ReachItem], budget: u32) -> bool
    ensures { IsTrue result → IsWithinBudget budget tree.now }
{
    !tree.is_empty() && tree.len() <= budget as usize
}

/// Whether a tree holds for an activation's gate word at its welfare.
pub(crate) fn is_first_by(
    alloc: Global,
    market: &Market,
    attained: &Attained,
    tree: &[ReachItem],
) -> Result<bool, Memory>
    requires market { IsValid market.now }
    requires attained { IsAttained market.now attained.now }
    ensures first { IfOk result (λ holds. IsTrue holds → IsFirst market.now attained.now.activation) }
    ensures tree { IfOk result
        (λ holds. IsTrue holds → ReachHolds market.now (pos attained.now.welfare) (gate_word_of market.now attained.now.activation) tree.now) }
{
    let word = word_of_attained(market, attained);
    let cutoff = Quarters(i128::from(attained.welfare));
    match check_tree(alloc, market, tree, cutoff, &word)? {
        TreeVerdict::Holds => Ok(true),
        TreeVerdict::BadShape(_) | TreeVerdict::BadLeaf(_) => Ok(false),
    }
}

/// Whether a tree holds at a number of quarter-cents for the word of the closed optimum.
pub(crate) fn holds_at(
    alloc: Global,
    market: &Market,
    closed: &Attained,
    tree: &[ReachItem],
    cutoff: Quarters,
) -> Result<bool, Memory>
    requires market { IsValid market.now }
    requires closed { IsAttained market.now closed.now }
    requires word { gate_word_of market.now closed.now.activation ≡ all_closed market.now }
    ensures holds { IfOk result (λ holds. IsTrue holds → ReachHolds market.now cutoff.0 (all_closed market.now) tree.now) }
    ensures bounds { IfOk result (λ holds. IsTrue holds → (b : TheActivation) → IsAdmissible market.now b → welfare_of market.now b ≤ℤ cutoff.0) }
{
    let word = word_of_attained(market, closed);
    match check_tree(alloc, market, tree, cutoff, &word)? {
        TreeVerdict::Holds => Ok(true),
        TreeVerdict::BadShape(_) | TreeVerdict::BadLeaf(_) => Ok(false),
    }
}
