//! The answer: what the search finds, where the checks say that it holds, or else the closed optimum.

ghost use Rattle.std.specs.Prelude.{◌≡◌, ◌+ℤ◌, ◌≤ℤ◌, ◌∷◌, [], pos, IfOk, IfSome};
ghost use Rattle.mari_market.specs.declared.activation.Activation.{Activation as TheActivation};
ghost use Rattle.mari_market.specs.Activation.{gate_word_of, welfare_of};
ghost use Rattle.mari_market.specs.Clearing.{IsBudget};
ghost use Rattle.mari_market.specs.Finding.{IsAttained};
ghost use Rattle.mari_market.specs.Market.{IsValid};
ghost use Rattle.mari_market.specs.Optimal.{IsAdmissible};
ghost use Rattle.mari_market.specs.Price.{ArePrices};
ghost use Rattle.mari_market.specs.Relaxation.{all_closed};
ghost use Rattle.mari_reach.specs.Tree.{ReachHolds};
ghost use Rattle.mari_reached.specs.Answer.{IsAnswer, IsWithinBudget};

use crate::checks::{best_of_word, holds_at, is_first_by, is_within_budget};
use mari_market::{Activation, Attained, Market, Prefix, Prices};
use mari_reach::{MOST_VALUE, ReachItem, ReachLeaf, by_tree, root_value};
use mari_seek::{SearchEnd, Sought, seek};
use mari_units::{Cents, Items, Memory, Quarters};
use mari_workers::first_of;
use std::alloc::Global;

/// An activation, its welfare, and a tree.
#[derive(Drop)]
pub struct Found {
    /// The activation.
    pub activation: Activation,
    /// Its welfare, in quarter-cents.
    pub welfare: u64,
    /// The tree.
    pub tree: Items<ReachItem>,
}

/// What is answered for a market.
#[derive(Drop)]
pub enum Answer {
    /// The first activation: the tree holds at its welfare for its gate word.
    First(Found),
    /// An admissible activation, and by how much another may be better at most, in quarter-cents: the tree holds at the
    /// welfare and that gap.
    Within(Found, Quarters),
}

/// By how much a number of quarter-cents is above a welfare.
fn gap_of(top: Quarters, welfare: u64) -> Quarters
    requires low { pos welfare ≤ℤ top.0 }
    requires high { top.0 ≤ℤ pos MOST_VALUE }
    ensures sum { pos welfare +ℤ result.0 ≡ top.0 }
    ensures least { pos 0 ≤ℤ result.0 }
    ensures most { result.0 ≤ℤ pos MOST_VALUE }
{
    Quarters(top.0 - i128::from(welfare))
}

/// The answer of an activation within a gap.
fn within(
    market: &Market,
    budget: u32,
    attained: Attained,
    top: Quarters,
    tree: Items<ReachItem>,
) -> Answer
    requires attained { IsAttained market.now attained }
    requires tree { ReachHolds market.now top.0 (all_closed market.now) tree }
    requires items { IsWithinBudget budget tree }
    requires bounds { (b : TheActivation) → IsAdmissible market.now b → welfare_of market.now b ≤ℤ top.0 }
    requires high { top.0 ≤ℤ pos MOST_VALUE }
    ensures { IsAnswer market.now budget result }
{
    // Whose answer this is, and within what budget, only clauses say.
    let (_market, _budget) = (market, budget);
    let gap = gap_of(top, attained.welfare);
    let Attained {
        activation,
        welfare,
    } = attained;
    Answer::Within(
        Found {
            activation,
            welfare,
            tree,
        },
        gap,
    )
}

/// One potential for each zone: those given, if they are prices of the market's zones, else 0.
fn potentials_or_none(alloc: Global, market: &Market, potentials: Prices) -> Result<Prices, Memory>
    requires { IsValid market.now }
    ensures { IfOk result (λ prices. ArePrices market.now prices.cents) }
{
    if market.are_prices(potentials.cents.as_slice()) {
        return Ok(potentials);
    }
    let cents = vec![in alloc; Cents(0); market.zones as usize]?;
    let cents = Items::of(cents);
    Ok(Prices { cents })
}

/// The tree of one leaf.
fn tree_of(alloc: Global, leaf: ReachLeaf) -> Result<Items<ReachItem>, Memory>
    ensures { IfOk result (λ tree. tree ≡ ReachItem.Leaf leaf ∷ []) }
{
    let mut tree = Vec::new(alloc);
    tree.push(ReachItem::Leaf(leaf))?;
    Ok(Items::of(tree))
}

/// A tree of one leaf, of potentials, and the number of quarter-cents at which it holds.
fn root_tree(
    alloc: Global,
    market: &Market,
    budget: u32,
    potentials: Prices,
) -> Result<(Items<ReachItem>, Quarters), Memory>
    requires market { IsValid market.now }
    requires budget { IsBudget budget }
    requires potentials { ArePrices market.now potentials.cents }
    ensures tree { IfOk result (λ r. ReachHolds market.now r.1.0 (all_closed market.now) r.0) }
    ensures items { IfOk result (λ r. IsWithinBudget budget r.0) }
    ensures high { IfOk result (λ r. r.1.0 ≤ℤ pos MOST_VALUE) }
{
    let _budget = budget;
    let top = root_value(market, &potentials);
    let tree = tree_of(alloc, ReachLeaf::Bound(potentials))?;
    Ok((tree, top))
}

/// What a tree says that holds at a number: no admissible activation is better.
fn is_bounded(market: &Market, tree: &[ReachItem], top: Quarters)
    requires market { IsValid market.now }
    requires tree { ReachHolds market.now top.0 (all_closed market.now) tree.now }
    ensures { (b : TheActivation) → IsAdmissible market.now b → welfare_of market.now b ≤ℤ top.0 }
{
    by_tree(market);
}

/// The closed optimum, within the gap to the bound of potentials where nothing is decided.
fn closed_answer(
    alloc: Global,
    market: &Market,
    budget: u32,
    closed: Attained,
    potentials: Prices,
) -> Result<Answer, Memory>
    requires market { IsValid market.now }
    requires budget { IsBudget budget }
    requires closed { IsAttained market.now closed }
    ensures { IfOk result (IsAnswer market.now budget) }
{
    let potentials = potentials_or_none(alloc, market, potentials)?;
    let (tree, top) = root_tree(alloc, market, budget, potentials)?;
    is_bounded(market, tree.as_slice(), top);
    Ok(within(market, budget, closed, top, tree))
}

/// The answer of a word and a tree that were found when a search ended, where the checks say that it is one.
fn first_answer(
    alloc: Global,
    market: &Market,
    budget: u32,
    word: &Prefix,
    tree: Items<ReachItem>,
    closed: &Attained,
) -> Result<Option<Answer>, Memory>
    requires market { IsValid market.now }
    requires closed { IsAttained market.now closed.now }
    ensures { IfOk result (λ answer. IfSome answer (IsAnswer market.now budget)) }
{
    let Some(best) = best_of_word(alloc, market, word, closed)? else {
        return Ok(None);
    };
    if !is_within_budget(tree.as_slice(), budget) {
        return Ok(None);
    }
    if !is_first_by(alloc, market, &best, tree.as_slice())? {
        return Ok(None);
    }
    let Attained {
        activation,
        welfare,
    } = best;
    Ok(Some(Answer::First(Found {
        activation,
        welfare,
        tree,
    })))
}

/// The answer of a word and a tree that is to hold at a number, where the checks say that it is one.
fn within_answer(
    alloc: Global,
    market: &Market,
    budget: u32,
    word: &Prefix,
    tree: Items<ReachItem>,
    top: Quarters,
    closed: &Attained,
) -> Result<Option<Answer>, Memory>
    requires market { IsValid market.now }
    requires closed { IsAttained market.now closed.now }
    requires word { gate_word_of market.now closed.now.activation ≡ all_closed market.now }
    ensures { IfOk result (λ answer. IfSome answer (IsAnswer market.now budget)) }
{
    let Some(best) = best_of_word(alloc, market, word, closed)? else {
        return Ok(None);
    };
    if top.0 > i128::from(MOST_VALUE) || !is_within_budget(tree.as_slice(), budget) {
        return Ok(None);
    }
    if holds_at(alloc, market, closed, tree.as_slice(), top)? {
        Ok(Some(within(market, budget, best, top, tree)))
    } else {
        Ok(None)
    }
}

/// The answer of what a search is said to have found in a market: of its word and tree, where the checks say that they
/// hold, or else the closed optimum within the gap to the potentials' bound.
///
/// The tree has at most the budget's items.
pub fn answer_of(
    alloc: Global,
    market: &Market,
    budget: u32,
    sought: Sought,
) -> Result<Answer, Memory>
    requires market { IsValid market.now }
    requires budget { IsBudget budget }
    ensures { IfOk result (IsAnswer market.now budget) }
{
    let closed = first_of(alloc, market)?;
    let Sought {
        end,
        word,
        tree,
        potentials,
    } = sought;
    let answer = match end {
        SearchEnd::Whole => first_answer(alloc, market, budget, &word, tree, &closed)?,
        SearchEnd::Open(top) => within_answer(alloc, market, budget, &word, tree, top, &closed)?,
    };
    match answer {
        Some(answer) => Ok(answer),
        None => closed_answer(alloc, market, budget, closed, potentials),
    }
}

/// The first activation of a market, or the best that is found within a budget of 1 to `MOST_NODES` nodes, with a tree that
/// shows it.
///
/// No clause says which of the two comes, nor that a gap is small: the search isn't trusted. First comes where it ends,
/// Within where the budget is spent before.
pub fn reach(alloc: Global, market: &Market, budget: u32) -> Result<Answer, Memory>
    requires market { IsValid market.now }
    requires budget { IsBudget budget }
    ensures { IfOk result (IsAnswer market.now budget) }
{
    let sought = seek(alloc, market, budget)?;
    answer_of(alloc, market, budget, sought)
}
