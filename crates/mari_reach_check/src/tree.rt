//! The tree of a block.

ghost use Rattle.std.specs.Prelude.{◌≡◌, ◌≤◌, IfOk, length};
ghost use Rattle.mari_market.specs.Market.{IsValid};
ghost use Rattle.mari_market.specs.Optimal.{IsFeasible};
ghost use Rattle.mari_market.specs.Prefix.{word_of};
ghost use Rattle.mari_market.specs.Relaxation.{all_closed};
ghost use Rattle.mari_reach_lines.specs.Ranges.{IsClaim};
ghost use Rattle.mari_reach_check.specs.Faults.{FindsNamed, FindsTree, cutoff_of, fault_of, word_claimed};

use mari_check::Fault;
use mari_gates::{child_of, empty_prefix, gate_word};
use mari_market::{Activation, Market, Prefix};
use mari_proofs::TreeVerdict;
use mari_reach::{ReachItem, check_tree};
use mari_reach_lines::Claim;
use mari_reach_text::{NamedItem, gated_bids, numbered_tree};
use mari_remain::{Books, RunMarket};
use mari_units::{Items, MOST_BIDS, Memory, Quarters};
use std::alloc::Global;

/// What is found of a tree.
#[derive(Clone, Copy, Drop)]
pub(crate) enum TreeFound {
    /// It has the shape, no more items than the budget, and each leaf holds.
    Sound,
    /// It hasn't the shape, or it has more items than the budget.
    BadTree,
    /// Its shape and its number of items are right, and a leaf doesn't hold.
    BadLeaf,
}

impl TreeFound {
    /// The fault that it is, if it is one.
    pub(crate) fn fault(self) -> Option<Fault>
        ensures { result ≡ fault_of self }
    {
        match self {
            TreeFound::Sound => None,
            TreeFound::BadTree => Some(Fault::Tree),
            TreeFound::BadLeaf => Some(Fault::Leaf),
        }
    }
}

/// The prefix that closes every gate.
fn closed_word(market: &Market) -> Prefix
    requires valid { IsValid market.now }
    ensures word { word_of result ≡ all_closed market.now }
    ensures full { result.length ≡ length market.now.gates }
{
    let mut word = empty_prefix();
    for _gate in market.gates.as_slice() {
        word = child_of(&word, false);
    }
    word
}

/// The gate word that a tree is to hold for, by what a block says of its activation.
fn claimed_word(market: &Market, activation: &Activation, claim: Claim) -> Prefix
    requires valid { IsValid market.now }
    requires feasible { IsFeasible market.now activation.now }
    ensures word { word_of result ≡ word_claimed market.now activation.now claim }
    ensures full { result.length ≡ length market.now.gates }
{
    match claim {
        Claim::First => gate_word(market, activation),
        Claim::Within(_) => closed_word(market),
    }
}

/// The number of quarter-cents that a tree is to hold at.
fn claimed_cutoff(welfare: u64, claim: Claim) -> Quarters
    requires { IsClaim claim }
    ensures { result.0 ≡ cutoff_of welfare claim }
{
    match claim {
        Claim::First => Quarters(i128::from(welfare)),
        Claim::Within(gap) => Quarters(i128::from(welfare) + gap.0),
    }
}

/// What is found of a tree for a gate word at a number of quarter-cents.
fn examine_tree(
    alloc: Global,
    market: &Market,
    tree: &[ReachItem],
    cutoff: Quarters,
    word: &Prefix,
    budget: u32,
) -> Result<TreeFound, Memory>
    requires valid { IsValid market.now }
    requires full { word.now.length ≡ length market.now.gates }
    ensures { IfOk result (FindsTree market.now cutoff.0 (word_of word.now) budget tree.now) }
{
    if tree.len() > budget as usize {
        return Ok(TreeFound::BadTree);
    }
    match check_tree(alloc, market, tree, cutoff, word)? {
        TreeVerdict::Holds => Ok(TreeFound::Sound),
        TreeVerdict::BadShape(_) => Ok(TreeFound::BadTree),
        TreeVerdict::BadLeaf(_) => Ok(TreeFound::BadLeaf),
    }
}

/// What is found of the tree of a block that states this activation and welfare, and says this of it.
pub(crate) fn examine_named(
    alloc: Global,
    books: &Books,
    made: &RunMarket,
    activation: &Activation,
    welfare: u64,
    claim: Claim,
    named: Items<NamedItem>,
    budget: u32,
) -> Result<TreeFound, Memory>
    requires valid { IsValid made.now.market }
    requires few { length made.now.bids ≤ MOST_BIDS }
    requires feasible { IsFeasible made.now.market activation.now }
    requires claim { IsClaim claim }
    ensures { IfOk result (FindsNamed books.now made.now (cutoff_of welfare claim) (word_claimed made.now.market activation.now claim) budget named) }
{
    let gated = gated_bids(alloc, &books.links, made.bids.as_slice())?;
    match numbered_tree(alloc, books, gated.as_slice(), named)? {
        Some(tree) => {
            let market = &made.market;
            let word = claimed_word(market, activation, claim);
            let cutoff = claimed_cutoff(welfare, claim);
            examine_tree(alloc, market, tree.as_slice(), cutoff, &word, budget)
        }
        None => Ok(TreeFound::BadTree),
    }
}
