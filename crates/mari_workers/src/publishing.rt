//! What is published of an optimal clearing: the first activation, as the examination of its gate word finds it.

ghost use Rattle.std.specs.Prelude.{◌≡◌, IfOk};
ghost use Rattle.mari_market.specs.Activation.{gate_word_of, welfare_of};
ghost use Rattle.mari_market.specs.Clearing.{Clears, IsBudget};
ghost use Rattle.mari_market.specs.Market.{IsValid};
ghost use Rattle.mari_market.specs.Optimal.{IsAdmissible, IsOptimal};
ghost use Rattle.mari_market.specs.Prefix.{word_of, IsFeasiblePrefix};
ghost use Rattle.mari_workers.specs.Refine.{HasNodes, MayRefine};
ghost use Rattle.mari_workers.specs.Root.{IsRootOf};

use crate::bounds::BranchBounds;
use crate::cutting::cut_back;
use crate::refining::refined_from;
use crate::root::Root;
use mari_gates::{empty_prefix, gate_word};
use mari_market::{Activation, Cleared, Clearing, Finding, Market, Prefix, Relaxed};
use mari_units::Memory;
use std::alloc::Global;

/// The activation that the examination of an optimal one's gate word finds. Where that opens no gate it is the one
/// given: the best with every gate closed, from which the search started.
///
/// Of the optimal activations of one gate word many may be found, each at another prefix; this one rests on the market
/// alone. No clause says so; tests compare what is published.
fn of_its_word(
    alloc: Global,
    market: &Market,
    word: &Prefix,
    activation: Activation,
    root: &Root,
) -> Result<Activation, Memory>
    // An optimal activation, and its gate word.
    requires market { IsValid market.now }
    requires root { IsRootOf market.now root.now }
    requires optimal { IsOptimal market.now activation }
    requires word { word_of word.now ≡ gate_word_of market.now activation }
    requires feasible { IsFeasiblePrefix market.now word.now }

    // One of the same gate word, which is as good.
    ensures admissible { IfOk result (IsAdmissible market.now) }
    ensures gates { IfOk result (λ a. gate_word_of market.now a ≡ gate_word_of market.now activation) }
    ensures welfare { IfOk result (λ a. welfare_of market.now a ≡ welfare_of market.now activation) }
{
    if word.bits == empty_prefix().bits {
        return Ok(activation);
    }
    let Finding::Relaxed(relaxed) = root.examine(alloc, market, word)? else {
        unreachable!()
    };
    let Relaxed { best, .. } = relaxed;
    match best {
        Some(best) => Ok(best.activation),
        None => unreachable!(),
    }
}

/// The clearing of the first activation, from that of an optimal one whose tree is cut back before it is refined. The
/// bounds are those of the tree's branches, and become those of the new one's.
fn cut_and_refined(
    alloc: Global,
    market: &Market,
    found: Clearing,
    budget: u32,
    bounds: &mut BranchBounds,
    root: &Root,
) -> Result<Cleared, Memory>
    requires market { IsValid market.now }
    requires root { IsRootOf market.now root.now }
    requires budget { IsBudget budget }
    requires found { MayRefine market.now budget found }
    ensures law { IfOk result (Clears market.now budget) }
    ensures nodes { IfOk result (HasNodes market.now) }
{
    let Clearing {
        activation,
        welfare,
        tree,
    } = found;
    match cut_back(alloc, market, tree, bounds, welfare, root) {
        Ok(tree) => {
            let cut = Clearing {
                activation,
                welfare,
                tree,
            };
            refined_from(alloc, market, cut, budget, bounds, root)
        }
        Err(Memory) => {
            drop(activation);
            Err(Memory)
        }
    }
}

/// The same, where a tree that was refined for a later gate word than the first is cut back and refined again.
///
/// So the tree rests on the market alone: its branches are those whose own certificate doesn't close them, at the
/// welfare or, where they are early for the first gate word, at that less 1. No clause says so; tests compare trees.
fn cut_and_refined_to_end(
    alloc: Global,
    market: &Market,
    found: Clearing,
    budget: u32,
    bounds: &mut BranchBounds,
    root: &Root,
) -> Result<Cleared, Memory>
    requires market { IsValid market.now }
    requires root { IsRootOf market.now root.now }
    requires budget { IsBudget budget }
    requires found { MayRefine market.now budget found }
    ensures { IfOk result (Clears market.now budget) }
{
    let word = gate_word(market, &found.activation);
    match cut_and_refined(alloc, market, found, budget, bounds, root)? {
        Cleared::Published(first) => {
            if gate_word(market, &first.activation) == word {
                Ok(Cleared::Published(first))
            } else {
                cut_and_refined(alloc, market, first, budget, bounds, root)
            }
        }
        spent => Ok(spent),
    }
}

/// The clearing of the first activation, from that of an optimal one whose tree has only nodes of the search tree.
/// Prefixes are examined from the root's optimum, and what was found at the tree's branches are its bounds.
pub(crate) fn published_from(
    alloc: Global,
    market: &Market,
    found: Clearing,
    budget: u32,
    mut bounds: BranchBounds,
    root: &Root,
) -> Result<Cleared, Memory>
    requires market { IsValid market.now }
    requires root { IsRootOf market.now root.now }
    requires budget { IsBudget budget }
    requires found { MayRefine market.now budget found }
    ensures { IfOk result (Clears market.now budget) }
{
    let cleared = cut_and_refined_to_end(alloc, market, found, budget, &mut bounds, root);
    drop(bounds);
    match cleared? {
        Cleared::Published(clearing) => {
            let Clearing {
                activation,
                welfare,
                tree,
            } = clearing;
            let word = gate_word(market, &activation);
            match of_its_word(alloc, market, &word, activation, root) {
                Ok(activation) => Ok(Cleared::Published(Clearing {
                    activation,
                    welfare,
                    tree,
                })),
                Err(Memory) => {
                    drop(tree);
                    Err(Memory)
                }
            }
        }
        spent => Ok(spent),
    }
}
