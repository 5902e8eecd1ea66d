//! The check of an activation by a certificate tree for each island.

ghost use Rattle.std.specs.Prelude.{◌≡◌, ◌↔◌, ◌<◌, IfOk, IsTrue, length, map, slice_index};
ghost use Rattle.std.specs.List.{All, AllZip};
ghost use Rattle.mari_market.specs.First.{IsFirst};
ghost use Rattle.mari_market.specs.Market.{IsValid};
ghost use Rattle.mari_market.specs.Optimal.{IsAdmissible, IsFeasible};
ghost use Rattle.mari_market.specs.Sums.{int_at};
ghost use Rattle.mari_islands.specs.Checked.{AreCertified, HoldsFor, HoldsInIsland, IsSumOfIslands};
ghost use Rattle.mari_islands.specs.Islands.{AreIslands};
ghost use Rattle.mari_islands.specs.Lists.{lists_of};
ghost use Rattle.mari_islands.specs.Part.{activation_in as activation_there};

use crate::islands::Island;
use mari_gates::gate_word;
use mari_market::{Activation, Market, TreeItem};
use mari_prices::contradiction;
use mari_proofs::{TreeVerdict, check_tree};
use mari_units::{Items, Memory};
use mari_welfare::{is_feasible, welfare};
use std::alloc::{AllocError, Global};

/// The quantities of these numbers.
fn quantities_of(alloc: Global, mw: &[u32], numbers: &[u32]) -> Result<Vec<u32>, AllocError>
    requires { All (λ k. k < length mw.now) numbers.now }
    ensures { IfOk result (λ own. own.items ≡ map (slice_index mw.now) numbers.now) }
{
    let mut own = Vec::new(alloc);
    for number in numbers {
        own.push(mw[*number as usize])?;
    }
    Ok(own)
}

/// The flows of these numbers.
fn flows_of(alloc: Global, flow: &[i64], numbers: &[u32]) -> Result<Vec<i64>, AllocError>
    requires { All (λ k. k < length flow.now) numbers.now }
    ensures { IfOk result (λ own. own.items ≡ map (int_at flow.now) numbers.now) }
{
    let mut own = Vec::new(alloc);
    for number in numbers {
        own.push(flow[*number as usize])?;
    }
    Ok(own)
}

/// What an activation of the whole is in an island.
fn activation_in(
    alloc: Global,
    island: &Island,
    activation: &Activation,
) -> Result<Activation, AllocError>
    requires orders { All (λ k. k < length activation.now.mw) island.now.orders }
    requires borders { All (λ k. k < length activation.now.flow) island.now.borders }
    ensures { IfOk result (λ own. own ≡ activation_there island.now activation.now) }
{
    let mw = quantities_of(alloc, activation.mw.as_slice(), island.orders.as_slice())?;
    let flow = flows_of(alloc, activation.flow.as_slice(), island.borders.as_slice())?;
    Ok(Activation {
        mw: Items::of(mw),
        flow: Items::of(flow),
    })
}

/// Whether some prices are consistent with a feasible activation: where `contradiction` of `mari_prices` finds no
/// chain.
fn has_prices(alloc: Global, market: &Market, activation: &Activation) -> Result<bool, Memory>
    requires valid { IsValid market.now }
    requires feasible { IsFeasible market.now activation.now }
    ensures { IfOk result (λ is. IsTrue is ↔ IsAdmissible market.now activation.now) }
{
    let chain = contradiction(alloc, market, activation)?;
    Ok(chain.is_none())
}

/// Whether a tree holds at the welfare of a feasible activation, for its gate word.
fn holds_for(market: &Market, activation: &Activation, tree: &[TreeItem]) -> bool
    requires valid { IsValid market.now }
    requires feasible { IsFeasible market.now activation.now }
    ensures { IsTrue result ↔ HoldsFor market.now activation.now tree.now }
{
    let word = gate_word(market, activation);
    let reached = welfare(market, activation);
    check_tree(market, tree, reached, &word) == TreeVerdict::Holds
}

/// Whether the tree of an island holds for what the activation is there.
fn holds_in_island(
    alloc: Global,
    island: &Island,
    activation: &Activation,
    tree: &[TreeItem],
) -> Result<bool, Memory>
    requires valid { IsValid island.now.market }
    requires feasible { IsFeasible island.now.market (activation_there island.now activation.now) }
    requires orders { All (λ k. k < length activation.now.mw) island.now.orders }
    requires borders { All (λ k. k < length activation.now.flow) island.now.borders }
    ensures { IfOk result (λ holds. IsTrue holds ↔ HoldsInIsland activation.now island.now tree.now) }
{
    let own = activation_in(alloc, island, activation)?;
    Ok(holds_for(&island.market, &own, tree))
}

/// Whether the tree of each island holds for what the activation is there.
fn hold_in_islands(
    alloc: Global,
    market: &Market,
    islands: &[Island],
    activation: &Activation,
    trees: &[Vec<TreeItem>],
) -> Result<bool, Memory>
    requires valid { IsValid market.now }
    requires islands { AreIslands market.now islands.now }
    requires feasible { IsFeasible market.now activation.now }
    requires lengths { length trees.now ≡ length islands.now }
    ensures { IfOk result (λ hold. IsTrue hold ↔ AllZip (HoldsInIsland activation.now) islands.now (lists_of trees.now)) }
{
    for (place, island) in islands.iter().enumerate() {
        if !holds_in_island(alloc, island, activation, &trees[place])? {
            return Ok(false);
        }
    }
    Ok(true)
}

/// Whether an activation of the whole market is feasible, with some consistent prices, and there is one tree for each
/// island, which holds at the welfare of what the activation is there, for its gate word.
///
/// Such an activation is the first of the whole market. Nothing of a search is trusted.
pub fn check_islands(
    alloc: Global,
    market: &Market,
    islands: &[Island],
    activation: &Activation,
    trees: &[Vec<TreeItem>],
) -> Result<bool, Memory>
    requires valid { IsValid market.now }
    requires islands { AreIslands market.now islands.now }
    ensures certified { IfOk result (λ is. IsTrue is ↔ AreCertified market.now islands.now activation.now (lists_of trees.now)) }

    // Then the activation is first, and its welfare the sum of the islands'.
    ensures first { IfOk result (λ is. IsTrue is → IsFirst market.now activation.now) }
    ensures welfare { IfOk result (λ is. IsTrue is → IsSumOfIslands market.now islands.now activation.now) }
{
    if trees.len() != islands.len() || !is_feasible(market, activation) {
        return Ok(false);
    }
    if !has_prices(alloc, market, activation)? {
        return Ok(false);
    }
    let hold = hold_in_islands(alloc, market, islands, activation, trees)?;
    Ok(hold)
}
