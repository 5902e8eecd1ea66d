//! What becomes of an early leaf in a walk that looks for earlier activations.

ghost use Rattle.std.specs.Prelude.{◌≡◌, ◌↔◌, ℤ, IfOk, IfSome, IsTrue, pos};
ghost use Rattle.mari_market.specs.Market.{IsValid};
ghost use Rattle.mari_market.specs.Prefix.{word_of, IsFeasiblePrefix};
ghost use Rattle.mari_market.specs.Tree.{LeafHolds};
ghost use Rattle.mari_proofs.specs.Tables.{IsTableOf};
ghost use Rattle.mari_workers.specs.Alone.{best_in, without_best};
ghost use Rattle.mari_workers.specs.Refine.{fate_by, unbounded, IsAim, IsFate};
ghost use Rattle.mari_workers.specs.Root.{IsRootOf};

use crate::root::Root;
use mari_core::closing_leaf;
use mari_gates::comes_before;
use mari_market::{Activation, Attained, Finding, Leaf, Market, Prefix};
use mari_proofs::{DualTable, check_leaf, check_leaf_by};
use mari_units::{Memory, Quarters};
use std::alloc::Global;

/// What a walk looks for: activations of the optimal welfare whose gate words come before this one.
#[derive(Clone, Copy, Drop)]
pub(crate) struct Aim {
    /// The gate word.
    pub(crate) word: Prefix,
    /// The optimal welfare, in quarter-cents.
    pub(crate) welfare: u64,
    /// The most items of the tree.
    pub(crate) budget: u32,
}

/// What becomes of a leaf.
#[derive(Drop)]
pub(crate) enum Fate {
    /// It stays, or this one takes its place.
    Stays(Leaf),
    /// Its prefix branches.
    Branches(Leaf),
    /// At its prefix, which decides every gate, there is an earlier activation of the optimal welfare.
    Yields(Leaf, Activation),
}

/// What becomes of a leaf without a certificate.
fn unbounded(best: Option<Attained>, leaf: Leaf, decided: bool) -> Fate
    ensures { result ≡ unbounded best leaf decided }
{
    match best {
        Some(best) if decided => Fate::Yields(leaf, best.activation),
        _ => Fate::Branches(leaf),
    }
}

/// Takes the activation out of a finding, if it has one.
fn take_best(finding: &mut Finding) -> Option<Attained>
    ensures best { result ≡ best_in finding.old }
    ensures rest { finding.new ≡ without_best finding.old }
{
    match finding {
        Finding::Relaxed(relaxed) => relaxed.best.take(),
        Finding::Empty(_) => None,
    }
}

/// What becomes of a leaf by what is found at its prefix, where a certificate is to hold at this number.
fn fate_by(mut finding: Finding, leaf: Leaf, most: u64, decided: bool) -> Fate
    ensures { result ≡ fate_by finding leaf most decided }
{
    let best = take_best(&mut finding);
    match closing_leaf(finding, most) {
        Some(other) => Fate::Stays(other),
        None => unbounded(best, leaf, decided),
    }
}

/// A welfare as quarter-cents.
fn quarter_cents_of(welfare: u64) -> Quarters
    ensures { result.0 ≡ pos welfare }
{
    Quarters(i128::from(welfare))
}

/// Whether a leaf holds at a cutoff, tested by a table of the market where there is one.
fn holds(
    market: &Market,
    table: Option<&DualTable>,
    prefix: &Prefix,
    leaf: &Leaf,
    cutoff: Quarters,
) -> bool
    requires market { IsValid market.now }
    requires table { IfSome table (λ t. IsTableOf market.now t.now) }
    requires prefix { IsFeasiblePrefix market.now prefix.now }
    ensures { IsTrue result ↔ LeafHolds market.now cutoff.0 (word_of prefix.now) leaf.now }
{
    match table {
        None => check_leaf(market, prefix, leaf, cutoff),
        Some(table) => check_leaf_by(market, table, prefix, leaf, cutoff),
    }
}

/// Whether a leaf that holds at some cutoff holds at this one too. A cut and a conflict hold at every cutoff.
fn still_holds(
    market: &Market,
    table: Option<&DualTable>,
    prefix: &Prefix,
    leaf: &Leaf,
    cutoff: u64,
) -> bool
    requires market { IsValid market.now }
    requires table { IfSome table (λ t. IsTableOf market.now t.now) }
    requires prefix { IsFeasiblePrefix market.now prefix.now }
    requires held { (w : ℤ) × LeafHolds market.now w (word_of prefix.now) leaf.now }
    ensures { IsTrue result ↔ LeafHolds market.now (pos cutoff) (word_of prefix.now) leaf.now }
{
    match leaf {
        Leaf::Bound(_) => holds(market, table, prefix, leaf, quarter_cents_of(cutoff)),
        Leaf::Cut(_) => true,
        Leaf::Conflict(_) => true,
    }
}

/// What becomes of a leaf that holds at the welfare. It stays where it isn't early, or holds at the welfare less 1;
/// else its prefix is examined.
pub(crate) fn fate_of(
    alloc: Global,
    market: &Market,
    prefix: &Prefix,
    leaf: Leaf,
    aim: &Aim,
    table: Option<&DualTable>,
    root: &Root,
) -> Result<Fate, Memory>
    requires market { IsValid market.now }
    requires table { IfSome table (λ t. IsTableOf market.now t.now) }
    requires prefix { IsFeasiblePrefix market.now prefix.now }
    requires aim { IsAim market.now aim.now }
    requires leaf { LeafHolds market.now (pos aim.now.welfare) (word_of prefix.now) leaf }
    requires root { IsRootOf market.now root.now }
    ensures { IfOk result (IsFate market.now aim.now.welfare (word_of aim.now.word) (word_of prefix.now)) }
{
    if !comes_before(prefix, &aim.word) {
        return Ok(Fate::Stays(leaf));
    }
    let most = aim.welfare - 1;
    if still_holds(market, table, prefix, &leaf, most) {
        return Ok(Fate::Stays(leaf));
    }
    let finding = root.examine(alloc, market, prefix)?;
    let decided = prefix.length as usize == market.gates.as_slice().len();
    Ok(fate_by(finding, leaf, most, decided))
}
