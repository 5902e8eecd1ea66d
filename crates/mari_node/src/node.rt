//! What is found of one node of the search.

ghost use Rattle.std.specs.Prelude.{◌≡◌, ◌<◌, Bool, List, Option, IfOk, IfErr, IfSome, OnErr, is_some, length, true};
ghost use Rattle.mari_market.specs.declared.activation.Activation.{Activation as TheActivation};
ghost use Rattle.mari_market.specs.Finding.{IsFinding, IsRelaxedFinding};
ghost use Rattle.mari_market.specs.Market.{IsValid};
ghost use Rattle.mari_market.specs.Optimal.{IsAdmissible};
ghost use Rattle.mari_market.specs.Prefix.{word_of, bounds_at, IsFeasiblePrefix};
ghost use Rattle.mari_network.specs.Solving.{FitsOrders, NoneWithin, OfCut, IsFoundOptimum, IsWritten};
ghost use Rattle.mari_node.specs.Nodes.{best_found, bound_found, conflict_found, left_by, IsEmptyWhereNone, IsInnerNode, IsLastNode, IsLeft, IsRelaxedOptimum, IsWrittenOf};
ghost use Rattle.mari_paths.specs.Warm.{AreGated, AreOrderLadders, IsWarmStart, IsWorkspaceOf};

use crate::gates::keeps_gates;
use crate::prices::contradiction_of;
use mari_market::{Activation, Attained, Conflict, Finding, Market, Prefix, Prices, Relaxed};
use mari_paths::{
    Optimum, Places, SolveFault, Solved, WarmStart, Workspace, gated_places, optimum_from,
};
use mari_units::{Items, Memory};
use std::alloc::{AllocError, Global};

/// The solved optimum as the best activation of its node.
fn best_of(solved: Solved) -> Relaxed
    ensures { result ≡ best_found solved }
{
    Relaxed {
        potentials: solved.potentials,
        bound: solved.welfare,
        best: Some(Attained {
            activation: solved.activation,
            welfare: solved.welfare,
        }),
        conflict: None,
    }
}

/// An optimum's potentials and its welfare as a bound, and no more.
fn bound_alone(potentials: Prices, welfare: u64) -> Relaxed
    ensures { result ≡ bound_found potentials welfare }
{
    Relaxed {
        potentials,
        bound: welfare,
        best: None,
        conflict: None,
    }
}

/// The solved optimum as a conflict, by a chain of zones whose prices contradict each other.
fn conflict_by(solved: Solved, chain: Items<u32>) -> Result<Relaxed, AllocError>
    ensures { IfOk result (λ relaxed. relaxed ≡ conflict_found solved chain) }
{
    let potentials = solved.potentials.clone()?;
    Ok(Relaxed {
        potentials,
        bound: solved.welfare,
        best: None,
        conflict: Some(Conflict {
            chain,
            potentials: solved.potentials,
            activation: solved.activation,
        }),
    })
}

/// What is found where every gate is decided: the optimum runs exactly the open gates, and it is the best of its gate
/// word or shows that the word has none.
fn last_node(
    alloc: Global,
    market: &Market,
    gated: &[usize],
    places: Option<&Places>,
    optimum: Optimum,
) -> Result<Relaxed, Memory>
    requires valid { IsValid market.now }
    requires gated { AreGated market.now gated.now }
    requires ladders { IfSome places (λ p. AreOrderLadders market.now p.now) }
    requires optimum { (word : List Bool) × IsLastNode market.now word optimum }
    ensures { (word : List Bool) → IsLastNode market.now word optimum → IfOk result (IsRelaxedFinding market.now word) }
{
    let chain = contradiction_of(alloc, market, gated, places, &optimum)?;
    let solved = optimum.solved(alloc, market)?;
    match chain {
        None => Ok(best_of(solved)),
        Some(chain) => Ok(conflict_by(solved, chain)?),
    }
}

/// What is found where a gate is undecided: the optimum is the best where it is admissible, and else there is its bound
/// alone.
fn inner_node(
    alloc: Global,
    market: &Market,
    gated: &[usize],
    places: Option<&Places>,
    optimum: Optimum,
) -> Result<Relaxed, Memory>
    requires valid { IsValid market.now }
    requires gated { AreGated market.now gated.now }
    requires ladders { IfSome places (λ p. AreOrderLadders market.now p.now) }
    requires optimum { (word : List Bool) × IsInnerNode market.now word optimum }
    ensures finding { (word : List Bool) → IsInnerNode market.now word optimum → IfOk result (IsRelaxedFinding market.now word) }
    ensures best { (a : TheActivation) → IsWritten market.now optimum a → IsAdmissible market.now a → IfOk result (λ relaxed. is_some relaxed.best ≡ true) }
{
    if !keeps_gates(market, gated, &optimum) {
        return Ok(bound_alone(optimum.potentials, optimum.welfare));
    }
    match contradiction_of(alloc, market, gated, places, &optimum)? {
        None => Ok(best_of(optimum.solved(alloc, market)?)),
        Some(_chain) => Ok(bound_alone(optimum.potentials, optimum.welfare)),
    }
}

/// What is found of a prefix with a relaxed optimum.
fn relaxed_node(
    alloc: Global,
    market: &Market,
    prefix: &Prefix,
    gated: &[usize],
    places: Option<&Places>,
    optimum: Optimum,
) -> Result<Relaxed, Memory>
    requires valid { IsValid market.now }
    requires prefix { IsFeasiblePrefix market.now prefix.now }
    requires gated { AreGated market.now gated.now }
    requires ladders { IfSome places (λ p. AreOrderLadders market.now p.now) }
    requires optimum { IsRelaxedOptimum market.now (word_of prefix.now) optimum }
    ensures finding { IfOk result (IsRelaxedFinding market.now (word_of prefix.now)) }
    ensures best { (a : TheActivation) → IsWritten market.now optimum a → IsAdmissible market.now a
        → IfOk result (λ relaxed. length (word_of prefix.now) < length market.now.gates → is_some relaxed.best ≡ true) }
{
    if prefix.length as usize == market.gates.as_slice().len() {
        last_node(alloc, market, gated, places, optimum)
    } else {
        inner_node(alloc, market, gated, places, optimum)
    }
}

/// What is found of a prefix, by what the solver finds there. `gated` has the places of the orders of gates, and `places`
/// those of all orders by zone and price, where they are at hand.
fn finding_by(
    alloc: Global,
    market: &Market,
    prefix: &Prefix,
    gated: &[usize],
    places: Option<&Places>,
    found: Result<Optimum, SolveFault>,
) -> Result<Finding, Memory>
    requires valid { IsValid market.now }
    requires prefix { IsFeasiblePrefix market.now prefix.now }
    requires gated { AreGated market.now gated.now }
    requires ladders { IfSome places (λ p. AreOrderLadders market.now p.now) }
    requires found { IsFoundOptimum (bounds_at market.now prefix.now) market.now found }
    requires empty { IfErr found (λ fault. OfCut fault (λ _. NoneWithin (bounds_at market.now prefix.now) market.now)) }
    ensures finding { IfOk result (IsFinding market.now (word_of prefix.now)) }
    ensures empty { IfOk result (IsEmptyWhereNone market.now (word_of prefix.now)) }
    ensures left { (optimum start : Option TheActivation) → IsWrittenOf market.now found optimum
        → IfOk result (λ finding. IsLeft market.now (word_of prefix.now) finding start (left_by optimum start)) }
{
    match found {
        Ok(optimum) => {
            let relaxed = relaxed_node(alloc, market, prefix, gated, places, optimum)?;
            Ok(Finding::Relaxed(relaxed))
        }
        Err(SolveFault::Cut(cut)) => Ok(Finding::Empty(cut)),
        Err(SolveFault::Memory) => Err(Memory),
    }
}

/// The activation of the optimum that the solver finds, if it does.
fn activation_of(
    alloc: Global,
    market: &Market,
    found: &Result<Optimum, SolveFault>,
) -> Result<Option<Activation>, AllocError>
    requires valid { IsValid market.now }
    requires fits { IfOk found.now (FitsOrders market.now) }
    ensures { IfOk result (IsWrittenOf market.now found.now) }
{
    match found {
        Ok(optimum) => Ok(Some(optimum.activation(alloc, market)?)),
        Err(_fault) => Ok(None),
    }
}

/// Examines one node of the search, the prefix that stands there.
///
/// Where no activation lies within the prefix's bounds the finding is a cut that shows it. Else it has potentials, one
/// for each zone in cents per MWh, whose dual value is the relaxed welfare of the prefix; that value in quarter-cents,
/// or 0 where it is negative; and it may have an admissible activation. At a prefix that decides every gate the
/// activation is the best of that gate word, or a conflict shows that the word has no admissible activation. At any
/// other prefix there is no conflict, and no activation only where some optimum of that welfare isn't admissible.
pub fn examine(alloc: Global, market: &Market, prefix: &Prefix) -> Result<Finding, Memory>
    requires valid { IsValid market.now }
    requires prefix { IsFeasiblePrefix market.now prefix.now }
    ensures finding { IfOk result (IsFinding market.now (word_of prefix.now)) }
    ensures empty { IfOk result (IsEmptyWhereNone market.now (word_of prefix.now)) }
{
    let gated = gated_places(alloc, market)?;
    let found = optimum_from(alloc, market, prefix, None);
    finding_by(alloc, market, prefix, &gated, None, found)
}

/// Examines one node of the search from an activation to start with, and leaves the relaxed optimum there.
///
/// What is found is what `examine` may find, whatever the start is: of any lengths, within the prefix's bounds or not.
/// At a prefix that leaves a gate to decide there is an activation wherever the optimum that is left is admissible.
/// The start is as it was where nothing lies within the bounds, and when out of memory.
pub fn examine_from(
    alloc: Global,
    market: &Market,
    prefix: &Prefix,
    start: &mut Option<Activation>,
) -> Result<Finding, Memory>
    requires valid { IsValid market.now }
    requires prefix { IsFeasiblePrefix market.now prefix.now }
    ensures finding { IfOk result (IsFinding market.now (word_of prefix.now)) }
    ensures empty { IfOk result (IsEmptyWhereNone market.now (word_of prefix.now)) }
    ensures left { IfOk result (λ finding. IsLeft market.now (word_of prefix.now) finding start.old start.new) }
    ensures kept { OnErr result (start.new ≡ start.old) }
{
    let gated = gated_places(alloc, market)?;
    let found = optimum_from(alloc, market, prefix, start.as_ref());
    let optimum = activation_of(alloc, market, &found)?;
    let finding = finding_by(alloc, market, prefix, &gated, None, found)?;
    if optimum.is_some() {
        *start = optimum;
    }
    Ok(finding)
}

/// Examines one node of the search from a warm start of the market, in a workspace of it, and leaves no optimum.
///
/// What is found is what `examine` may find.
pub fn examine_in(
    alloc: Global,
    market: &Market,
    prefix: &Prefix,
    warm: &WarmStart,
    workspace: &mut Workspace,
) -> Result<Finding, Memory>
    requires valid { IsValid market.now }
    requires prefix { IsFeasiblePrefix market.now prefix.now }
    requires warm { IsWarmStart market.now warm.now }
    requires workspace { IsWorkspaceOf warm.now workspace.old }
    ensures finding { IfOk result (IsFinding market.now (word_of prefix.now)) }
    ensures empty { IfOk result (IsEmptyWhereNone market.now (word_of prefix.now)) }
    ensures workspace { IsWorkspaceOf warm.now workspace.new }
{
    let found = warm.optimum_in(alloc, market, prefix, workspace);
    let (gated, places) = (warm.gated(), warm.places());
    finding_by(alloc, market, prefix, gated, Some(places), found)
}

/// The same in a workspace that is made for this node alone.
pub fn examine_warm(
    alloc: Global,
    market: &Market,
    prefix: &Prefix,
    warm: &WarmStart,
) -> Result<Finding, Memory>
    requires valid { IsValid market.now }
    requires prefix { IsFeasiblePrefix market.now prefix.now }
    requires warm { IsWarmStart market.now warm.now }
    ensures finding { IfOk result (IsFinding market.now (word_of prefix.now)) }
    ensures empty { IfOk result (IsEmptyWhereNone market.now (word_of prefix.now)) }
{
    let mut workspace = warm.workspace(alloc)?;
    examine_in(alloc, market, prefix, warm, &mut workspace)
}
