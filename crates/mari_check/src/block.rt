//! The check of a published block.

ghost use Rattle.std.specs.Prelude.{◌≡◌, ◌≤◌, ℕ, List, Option, IfOk, IfSome, IsTrue, ◌↔◌, None, length, option_map, pos};
ghost use Rattle.mari_market.specs.Activation.{gate_word_of, welfare_of};
ghost use Rattle.mari_units.specs.declared.numbers.Cents.{Cents as TheCents};
ghost use Rattle.mari_market.specs.Market.{IsValid};
ghost use Rattle.mari_market.specs.Optimal.{IsConsistent, IsFeasible};
ghost use Rattle.mari_market.specs.Prefix.{word_of, IsFeasiblePrefix};
ghost use Rattle.mari_market.specs.Price.{ArePrices};
ghost use Rattle.mari_remain.specs.Accepted.{IsAccepted};
ghost use Rattle.mari_check.specs.Ends.{AreHeights};
ghost use Rattle.mari_check.specs.Examined.{ExaminesBlock, FindsBeforeTree};
ghost use Rattle.mari_check.specs.Faults.{FindsNumber, FindsUpTo, IsFreeOf, IsWholeWithin, NoneBelow};
ghost use Rattle.mari_remain.specs.declared.books.Books.{Books as TheBooks};
ghost use Rattle.mari_remain.specs.declared.market.RunMarket.{RunMarket as TheRunMarket};
ghost use Rattle.mari_market.specs.Tree.{TreeHoldsFor};
ghost use Rattle.mari_check.specs.Markets.{IsMadeFor};
ghost use Rattle.mari_progress.specs.Runs.{IsMarketOf};
ghost use Rattle.mari_progress.specs.Reported.{activation_of as activation_reported, prices_of as prices_reported};

use crate::areas::are_areas;
use crate::ends::{Heights, are_consistent, heights_of};
use crate::fault::Fault;
use crate::ledger::reported_ledger;
use crate::names::names_market;
use crate::pricing::{has_intervals, has_published_prices};
use crate::reported::{activation_of, areas_of, prices_of};
use crate::tree::has_shape;
use mari_gates::gate_word;
use mari_market::{Activation, Market, Prefix, Prices, TreeItem};
use mari_progress::heading;
use mari_proofs::{DualTable, FEW_ITEMS, TreeVerdict, check_tree, check_tree_by};
use mari_publish::{FullBlock, Heading};
use mari_remain::{Books, RunMarket};
use mari_settle::Ledger;
use mari_units::{Memory, Quarters};
use mari_welfare::{is_feasible, welfare};
use std::alloc::Global;

/// What the examination of a published block comes to.
#[derive(Drop)]
pub enum Examined {
    /// It has faults: the least of them.
    Faulty(Fault),
    /// It has none.
    Sound {
        /// The activation that it states.
        activation: Activation,
        /// The published prices that it states, one for each zone.
        prices: Prices,
        /// The ledger of its run.
        ledger: Ledger,
    },
}

/// What the examination of a published block comes to before its tree is looked at.
#[derive(Drop)]
pub enum BeforeTree {
    /// It has faults whose numbers are lower than those of the tree and the ledger: the least of them.
    Faulty(Fault),
    /// It has none of these.
    Sound {
        /// The activation that it states.
        activation: Activation,
        /// The published prices that it states, one for each zone.
        prices: Prices,
    },
}

/// Whether two headings are the same.
pub(crate) fn is_same_heading(reported: Heading, other: Heading) -> bool
    ensures { IsTrue result ↔ (reported ≡ other) }
{
    reported == other
}

/// A fault of the heading or of the names.
fn naming_fault(books: &Books, run: u32, made: &RunMarket, block: &FullBlock) -> Option<Fault>
    requires { 1 ≤ run }
    ensures { (also : Option (List TheCents)) (budget : Option ℕ) → FindsUpTo (IsFreeOf books.now run made.now also budget block.now) 3 result }
{
    if !is_same_heading(block.heading, heading(books, run)) {
        return Some(Fault::Heading);
    }
    if !names_market(books, made, block) {
        return Some(Fault::Lines);
    }
    None
}

/// Whether the block states the welfare of its activation.
fn has_welfare(market: &Market, activation: &Activation, block: &FullBlock) -> bool
    requires valid { IsValid market.now }
    requires feasible { IsFeasible market.now activation.now }
    ensures { IsTrue result ↔ (welfare_of market.now activation.now ≡ pos block.now.welfare) }
{
    welfare(market, activation).0 == i128::from(block.welfare)
}

/// A fault of the activation, or of its welfare.
fn trading_fault(market: &Market, block: &FullBlock, activation: &Activation) -> Option<Fault>
    requires valid { IsValid market.now }
    requires activation { activation.now ≡ activation_reported block.now }
    ensures finds { (books : TheBooks) (run : ℕ) (made : TheRunMarket) (also : Option (List TheCents)) (budget : Option ℕ) → made.market ≡ market.now
        → NoneBelow (IsFreeOf books run made also budget block.now) 3 → FindsUpTo (IsFreeOf books run made also budget block.now) 5 result }
    ensures feasible { result ≡ None → IsFeasible market.now activation.now }
{
    if !is_feasible(market, activation) {
        return Some(Fault::Infeasible);
    }
    if !has_welfare(market, activation, block) {
        return Some(Fault::Welfare);
    }
    None
}

/// A fault of the intervals, of the prices in them, or of the areas, where the prices are consistent.
fn interval_fault(
    alloc: Global,
    market: &Market,
    block: &FullBlock,
    activation: &Activation,
    heights: Heights,
) -> Result<Option<Fault>, Memory>
    requires valid { IsValid market.now }
    requires activation { activation.now ≡ activation_reported block.now }
    requires feasible { IsFeasible market.now activation.now }
    requires some { (ps : List TheCents) × IsConsistent market.now activation.now ps }
    requires heights { AreHeights market.now activation.now heights }
    ensures { (books : TheBooks) (run : ℕ) (made : TheRunMarket) (also : Option (List TheCents)) (budget : Option ℕ) → made.market ≡ market.now
        → NoneBelow (IsFreeOf books run made also budget block.now) 6 → IfOk result (FindsUpTo (IsFreeOf books run made also budget block.now) 9) }
{
    if !has_intervals(alloc, market, activation, block, heights)? {
        return Ok(Some(Fault::Interval));
    }
    if !has_published_prices(market, block) {
        return Ok(Some(Fault::Price));
    }
    let areas = areas_of(alloc, block)?;
    if !are_areas(alloc, market, activation, &areas)? {
        return Ok(Some(Fault::Area));
    }
    Ok(None)
}

/// A fault of the prices, of the intervals, of the prices in them, or of the areas. One pass over the orders gives the
/// bounds by which prices and intervals are tested.
fn pricing_fault(
    alloc: Global,
    market: &Market,
    block: &FullBlock,
    activation: &Activation,
    prices: &Prices,
) -> Result<Option<Fault>, Memory>
    requires valid { IsValid market.now }
    requires activation { activation.now ≡ activation_reported block.now }
    requires prices { prices.now.cents ≡ prices_reported block.now }
    requires feasible { IsFeasible market.now activation.now }
    ensures { (books : TheBooks) (run : ℕ) (made : TheRunMarket) (also : Option (List TheCents)) (budget : Option ℕ) → made.market ≡ market.now
        → NoneBelow (IsFreeOf books run made also budget block.now) 5 → IfOk result (FindsUpTo (IsFreeOf books run made also budget block.now) 9) }
{
    let heights = heights_of(alloc, market, activation)?;
    if !are_consistent(market, activation, prices, &heights) {
        drop(heights);
        return Ok(Some(Fault::Inconsistent));
    }
    interval_fault(alloc, market, block, activation, heights)
}

/// Whether the tree is whole, and of no more items than the budget, if there is a budget.
fn is_whole_within(market: &Market, tree: &[TreeItem], budget: Option<u32>) -> bool
    requires { IsValid market.now }
    ensures { IsTrue result ↔ IsWholeWithin market.now budget tree.now }
{
    let fits = match budget {
        Some(most) => tree.len() <= most as usize,
        None => true,
    };
    fits && has_shape(market, tree)
}

/// Whether a tree holds for the market, or the first place at which it doesn't, as `check_tree` says. The bounds of a
/// large tree are tested by a table.
fn tree_verdict(
    alloc: Global,
    market: &Market,
    tree: &[TreeItem],
    cutoff: Quarters,
    word: &Prefix,
) -> Result<TreeVerdict, Memory>
    requires valid { IsValid market.now }
    requires word { IsFeasiblePrefix market.now word.now }
    requires full { word.now.length ≡ length market.now.gates }
    ensures { IfOk result (λ verdict. (verdict ≡ TreeVerdict.Holds) ↔ TreeHoldsFor market.now cutoff.0 (word_of word.now) tree.now) }
{
    if tree.len() <= FEW_ITEMS {
        return Ok(check_tree(market, tree, cutoff, word));
    }
    let table = DualTable::of(alloc, market)?;
    Ok(check_tree_by(market, &table, tree, cutoff, word))
}

/// Whether each leaf of the tree holds at the block's welfare for the gate word of its activation.
fn has_leaves(
    alloc: Global,
    market: &Market,
    block: &FullBlock,
    activation: &Activation,
) -> Result<bool, Memory>
    requires valid { IsValid market.now }
    requires activation { activation.now ≡ activation_reported block.now }
    requires feasible { IsFeasible market.now activation.now }
    ensures { IfOk result (λ holds. IsTrue holds ↔ TreeHoldsFor market.now (pos block.now.welfare) (gate_word_of market.now (activation_reported block.now))
        block.now.tree) }
{
    let word = gate_word(market, activation);
    let cutoff = Quarters(i128::from(block.welfare));
    let verdict = tree_verdict(alloc, market, block.tree.as_slice(), cutoff, &word)?;
    Ok(verdict == TreeVerdict::Holds)
}

/// A fault of the tree's shape, or of a leaf.
fn tree_fault(
    alloc: Global,
    market: &Market,
    block: &FullBlock,
    activation: &Activation,
    budget: Option<u32>,
) -> Result<Option<Fault>, Memory>
    requires valid { IsValid market.now }
    requires activation { activation.now ≡ activation_reported block.now }
    requires feasible { IsFeasible market.now activation.now }
    ensures { (books : TheBooks) (run : ℕ) (made : TheRunMarket) (also : Option (List TheCents)) → made.market ≡ market.now
        → NoneBelow (IsFreeOf books run made also budget block.now) 9 → IfOk result (FindsUpTo (IsFreeOf books run made also budget block.now) 11) }
{
    if !is_whole_within(market, block.tree.as_slice(), budget) {
        return Ok(Some(Fault::Tree));
    }
    if !has_leaves(alloc, market, block, activation)? {
        return Ok(Some(Fault::Leaf));
    }
    Ok(None)
}

/// A fault of the activation, of its welfare, or of the prices, intervals and areas.
fn market_fault(
    alloc: Global,
    market: &Market,
    block: &FullBlock,
    activation: &Activation,
    prices: &Prices,
) -> Result<Option<Fault>, Memory>
    requires valid { IsValid market.now }
    requires activation { activation.now ≡ activation_reported block.now }
    requires prices { prices.now.cents ≡ prices_reported block.now }
    ensures { (books : TheBooks) (run : ℕ) (made : TheRunMarket) (also : Option (List TheCents)) (budget : Option ℕ) → made.market ≡ market.now
        → NoneBelow (IsFreeOf books run made also budget block.now) 3 → IfOk result (FindsUpTo (IsFreeOf books run made also budget block.now) 9) }
{
    if let Some(fault) = trading_fault(market, block, activation) {
        return Ok(Some(fault));
    }
    pricing_fault(alloc, market, block, activation, prices)
}

/// What is found of a published block of a run with this market before its tree is looked at: its least fault where that is
/// one of its heading, its lines, its activation, its welfare, its prices, intervals and areas; or what it states of these.
/// This is so whatever the scheduled prices and the budget are.
pub fn before_tree(
    alloc: Global,
    books: &Books,
    run: u32,
    made: &RunMarket,
    block: &FullBlock,
) -> Result<BeforeTree, Memory>
    requires accepted { IsAccepted books.now }
    requires run { 1 ≤ run }
    requires made { IsMarketOf books.now made.now }
    ensures { (also : Option (List TheCents)) (budget : Option ℕ) → IfOk result (FindsBeforeTree books.now run made.now also budget block.now) }
{
    if let Some(fault) = naming_fault(books, run, made, block) {
        return Ok(BeforeTree::Faulty(fault));
    }
    let activation = activation_of(alloc, block)?;
    let prices = prices_of(alloc, block)?;
    match market_fault(alloc, &made.market, block, &activation, &prices)? {
        Some(fault) => {
            drop(prices);
            drop(activation);
            Ok(BeforeTree::Faulty(fault))
        }
        None => Ok(BeforeTree::Sound { activation, prices }),
    }
}

/// What is found of a published block of a run with this market, whose quarter has these scheduled prices, or none.
pub(crate) fn examine_block(
    alloc: Global,
    books: &Books,
    run: u32,
    made: &RunMarket,
    block: &FullBlock,
    also: Option<&Prices>,
    budget: Option<u32>,
) -> Result<Examined, Memory>
    requires accepted { IsAccepted books.now }
    requires run { 1 ≤ run }
    requires made { IsMarketOf books.now made.now }
    requires also { IfSome also (λ scheduled. ArePrices made.now.market scheduled.now.cents) }
    ensures { IfOk result (ExaminesBlock books.now run made.now (option_map (λ scheduled. scheduled.now.cents) also.entry) budget block.now) }
{
    let (activation, prices) = match before_tree(alloc, books, run, made, block)? {
        BeforeTree::Faulty(fault) => return Ok(Examined::Faulty(fault)),
        BeforeTree::Sound { activation, prices } => (activation, prices),
    };
    if let Some(fault) = tree_fault(alloc, &made.market, block, &activation, budget)? {
        drop(prices);
        drop(activation);
        return Ok(Examined::Faulty(fault));
    }
    match reported_ledger(alloc, books, made, block, &prices, &activation, also)? {
        Some(ledger) => Ok(Examined::Sound {
            activation,
            prices,
            ledger,
        }),
        None => {
            drop(prices);
            drop(activation);
            Ok(Examined::Faulty(Fault::Ledger))
        }
    }
}

/// The number of the least fault of a published block, or none exactly where it has none: of its heading, its lines,
/// its activation, its welfare, its prices, intervals and areas, its tree and its ledger.
///
/// The caller gives the market, which is that of this run after any blocks of the first runs, and the scheduled
/// prices, which may be any prices of that market or none. The check of a publication takes both from the blocks
/// before the run's. The number of the tree's items isn't tested here.
pub fn check_run(
    alloc: Global,
    books: &Books,
    run: u32,
    made: &RunMarket,
    block: &FullBlock,
    also: Option<&Prices>,
) -> Result<Option<u8>, Memory>
    requires accepted { IsAccepted books.now }
    requires made { IsMadeFor books.now run made.now }
    requires also { IfSome also (λ scheduled. ArePrices made.now.market scheduled.now.cents) }
    ensures { IfOk result (FindsNumber (IsFreeOf books.now run made.now (option_map (λ scheduled. scheduled.now.cents) also.entry) None block.now)) }
{
    match examine_block(alloc, books, run, made, block, also, None)? {
        Examined::Faulty(fault) => Ok(Some(fault.number())),
        Examined::Sound {
            activation,
            prices,
            ledger,
        } => {
            drop(ledger);
            drop(prices);
            drop(activation);
            Ok(None)
        }
    }
}
