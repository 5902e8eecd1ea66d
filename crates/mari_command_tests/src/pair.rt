//! A turnstile that holds a worker until another has come, and marks each worker's findings.

ghost use Rattle.std.specs.Prelude.{◌≡◌, ◌<◌, IfOk, Some};
ghost use Rattle.mari_market.specs.Finding.{IsRelaxedFinding};
ghost use Rattle.mari_market.specs.Market.{IsValid};
ghost use Rattle.mari_market.specs.Prefix.{word_of, IsFeasiblePrefix};
ghost use Rattle.mari_market.specs.Price.{ArePrices};

use mari_market::{Conflict, Finding, Leaf, Market, Prefix, Prices, Relaxed};
use mari_node::examine;
use mari_proofs::{check_leaf, dual_value};
use mari_units::{Cents, Items, Memory, Quarters};
use mari_workers::{Root, Turnstile, Workspace};
use std::alloc::{AllocError, Global};
use std::sync::atomic::{AtomicBool, AtomicU64, Ordering};
use std::thread;

/// Holds the first worker at a leaf until another has come to one, for a number of turns, and counts who comes.
#[derive(Drop)]
pub(crate) struct Pair {
    /// How many times a worker came to the root.
    pub at_the_root: AtomicU64,
    /// How many times a worker came to a leaf.
    pub at_leaves: AtomicU64,
    /// Whether a worker was let go before the other came.
    pub ran_out: AtomicBool,
    /// A bit for each of the two workers that came to a leaf.
    came: AtomicU64,
}

impl Pair {
    pub fn new() -> Pair {
        Pair {
            at_the_root: AtomicU64::new(0),
            at_leaves: AtomicU64::new(0),
            ran_out: AtomicBool::new(false),
            came: AtomicU64::new(0),
        }
    }

    fn hold(&self, worker: u32) {
        self.came.fetch_or(1 << (worker % 2), Ordering::SeqCst);
        for _ in 0..10_000_000 {
            if self.came.load(Ordering::SeqCst) == 3 {
                return;
            }
            thread::yield_now();
        }
        self.ran_out.store(true, Ordering::SeqCst);
    }
}

/// One potential.
fn one_price(alloc: Global, market: &Market, cents: u32) -> Result<Prices, AllocError>
    requires few { cents < 100000 }
    requires zone { market.now.zones ≡ 1 }
    ensures { IfOk result (λ p. ArePrices market.now p.cents) }
{
    let cents = Cents(i64::from(cents));
    Ok(Prices {
        cents: Items::of(vec![in alloc; cents]?),
    })
}

/// The finding with other potentials, where they have the same dual value.
fn with_potentials(market: &Market, prefix: &Prefix, relaxed: Relaxed, marked: Prices) -> Relaxed
    requires market { IsValid market.now }
    requires prefix { IsFeasiblePrefix market.now prefix.now }
    requires found { IsRelaxedFinding market.now (word_of prefix.now) relaxed }
    requires marked { ArePrices market.now marked.cents }
    ensures { IsRelaxedFinding market.now (word_of prefix.now) result }
{
    if dual_value(market, prefix, &marked) != dual_value(market, prefix, &relaxed.potentials) {
        return relaxed;
    }
    Relaxed {
        potentials: marked,
        ..relaxed
    }
}

/// A copy of a conflict.
fn copy_of(conflict: &Conflict) -> Result<Conflict, AllocError>
    ensures { IfOk result (λ copy. copy ≡ conflict.now) }
{
    conflict.clone()
}

/// The finding with other potentials in its conflict, where that still holds.
fn with_conflict(
    market: &Market,
    prefix: &Prefix,
    relaxed: Relaxed,
    marked: Conflict,
) -> Result<Relaxed, AllocError>
    requires market { IsValid market.now }
    requires prefix { IsFeasiblePrefix market.now prefix.now }
    requires found { IsRelaxedFinding market.now (word_of prefix.now) relaxed }
    ensures { IfOk result (IsRelaxedFinding market.now (word_of prefix.now)) }
{
    if relaxed.conflict.is_none() {
        return Ok(relaxed);
    }
    let leaf = Leaf::Conflict(copy_of(&marked)?);
    if !check_leaf(market, prefix, &leaf, Quarters(0)) {
        return Ok(relaxed);
    }
    Ok(Relaxed {
        conflict: Some(marked),
        ..relaxed
    })
}

/// The finding with potentials that name the worker.
fn marked(
    alloc: Global,
    market: &Market,
    prefix: &Prefix,
    worker: u32,
    relaxed: Relaxed,
) -> Result<Relaxed, Memory>
    requires market { IsValid market.now }
    requires prefix { IsFeasiblePrefix market.now prefix.now }
    requires found { IsRelaxedFinding market.now (word_of prefix.now) relaxed }
    ensures { IfOk result (IsRelaxedFinding market.now (word_of prefix.now)) }
{
    if market.zones != 1 || prefix.length != 1 {
        return Ok(relaxed);
    }
    match &relaxed.conflict {
        None => {
            let potentials = one_price(alloc, market, 10_000 + worker % 2)?;
            Ok(with_potentials(market, prefix, relaxed, potentials))
        }
        Some(conflict) => {
            let potentials = one_price(alloc, market, 1000 + worker % 2)?;
            let conflict = Conflict {
                potentials,
                ..copy_of(conflict)?
            };
            Ok(with_conflict(market, prefix, relaxed, conflict)?)
        }
    }
}

impl Turnstile for Pair {
    fn through(
        &self,
        alloc: Global,
        worker: u32,
        market: &Market,
        prefix: &Prefix,
        _root: &Root,
        _workspace: &mut Workspace,
    ) -> Result<Finding, Memory> {
        if prefix.length == 0 {
            self.at_the_root.fetch_add(1, Ordering::SeqCst);
        } else {
            self.at_leaves.fetch_add(1, Ordering::SeqCst);
            self.hold(worker);
        }
        match examine(alloc, market, prefix)? {
            Finding::Relaxed(relaxed) => {
                let relaxed = marked(alloc, market, prefix, worker, relaxed)?;
                Ok(Finding::Relaxed(relaxed))
            }
            Finding::Empty(cut) => Ok(Finding::Empty(cut)),
        }
    }
}
