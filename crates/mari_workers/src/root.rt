//! Where the examinations of a search begin.

ghost use Rattle.std.specs.Prelude.{◌≡◌, pos, IfOk};
ghost use Rattle.mari_market.specs.Activation.{gate_word_of};
ghost use Rattle.mari_market.specs.Finding.{IsAttained, IsFinding};
ghost use Rattle.mari_market.specs.Market.{IsValid};
ghost use Rattle.mari_market.specs.Prefix.{word_of, IsFeasiblePrefix};
ghost use Rattle.mari_market.specs.Relaxation.{all_closed, IsClosedWelfare};
ghost use Rattle.mari_node.specs.Nodes.{IsEmptyWhereNone};
ghost use Rattle.mari_workers.specs.Closed.{IsClosedOptimum};
ghost use Rattle.mari_workers.specs.Root.{IsRootOf, IsWorkspaceAt};

use crate::alone::copy_of;
use crate::first::{ClosedOptimum, closed_optimum};
use mari_gates::empty_prefix;
use mari_market::{Activation, Attained, Finding, Market, Prefix};
use mari_node::{examine_from, examine_in};
use mari_paths::{WarmStart, Workspace};
use mari_units::Memory;
use std::alloc::Global;

/// What the examinations of a search begin with.
#[derive(Drop)]
enum Ahead {
    /// What is found at the one prefix of a market without gates. An examination from its activation would find the
    /// same: nothing would be left to improve, and then potentials rest on what runs, not on how that was found. No
    /// clause says so.
    Known(ClosedOptimum),
    /// Where there are gates, a relaxed optimum of the root, and what every examination begins with, made of it once.
    Warm {
        optimum: Activation,
        start: WarmStart,
    },
}

/// A relaxed optimum of the root, from which every prefix of a search is examined. So what is found at a prefix rests
/// on the market and the prefix, and not on what was examined before. No clause says so; tests compare what is found.
///
/// A market without gates has one prefix, which is examined once: what is found there is known when a search starts.
#[derive(Drop)]
pub struct Root {
    ahead: Ahead,
}

impl Root {
    /// The root's optimum that is found from the best activation with every gate closed. Without gates it is that one.
    fn of(alloc: Global, market: &Market, closed: ClosedOptimum) -> Result<Root, Memory>
        requires market { IsValid market.now }
        requires closed { IsClosedOptimum market.now closed }
        ensures { IfOk result (IsRootOf market.now) }
    {
        if market.gates.as_slice().is_empty() {
            let ahead = Ahead::Known(closed);
            return Ok(Root { ahead });
        }
        let ClosedOptimum { first, .. } = closed;
        let mut start = Some(first.activation);
        examine_from(alloc, market, &empty_prefix(), &mut start)?;
        let Some(optimum) = start else { unreachable!() };
        let start = WarmStart::of(alloc, market, Some(&optimum))?;
        let ahead = Ahead::Warm { optimum, start };
        Ok(Root { ahead })
    }

    /// The root of a market.
    pub(crate) fn find(alloc: Global, market: &Market) -> Result<Root, Memory>
        requires { IsValid market.now }
        ensures { IfOk result (IsRootOf market.now) }
    {
        let closed = closed_optimum(alloc, market)?;
        Root::of(alloc, market, closed)
    }

    /// The root of a market, with its best activation with every gate closed, from which a search starts.
    pub(crate) fn with_first(alloc: Global, market: &Market) -> Result<(Root, Attained), Memory>
        requires { IsValid market.now }
        ensures root { IfOk result (λ found. IsRootOf market.now found.0) }
        ensures attained { IfOk result (λ found. IsAttained market.now found.1) }
        ensures closed { IfOk result (λ found. IsClosedWelfare market.now (pos found.1.welfare)) }
        ensures gates { IfOk result (λ found. gate_word_of market.now found.1.activation ≡ all_closed market.now) }
    {
        let closed = closed_optimum(alloc, market)?;
        let first = copy_of(&closed.first)?;
        let root = Root::of(alloc, market, closed)?;
        Ok((root, first))
    }

    /// The optimum.
    pub(crate) fn optimum(&self) -> &Activation {
        match &self.ahead {
            Ahead::Known(closed) => &closed.first.activation,
            Ahead::Warm { optimum, .. } => optimum,
        }
    }

    /// A workspace for examinations from it, one after the other.
    pub fn workspace(&self, alloc: Global) -> Result<Workspace, Memory>
        ensures { IfOk result (IsWorkspaceAt self.now) }
    {
        match &self.ahead {
            Ahead::Known(_) => Ok(Workspace::empty(alloc)),
            Ahead::Warm { start, .. } => Ok(start.workspace(alloc)?),
        }
    }

    /// Examines a prefix of the market from it, in a workspace, which may be used again.
    pub fn examine_in(
        &self,
        alloc: Global,
        market: &Market,
        prefix: &Prefix,
        workspace: &mut Workspace,
    ) -> Result<Finding, Memory>
        requires market { IsValid market.now }
        requires prefix { IsFeasiblePrefix market.now prefix.now }
        requires root { IsRootOf market.now self.now }
        requires workspace { IsWorkspaceAt self.now workspace.old }
        ensures finding { IfOk result (IsFinding market.now (word_of prefix.now)) }
        ensures empty { IfOk result (IsEmptyWhereNone market.now (word_of prefix.now)) }
        ensures workspace { IsWorkspaceAt self.now workspace.new }
    {
        match &self.ahead {
            Ahead::Known(closed) => Ok(closed.finding()?),
            Ahead::Warm { start, .. } => examine_in(alloc, market, prefix, start, workspace),
        }
    }

    /// Examines a prefix of the market from it, in a workspace of its own.
    pub fn examine(
        &self,
        alloc: Global,
        market: &Market,
        prefix: &Prefix,
    ) -> Result<Finding, Memory>
        requires market { IsValid market.now }
        requires prefix { IsFeasiblePrefix market.now prefix.now }
        requires root { IsRootOf market.now self.now }
        ensures finding { IfOk result (IsFinding market.now (word_of prefix.now)) }
        ensures empty { IfOk result (IsEmptyWhereNone market.now (word_of prefix.now)) }
    {
        let mut workspace = self.workspace(alloc)?;
        self.examine_in(alloc, market, prefix, &mut workspace)
    }
}
