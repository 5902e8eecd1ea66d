//! Where workers get their findings.

ghost use Rattle.std.specs.Prelude.{IfOk};
ghost use Rattle.mari_market.specs.Finding.{IsFinding};
ghost use Rattle.mari_market.specs.Market.{IsValid};
ghost use Rattle.mari_market.specs.Prefix.{word_of, IsFeasiblePrefix};
ghost use Rattle.mari_node.specs.Nodes.{IsEmptyWhereNone};
ghost use Rattle.mari_workers.specs.Root.{IsRootOf, IsWorkspaceAt};

use crate::root::Root;
use mari_market::{Finding, Market, Prefix};
use mari_paths::Workspace;
use mari_units::Memory;
use std::alloc::Global;

/// Whatever examines nodes for workers. It may hold a worker, and may find other potentials than `mari_node::examine`.
pub trait Turnstile: Sync {
    /// The finding of a node, as `mari_node::examine` promises it. The search's root has one: `root.examine_in`,
    /// in the worker's workspace.
    fn through(
        &self,
        alloc: Global,
        worker: u32,
        market: &Market,
        prefix: &Prefix,
        root: &Root,
        workspace: &mut Workspace,
    ) -> Result<Finding, Memory>
        requires valid { IsValid market.now }
        requires prefix { IsFeasiblePrefix market.now prefix.now }
        requires root { IsRootOf market.now root.now }
        requires workspace { IsWorkspaceAt root.now workspace.old }
        ensures finding { IfOk result (IsFinding market.now (word_of prefix.now)) }
        ensures empty { IfOk result (IsEmptyWhereNone market.now (word_of prefix.now)) }
        ensures workspace { IsWorkspaceAt root.now workspace.new };
}

/// Lets every worker through at once.
#[derive(Clone, Copy, Debug)]
pub struct FreeTurnstile;

impl Turnstile for FreeTurnstile {
    fn through(
        &self,
        alloc: Global,
        _worker: u32,
        market: &Market,
        prefix: &Prefix,
        root: &Root,
        workspace: &mut Workspace,
    ) -> Result<Finding, Memory> {
        root.examine_in(alloc, market, prefix, workspace)
    }
}
