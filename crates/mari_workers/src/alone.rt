//! The search of one actor.

ghost use Rattle.std.specs.Prelude.{◌≡◌, ◌-◌, ◌≤◌, true, false, None, Some, length, slice_get, IfOk, IfSome, OnOk};
ghost use Rattle.std.specs.Option.{option_copied};
ghost use Rattle.mari_core.specs.Machine.{after, refusal, IsProper, KeepsFacts};
ghost use Rattle.mari_core.specs.Nodes.{words_of};
ghost use Rattle.mari_market.specs.Clearing.{Clears, IsBudget};
ghost use Rattle.mari_market.specs.Finding.{IsAttained};
ghost use Rattle.mari_market.specs.Market.{IsValid};
ghost use Rattle.mari_market.specs.Prefix.{word_of, IsFeasiblePrefix};
ghost use Rattle.mari_pool.specs.Queued.{IsMore};
ghost use Rattle.mari_workers.specs.Alone.{best_in, after_offer, IsAtNode, IsFinished, IsUnderWay, IsVisited};
ghost use Rattle.mari_workers.specs.Refine.{MayRefine};
ghost use Rattle.mari_workers.specs.Root.{IsRootOf, IsWorkspaceAt};

use crate::bounds::BranchBounds;
use crate::publishing::published_from;
use crate::root::Root;
use crate::rounding::best_rounded;
use mari_core::{Event, FinishFault, Search};
use mari_market::{Attained, Cleared, Clearer, Clearing, Finding, Market, Prefix, Spent};
use mari_paths::Workspace;
use mari_pool::{Queue, child_key};
use mari_units::{Items, Memory};
use std::alloc::{AllocError, Global};

/// The number of the one actor.
const ACTOR: u32 = 0;

/// The number of the node that decides no gate.
const ROOT: u32 = 0;

/// Takes a step that nothing refuses.
fn step(search: &mut Search<'_>, event: Event)
    requires proper { IsProper search.old event }
    requires accepted { refusal search.old event ≡ None }
    ensures change { search.new ≡ after search.old event }
    ensures facts { KeepsFacts search.new }
{
    let Ok(()) = search.step(event) else {
        unreachable!()
    };
}

/// The activation of a finding, if it has one.
pub(crate) fn best_of(finding: &Finding) -> Option<&Attained>
    ensures { option_copied result ≡ best_in finding.now }
{
    match finding {
        Finding::Relaxed(relaxed) => relaxed.best.as_ref(),
        Finding::Empty(_) => None,
    }
}

/// A copy of an activation and its welfare.
pub(crate) fn copy_of(attained: &Attained) -> Result<Attained, AllocError>
    ensures { IfOk result (λ copy. copy ≡ attained.now) }
{
    attained.clone()
}

/// Offers the activation of a finding, if it has one.
fn offer_found(search: &mut Search<'_>, finding: &Finding) -> Result<(), Memory>
    requires facts { KeepsFacts search.old }
    requires attained { IfSome (best_in finding.now) (IsAttained search.old.tree.market) }
    ensures offered { OnOk result (search.new ≡ after_offer search.old (best_in finding.now)) }
    ensures facts { KeepsFacts search.new }
{
    match best_of(finding) {
        Some(best) => {
            let attained = copy_of(best)?;
            let actor = ACTOR;
            step(search, Event::Offer { actor, attained });
            Ok(())
        }
        None => Ok(()),
    }
}

/// Offers what the root's optimum comes to by rounding, if that is anything.
#[tactic(auto, using(crate::proofs::Visits::offer_accepted))]
fn offer_rounded(
    alloc: Global,
    market: &Market,
    search: &mut Search<'_>,
    root: &Root,
) -> Result<(), Memory>
    requires market { search.old.tree.market ≡ market.now }
    requires root { IsRootOf market.now root.now }
    requires facts { KeepsFacts search.old }
    ensures tree { OnOk result (search.new.tree ≡ search.old.tree) }
    ensures first { OnOk result (search.new.first ≡ search.old.first) }
    ensures facts { KeepsFacts search.new }
{
    match best_rounded(alloc, market, root)? {
        Some(attained) => {
            let actor = ACTOR;
            step(search, Event::Offer { actor, attained });
            Ok(())
        }
        None => Ok(()),
    }
}

/// Takes a node, and settles it with what is found there from the root's optimum. The answer is the key of its
/// children.
///
/// What is found is offered first, so the node is settled at the greatest welfare that is known by then.
fn visit(
    alloc: Global,
    market: &Market,
    search: &mut Search<'_>,
    node: u32,
    prefix: &Prefix,
    root: &Root,
    workspace: &mut Workspace,
) -> Result<u64, Memory>
    requires waits { IsAtNode market.now search.old node }
    requires word { slice_get (words_of search.old.tree.nodes) node ≡ Some (word_of prefix.now) }
    requires feasible { IsFeasiblePrefix market.now prefix.now }
    requires root { IsRootOf market.now root.now }
    requires workspace { IsWorkspaceAt root.now workspace.old }
    ensures visited { IfOk result (λ key. IsVisited market.now search.old search.new node (word_of prefix.now) key) }
    ensures facts { KeepsFacts search.new }
    ensures workspace { IsWorkspaceAt root.now workspace.new }
{
    step(search, Event::Take { actor: ACTOR, node });
    let finding = root.examine_in(alloc, market, prefix, workspace)?;
    offer_found(search, &finding)?;
    let key = child_key(&finding);
    step(
        search,
        Event::Settle {
            actor: ACTOR,
            node,
            finding,
        },
    );
    Ok(key)
}

/// Lets the nodes that were made wait, with this key.
fn admit(search: &Search<'_>, queue: &mut Queue, key: u64)
    requires facts { KeepsFacts search.now }
    requires room { queue.old.room ≡ search.now.tree.budget }
    requires made { length queue.old.keys ≤ length search.now.tree.nodes }
    requires waiting { length queue.old.waiting ≤ length queue.old.keys }
    ensures { IsMore key (length search.now.tree.nodes - length queue.old.keys) queue.old queue.new }
{
    while search.prefix_of(queue.len()).is_some() {
        queue.add(key);
    }
}

/// Visits the nodes of a search, always the one whose parent has the greatest bound. It says whether none waits any
/// more; else one could not branch within the budget.
///
/// Of equal bounds the node that was made first is the next. Where the root branches, what its optimum comes to by
/// rounding is offered. No clause says either.
fn visit_all(
    alloc: Global,
    market: &Market,
    search: &mut Search<'_>,
    queue: &mut Queue,
    root: &Root,
) -> Result<bool, Memory>
    requires under_way { IsUnderWay market.now search.old queue.old }
    requires root { IsRootOf market.now root.now }
    ensures closed { IfOk result (λ closed. closed ≡ true → IsFinished search.new) }
    ensures spent { IfOk result (λ closed. closed ≡ false → search.new.tree.full ≡ true) }
    ensures market { OnOk result (search.new.tree.market ≡ market.now) }
    ensures budget { OnOk result (search.new.tree.budget ≡ search.old.tree.budget) }
{
    let mut workspace = root.workspace(alloc)?;
    while let Some(node) = queue.take_first() {
        let Some(prefix) = search.prefix_of(node) else {
            unreachable!()
        };
        let key = visit(alloc, market, search, node, &prefix, root, &mut workspace)?;
        if search.is_full() {
            return Ok(false);
        }
        admit(search, queue, key);
        if node == ROOT && queue.len() > 1 {
            offer_rounded(alloc, market, search, root)?;
        }
    }
    Ok(true)
}

/// The keys of a search's nodes, in preorder.
fn keys_of(alloc: Global, search: &Search<'_>, queue: &Queue) -> Result<Vec<u64>, Memory> {
    let order = search.preorder(alloc)?;
    queue.keys_of(alloc, &order)
}

/// The optimal clearing of a search whose nodes are all branched or closed. It may be refined.
fn optimum_of_search(alloc: Global, search: Search<'_>) -> Result<Clearing, Memory>
    requires { IsFinished search }
    ensures { IfOk result (MayRefine search.entry.tree.market search.entry.tree.budget) }
{
    match search.finish(alloc) {
        Ok(clearing) => Ok(clearing),
        Err(FinishFault::Memory) => Err(Memory),
        Err(FinishFault::NotClosed(_)) => unreachable!(),
    }
}

/// The part of the search tree of a search in which a node could not branch within the budget.
fn part_of_search(alloc: Global, search: Search<'_>) -> Result<Cleared, Memory>
    requires { search.tree.full ≡ true }
    ensures { IfOk result (Clears search.entry.tree.market search.entry.tree.budget) }
{
    let part = search.part(alloc);
    drop(search);
    let items = Items::of(part?);
    Ok(Cleared::Spent(Spent { items }))
}

/// The first activation's clearing of a search whose nodes are all branched or closed.
fn first_of_search(
    alloc: Global,
    market: &Market,
    search: Search<'_>,
    queue: Queue,
    budget: u32,
    root: &Root,
) -> Result<Cleared, Memory>
    requires market { IsValid market.now }
    requires root { IsRootOf market.now root.now }
    requires budget { IsBudget budget }
    requires search { (search.tree.market ≡ market.now) × (search.tree.budget ≡ budget) }
    requires finished { IsFinished search }
    ensures { IfOk result (Clears market.now budget) }
{
    let keys = keys_of(alloc, &search, &queue);
    drop(queue);
    let found = optimum_of_search(alloc, search)?;
    match BranchBounds::of(alloc, found.tree.as_slice(), keys) {
        Ok(bounds) => published_from(alloc, market, found, budget, bounds, root),
        Err(Memory) => {
            drop(found);
            Err(Memory)
        }
    }
}

/// Visits the nodes of a search, and ends it: where none waits any more there is an optimal clearing, which is refined,
/// and else a part of the search tree.
fn search_to_end(
    alloc: Global,
    market: &Market,
    mut search: Search<'_>,
    mut queue: Queue,
    budget: u32,
    root: &Root,
) -> Result<Cleared, Memory>
    requires market { IsValid market.now }
    requires root { IsRootOf market.now root.now }
    requires budget { IsBudget budget × (search.tree.budget ≡ budget) }
    requires under_way { IsUnderWay market.now search queue }
    ensures { IfOk result (Clears market.now budget) }
{
    match visit_all(alloc, market, &mut search, &mut queue, root) {
        Ok(true) => first_of_search(alloc, market, search, queue, budget, root),
        Ok(false) => {
            drop(queue);
            part_of_search(alloc, search)
        }
        Err(Memory) => {
            drop(queue);
            drop(search);
            Err(Memory)
        }
    }
}

/// Clears a market from its best activation with every gate closed.
fn cleared(alloc: Global, market: &Market, budget: u32) -> Result<Cleared, Memory>
    requires market { IsValid market.now }
    requires budget { IsBudget budget }
    ensures { IfOk result (Clears market.now budget) }
{
    let (root, first) = Root::with_first(alloc, market)?;
    let search = Search::start(alloc, market, ACTOR + 1, first, budget)?;
    let queue = Queue::start(alloc, budget)?;
    search_to_end(alloc, market, search, queue, budget, &root)
}

/// Clears a market by branch and bound on this thread, within a budget of 1 to `MOST_NODES` nodes.
///
/// The first activation comes with its welfare in quarter-cents and a certificate tree of at most the budget's items.
/// Spent comes only where the search tree is larger than the budget, with a part of it that the budget can't extend.
pub fn search_alone(alloc: Global, market: &Market, budget: u32) -> Cleared
    requires market { IsValid market.now }
    requires budget { IsBudget budget }
    ensures { Clears market.now budget result }
{
    match cleared(alloc, market, budget) {
        Ok(cleared) => cleared,
        Err(Memory) => Cleared::Memory,
    }
}

/// Clears markets by `search_alone`.
#[derive(Clone, Copy, Debug)]
pub struct Alone;

impl Clearer for Alone {
    fn clear(&mut self, alloc: Global, market: &Market, budget: u32) -> Cleared {
        search_alone(alloc, market, budget)
    }
}
