//! The search machine.

ghost use Rattle.std.specs.Prelude.{◌≡◌, ◌≢◌, ◌<◌, ◌≤◌, pos, ◌∷◌, [], true, map, length, replicate, slice_get, IfSome, IfOk, IfErr, MatchOption};
ghost use Rattle.std.specs.Option.{option_map};
ghost use Rattle.mari_market.specs.Clearing.{IsOptimalClearing, IsSpent, ArePartsOfSearch, IsBudget};
ghost use Rattle.mari_market.specs.Finding.{IsAttained};
ghost use Rattle.mari_market.specs.Market.{IsValid};
ghost use Rattle.mari_market.specs.Prefix.{word_of, IsFeasiblePrefix};
ghost use Rattle.mari_market.specs.Relaxation.{IsClosedWelfare};
ghost use Rattle.mari_market.specs.SearchTree.{IsLarger};
ghost use Rattle.mari_core.specs.Growth.{NoneWaits, IsLeastUntaken, IsRefusal};
ghost use Rattle.mari_core.specs.Machine.{started, new_actor, seeing, offering, after, refusal, IsProper, KeepsFacts, best_of};
ghost use Rattle.mari_core.specs.declared.event.Event.TheVariants.{Look, Offer, Take, Settle, GiveBack};
ghost use Rattle.mari_core.specs.declared.event.StepFault.TheVariants.{Memory as NoStepMemory};
ghost use Rattle.mari_core.specs.Nodes.{words_of};
ghost use Rattle.mari_core.specs.Preorder.{IsPart, IsPreorder, IsTree, IsOpenFault, shape_of};

use crate::event::{Event, FinishFault, StepFault};
use crate::growth::Growth;
use mari_market::{Attained, Clearing, Finding, Market, PartItem, Prefix};
use mari_units::{Items, Memory};
use std::alloc::Global;
use std::marker::Model;

/// What an actor saw and offered, in quarter-cents, and the best activation that it has.
#[derive(Drop)]
pub struct Actor {
    /// The greatest welfare that it has seen of the incumbent.
    pub seen: u64,
    /// The greatest welfare that it has offered, or the first activation's.
    pub offered: u64,
    /// The activation of that welfare, if it has offered one above the first.
    pub best: Option<Attained>,
}

/// A search by branch and bound: actors look at the incumbent, offer activations, and take and settle the nodes of a
/// tree.
///
/// The incumbent is the greatest welfare that is known, in quarter-cents. Actors and nodes count from 0.
#[derive(Drop)]
pub struct Search<'m> {
    tree: Growth<'m>,
    incumbent: u64,
    actors: Vec<Actor>,
    first: Attained,
}

impl<'m> Model for Search<'m> {
    ghost use Rattle.mari_core.specs.Machine.{Machine, KeepsFacts};

    ghost Value = { Machine };

    ghost view = { λ s. record { tree = s.tree; incumbent = s.incumbent; actors = s.actors.items; first = s.first } };

    ghost invariant = { λ s. KeepsFacts (record { tree = s.tree; incumbent = s.incumbent; actors = s.actors.items; first = s.first }) };
}

/// Actors that saw and offered nothing above this welfare.
fn new_actors(alloc: Global, count: u32, welfare: u64) -> Result<Vec<Actor>, Memory>
    ensures { IfOk result (λ v. v.items ≡ replicate count (new_actor welfare)) }
{
    let mut actors = Vec::new(alloc);
    for _ in 0..count {
        actors.push(Actor {
            seen: welfare,
            offered: welfare,
            best: None,
        })?;
    }
    Ok(actors)
}

/// The best of the first actor that offered the incumbent, or the first activation where none did.
fn best_of(incumbent: u64, first: Attained, actors: Vec<Actor>) -> Attained
    ensures { result ≡ best_of incumbent first actors.items }
{
    for actor in actors {
        if actor.offered == incumbent {
            return actor.best.unwrap_or(first);
        }
    }
    first
}

impl Actor {
    /// It looks at the incumbent.
    fn look(&mut self, incumbent: u64)
        ensures { self.new ≡ seeing incumbent self.old }
    {
        self.seen = incumbent;
    }

    /// It offers an activation, by which the incumbent rises to this one.
    fn offer(&mut self, incumbent: u64, attained: Attained)
        ensures { self.new ≡ offering incumbent attained self.old }
    {
        self.seen = incumbent;
        if self.offered < attained.welfare {
            self.offered = attained.welfare;
            self.best = Some(attained);
        }
    }
}

impl<'m> Search<'m> {
    /// A search whose one node waits, by `actors` actors, that knows `first`, an admissible activation of the closed
    /// welfare.
    pub fn start(
        alloc: Global,
        market: &'m Market,
        actors: u32,
        first: Attained,
        budget: u32,
    ) -> Result<Search<'m>, Memory>
        // A market, somebody to search it, and an admissible activation of its closed welfare.
        requires market { IsValid market.now }
        requires actors { 1 ≤ actors }
        requires attained { IsAttained market.now first }
        requires closed { IsClosedWelfare market.now (pos first.welfare) }
        requires budget { IsBudget budget }

        // One node that waits, and nothing seen or offered above that activation.
        ensures started { IfOk result (λ s. s ≡ started market.now actors first budget) }
        ensures facts { IfOk result KeepsFacts }
    {
        let incumbent = first.welfare;
        let tree = Growth::start(alloc, market, budget)?;
        let actors = new_actors(alloc, actors, incumbent)?;
        Ok(Search {
            tree,
            incumbent,
            actors,
            first,
        })
    }

    /// One step of an actor. After a refusal the search is as before.
    ///
    /// An offer is an admissible activation with its welfare. A finding is one that `mari_node::examine` gives for
    /// that node, and where the node decides every gate and no conflict was found the actor has seen at least its
    /// bound, as after an offer of what was found. No step takes memory.
    pub fn step(&mut self, event: Event) -> Result<(), StepFault>
        requires { IsProper self.old event }
        ensures change { IfOk result (λ _. self.new ≡ after self.old event) }
        ensures same { IfErr result (λ _. self.new ≡ self.old) }
        ensures answer { IsRefusal (refusal self.old event) result }
        ensures memory { IfErr result (λ fault. fault ≢ NoStepMemory) }
        ensures facts { KeepsFacts self.new }
    {
        if event.actor() as usize >= self.actors.len() {
            drop(event);
            return Err(StepFault::NoActor);
        }
        match event {
            Event::Look { actor } => self.look(actor),
            Event::Offer { actor, attained } => self.offer(actor, attained),
            Event::Take { actor, node } => self.take(actor, node),
            Event::Settle {
                actor,
                node,
                finding,
            } => self.settle(actor, node, finding),
            Event::GiveBack { actor, node } => self.give_back(actor, node),
        }
    }

    /// An actor looks at the incumbent.
    fn look(&mut self, actor: u32) -> Result<(), StepFault>
        requires there { actor < length self.old.actors }
        ensures change { IfOk result (λ _. self.new ≡ after self.old (Look actor)) }
        ensures same { IfErr result (λ _. self.new ≡ self.old) }
        ensures answer { IsRefusal (refusal self.old (Look actor)) result }
        ensures memory { IfErr result (λ fault. fault ≢ NoStepMemory) }
        ensures facts { KeepsFacts self.new }
    {
        let by = &mut self.actors[actor as usize];
        by.look(self.incumbent);
        Ok(())
    }

    /// An actor offers an admissible activation.
    fn offer(&mut self, actor: u32, attained: Attained) -> Result<(), StepFault>
        // The actor is there, and what it hands in is true of the market.
        requires there { actor < length self.old.actors }
        requires attained { IsAttained self.old.tree.market attained }

        // What the event changes, or why nothing does; no step takes memory.
        ensures change { IfOk result (λ _. self.new ≡ after self.old (Offer actor attained)) }
        ensures same { IfErr result (λ _. self.new ≡ self.old) }
        ensures answer { IsRefusal (refusal self.old (Offer actor attained)) result }
        ensures memory { IfErr result (λ fault. fault ≢ NoStepMemory) }

        // What every event keeps.
        ensures facts { KeepsFacts self.new }
    {
        self.incumbent = self.incumbent.max(attained.welfare);
        let by = &mut self.actors[actor as usize];
        by.offer(self.incumbent, attained);
        Ok(())
    }

    /// An actor takes a node that waits.
    fn take(&mut self, actor: u32, node: u32) -> Result<(), StepFault>
        requires there { actor < length self.old.actors }
        ensures change { IfOk result (λ _. self.new ≡ after self.old (Take actor node)) }
        ensures same { IfErr result (λ _. self.new ≡ self.old) }
        ensures answer { IsRefusal (refusal self.old (Take actor node)) result }
        ensures memory { IfErr result (λ fault. fault ≢ NoStepMemory) }
        ensures facts { KeepsFacts self.new }
    {
        self.tree.take(actor, node)
    }

    /// An actor settles a node that it has taken, at what it saw of the incumbent.
    fn settle(&mut self, actor: u32, node: u32, finding: Finding) -> Result<(), StepFault>
        // The actor is there, and what it hands in is true of the market.
        requires there { actor < length self.old.actors }
        requires proper { IsProper self.old (Settle actor node finding) }

        // What the event changes, or why nothing does; no step takes memory.
        ensures change { IfOk result (λ _. self.new ≡ after self.old (Settle actor node finding)) }
        ensures same { IfErr result (λ _. self.new ≡ self.old) }
        ensures answer { IsRefusal (refusal self.old (Settle actor node finding)) result }
        ensures memory { IfErr result (λ fault. fault ≢ NoStepMemory) }

        // What every event keeps.
        ensures facts { KeepsFacts self.new }
    {
        let cutoff = self.actors[actor as usize].seen;
        self.tree.settle(actor, node, finding, cutoff)?;
        Ok(())
    }

    /// An actor gives back a node that it has taken.
    fn give_back(&mut self, actor: u32, node: u32) -> Result<(), StepFault>
        requires there { actor < length self.old.actors }
        ensures change { IfOk result (λ _. self.new ≡ after self.old (GiveBack actor node)) }
        ensures same { IfErr result (λ _. self.new ≡ self.old) }
        ensures answer { IsRefusal (refusal self.old (GiveBack actor node)) result }
        ensures memory { IfErr result (λ fault. fault ≢ NoStepMemory) }
        ensures facts { KeepsFacts self.new }
    {
        self.tree.give_back(actor, node)
    }

    /// The least number of a node that waits.
    /// Searches take the node of the greatest bound, by a queue; this one is the machine's own.
    pub fn untaken(&self) -> Option<u32>
        ensures { MatchOption result (NoneWaits self.now.tree.nodes) (IsLeastUntaken self.now.tree.nodes) }
    {
        self.tree.untaken()
    }

    /// The prefix of a node, if there is one of that number.
    pub fn prefix_of(&self, node: u32) -> Option<Prefix>
        ensures word { option_map (λ p. word_of p) result ≡ slice_get (words_of self.now.tree.nodes) node }
        ensures feasible { IfSome result (IsFeasiblePrefix self.now.tree.market) }
    {
        self.tree.prefix_of(node)
    }

    /// What an actor saw of the incumbent, in quarter-cents, if there is one of that number.
    pub fn seen(&self, actor: u32) -> Option<u64>
        ensures { result ≡ option_map (λ a. a.seen) (slice_get self.now.actors actor) }
    {
        if (actor as usize) < self.actors.len() {
            Some(self.actors[actor as usize].seen)
        } else {
            None
        }
    }

    /// Whether some node could not branch within the budget.
    pub fn is_full(&self) -> bool
        ensures full { result ≡ self.now.tree.full }
        ensures larger { result ≡ true → IsLarger self.now.tree.market self.now.tree.budget }
    {
        self.tree.is_full()
    }

    /// The numbers of all nodes in preorder.
    pub fn preorder(&self, alloc: Global) -> Result<Vec<u32>, Memory>
        ensures { IfOk result (λ v. IsPreorder self.now.tree.nodes v.items) }
    {
        self.tree.preorder(alloc)
    }

    /// The nodes in preorder: branched, closed, or neither. Where the search is full they are a part of the search
    /// tree that the budget can't extend.
    pub fn part(&self, alloc: Global) -> Result<Vec<PartItem>, Memory>
        ensures part { IfOk result (λ v. IsPart self.now.tree.nodes v.items) }
        ensures search { IfOk result (λ v. ArePartsOfSearch self.now.tree.market ([] ∷ []) v.items) }
        ensures count { IfOk result (λ v. length v.items ≡ length self.now.tree.nodes) }
        ensures spent { self.now.tree.full ≡ true → IfOk result (λ v. IsSpent self.now.tree.market self.now.tree.budget (record { items = v.items })) }
    {
        self.tree.part(alloc)
    }

    /// An optimal activation and the tree that shows it, where each node is branched or closed. The search is gone
    /// then.
    pub fn finish(self, alloc: Global) -> Result<Clearing, FinishFault>
        // The optimum: the best that any actor had, or what the search started from.
        ensures clearing { IfOk result (λ c. IsOptimalClearing self.entry.tree.market self.entry.tree.budget c) }
        ensures welfare { IfOk result (λ c. c.welfare ≡ self.entry.incumbent) }
        ensures activation { IfOk result (λ c. c.activation ≡ (best_of self.entry.incumbent self.entry.first self.entry.actors).activation) }
        ensures first { self.entry.incumbent ≡ self.entry.first.welfare → IfOk result (λ c. c.activation ≡ self.entry.first.activation) }

        // The tree that shows it.
        ensures tree { IfOk result (λ c. IsTree self.entry.tree.nodes c.tree) }
        ensures search { IfOk result (λ c. ArePartsOfSearch self.entry.tree.market ([] ∷ []) (map shape_of c.tree)) }

        // Why there is none yet.
        ensures not_closed { IfErr result (IsOpenFault self.entry.tree.nodes) }
    {
        let Search {
            tree,
            incumbent,
            actors,
            first,
        } = self;
        let tree = tree.finish(alloc)?;
        let best = best_of(incumbent, first, actors);
        Ok(Clearing {
            activation: best.activation,
            welfare: incumbent,
            tree: Items::of(tree),
        })
    }
}
