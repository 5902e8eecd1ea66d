//! A part of the search tree that grows node by node.

ghost use Rattle.std.specs.Prelude.{◌≡◌, ◌≢◌, ℕ, ◌+◌, ◌<◌, ◌≤◌, pos, ◌∷◌, [], true, map, length, slice_get, IfSome, IfOk, IfErr, MatchOption, ◌↔◌, IsTrue, Some, None, vec_capacity, vec_len};
ghost use Rattle.std.specs.Option.{option_map};
ghost use Rattle.mari_market.specs.Clearing.{IsSpent, ArePartsOfSearch, IsBudget};
ghost use Rattle.mari_market.specs.Market.{IsValid};
ghost use Rattle.mari_market.specs.Prefix.{word_of, IsFeasiblePrefix, IsCleared, child_words};
ghost use Rattle.mari_market.specs.SearchTree.{IsLarger};
ghost use Rattle.mari_market.specs.Tree.{TreeHolds};
ghost use Rattle.mari_core.specs.Growth.{seed, grown, settling, closing_leaf, with_state, children_at, take_refused, return_refused, settling_by, MaySettle, CanClose, CanBranch, IsCutoff, IsGrowth, IsNext, IsLeastUntaken, IsRefusal, in_journal, NoneWaits, AreCutAt};
ghost use Rattle.mari_core.specs.Growth.Entry.{Take, Close, Branch, Full, GiveBack};
ghost use Rattle.mari_core.specs.declared.event.StepFault.TheVariants.{Memory as NoStepMemory};
ghost use Rattle.mari_core.specs.declared.node.NodeState.TheVariants.{Taken};
ghost use Rattle.mari_core.specs.Nodes.{words_of, word_at, state_at};
ghost use Rattle.mari_core.specs.Preorder.{IsPart, IsPreorder, IsTree, IsOpenFault, shape_of};

use crate::event::{FinishFault, StepFault};
use crate::journal::JournalEntry;
use crate::node::{Node, NodeState};
use crate::preorder::{finished_items, part_items, preorder};
use mari_gates::{child_of, empty_prefix, may_branch_up};
use mari_market::{Finding, Leaf, Market, PartItem, Prefix, Relaxed, TreeItem};
use mari_units::{MOST_NODES, Memory};
use std::alloc::Global;
use std::marker::Model;

/// A part of the search tree of a market: its nodes are numbered from 0 as they are made, a closed child before the
/// open one.
///
/// Whoever works on it takes a node that waits, finds out about it, and settles it at a cutoff that it knows: the node
/// closes, or its children are made. Nothing else is known of the cutoffs but that they are at least the closed
/// welfare. The rows of the whole budget are reserved at the start, so that only `start`,
/// `preorder`, `part` and `finish` take memory.
#[derive(Drop)]
pub struct Growth<'m> {
    market: &'m Market,
    budget: u32,
    nodes: Vec<Node>,
    full: bool,
    next: u32,
}

impl<'m> Model for Growth<'m> {
    ghost use Rattle.std.specs.Prelude.{◌≤◌, vec_capacity};
    ghost use Rattle.mari_core.specs.Growth.{Grown, IsGrowth, IsNext};

    ghost Value = { Grown };

    ghost view = { λ g. record { market = g.market.now; budget = g.budget; nodes = g.nodes.items; full = g.full } };

    ghost invariant = { λ g. IsGrowth (record {
      market = g.market.now;
      budget = g.budget;
      nodes = g.nodes.items;
      full = g.full;
    }) × IsNext g.nodes.items g.next × (g.budget ≤ vec_capacity g.nodes) };
}

/// The first node, counted from this one on, that waits, or the number of nodes where none does.
fn next_untaken(nodes: &[Node], from: u32) -> u32
    requires within { from ≤ length nodes.now }
    requires few { length nodes.now ≤ MOST_NODES }
    requires none_before { (y : ℕ) → y < from → state_at nodes.now y ≡ Some NodeState.Untaken → ⊥ }
    ensures { IsNext nodes.now result }
{
    let mut at = from;
    while (at as usize) < nodes.len() && !nodes[at as usize].is_untaken() {
        at += 1;
    }
    at
}

/// Puts a node into another state.
fn set_state(nodes: &mut Vec<Node>, node: u32, state: NodeState)
    requires { node < length nodes.old.items }
    ensures nodes { nodes.new.items ≡ with_state state nodes.old.items node }
    ensures count { vec_len nodes.new ≡ vec_len nodes.old }
    ensures room { vec_capacity nodes.new ≡ vec_capacity nodes.old }
{
    let at = &mut nodes[node as usize];
    at.set_state(state);
}

/// The certificate by which a finding closes its node at a cutoff, if it does: the cut of a finding that is empty, its
/// conflict, or its potentials where their bound is at most the cutoff.
pub fn closing_leaf(finding: Finding, cutoff: u64) -> Option<Leaf>
    ensures { result ≡ closing_leaf cutoff finding }
{
    match finding {
        Finding::Empty(cut) => Some(Leaf::Cut(cut)),
        Finding::Relaxed(relaxed) => {
            let Relaxed {
                potentials,
                bound,
                conflict,
                best: _,
            } = relaxed;
            match conflict {
                Some(conflict) => Some(Leaf::Conflict(conflict)),
                None if bound <= cutoff => Some(Leaf::Bound(potentials)),
                None => None,
            }
        }
    }
}

impl<'m> Growth<'m> {
    /// A tree whose one node, the prefix that decides no gate, waits.
    pub fn start(alloc: Global, market: &'m Market, budget: u32) -> Result<Growth<'m>, Memory>
        requires market { IsValid market.now }
        requires budget { IsBudget budget }
        ensures { IfOk result (λ g. g ≡ seed market.now budget) }
    {
        let mut nodes = Vec::with_capacity(alloc, budget as usize)?;
        nodes.push_reserved(Node::new(empty_prefix()));
        Ok(Growth {
            market,
            budget,
            nodes,
            full: false,
            next: 0,
        })
    }

    /// The least number of a node that waits.
    pub fn untaken(&self) -> Option<u32>
        ensures { MatchOption result (NoneWaits self.now.nodes) (IsLeastUntaken self.now.nodes) }
    {
        if (self.next as usize) < self.nodes.len() {
            Some(self.next)
        } else {
            None
        }
    }

    /// How many nodes there are.
    pub fn len(&self) -> u32
        ensures len { result ≡ length self.now.nodes }
        ensures within { length self.now.nodes ≤ self.now.budget }
        ensures facts { IsGrowth self.now }
    {
        self.nodes.len() as u32
    }

    /// The actor that has taken a node, if there is one.
    pub fn taker(&self, node: u32) -> Option<u32>
        ensures { MatchOption result ((actor : ℕ) → state_at self.now.nodes node ≡ Some (Taken actor) → ⊥)
            (λ actor. state_at self.now.nodes node ≡ Some (Taken actor)) }
    {
        if node as usize >= self.nodes.len() {
            return None;
        }
        match self.nodes[node as usize].state() {
            NodeState::Taken(actor) => Some(*actor),
            _ => None,
        }
    }

    /// Whether a node decides the gates of the prefix.
    pub fn decides(&self, node: u32, prefix: &Prefix) -> bool
        ensures { IsTrue result ↔ (slice_get (words_of self.now.nodes) node ≡ Some (word_of prefix.now)) }
    {
        if node as usize >= self.nodes.len() {
            return false;
        }
        self.nodes[node as usize].decides(prefix)
    }

    /// The prefix of a node, if there is one of that number.
    pub fn prefix_of(&self, node: u32) -> Option<Prefix>
        ensures word { option_map (λ p. word_of p) result ≡ slice_get (words_of self.now.nodes) node }
        ensures feasible { IfSome result (IsFeasiblePrefix self.now.market) }
    {
        if (node as usize) < self.nodes.len() {
            Some(self.nodes[node as usize].prefix())
        } else {
            None
        }
    }

    /// Whether some node could not branch within the budget.
    pub fn is_full(&self) -> bool
        ensures full { result ≡ self.now.full }
        ensures larger { result ≡ true → IsLarger self.now.market self.now.budget }
    {
        self.full
    }

    /// Refuses a node that doesn't wait.
    fn check_untaken(&self, node: u32) -> Result<(), StepFault>
        ensures answer { IsRefusal (take_refused (state_at self.now.nodes node)) result }
        ensures memory { IfErr result (λ fault. fault ≢ NoStepMemory) }
        ensures facts { IsGrowth self.now }
    {
        if node as usize >= self.nodes.len() {
            return Err(StepFault::NoNode);
        }
        match self.nodes[node as usize].state() {
            NodeState::Untaken => Ok(()),
            _ => Err(StepFault::NotUntaken),
        }
    }

    /// Refuses a node that isn't taken by the actor.
    fn check_taken(&self, actor: u32, node: u32) -> Result<(), StepFault>
        ensures answer { IsRefusal (return_refused actor (state_at self.now.nodes node)) result }
        ensures memory { IfErr result (λ fault. fault ≢ NoStepMemory) }
        ensures facts { IsGrowth self.now }
    {
        if node as usize >= self.nodes.len() {
            return Err(StepFault::NoNode);
        }
        match self.nodes[node as usize].state() {
            NodeState::Taken(by) if *by == actor => Ok(()),
            _ => Err(StepFault::NotTaken),
        }
    }

    /// An actor takes a node that waits.
    pub fn take(&mut self, actor: u32, node: u32) -> Result<(), StepFault>
        ensures change { IfOk result (λ _. self.new ≡ grown self.old (Take actor node)) }
        ensures same { IfErr result (λ _. self.new ≡ self.old) }
        ensures answer { IsRefusal (take_refused (state_at self.old.nodes node)) result }
        ensures memory { IfErr result (λ fault. fault ≢ NoStepMemory) }
        ensures facts { IsGrowth self.new }
    {
        self.check_untaken(node)?;
        set_state(&mut self.nodes, node, NodeState::Taken(actor));
        self.next = next_untaken(&self.nodes, self.next);
        Ok(())
    }

    /// An actor gives back a node that it has taken.
    pub fn give_back(&mut self, actor: u32, node: u32) -> Result<(), StepFault>
        ensures change { IfOk result (λ _. self.new ≡ grown self.old (GiveBack actor node)) }
        ensures same { IfErr result (λ _. self.new ≡ self.old) }
        ensures answer { IsRefusal (return_refused actor (state_at self.old.nodes node)) result }
        ensures memory { IfErr result (λ fault. fault ≢ NoStepMemory) }
        ensures facts { IsGrowth self.new }
    {
        self.check_taken(actor, node)?;
        set_state(&mut self.nodes, node, NodeState::Untaken);
        self.next = self.next.min(node);
        Ok(())
    }

    /// Closes a taken node by a certificate.
    fn close(&mut self, node: u32, leaf: Leaf, cutoff: u64)
        requires { CanClose self.old node leaf cutoff }
        ensures change { (actor : ℕ) → self.new ≡ grown self.old (Close actor node leaf cutoff) }
        ensures facts { IsGrowth self.new }
    {
        set_state(&mut self.nodes, node, NodeState::Closed(leaf, cutoff));
    }

    /// Makes the children of a taken node.
    fn branch(&mut self, node: u32, prefix: &Prefix, may_open: bool)
        requires may { CanBranch self.old node }
        requires prefix { (word_of prefix.now ≡ word_at self.old.nodes node) × IsCleared prefix.now }
        requires may_open { children_at self.old node ≡ child_words (word_of prefix.now) may_open }
        requires fits { length self.old.nodes + length (children_at self.old node) ≤ self.old.budget }
        ensures change { (actor cutoff : ℕ) → self.new ≡ grown self.old (Branch actor node cutoff) }
        ensures facts { IsGrowth self.new }
    {
        let first = self.nodes.len() as u32;
        let opened = may_open.then_some(first + 1);
        set_state(&mut self.nodes, node, NodeState::Branched(first, opened));
        self.nodes.push_reserved(Node::new(child_of(prefix, false)));
        if may_open {
            self.nodes.push_reserved(Node::new(child_of(prefix, true)));
        }
    }

    /// Puts a taken node back, since the budget has no room for its children, and marks that.
    fn mark(&mut self, node: u32)
        requires may { CanBranch self.old node }
        requires full { self.old.budget < length self.old.nodes + length (children_at self.old node) }
        ensures change { (actor cutoff : ℕ) → self.new ≡ grown self.old (Full actor node cutoff) }
        ensures facts { IsGrowth self.new }
    {
        set_state(&mut self.nodes, node, NodeState::Untaken);
        self.next = self.next.min(node);
        self.full = true;
    }

    /// The prefix of a node that leaves a gate to decide, and whether that gate may be open.
    fn next_gate(&self, node: u32) -> (Prefix, bool)
        requires { CanBranch self.now node }
        ensures word { word_of result.0 ≡ word_at self.now.nodes node }
        ensures cleared { IsCleared result.0 }
        ensures children { children_at self.now node ≡ child_words (word_of result.0) result.1 }
    {
        let prefix = self.nodes[node as usize].prefix();
        let may_open = may_branch_up(self.market, &prefix);
        (prefix, may_open)
    }

    /// Branches a taken node, where its children fit the budget, and else puts it back.
    fn branch_or_mark(&mut self, actor: u32, node: u32, cutoff: u64) -> JournalEntry
        requires { CanBranch self.old node }
        ensures change { self.new ≡ grown self.old (settling_by self.old actor node cutoff None) }
        ensures entry { result ≡ in_journal (settling_by self.old actor node cutoff None) }
        ensures facts { IsGrowth self.new }
    {
        let (prefix, may_open) = self.next_gate(node);
        let made = if may_open { 2 } else { 1 };
        if self.nodes.len() + made <= self.budget as usize {
            self.branch(node, &prefix, may_open);
            JournalEntry::Branch {
                actor,
                node,
                cutoff,
            }
        } else {
            self.mark(node);
            JournalEntry::Full {
                actor,
                node,
                cutoff,
            }
        }
    }

    /// An actor settles a node that it has taken by what it found of it, at a cutoff that it knows: the node closes,
    /// or it branches, or it waits again, where its children would be more than the budget. The entry says which.
    pub fn settle(
        &mut self,
        actor: u32,
        node: u32,
        finding: Finding,
        cutoff: u64,
    ) -> Result<JournalEntry, StepFault>
        // What the actor knows of the market, and has found of the node.
        requires cutoff { IsCutoff self.old.market cutoff }
        requires finding { IfSome (slice_get self.old.nodes node) (MaySettle self.old.market cutoff finding) }

        // One entry, or none after an error.
        ensures change { IfOk result (λ _. self.new ≡ grown self.old (settling self.old actor node cutoff finding)) }
        ensures entry { IfOk result (λ entry. entry ≡ in_journal (settling self.old actor node cutoff finding)) }
        ensures same { IfErr result (λ _. self.new ≡ self.old) }

        // Why there is none; it takes no memory.
        ensures answer { IsRefusal (return_refused actor (state_at self.old.nodes node)) result }
        ensures memory { IfErr result (λ fault. fault ≢ NoStepMemory) }

        // What every entry keeps.
        ensures facts { IsGrowth self.new }
    {
        self.check_taken(actor, node)?;
        match closing_leaf(finding, cutoff) {
            Some(leaf) => {
                self.close(node, leaf, cutoff);
                Ok(JournalEntry::Close {
                    actor,
                    node,
                    cutoff,
                })
            }
            None => Ok(self.branch_or_mark(actor, node, cutoff)),
        }
    }

    /// The numbers of all nodes in preorder.
    pub fn preorder(&self, alloc: Global) -> Result<Vec<u32>, Memory>
        ensures { IfOk result (λ v. IsPreorder self.now.nodes v.items) }
    {
        preorder(alloc, &self.nodes)
    }

    /// The nodes in preorder: branched, closed, or neither.
    pub fn part(&self, alloc: Global) -> Result<Vec<PartItem>, Memory>
        ensures part { IfOk result (λ v. IsPart self.now.nodes v.items) }
        ensures search { IfOk result (λ v. ArePartsOfSearch self.now.market ([] ∷ []) v.items) }
        ensures count { IfOk result (λ v. length v.items ≡ length self.now.nodes) }
        ensures spent { self.now.full ≡ true → IfOk result (λ v. IsSpent self.now.market self.now.budget (record { items = v.items })) }
    {
        part_items(alloc, &self.nodes)
    }

    /// Copies of the certificates of the nodes in preorder, where each node is branched or closed.
    ///
    /// They make a tree that holds at each welfare which no cutoff of the nodes exceeds.
    pub fn finish(&self, alloc: Global) -> Result<Vec<TreeItem>, FinishFault>
        ensures tree { IfOk result (λ v. IsTree self.now.nodes v.items) }
        ensures holds { IfOk result (λ v. (w : ℕ) → AreCutAt w self.now.nodes → TreeHolds self.now.market (pos w) v.items) }
        ensures search { IfOk result (λ v. ArePartsOfSearch self.now.market ([] ∷ []) (map shape_of v.items)) }
        ensures within_budget { IfOk result (λ v. length v.items ≤ self.now.budget) }
        ensures not_closed { IfErr result (IsOpenFault self.now.nodes) }
    {
        finished_items(alloc, &self.nodes)
    }
}
