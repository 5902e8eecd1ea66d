//! The search of one market: nodes by their bounds, and the best activation that was found.

ghost use Rattle.mari_market.specs.Market.{IsValid};

use crate::gains::{needed_word, open_running};
use crate::lists::number_of;
use crate::nodes::{Kind, Node, Turn};
use crate::places::Places;
use crate::repeated::Price;
use crate::solver::{Optimum, Solved, solve, solve_root};
use crate::spans::Spans;
use crate::view::{Child, View, decided, view_of};
use crate::words::{closed, is_before};
use mari_market::{Activation, Market, Prefix};
use mari_prices::contradiction;
use mari_reach::{Choice, Decision};
use mari_units::Items;
use mari_welfare::is_feasible;
use std::alloc::{AllocError, Global};
use std::collections::BinaryHeap;

/// After so many turns not every relaxed optimum is rounded.
const TURNS_ROUNDED: u32 = 20;

/// Of so many later turns one is rounded.
const ROUNDED_EACH: u32 = 8;

/// Of so many turns one dives, where the bound is far.
const DIVES_EACH: u32 = 64;

/// A bound is far where it is above the best welfare by more than this part of it.
const FAR: i64 = 1024;

/// The search of one market.
#[derive(Drop)]
pub(crate) struct Search {
    /// Which orders and borders are of which zone and gate.
    pub(crate) places: Places,
    /// The relaxed optimum where nothing is decided.
    pub(crate) root: Optimum,
    /// The nodes, parents before children.
    pub(crate) nodes: Vec<Node>,
    /// The greatest welfare of an activation that was found, in quarter-cents.
    pub(crate) best: i64,
    /// Its gate word, the first of those that were found.
    pub(crate) word: Prefix,
    waiting: BinaryHeap<Turn>,
    /// What is decided at the first node.
    decided: Vec<Decision>,
    /// Prices that are decided before any other, where no chain is under way.
    pub(crate) asked: Vec<Price>,
    /// How many nodes were visited.
    turn: u32,
    /// Whether the solver gave up somewhere.
    stuck: bool,
}

/// A node as it is visited.
#[derive(Drop)]
pub(crate) struct Visit {
    /// What its state decides.
    pub(crate) decisions: Vec<Decision>,
    /// What its state leaves.
    pub(crate) view: View,
    /// Its relaxed optimum.
    pub(crate) optimum: Optimum,
    /// The gates that run in it.
    pub(crate) runs: Prefix,
}

/// How a search ended.
#[derive(Clone, Copy, Debug, Drop, PartialEq, Eq)]
pub(crate) enum Stop {
    /// No node waits.
    Done,
    /// The budget is spent, or the search can't go on.
    Left,
}

/// What runs in an optimum, as an activation.
pub(crate) fn activation_of(alloc: Global, optimum: &Optimum) -> Result<Activation, AllocError> {
    let mut mw = Vec::with_capacity(alloc, optimum.amounts.len())?;
    for amount in &optimum.amounts {
        mw.push(u32::try_from(amount.unsigned_abs()).unwrap_or(0))?;
    }
    let flow = Vec::from_slice(alloc, optimum.flows.as_slice())?;
    Ok(Activation {
        mw: Items::of(mw),
        flow: Items::of(flow),
    })
}

impl Search {
    /// The search of a market, with its root and the best activation that closes every gate; nothing where the solver
    /// gives up.
    pub(crate) fn start(alloc: Global, market: &Market) -> Result<Option<Search>, AllocError>
        requires { IsValid market.now }
    {
        let places = Places::of(alloc, market)?;
        let none = Vec::new(alloc);
        let Some(view) = view_of(alloc, market, &none)? else {
            return Ok(None);
        };
        let Solved::Optimum(root) = solve_root(alloc, market, &places, &view.spans)? else {
            return Ok(None);
        };
        let word = closed(market.gates.as_slice().len() as u32);
        let spans = Spans::of_word(alloc, market, &word)?;
        let Solved::Optimum(first) = solve(alloc, market, &places, &spans, &root)? else {
            return Ok(None);
        };
        let start = root.clone()?;
        let mut search = Search {
            places,
            root,
            nodes: Vec::new(alloc),
            best: first.value,
            word,
            waiting: BinaryHeap::new(alloc),
            decided: Vec::new(alloc),
            asked: Vec::new(alloc),
            turn: 0,
            stuck: false,
        };
        search.add(alloc, market, 0, &none, &start)?;
        Ok(Some(search))
    }

    /// A search below these decisions that decides these prices first, from the best activation of this one.
    pub(crate) fn part(
        &self,
        alloc: Global,
        market: &Market,
        decided: Vec<Decision>,
        asked: Vec<Price>,
    ) -> Result<Search, AllocError>
        requires { IsValid market.now }
    {
        let places = Places::of(alloc, market)?;
        let root = self.root.clone()?;
        let decisions = Vec::from_slice(alloc, &decided)?;
        let mut search = Search {
            places,
            root,
            nodes: Vec::new(alloc),
            best: self.best,
            word: self.word,
            waiting: BinaryHeap::new(alloc),
            decided,
            asked,
            turn: 0,
            stuck: false,
        };
        search.add(alloc, market, 0, &decisions, &self.root)?;
        Ok(search)
    }

    /// The gates that run in an optimum.
    pub(crate) fn running(&self, market: &Market, optimum: &Optimum) -> Prefix {
        let mut word = closed(self.word.length);
        open_running(market, &optimum.amounts, &mut word);
        word
    }

    /// Takes a gate word of this welfare as the best, if it is better or earlier.
    pub(crate) fn offer(&mut self, value: i64, word: Prefix) {
        if value > self.best || (value == self.best && is_before(&word, &self.word)) {
            self.best = value;
            self.word = word;
        }
    }

    /// The welfare of a node's optimum, in quarter-cents.
    pub(crate) fn bound_of(&self, number: u32) -> i64 {
        match self.nodes.get(number as usize) {
            Some(node) => node.bound,
            None => i64::MIN,
        }
    }

    /// What is decided at the node above a node, for this one.
    fn last_decision(&self, number: u32, parent: u32) -> Option<Decision> {
        match &self.nodes.get(parent as usize)?.kind {
            Kind::Branch(choice, first) if number == *first => Some(choice.first()),
            Kind::Branch(choice, _) => Some(choice.second()),
            _ => None,
        }
    }

    /// The decisions on the way to a node.
    fn decisions_of(&self, alloc: Global, number: u32) -> Result<Vec<Decision>, AllocError> {
        let mut decisions = Vec::new(alloc);
        let mut number = number;
        for _ in 0..self.nodes.len() {
            let Some(node) = self.nodes.get(number as usize) else {
                break;
            };
            if node.parent == number {
                break;
            }
            let Some(decision) = self.last_decision(number, node.parent) else {
                break;
            };
            decisions.push(decision)?;
            number = node.parent;
        }
        let mut all = Vec::from_slice(alloc, &self.decided)?;
        for decision in decisions.iter().rev() {
            all.push(*decision)?;
        }
        Ok(all)
    }

    /// Whether a bound that is the best welfare holds for the best word.
    fn holds_for_word(
        &self,
        alloc: Global,
        market: &Market,
        number: u32,
        node: &Node,
    ) -> Result<bool, AllocError>
        requires { IsValid market.now }
    {
        let decisions = self.decisions_of(alloc, number)?;
        let Some(view) = view_of(alloc, market, &decisions)? else {
            return Ok(false);
        };
        let potentials = node.potentials(alloc)?;
        let needed = needed_word(market, &view.spans, &potentials, &view.word);
        Ok(!is_before(&needed, &self.word))
    }

    /// Whether no better or earlier activation lies below a node, by its bound.
    pub(crate) fn bound_holds(
        &self,
        alloc: Global,
        market: &Market,
        number: u32,
    ) -> Result<bool, AllocError>
        requires { IsValid market.now }
    {
        match self.nodes.get(number as usize) {
            Some(node) if node.bound == self.best => {
                self.holds_for_word(alloc, market, number, node)
            }
            Some(node) => Ok(node.bound < self.best),
            None => Ok(true),
        }
    }

    /// Offers an optimum, where it is whole and has consistent prices. It says whether it is and has.
    pub(crate) fn judge(
        &mut self,
        alloc: Global,
        market: &Market,
        optimum: &Optimum,
    ) -> Result<bool, AllocError>
        requires { IsValid market.now }
    {
        let activation = activation_of(alloc, optimum)?;
        if !is_feasible(market, &activation) {
            return Ok(false);
        }
        if contradiction(alloc, market, &activation)?.is_some() {
            return Ok(false);
        }
        let running = self.running(market, optimum);
        self.offer(optimum.value, running);
        Ok(true)
    }

    /// Examines a state below a node, from an optimum within looser bounds. Where the solver gives up it has that optimum.
    /// Where the node waits, its word comes with it.
    fn examined(
        &mut self,
        alloc: Global,
        market: &Market,
        parent: u32,
        decisions: &[Decision],
        start: &Optimum,
    ) -> Result<(Node, Option<Prefix>), AllocError>
        requires { IsValid market.now }
    {
        let Some(view) = view_of(alloc, market, decisions)? else {
            return Ok((Node::ended(alloc, parent, Kind::Void), None));
        };
        match solve(alloc, market, &self.places, &view.spans, start)? {
            Solved::Cut(cut) => Ok((Node::ended(alloc, parent, Kind::Cut(cut)), None)),
            Solved::Stuck => {
                self.stuck = true;
                let node = Node::waiting(alloc, parent, &self.root, start)?;
                Ok((node, Some(view.word)))
            }
            Solved::Optimum(optimum) => {
                let node = Node::waiting(alloc, parent, &self.root, &optimum)?;
                self.judge(alloc, market, &optimum)?;
                Ok((node, Some(view.word)))
            }
        }
    }

    /// Adds a node of a state below a node.
    fn add(
        &mut self,
        alloc: Global,
        market: &Market,
        parent: u32,
        decisions: &[Decision],
        start: &Optimum,
    ) -> Result<(), AllocError>
        requires { IsValid market.now }
    {
        let (node, word) = self.examined(alloc, market, parent, decisions, start)?;
        if let Some(word) = word {
            let turn = Node::turn(node.bound, &word, self.nodes.len());
            self.waiting.push(turn)?;
        }
        self.nodes.push(node)?;
        Ok(())
    }

    /// Says how a node stands that waits no more.
    fn mark(&mut self, alloc: Global, number: u32, kind: Kind) {
        if let Some(node) = self.nodes.get_mut(number as usize) {
            node.end(alloc, kind);
        }
    }

    /// Whether a node's bound holds; then it is marked so.
    fn close(&mut self, alloc: Global, market: &Market, number: u32) -> Result<bool, AllocError>
        requires { IsValid market.now }
    {
        let holds = self.bound_holds(alloc, market, number)?;
        if holds {
            self.mark(alloc, number, Kind::Bound);
        }
        Ok(holds)
    }

    /// A node as it is visited.
    fn visit_of(
        &self,
        alloc: Global,
        market: &Market,
        number: u32,
    ) -> Result<Option<Visit>, AllocError>
        requires { IsValid market.now }
    {
        let Some(node) = self.nodes.get(number as usize) else {
            return Ok(None);
        };
        let decisions = self.decisions_of(alloc, number)?;
        let Some(view) = view_of(alloc, market, &decisions)? else {
            return Ok(None);
        };
        let optimum = node.optimum(alloc, &self.root)?;
        let runs = self.running(market, &optimum);
        Ok(Some(Visit {
            decisions,
            view,
            optimum,
            runs,
        }))
    }

    /// Branches a node.
    fn branch(
        &mut self,
        alloc: Global,
        market: &Market,
        number: u32,
        visit: &Visit,
        choice: Choice,
    ) -> Result<(), AllocError>
        requires { IsValid market.now }
    {
        let first = decided(alloc, &visit.decisions, choice, Child::First)?;
        let second = decided(alloc, &visit.decisions, choice, Child::Second)?;
        let children = number_of(self.nodes.len());
        self.mark(alloc, number, Kind::Branch(choice, children));
        self.add(alloc, market, number, &first, &visit.optimum)?;
        self.add(alloc, market, number, &second, &visit.optimum)
    }

    /// Whether a bound is far above the best welfare.
    pub(crate) fn is_far(&self, bound: i64) -> bool {
        bound.saturating_sub(self.best) > self.best / FAR
    }

    /// Visits a node. It says whether the search can go on.
    fn visit(&mut self, alloc: Global, market: &Market, number: u32) -> Result<bool, AllocError>
        requires { IsValid market.now }
    {
        let Some(visit) = self.visit_of(alloc, market, number)? else {
            return Ok(false);
        };
        let turn = self.turn;
        self.turn = turn.saturating_add(1);
        if turn < TURNS_ROUNDED || turn % ROUNDED_EACH == 0 {
            self.round(alloc, market, &visit)?;
        }
        if turn % DIVES_EACH == 0 && self.is_far(visit.optimum.value) {
            self.dive(alloc, market, &visit)?;
        }
        if self.close(alloc, market, number)? {
            return Ok(true);
        }
        let Some(choice) = self.choose(alloc, market, &visit)? else {
            return Ok(false);
        };
        self.branch(alloc, market, number, &visit, choice)?;
        Ok(!self.stuck)
    }

    /// Visits nodes until none waits or the budget of nodes is spent. It may go on from there with a greater one.
    pub(crate) fn run(
        &mut self,
        alloc: Global,
        market: &Market,
        budget: u32,
    ) -> Result<Stop, AllocError>
        requires { IsValid market.now }
    {
        for _ in 0..u64::MAX {
            let Some(next) = self.waiting.pop() else {
                return Ok(Stop::Done);
            };
            let number = next.number();
            if self.close(alloc, market, number)? {
                continue;
            }
            if self.nodes.len().saturating_add(2) > budget as usize {
                self.waiting.push(next)?;
                return Ok(Stop::Left);
            }
            if !self.visit(alloc, market, number)? {
                return Ok(Stop::Left);
            }
        }
        Ok(Stop::Left)
    }
}
