//! A walk through a tree of states, item by item.

ghost use Rattle.std.specs.Prelude.{◌≡◌, ◌↔◌, [], ◌∷◌, IfOk, IfSome, IsTrue, MatchOption, OnOk, false, length};
ghost use Rattle.mari_market.specs.declared.market.Market.{Market};
ghost use Rattle.mari_market.specs.Market.{IsValid};
ghost use Rattle.mari_market.specs.Prefix.{word_of};
ghost use Rattle.mari_reach.specs.Leaf.{ReachLeafHolds};
ghost use Rattle.mari_reach.specs.Places.{LeafFails, LeafFits, LeavesStates, ShapeFails, states_left, waiting_after};
ghost use Rattle.mari_reach.specs.State.{AreDecisions, IsBetweenPrices, IsFree, IsLeft, MayBranch};
ghost use Rattle.mari_reach.specs.Tables.{IsStateOf, IsSurveyOf};
ghost use Rattle.mari_reach.specs.Tree.{AnyLeaf};

use crate::decisions::{Choice, Decision, ReachItem};
use crate::leaves::check_leaf_by;
use crate::states::State;
use crate::survey::Survey;
use mari_market::{Market, Prefix};
use mari_units::{Cents, Memory, Quarters};
use std::alloc::Global;

/// Whether the state leaves a choice.
fn is_left(market: &Market, decisions: &[Decision], state: &State, choice: Choice) -> bool
    requires market { IsValid market.now }
    requires state { IsStateOf market.now decisions.now state.now }
    ensures { IsTrue result ↔ IsLeft market.now decisions.now choice }
{
    match choice {
        Choice::OfGate(gate) => is_free(market, decisions, state, gate),
        Choice::OfPrice(zone, price) => is_between(market, decisions, state, zone, price),
    }
}

/// Whether a gate is there and the state leaves it free.
fn is_free(market: &Market, decisions: &[Decision], state: &State, gate: u32) -> bool
    requires market { IsValid market.now }
    requires state { IsStateOf market.now decisions.now state.now }
    ensures { IsTrue result ↔ IsFree market.now decisions.now gate }
{
    (gate as usize) < market.gates.as_slice().len() && state.is_free(gate)
}

/// Whether a zone is there and the state leaves both this price or less and more to it.
fn is_between(
    market: &Market,
    decisions: &[Decision],
    state: &State,
    zone: u32,
    price: Cents,
) -> bool
    requires market { IsValid market.now }
    requires state { IsStateOf market.now decisions.now state.now }
    ensures { IsTrue result ↔ IsBetweenPrices market.now decisions.now zone price.0 }
{
    zone < market.zones && state.is_between(zone, price)
}

/// Whether a branch may stand at a choice: the state isn't void, and leaves it.
fn may_branch(market: &Market, decisions: &[Decision], state: &State, choice: Choice) -> bool
    requires market { IsValid market.now }
    requires state { IsStateOf market.now decisions.now state.now }
    ensures { IsTrue result ↔ MayBranch market.now decisions.now choice }
{
    !state.is_void(market) && is_left(market, decisions, state, choice)
}

/// Goes on from a state to the last one that waits, and says whether there is one.
///
/// Each decision of a first child stands for a second child that waits.
fn go_on(path: &mut Vec<Decision>) -> Result<bool, Memory>
    ensures next { IfOk result (λ b. states_left b path.new.items ≡ waiting_after [] path.old.items) }
    ensures decisions { (m : Market) → AreDecisions m path.old.items → OnOk result (AreDecisions m path.new.items) }
{
    while let Some(last) = path.pop() {
        if let Some(second) = last.second() {
            path.push(second)?;
            return Ok(true);
        }
    }
    Ok(false)
}

/// How far a walk is: the state whose item comes next, by its decisions, unless all states have theirs.
#[derive(Drop)]
pub(crate) struct Walk {
    /// The decisions.
    pub(crate) path: Vec<Decision>,
    /// Whether there is such a state.
    pub(crate) is_left: bool,
}

impl Walk {
    /// A walk at its start: the state without decisions has no item yet.
    pub(crate) fn start(alloc: Global) -> Walk
        ensures first { states_left result.is_left result.path.items ≡ [] ∷ [] }
        ensures decisions { (m : Market) → AreDecisions m result.path.items }
    {
        Walk {
            path: Vec::new(alloc),
            is_left: true,
        }
    }

    /// Whether an item is a leaf that doesn't hold for the state whose item comes next.
    pub(crate) fn is_false(
        &self,
        market: &Market,
        survey: &Survey,
        state: &State,
        item: &ReachItem,
        cutoff: Quarters,
        word: &Prefix,
    ) -> bool
        requires market { IsValid market.now }
        requires survey { IsSurveyOf market.now survey.now }
        requires state { IsStateOf market.now self.now.path.items state.now }
        requires full { word.now.length ≡ length market.now.gates }
        ensures fails { IsTrue result
            → LeafFails market.now (ReachLeafHolds market.now cutoff.0 (word_of word.now)) (states_left self.now.is_left self.now.path.items) (item.now ∷ []) }
        ensures fits { result ≡ false
            → LeafFits market.now (ReachLeafHolds market.now cutoff.0 (word_of word.now)) (states_left self.now.is_left self.now.path.items) (item.now ∷ []) }
    {
        match item {
            ReachItem::Branch(_) => false,
            ReachItem::Leaf(leaf) => {
                let decisions = self.path.as_slice();
                self.is_left
                    && !check_leaf_by(market, Some(survey), decisions, state, leaf, cutoff, word)
            }
        }
    }

    /// The place of the first leaf that doesn't hold, after an item at this place is looked at, if none was found before.
    pub(crate) fn first_false(
        &self,
        market: &Market,
        survey: &Survey,
        state: &State,
        found: Option<usize>,
        place: usize,
        item: &ReachItem,
        cutoff: Quarters,
        word: &Prefix,
    ) -> Option<usize>
        requires market { IsValid market.now }
        requires survey { IsSurveyOf market.now survey.now }
        requires state { IsStateOf market.now self.now.path.items state.now }
        requires full { word.now.length ≡ length market.now.gates }
        ensures kept { IfSome found (λ p. result ≡ Some p) }
        ensures looked { found ≡ None → MatchOption result
            (LeafFits market.now (ReachLeafHolds market.now cutoff.0 (word_of word.now)) (states_left self.now.is_left self.now.path.items) (item.now ∷ []))
            (λ p. (p ≡ place) × LeafFails market.now (ReachLeafHolds market.now cutoff.0 (word_of word.now))
            (states_left self.now.is_left self.now.path.items) (item.now ∷ [])) }
    {
        if found.is_some() {
            return found;
        }
        if self.is_false(market, survey, state, item, cutoff, word) {
            Some(place)
        } else {
            None
        }
    }

    /// Takes a branch at the state whose item comes next, if it may stand there.
    fn take_branch(
        &mut self,
        market: &Market,
        state: &State,
        choice: Choice,
    ) -> Result<bool, Memory>
        requires market { IsValid market.now }
        requires state { IsStateOf market.now self.old.path.items state.now }
        requires decisions { AreDecisions market.now self.old.path.items }
        requires left { IsTrue self.old.is_left }
        ensures fits { IfOk result (λ b. IsTrue b → LeavesStates market.now AnyLeaf
            (states_left self.old.is_left self.old.path.items) (ReachItem.Branch choice ∷ []) (states_left self.new.is_left self.new.path.items)) }
        ensures fails { IfOk result (λ b. b ≡ false → ShapeFails market.now (states_left self.old.is_left self.old.path.items) (ReachItem.Branch choice ∷ [])) }
        ensures decisions { OnOk result (AreDecisions market.now self.new.path.items) }
    {
        if !may_branch(market, self.path.as_slice(), state, choice) {
            return Ok(false);
        }
        self.path.push(choice.first())?;
        Ok(true)
    }

    /// Takes an item, whatever its leaf says, and tells whether it is the item of a state: there is one that has none
    /// yet, and leaves what a branch decides.
    pub(crate) fn take(
        &mut self,
        market: &Market,
        state: &State,
        item: &ReachItem,
    ) -> Result<bool, Memory>
        requires market { IsValid market.now }
        requires state { IsStateOf market.now self.old.path.items state.now }
        requires decisions { AreDecisions market.now self.old.path.items }
        ensures fits { IfOk result (λ b. IsTrue b → LeavesStates market.now AnyLeaf
            (states_left self.old.is_left self.old.path.items) (item.now ∷ []) (states_left self.new.is_left self.new.path.items)) }
        ensures fails { IfOk result (λ b. b ≡ false → ShapeFails market.now (states_left self.old.is_left self.old.path.items) (item.now ∷ [])) }
        ensures decisions { OnOk result (AreDecisions market.now self.new.path.items) }
    {
        if !self.is_left {
            return Ok(false);
        }
        match item {
            ReachItem::Branch(choice) => self.take_branch(market, state, *choice),
            ReachItem::Leaf(_) => {
                self.is_left = go_on(&mut self.path)?;
                Ok(true)
            }
        }
    }
}
