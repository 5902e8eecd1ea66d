//! Dives: walks from a node down, always to the child of the greater bound, for a better activation.

ghost use Rattle.mari_market.specs.Market.{IsValid};

use crate::search::{Search, Visit};
use crate::solver::{Optimum, Solved, solve};
use crate::view::{Child, View, decided, view_of};
use mari_market::Market;
use mari_reach::{Choice, Decision};
use std::alloc::{AllocError, Global};

/// The most steps of a dive.
const MOST_STEPS: u32 = 200;

/// Of so many steps of a dive one is rounded.
const STEPS_ROUNDED: u32 = 8;

/// A step of a dive: a state, what it leaves, and its relaxed optimum.
#[derive(Drop)]
struct Step {
    decisions: Vec<Decision>,
    view: View,
    optimum: Optimum,
}

/// Of two steps the one of the greater bound, the later where they are equal.
fn greater(one: Option<Step>, other: Option<Step>) -> Option<Step> {
    match (one, other) {
        (Some(one), Some(other)) => {
            if one.optimum.value > other.optimum.value {
                Some(one)
            } else {
                Some(other)
            }
        }
        (one, None) => one,
        (None, other) => other,
    }
}

impl Search {
    /// The step to a child, where something is left there.
    fn step(
        &self,
        alloc: Global,
        market: &Market,
        visit: &Visit,
        choice: Choice,
        child: Child,
    ) -> Result<Option<Step>, AllocError>
        requires { IsValid market.now }
    {
        let decisions = decided(alloc, &visit.decisions, choice, child)?;
        let Some(view) = view_of(alloc, market, &decisions)? else {
            return Ok(None);
        };
        match solve(alloc, market, &self.places, &view.spans, &visit.optimum)? {
            Solved::Optimum(optimum) => Ok(Some(Step {
                decisions,
                view,
                optimum,
            })),
            Solved::Cut(_) | Solved::Stuck => Ok(None),
        }
    }

    /// The visit of a step.
    fn visit_of_step(&self, market: &Market, step: Step) -> Visit {
        let Step {
            decisions,
            view,
            optimum,
        } = step;
        let runs = self.running(market, &optimum);
        Visit {
            decisions,
            view,
            optimum,
            runs,
        }
    }

    /// The next visit of a dive, where it goes on.
    fn below(
        &self,
        alloc: Global,
        market: &Market,
        visit: &Visit,
    ) -> Result<Option<Visit>, AllocError>
        requires { IsValid market.now }
    {
        let candidates = self.candidates(alloc, market, visit)?;
        let Some(candidate) = candidates.get(0) else {
            return Ok(None);
        };
        let choice = candidate.choice();
        let first = self.step(alloc, market, visit, choice, Child::First)?;
        let second = self.step(alloc, market, visit, choice, Child::Second)?;
        Ok(match greater(first, second) {
            Some(step) => Some(self.visit_of_step(market, step)),
            None => None,
        })
    }

    /// Dives from a node. What is found is offered; no node is kept.
    pub(crate) fn dive(
        &mut self,
        alloc: Global,
        market: &Market,
        start: &Visit,
    ) -> Result<(), AllocError>
        requires { IsValid market.now }
    {
        let Some(mut visit) = self.below(alloc, market, start)? else {
            return Ok(());
        };
        for step in 1..MOST_STEPS {
            if visit.optimum.value <= self.best {
                return Ok(());
            }
            if self.judge(alloc, market, &visit.optimum)? {
                return Ok(());
            }
            if step % STEPS_ROUNDED == 0 {
                self.round(alloc, market, &visit)?;
            }
            let Some(next) = self.below(alloc, market, &visit)? else {
                return Ok(());
            };
            visit = next;
        }
        Ok(())
    }
}
