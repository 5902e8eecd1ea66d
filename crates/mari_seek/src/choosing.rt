//! What is decided at a node: of a few candidates the one whose children's bounds fall most.

ghost use Rattle.mari_market.specs.Market.{IsValid};

use crate::search::{Search, Visit};
use crate::solver::{Solved, solve};
use crate::view::{Child, decided, view_of};
use mari_market::Market;
use mari_reach::Choice;
use std::alloc::{AllocError, Global};

/// The most candidates of which children are solved.
const MOST_TRIED: usize = 4;

/// What is left below a child.
#[derive(Clone, Copy, Debug, Drop, PartialEq, Eq)]
enum Left {
    /// Nothing: its state is void, or nothing is within its bounds.
    Nothing,
    /// Activations of at most this welfare, in quarter-cents.
    AtMost(i64),
    /// The solver gave up.
    Unknown,
}

/// The score of two falls: their product, so that both children count.
fn score_of(first: i64, second: i64) -> i128 {
    let first = i128::from(first).saturating_mul(1000).saturating_add(1);
    let second = i128::from(second).saturating_mul(1000).saturating_add(1);
    first.saturating_mul(second)
}

impl Search {
    /// What is left below a child of a node.
    fn left_below(
        &self,
        alloc: Global,
        market: &Market,
        visit: &Visit,
        choice: Choice,
        child: Child,
    ) -> Result<Left, AllocError>
        requires { IsValid market.now }
    {
        let decisions = decided(alloc, &visit.decisions, choice, child)?;
        let Some(view) = view_of(alloc, market, &decisions)? else {
            return Ok(Left::Nothing);
        };
        match solve(alloc, market, &self.places, &view.spans, &visit.optimum)? {
            Solved::Optimum(optimum) => Ok(Left::AtMost(optimum.value)),
            Solved::Cut(_) => Ok(Left::Nothing),
            Solved::Stuck => Ok(Left::Unknown),
        }
    }

    /// By how much a child's bound is below the node's, in quarter-cents: a little more than down to the best where
    /// nothing better is left.
    fn fall(
        &self,
        alloc: Global,
        market: &Market,
        visit: &Visit,
        choice: Choice,
        child: Child,
    ) -> Result<i64, AllocError>
        requires { IsValid market.now }
    {
        let bound = visit.optimum.value;
        match self.left_below(alloc, market, visit, choice, child)? {
            Left::AtMost(value) if value > self.best => Ok(bound.saturating_sub(value)),
            Left::Nothing | Left::AtMost(_) => Ok(
                bound.saturating_sub(self.best).saturating_add(1),
            ),
            Left::Unknown => Ok(0),
        }
    }

    /// What is decided at a node; nothing where no candidate is left.
    pub(crate) fn choose(
        &self,
        alloc: Global,
        market: &Market,
        visit: &Visit,
    ) -> Result<Option<Choice>, AllocError>
        requires { IsValid market.now }
    {
        let candidates = self.candidates(alloc, market, visit)?;
        let mut best = None;
        let mut most = -1i128;
        let mut tried = 0usize;
        let farthest = visit
            .optimum
            .value
            .saturating_sub(self.best)
            .saturating_add(1);
        for candidate in &candidates {
            if tried >= MOST_TRIED {
                break;
            }
            let choice = candidate.choice();
            if candidates.len() == 1 {
                return Ok(Some(choice));
            }
            let first = self.fall(alloc, market, visit, choice, Child::First)?;
            if score_of(first, farthest) <= most {
                tried = tried.saturating_add(1);
                continue;
            }
            let second = self.fall(alloc, market, visit, choice, Child::Second)?;
            let score = score_of(first, second);
            if score > most {
                most = score;
                best = Some(choice);
            }
            tried = tried.saturating_add(1);
        }
        Ok(best)
    }
}
