//! Several workers as a clearer.

use mari_market::{Cleared, Clearer, Market};
use std::alloc::Global;

/// Clears markets by its closure, which is meant to call `search` with the caller's workers and turnstile.
///
/// It is a closure, since what a search sends to its threads must be known where the threads' handle is. Its law is that
/// of the closure alone: whoever makes a crew shows that each answer of the closure clears the market (`ready`). Nothing
/// here says that the closure calls `search`.
#[derive(Drop)]
pub struct Crew<F: Fn(Global, &Market, u32) -> Cleared> {
    /// The closure.
    pub run: F,
}

impl<F: Fn(Global, &Market, u32) -> Cleared> Clearer for Crew<F> {
    ghost use Rattle.std.specs.Prelude.{◌≤◌, ℕ};
    ghost use Rattle.mari_market.specs.Market.{IsValid};
    ghost use Rattle.mari_market.specs.Clearing.{Clears, IsBudget};

    // Whatever market and budget may be cleared, the call may be made, and clears.
    ghost ready = { λ c. (a : _) (m : _) (b : ℕ) → IsValid m.now → IsBudget b → F.pre c.run a m b × ((r : _) → F.post c.run a m b r → Clears m.now b r) };

    fn clear(&mut self, alloc: Global, market: &Market, budget: u32) -> Cleared {
        (self.run)(alloc, market, budget)
    }
}
