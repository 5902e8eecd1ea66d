//! What may happen in a search, and why it may be refused.

ghost use Rattle.std.specs.Prelude.{◌≡◌};
ghost use Rattle.mari_core.specs.Machine.{actor_of};
ghost use Rattle.mari_core.specs.declared.event.StepFault.TheVariants.{Memory as NoStepMemory};
ghost use Rattle.mari_core.specs.declared.event.FinishFault.TheVariants.{Memory as NoFinishMemory};

use mari_market::{Attained, Finding};
use mari_units::Memory;
use std::alloc::{AllocError, AllocFailed};

/// One step of a search. Actors and nodes count from 0.
#[derive(Drop)]
pub enum Event {
    /// The actor looks at the incumbent.
    Look {
        /// The actor's number.
        actor: u32,
    },
    /// The actor offers an admissible activation of this welfare.
    Offer {
        /// The actor's number.
        actor: u32,
        /// The activation and its welfare, in quarter-cents.
        attained: Attained,
    },
    /// The actor takes a node that waits.
    Take {
        /// The actor's number.
        actor: u32,
        /// The node's number.
        node: u32,
    },
    /// The actor says what it found of a node that it has taken.
    Settle {
        /// The actor's number.
        actor: u32,
        /// The node's number.
        node: u32,
        /// What the examination of the node's prefix found.
        finding: Finding,
    },
    /// The actor gives a node back that it has taken.
    GiveBack {
        /// The actor's number.
        actor: u32,
        /// The node's number.
        node: u32,
    },
}

impl Event {
    /// The actor whose step it is.
    pub(crate) fn actor(&self) -> u32
        ensures { result ≡ actor_of self.now }
    {
        match self {
            Event::Look { actor }
            | Event::Offer { actor, .. }
            | Event::Take { actor, .. }
            | Event::Settle { actor, .. }
            | Event::GiveBack { actor, .. } => *actor,
        }
    }
}

/// Why a step was refused.
#[derive(Clone, Copy, Debug, Drop, PartialEq, Eq)]
pub enum StepFault {
    /// There is no actor of that number.
    NoActor,
    /// There is no node of that number.
    NoNode,
    /// The node that was to be taken doesn't wait.
    NotUntaken,
    /// The node isn't taken by that actor.
    NotTaken,
    /// Out of memory.
    Memory,
}

/// The first step of a list that was refused, and why. Out of memory comes only before the first step.
#[derive(Clone, Copy, Debug, Drop, PartialEq, Eq)]
pub struct ReplayFault {
    /// The place of the step, counted from 1; 0 where memory ran out before the first.
    pub place: usize,
    /// Why it was refused.
    pub fault: StepFault,
}

/// Why a search has no clearing yet.
#[derive(Clone, Copy, Debug, Drop, PartialEq, Eq)]
pub enum FinishFault {
    /// This node is, in preorder, the first leaf that isn't closed.
    NotClosed(u32),
    /// Out of memory.
    Memory,
}

impl From<Memory> for StepFault {
    ghost from_gives = { λ _ fault. fault ≡ NoStepMemory };

    fn from(_: Memory) -> Self {
        StepFault::Memory
    }
}

impl From<Memory> for FinishFault {
    ghost from_gives = { λ _ fault. fault ≡ NoFinishMemory };

    fn from(_: Memory) -> Self {
        FinishFault::Memory
    }
}

impl From<AllocError> for FinishFault {
    ghost from_gives = { λ _ fault. fault ≡ NoFinishMemory };

    fn from(_: AllocError) -> Self {
        FinishFault::Memory
    }
}

impl<T: Drop> From<AllocFailed<T>> for FinishFault {
    ghost from_gives = { λ _ fault. fault ≡ NoFinishMemory };

    fn from(_: AllocFailed<T>) -> Self {
        FinishFault::Memory
    }
}
