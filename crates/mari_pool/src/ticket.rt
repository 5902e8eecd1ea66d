//! Tickets for nodes, and what the pool answers.

ghost use Rattle.std.specs.Prelude.{◌≡◌, ◌≤◌};
ghost use Rattle.mari_market.specs.Prefix.{IsFeasiblePrefix};

use crate::name::SearchName;
use mari_market::Prefix;
use std::marker::PhantomData;

/// A node that a worker took.
#[derive(Drop)]
pub struct Ticket<N: SearchName> {
    /// The node's number.
    pub node: u32,
    /// The turn at which it was taken: the place of that in the journal.
    pub turn: u64,
    /// The worker's number.
    pub worker: u32,
    /// The gates that the node decides.
    pub prefix: Prefix,
    of: PhantomData<N>,
    ghost feasible: { IsFeasiblePrefix N.market prefix },
    ghost numbered: { worker ≤ N.workers },
}

/// What a worker gets that wants a node.
#[derive(Drop)]
pub enum Took<N: SearchName> {
    /// A node.
    Took(Ticket<N>),
    /// No node waits, and this number of nodes is taken.
    Idle(u32),
    /// No node waits, and none is taken.
    Finished,
    /// A node could not branch within the budget. The number is that of the tree's nodes.
    Spent(u32),
}

/// What became of a node that was settled.
#[derive(Clone, Copy, Debug, Drop, PartialEq, Eq)]
pub enum Settled {
    /// The ticket's node isn't taken at the ticket's turn.
    Stale,
    /// It is closed by a certificate.
    Closed,
    /// Its children wait.
    Branched,
    /// It waits again, since its children don't fit the budget. The number is that of the tree's nodes.
    Full(u32),
}

impl<N: SearchName> Ticket<N> {
    /// The ticket of a node, for a worker at a turn.
    pub(crate) fn new(node: u32, turn: u64, worker: u32, prefix: Prefix) -> Ticket<N>
        requires feasible { IsFeasiblePrefix N.market prefix }
        requires numbered { worker ≤ N.workers }
        ensures node { result.node ≡ node }
        ensures turn { result.turn ≡ turn }
        ensures worker { result.worker ≡ worker }
        ensures prefix { result.prefix ≡ prefix }
    {
        Ticket {
            node,
            turn,
            worker,
            prefix,
            of: PhantomData,
        }
    }
}
