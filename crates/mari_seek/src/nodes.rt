//! Nodes of the search: where they are in the tree, their relaxed optima, and how they stand.

use crate::lists::{at, number_of, set};
use crate::solver::Optimum;
use mari_market::{Cut, Prefix};
use mari_reach::Choice;
use std::alloc::{AllocError, Global};
use std::cmp::Reverse;

/// How a node stands.
#[derive(Drop)]
pub(crate) enum Kind {
    /// It waits.
    Waiting,
    /// It is decided, and its children have this number and the next.
    Branch(Choice, u32),
    /// Its state is void.
    Void,
    /// Nothing is within its bounds.
    Cut(Cut),
    /// Its bound holds.
    Bound,
}

/// What runs of an order, or flows over a border, other than at the root.
#[derive(Clone, Copy, Drop)]
struct Change {
    /// The order's place in the market, or after all orders the border's.
    place: u32,
    /// What the order puts into its zone, or what flows, in MW.
    amount: i32,
}

/// A node: where it is in the tree, its relaxed optimum as long as it waits, and how it stands. Its decisions are those on
/// the way to it.
#[derive(Drop)]
pub(crate) struct Node {
    /// The number of the node above it; the root's is its own.
    pub(crate) parent: u32,
    /// How it stands.
    pub(crate) kind: Kind,
    /// The welfare of its optimum, in quarter-cents.
    pub(crate) bound: i64,
    /// The potentials of its optimum, in cents per MWh.
    potentials: Vec<i32>,
    /// What else its optimum has.
    changes: Vec<Change>,
}

/// The turn of a node that waits, the greatest first: the greatest bound and, of equal ones, the first word, and of equal
/// words the first number.
#[derive(Clone, Copy, Debug, Drop, PartialEq, Eq, PartialOrd, Ord)]
pub(crate) struct Turn {
    bound: i64,
    /// The bits of the word, the first gate's the highest.
    word: Reverse<[u64; 8]>,
    number: Reverse<u32>,
}

impl Turn {
    /// The number of its node.
    pub(crate) fn number(&self) -> u32 {
        self.number.0
    }
}

/// A number that is small, and else the nearest one that is.
fn small(number: i64) -> i32 {
    i32::try_from(number).unwrap_or(if number < 0 { i32::MIN } else { i32::MAX })
}

/// Adds where a list differs from the root's, with places from `first` on.
fn add_changes(
    changes: &mut Vec<Change>,
    first: usize,
    root: &[i64],
    amounts: &[i64],
) -> Result<(), AllocError> {
    let mut place = 0usize;
    for amount in amounts {
        if *amount != at(root, place) {
            changes.push(Change {
                place: number_of(first.saturating_add(place)),
                amount: small(*amount),
            })?;
        }
        place = place.saturating_add(1);
    }
    Ok(())
}

impl Node {
    /// A node that has no optimum.
    pub(crate) fn ended(alloc: Global, parent: u32, kind: Kind) -> Node {
        Node {
            parent,
            kind,
            bound: i64::MIN,
            potentials: Vec::new(alloc),
            changes: Vec::new(alloc),
        }
    }

    /// A node that waits, with its optimum, of which it keeps what differs from the root's.
    pub(crate) fn waiting(
        alloc: Global,
        parent: u32,
        root: &Optimum,
        optimum: &Optimum,
    ) -> Result<Node, AllocError> {
        let mut changes = Vec::new(alloc);
        add_changes(&mut changes, 0, &root.amounts, &optimum.amounts)?;
        let orders = root.amounts.len();
        add_changes(&mut changes, orders, &root.flows, &optimum.flows)?;
        changes.shrink_to_fit();
        let mut potentials = Vec::with_capacity(alloc, optimum.potentials.len())?;
        for potential in &optimum.potentials {
            potentials.push(small(*potential))?;
        }
        Ok(Node {
            parent,
            kind: Kind::Waiting,
            bound: optimum.value,
            potentials,
            changes,
        })
    }

    /// Says how it stands now, where it waits no more: what its optimum runs is forgotten.
    pub(crate) fn end(&mut self, alloc: Global, kind: Kind) {
        self.kind = kind;
        self.changes = Vec::new(alloc);
    }

    /// The potentials of its optimum, in cents per MWh.
    pub(crate) fn potentials(&self, alloc: Global) -> Result<Vec<i64>, AllocError> {
        let mut potentials = Vec::with_capacity(alloc, self.potentials.len())?;
        for potential in &self.potentials {
            potentials.push(i64::from(*potential))?;
        }
        Ok(potentials)
    }

    /// Its optimum, where it waits.
    pub(crate) fn optimum(&self, alloc: Global, root: &Optimum) -> Result<Optimum, AllocError> {
        let mut optimum = root.clone()?;
        let orders = root.amounts.len();
        for change in &self.changes {
            let (place, amount) = (change.place as usize, i64::from(change.amount));
            if place < orders {
                set(&mut optimum.amounts, place, amount);
            } else {
                set(&mut optimum.flows, place.saturating_sub(orders), amount);
            }
        }
        optimum.potentials = self.potentials(alloc)?;
        optimum.value = self.bound;
        Ok(optimum)
    }

    /// The turn of a node of this bound, word and number.
    pub(crate) fn turn(bound: i64, opened: &Prefix, number: usize) -> Turn {
        let mut word = [0u64; 8];
        for place in 0..8usize {
            word[place] = opened.bits[place].reverse_bits();
        }
        Turn {
            bound,
            word: Reverse(word),
            number: Reverse(number_of(number)),
        }
    }
}
