//! The nodes of a search.

ghost use Rattle.std.specs.Prelude.{◌≡◌, ◌≤◌, ◌↔◌, IsTrue, length};
ghost use Rattle.mari_market.specs.Prefix.{word_of, IsCleared};
ghost use Rattle.mari_core.specs.Nodes.{new_node, in_state};

use mari_gates::opens;
use mari_market::{Leaf, Prefix};
use mari_units::MOST_GATES;
use std::marker::Model;

/// What is known of a node.
#[derive(Drop)]
pub enum NodeState {
    /// It waits for an actor.
    Untaken,
    /// The actor of this number examines it.
    Taken(u32),
    /// Its children are nodes too: the number of the closed one, and of the open one where that gate may be open.
    Branched(u32, Option<u32>),
    /// A certificate, and the cutoff at which it holds, in quarter-cents.
    Closed(Leaf, u64),
}

/// A node of the search tree: the gates that it decides, and what is known of it.
#[derive(Drop)]
pub struct Node {
    prefix: Prefix,
    state: NodeState,
}

impl Model for Node {
    ghost use Rattle.mari_market.specs.Prefix.{word_of, IsCleared};
    ghost use Rattle.mari_core.specs.Nodes.{TreeNode};

    ghost Value = { TreeNode };

    ghost view = { λ n. record { word = word_of n.prefix; state = n.state } };

    ghost invariant = { λ n. IsCleared n.prefix };
}

impl Node {
    /// A node that waits.
    pub fn new(prefix: Prefix) -> Node
        requires { IsCleared prefix }
        ensures { result ≡ new_node (word_of prefix) }
    {
        Node {
            prefix,
            state: NodeState::Untaken,
        }
    }

    /// The gates that it decides.
    pub fn prefix(&self) -> Prefix
        ensures word { word_of result ≡ self.now.word }
        ensures cleared { IsCleared result }
    {
        self.prefix
    }

    /// What is known of it.
    pub fn state(&self) -> &NodeState
        ensures { result.now ≡ self.now.state }
    {
        &self.state
    }

    /// Whether it waits.
    pub fn is_untaken(&self) -> bool
        ensures { IsTrue result ↔ (self.now.state ≡ NodeState.Untaken) }
    {
        matches!(self.state, NodeState::Untaken)
    }

    /// Whether it decides the same gates as the prefix, and in the same way.
    pub fn decides(&self, prefix: &Prefix) -> bool
        requires { length self.now.word ≤ MOST_GATES }
        ensures { IsTrue result ↔ (self.now.word ≡ word_of prefix.now) }
    {
        same_word(&self.prefix, prefix)
    }

    /// Puts another state in place of the one that it has.
    pub fn set_state(&mut self, state: NodeState)
        ensures { self.new ≡ in_state state self.old }
    {
        self.state = state;
    }
}

/// Whether two prefixes decide the same gates in the same way.
fn same_word(one: &Prefix, other: &Prefix) -> bool
    requires { one.now.length ≤ MOST_GATES }
    ensures { IsTrue result ↔ (word_of one.now ≡ word_of other.now) }
{
    if one.length != other.length {
        return false;
    }
    for gate in 0..one.length {
        if opens(one, gate) != opens(other, gate) {
            return false;
        }
    }
    true
}
