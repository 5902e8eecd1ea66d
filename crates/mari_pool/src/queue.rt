//! The nodes that wait, and which of them comes next.

ghost use Rattle.std.specs.Prelude.{◌≡◌, ◌-◌, ◌<◌, ◌≤◌, length, map, IfOk, MatchOption};
ghost use Rattle.mari_market.specs.Clearing.{IsBudget};
ghost use Rattle.mari_pool.specs.Queued.{child_key, key_of, no_nodes, first_key, IsMore, LeavesFirst, IsIdleQueue, IsBack, CanFollow, Follows};

use mari_core::JournalEntry;
use mari_market::Finding;
use mari_units::Memory;
use std::alloc::Global;
use std::cmp::Reverse;
use std::collections::BinaryHeap;
use std::marker::Model;

/// The key of the first node.
const FIRST_KEY: u64 = u64::MAX;

/// The nodes of a search that wait, and a key for each node that there is.
///
/// Nodes are numbered from 0 as they are made. The one with the greatest key comes first, and of equal keys the one
/// with the lowest number. Room for all nodes is reserved at the start; after it only `keys_of` takes memory.
#[derive(Drop)]
pub struct Queue {
    keys: Vec<u64>,
    waiting: BinaryHeap<(u64, Reverse<u32>)>,
    room: u32,
}

impl Model for Queue {
    ghost use Rattle.std.specs.Prelude.{◌≤◌, All, length, map, vec_capacity};
    ghost use Rattle.std.specs.BinaryHeap.{heap_items, heap_capacity, IsHeap};
    ghost use Rattle.mari_units.specs.declared.limits.TheConstants.{MOST_NODES};
    ghost use Rattle.mari_pool.specs.Queued.{Queued, number_in, by_key, IsKeyed};

    ghost Value = { Queued };

    ghost view = { λ q. record { keys = q.keys.items; waiting = map number_in (heap_items q.waiting); room = q.room } };

    ghost invariant = { λ q. IsHeap by_key (heap_items q.waiting) × All (IsKeyed q.keys.items) (heap_items q.waiting) × (length q.keys.items ≤ q.room)
        × (q.room ≤ MOST_NODES) × (q.room ≤ vec_capacity q.keys) × (q.room ≤ heap_capacity q.waiting) };
}

/// The key of a node's children: the bound of what was found at the node.
pub fn child_key(finding: &Finding) -> u64
    ensures { result ≡ child_key finding.now }
{
    match finding {
        Finding::Relaxed(relaxed) => relaxed.bound,
        Finding::Empty(_) => 0,
    }
}

impl Queue {
    /// The first node waits. There is room for `room` nodes, 1 to `MOST_NODES`.
    pub fn start(alloc: Global, room: u32) -> Result<Queue, Memory>
        requires { IsBudget room }
        ensures { IfOk result (λ q. IsMore first_key 1 (no_nodes room) q) }
    {
        let mut queue = Queue {
            keys: Vec::with_capacity(alloc, room as usize)?,
            waiting: BinaryHeap::with_capacity(alloc, room as usize)?,
            room,
        };
        queue.add(FIRST_KEY);
        Ok(queue)
    }

    /// How many nodes there are.
    pub fn len(&self) -> u32
        ensures len { result ≡ length self.now.keys }
        ensures within { length self.now.keys ≤ self.now.room }
    {
        self.keys.len() as u32
    }

    /// The key of a node, or 0 where there is no node of that number.
    fn key(&self, node: u32) -> u64
        ensures { result ≡ key_of self.now.keys node }
    {
        self.keys.get(node as usize).copied().unwrap_or(0)
    }

    /// The keys of these nodes, one after the other.
    pub fn keys_of(&self, alloc: Global, nodes: &[u32]) -> Result<Vec<u64>, Memory>
        ensures { IfOk result (λ v. v.items ≡ map (key_of self.now.keys) nodes.now) }
    {
        let mut keys = Vec::with_capacity(alloc, nodes.len())?;
        for node in nodes {
            keys.push(self.key(*node))?;
        }
        Ok(keys)
    }

    /// A node more, with this key, which waits.
    pub fn add(&mut self, key: u64)
        requires keys { length self.old.keys < self.old.room }
        requires waiting { length self.old.waiting < self.old.room }
        ensures { IsMore key 1 self.old self.new }
    {
        let node = self.keys.len() as u32;
        self.keys.push_reserved(key);
        self.put_back(node);
    }

    /// The node that comes first no longer waits.
    pub fn take_first(&mut self) -> Option<u32>
        ensures { MatchOption result (IsIdleQueue self.old self.new) (LeavesFirst self.old self.new) }
    {
        let Some((_, Reverse(node))) = self.waiting.pop() else {
            return None;
        };
        Some(node)
    }

    /// A node waits again, with the key that it has.
    pub(crate) fn put_back(&mut self, node: u32)
        requires there { node < length self.old.keys }
        requires room { length self.old.waiting < self.old.room }
        ensures { IsBack self.old self.new node }
    {
        let key = self.keys[node as usize];
        let Ok(()) = self.waiting.push((key, Reverse(node))) else {
            unreachable!()
        };
    }

    /// Adds nodes with this key, which wait, until there are `count` nodes.
    fn grow(&mut self, count: u32, key: u64)
        requires count { (length self.old.keys ≤ count) × (count ≤ self.old.room) }
        requires waiting { length self.old.waiting ≤ length self.old.keys }
        ensures { IsMore key (count - length self.old.keys) self.old self.new }
    {
        for _ in self.len()..count {
            self.add(key);
        }
    }

    /// Follows an entry of the journal, after which there are `count` nodes: those that it made wait with the key, or
    /// its node waits again.
    pub(crate) fn follow(&mut self, entry: JournalEntry, count: u32, key: u64)
        requires { CanFollow self.old count entry }
        ensures { Follows key count self.old self.new entry }
    {
        match entry {
            JournalEntry::Branch { .. } => self.grow(count, key),
            JournalEntry::Full { node, .. } => self.put_back(node),
            JournalEntry::GiveBack { node, .. } => self.put_back(node),
            JournalEntry::Take { .. } | JournalEntry::Close { .. } => (),
        }
    }
}
