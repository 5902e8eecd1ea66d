//! The pool.

ghost use Rattle.std.specs.Prelude.{◌≡◌, ℕ, ◌+◌, ◌*◌, ◌<◌, ◌≤◌, ◌↔◌, pos, ◌∷◌, [], true, false, IsTrue, length, map, slice_get, IfOk, IfErr, OnOk, OnErr, MatchOption, Some};
ghost use Rattle.mari_core.specs.declared.node.NodeState.TheVariants.{Taken};
ghost use Rattle.mari_core.specs.Growth.{settling, IsGrowth, MaySettle};
ghost use Rattle.mari_core.specs.Growth.Entry.{GiveBack};
ghost use Rattle.mari_core.specs.Nodes.{new_node, state_at};
ghost use Rattle.mari_core.specs.Preorder.{IsPart, IsTree, shape_of};
ghost use Rattle.mari_incumbent.specs.Incumbent.{IsFresh};
ghost use Rattle.mari_market.specs.Clearing.{IsSpent, ArePartsOfSearch, IsBudget, IsWorkerCount};
ghost use Rattle.mari_market.specs.Market.{IsValid};
ghost use Rattle.mari_market.specs.Prefix.{word_of};
ghost use Rattle.mari_market.specs.Relaxation.{IsClosedWelfare};
ghost use Rattle.mari_market.specs.Tree.{TreeHolds};
ghost use Rattle.mari_pool.specs.Pooled.{new_pool, IsPool, IsTakenAt, settled_with, answer_of, giving_back, entered, entered_by, returns_of, put_back_from, roomy, owed, taken_among};
ghost use Rattle.mari_pool.specs.Queued.{AreKeys};
ghost use Rattle.mari_pool.specs.Taking.{Takes, IsOpenAt};
ghost use Rattle.mari_pool.specs.declared.ticket.Settled.TheVariants.{Stale};

use crate::name::SearchName;
use crate::queue::{Queue, child_key};
use crate::ticket::{Settled, Ticket, Took};
use mari_core::{FinishFault, Growth, JournalEntry};
use mari_incumbent::{Incumbent, Seat};
use mari_market::{Finding, Market, PartItem, TreeItem};
use mari_units::Memory;
use std::alloc::Global;
use std::marker::{Model, PhantomData};

/// The tree of a search that workers share, its journal, and a seat of its own.
///
/// Each node has a key: the bound that was found at its parent. Rows for the whole budget and the journal are
/// reserved: only `start`, `reclaim`, `finish`, `part` and `keys` take memory.
#[derive(Drop)]
pub struct Pool<'m, N: SearchName> {
    tree: Growth<'m>,
    queue: Queue,
    journal: Vec<JournalEntry>,
    turns: Vec<u64>,
    returned: Vec<bool>,
    taken: u32,
    seat: Seat,
    of: PhantomData<N>,
}

impl<'m, N: SearchName> Model for Pool<'m, N> {
    ghost use Rattle.std.specs.Prelude.{◌≡◌, vec_capacity};
    ghost use Rattle.mari_pool.specs.Queued.{IsQueueOf};
    ghost use Rattle.mari_pool.specs.Pooled.{Pooled, IsPool, taken_among};

    ghost Value = { Pooled };

    ghost view = { λ p. record {
      tree = p.tree;
      keys = p.queue.keys;
      journal = p.journal.items;
      room = vec_capacity p.journal;
      turns = p.turns.items;
      returned = p.returned.items;
      seat = p.seat;
    } };

    ghost invariant = { λ p. IsPool N.market N.budget N.workers N.incumbent (record {
      tree = p.tree;
      keys = p.queue.keys;
      journal = p.journal.items;
      room = vec_capacity p.journal;
      turns = p.turns.items;
      returned = p.returned.items;
      seat = p.seat;
    }) × (taken_among p.tree.nodes ≡ p.taken) × IsQueueOf p.tree.nodes p.queue × (p.queue.room ≡ p.tree.budget) };
}

/// Why a pool has no tree yet.
#[derive(Clone, Copy, Debug, Drop, PartialEq, Eq)]
pub enum PoolFault {
    /// This node is, in preorder, the first leaf that isn't closed.
    NotClosed(u32),
    /// Out of memory.
    Memory,
}

impl<'m, N: SearchName> Pool<'m, N> {
    /// A pool whose one node, the prefix that decides no gate, waits.
    ///
    /// The seat is of an incumbent that was started at the closed welfare.
    pub fn start(
        alloc: Global,
        market: &'m Market,
        budget: u32,
        workers: u32,
        seat: Seat,
    ) -> Result<Pool<'m, N>, Memory>
        // The search is the one of the name, and can be one.
        requires name { (market.now ≡ N.market) × (budget ≡ N.budget) × (workers ≡ N.workers) }
        requires market { IsValid market.now }
        requires budget { IsBudget budget }
        requires workers { IsWorkerCount workers }

        // The pool's own seat, by which nothing was offered.
        requires seat { IsFresh N.incumbent seat }
        requires closed { IsClosedWelfare market.now (pos N.incumbent.first) }

        // The start, with a journal that will never need more memory.
        ensures pool { IfOk result (λ p. p ≡ new_pool market.now budget workers p.room seat) }
        ensures room { IfOk result (λ p. 2 * budget + 2 * workers + 2 ≤ p.room) }
    {
        let tree = Growth::start(alloc, market, budget)?;
        let queue = Queue::start(alloc, budget)?;
        let room = 2 * budget as usize + 2 * workers as usize + 2;
        let journal = Vec::with_capacity(alloc, room)?;
        let turns = vec![in alloc; 0; budget as usize]?;
        let returned = vec![in alloc; false; workers as usize + 1]?;
        Ok(Pool {
            tree,
            queue,
            journal,
            turns,
            returned,
            taken: 0,
            seat,
            of: PhantomData,
        })
    }

    /// A worker takes the waiting node of the greatest key, and of equal keys that of the lowest number.
    ///
    /// Else the answer says why there is none: a node could not branch within the budget, or all that is left is
    /// taken, or nothing is left.
    pub fn take(&mut self, worker: u32) -> Took<N>
        requires { worker ≤ N.workers }
        ensures { Takes worker self.old self.new result }
    {
        if self.tree.is_full() {
            return Took::Spent(self.tree.len());
        }
        let Some(node) = self.queue.take_first() else {
            return if self.taken == 0 {
                Took::Finished
            } else {
                Took::Idle(self.taken)
            };
        };
        let Some(prefix) = self.tree.prefix_of(node) else {
            unreachable!()
        };
        let turn = self.journal.len() as u64;
        let Ok(()) = self.tree.take(worker, node) else {
            unreachable!()
        };
        self.journal.push_reserved(JournalEntry::Take {
            actor: worker,
            node,
        });
        self.turns[node as usize] = turn;
        self.taken += 1;
        Took::Took(Ticket::new(node, turn, worker, prefix))
    }

    /// Whether the ticket's node is taken at the ticket's turn.
    fn is_fresh(&self, ticket: &Ticket<N>) -> bool
        ensures { IsTrue result ↔ IsTakenAt self.now ticket.now.node ticket.now.turn ticket.now.worker (word_of ticket.now.prefix) }
    {
        let Some(worker) = self.tree.taker(ticket.node) else {
            return false;
        };
        worker == ticket.worker
            && self.turns[ticket.node as usize] == ticket.turn
            && self.tree.decides(ticket.node, &ticket.prefix)
    }

    /// Settles a ticket's node with what was found there, at what the worker's seat saw. The pool's seat first meets
    /// that one.
    ///
    /// The certificate is moved out of the finding into the tree, and the finding's bound is the key of the children.
    /// A stale ticket changes nothing.
    pub fn settle(
        &mut self,
        incumbent: &Incumbent,
        ticket: Ticket<N>,
        finding: Finding,
        seat: &mut Seat,
    ) -> Settled
        requires incumbent { (incumbent.now ≡ N.incumbent) × (seat.old.incumbent ≡ N.incumbent) }
        requires finding { MaySettle N.market seat.old.seen finding (new_node (word_of ticket.prefix)) }
        ensures stale { (IsTakenAt self.old ticket.node ticket.turn ticket.worker (word_of ticket.prefix) → ⊥) → (result ≡ Stale) × (self.new ≡ self.old) }
        ensures settled { IsTakenAt self.old ticket.node ticket.turn ticket.worker (word_of ticket.prefix)
            → self.new ≡ settled_with self.old ticket.worker ticket.node seat.old.seen finding }
        ensures answer { IsTakenAt self.old ticket.node ticket.turn ticket.worker (word_of ticket.prefix)
            → result ≡ answer_of self.old.tree (settling self.old.tree ticket.worker ticket.node seat.old.seen finding) }
        ensures seat { seat.new ≡ seat.old }
    {
        if !self.is_fresh(&ticket) {
            return Settled::Stale;
        }
        // That a seat has offered at least the incumbent's first number, and has seen what it offered.
        let _offered = seat.offered();
        let cutoff = seat.seen();
        let key = child_key(&finding);
        incumbent.meet(&mut self.seat, seat);
        let Ok(entry) = self
            .tree
            .settle(ticket.worker, ticket.node, finding, cutoff)
        else {
            unreachable!()
        };
        let nodes = self.tree.len();
        self.queue.follow(entry, nodes, key);
        self.journal.push_reserved(entry);
        self.taken -= 1;
        match entry {
            JournalEntry::Close { .. } => Settled::Closed,
            JournalEntry::Branch { .. } => Settled::Branched,
            JournalEntry::Full { .. } => Settled::Full(nodes),
            JournalEntry::Take { .. } | JournalEntry::GiveBack { .. } => unreachable!(),
        }
    }

    /// Gives a ticket's node back. False where the ticket is stale or its worker number gave a ticket back before.
    pub fn give_back(&mut self, ticket: Ticket<N>) -> bool
        ensures given { IsTakenAt self.old ticket.node ticket.turn ticket.worker (word_of ticket.prefix)
            → slice_get self.old.returned ticket.worker ≡ Some false → (result ≡ true) × (self.new ≡ giving_back self.old ticket.worker ticket.node) }
        ensures stale { (IsTakenAt self.old ticket.node ticket.turn ticket.worker (word_of ticket.prefix) → ⊥) → (result ≡ false) × (self.new ≡ self.old) }
        ensures again { slice_get self.old.returned ticket.worker ≡ Some true → (result ≡ false) × (self.new ≡ self.old) }
    {
        let worker = ticket.worker as usize;
        if self.returned[worker] || !self.is_fresh(&ticket) {
            return false;
        }
        let Ok(()) = self.tree.give_back(ticket.worker, ticket.node) else {
            unreachable!()
        };
        self.journal.push_reserved(JournalEntry::GiveBack {
            actor: ticket.worker,
            node: ticket.node,
        });
        self.queue.put_back(ticket.node);
        self.returned[worker] = true;
        self.taken -= 1;
        true
    }

    /// Puts a taken node back, for which the journal has two entries to spare.
    fn put_back(&mut self, worker: u32, node: u32)
        requires taken { state_at self.old.tree.nodes node ≡ Some (Taken worker) }
        requires room { length self.old.journal + owed self.old.tree self.old.returned + 2 ≤ self.old.room }
        ensures { self.new ≡ entered self.old (GiveBack worker node) }
    {
        let Ok(()) = self.tree.give_back(worker, node) else {
            unreachable!()
        };
        self.journal.push_reserved(JournalEntry::GiveBack {
            actor: worker,
            node,
        });
        self.queue.put_back(node);
        self.taken -= 1;
    }

    /// How many nodes there are.
    fn len(&self) -> u32
        ensures { result ≡ length self.now.tree.nodes }
    {
        self.tree.len()
    }

    /// The worker that has taken a node, if there is one.
    fn taker(&self, node: u32) -> Option<u32>
        ensures facts { IsGrowth self.now.tree }
        ensures taker { MatchOption result ((worker : ℕ) → state_at self.now.tree.nodes node ≡ Some (Taken worker) → ⊥)
            (λ worker. state_at self.now.tree.nodes node ≡ Some (Taken worker)) }
    {
        self.tree.taker(node)
    }

    /// Puts a node back if it is taken, where the journal has two entries to spare for each taken node.
    fn put_back_at(&mut self, node: u32)
        requires there { node < length self.old.tree.nodes }
        requires room { length self.old.journal + owed self.old.tree self.old.returned + 2 * taken_among self.old.tree.nodes ≤ self.old.room }
        ensures left { put_back_from self.new (node + 1) ≡ put_back_from self.old node }
        ensures many { length self.new.tree.nodes ≡ length self.old.tree.nodes }
        ensures room { length self.new.journal + owed self.new.tree self.new.returned + 2 * taken_among self.new.tree.nodes ≤ self.new.room }
    {
        if let Some(worker) = self.taker(node) {
            self.put_back(worker, node);
        }
    }

    /// Puts every taken node back, for each of which the journal has two entries to spare.
    fn put_all_back(&mut self)
        requires { length self.old.journal + owed self.old.tree self.old.returned + 2 * taken_among self.old.tree.nodes ≤ self.old.room }
        ensures { self.new ≡ entered_by self.old (returns_of 0 self.old.tree.nodes) }
    {
        for node in 0..self.len() {
            self.put_back_at(node);
        }
    }

    /// Reserves two entries of the journal for each taken node.
    fn reserve(&mut self) -> Result<(), Memory>
        ensures more { self.new ≡ roomy self.old self.new.room }
        ensures same { OnErr result (self.new ≡ self.old) }
        ensures room { OnOk result (self.old.room + 2 * taken_among self.old.tree.nodes ≤ self.new.room) }
        ensures facts { length self.old.journal + owed self.old.tree self.old.returned ≤ self.old.room }
    {
        let spare = self.journal.capacity() - self.journal.len();
        self.journal.reserve(spare + 2 * self.taken as usize)?;
        Ok(())
    }

    /// Puts every taken node back, once the journal has room for that. Later uses of their tickets are stale.
    pub fn reclaim(&mut self) -> Result<(), Memory>
        ensures reclaimed { OnOk result (self.new ≡ roomy (entered_by self.old (returns_of 0 self.old.tree.nodes)) self.new.room) }
        ensures room { OnOk result (self.old.room + 2 * taken_among self.old.tree.nodes ≤ self.new.room) }
        ensures same { OnErr result (self.new ≡ self.old) }
    {
        self.reserve()?;
        self.put_all_back();
        Ok(())
    }

    /// Copies of the certificates of the nodes in preorder, where each node is branched or closed.
    ///
    /// They make a tree that holds at each welfare of at least what the pool's seat saw.
    pub fn finish(&self, alloc: Global) -> Result<Vec<TreeItem>, PoolFault>
        ensures tree { IfOk result (λ v. IsTree self.now.tree.nodes v.items) }
        ensures holds { IfOk result (λ v. (w : ℕ) → self.now.seat.seen ≤ w → TreeHolds N.market (pos w) v.items) }
        ensures search { IfOk result (λ v. ArePartsOfSearch N.market ([] ∷ []) (map shape_of v.items)) }
        ensures within_budget { IfOk result (λ v. length v.items ≤ N.budget) }
        ensures not_closed { IfErr result (IsOpenAt self.now.tree.nodes) }
    {
        match self.tree.finish(alloc) {
            Ok(items) => Ok(items),
            Err(FinishFault::NotClosed(node)) => Err(PoolFault::NotClosed(node)),
            Err(FinishFault::Memory) => Err(PoolFault::Memory),
        }
    }

    /// The nodes in preorder: branched, closed, or neither. Where a node could not branch within the budget they are a
    /// part of the search tree that the budget can't extend.
    pub fn part(&self, alloc: Global) -> Result<Vec<PartItem>, Memory>
        ensures part { IfOk result (λ v. IsPart self.now.tree.nodes v.items) }
        ensures search { IfOk result (λ v. ArePartsOfSearch N.market ([] ∷ []) v.items) }
        ensures count { IfOk result (λ v. length v.items ≡ length self.now.tree.nodes) }
        ensures spent { self.now.tree.full ≡ true → IfOk result (λ v. IsSpent N.market N.budget (record { items = v.items })) }
    {
        self.tree.part(alloc)
    }

    /// The keys of the nodes, in preorder.
    pub fn keys(&self, alloc: Global) -> Result<Vec<u64>, Memory>
        ensures { IfOk result (λ v. AreKeys self.now.tree.nodes self.now.keys v.items) }
    {
        let order = self.tree.preorder(alloc)?;
        self.queue.keys_of(alloc, &order)
    }

    /// What always holds of a pool. The call does nothing: its contract is the law.
    pub fn facts_are_kept(&self)
        ensures { IsPool N.market N.budget N.workers N.incumbent self.now }
    {
        // A field is read, so that the type's invariant is at hand.
        let _taken = self.taken;
    }

    /// The pool's own seat.
    pub fn into_seat(self) -> Seat
        ensures seat { result ≡ self.entry.seat }
        ensures fresh { IsFresh N.incumbent result }
    {
        let Pool { seat, .. } = self;
        seat
    }
}
