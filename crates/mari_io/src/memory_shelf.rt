//! A shelf in memory.

ghost use Rattle.std.specs.Prelude.{◌≡◌, ◌≤◌, ◌+◌, ◌↔◌, List, ℕ, Some, None, IsErrOf, IfOk, OnOk, OnErr, true};
ghost use Rattle.mari_units.specs.declared.limits.TheConstants.{MOST_PAGE};
ghost use Rattle.mari_io.specs.declared.shelf.TheConstants.{MOST_PIECE};
ghost use Rattle.mari_io.specs.declared.shelf.Fetch.TheVariants.{Failed, Missing, TooLong, Memory};
ghost use Rattle.mari_io.specs.Outside.{Counts, Pages, counted, page_of, FetchStates, AppendsAtMost, OpenStates, AppendsExactly, IsPiece, rest_after, IsOverlong, most_given, taken_count};
ghost use Rattle.mari_io.specs.Memory.{pages_of, fetch_fails, after_fetch, after_open, after_piece, piece_length, new_shelf};

use crate::page::{bytes_at, find_page, left_at};
use crate::shelf::{MOST_GIVEN, MOST_PIECE};
use crate::{FaultPlan, Fetch, Page, Shelf};
use mari_units::MOST_PAGE;
use std::marker::Model;

/// Pages in memory, which the shelf reports. A call that the plan names fails; of two pages of one name the first
/// counts.
#[derive(Drop)]
pub struct MemoryShelf {
    pages: Vec<Page>,
    plan: FaultPlan,
    calls: u64,
    named: u64,
    faults: u64,
    misses: u64,
    overs: u64,
    piece: u32,
    opened: Option<usize>,
    given: usize,
}

impl Model for MemoryShelf {
    ghost use Rattle.std.specs.Prelude.{◌≤◌, ◌<◌, length, is_some, IfSome};
    ghost use Rattle.mari_io.specs.declared.shelf.TheConstants.{MOST_PIECE, MOST_GIVEN};
    ghost use Rattle.mari_io.specs.Memory.{ShelfState, pages_of, bytes_of, left_of};

    ghost Value = { ShelfState };

    ghost view = { λ s. record {
      pages = pages_of s.pages.items;
      plan = s.plan;
      calls = s.calls;
      named = s.named;
      faults = s.faults;
      misses = s.misses;
      overs = s.overs;
      piece = s.piece;
      is_open = is_some s.opened;
      left = left_of s.pages.items s.opened s.given;
      given = s.given;
    } };

    ghost invariant = { λ s. (1 ≤ s.piece) × (s.piece ≤ MOST_PIECE) × (s.given ≤ MOST_GIVEN)
        × IfSome s.opened (λ place. (place < length s.pages.items) × (s.given ≤ length (bytes_of s.pages.items place))) };
}

impl MemoryShelf {
    /// A shelf of these pages, of which nothing was asked yet, and whose pieces have `MOST_PIECE` bytes. It takes no
    /// memory.
    pub fn new(pages: Vec<Page>, plan: FaultPlan) -> MemoryShelf
        ensures { result ≡ new_shelf (pages_of pages.items) plan MOST_PIECE }
    {
        MemoryShelf::with_piece(pages, plan, MOST_PIECE as u32)
    }

    /// The same, where a piece has at most `piece` bytes, 1 to `MOST_PIECE`. It takes no memory.
    pub fn with_piece(pages: Vec<Page>, plan: FaultPlan, piece: u32) -> MemoryShelf
        requires some { 1 ≤ piece }
        requires few { piece ≤ MOST_PIECE }
        ensures { result ≡ new_shelf (pages_of pages.items) plan piece }
    {
        MemoryShelf {
            pages,
            plan,
            calls: 0,
            named: 0,
            faults: 0,
            misses: 0,
            overs: 0,
            piece,
            opened: None,
            given: 0,
        }
    }
}

impl Shelf for MemoryShelf {
    ghost pages = { λ s. Some s.pages };

    ghost fetches = { λ s. s.calls };

    ghost named = { λ s. s.named };

    ghost faults = { λ s. s.faults };

    ghost misses = { λ s. s.misses };

    ghost overs = { λ s. s.overs };

    ghost rest = { λ s. Some s.left };

    ghost given = { λ s. s.given };

    ghost is_open = { λ s. s.is_open };

    /// Appends the page of that name. It fails exactly where the plan names the call.
    fn fetch(&mut self, name: &str, into: &mut Vec<u8>) -> Result<(), Fetch>
        ensures same { self.new.pages ≡ self.old.pages }
        ensures fetched { self.new.calls ≡ counted self.old.calls }
        ensures named { self.new.named ≡ counted self.old.named }

        // What was read.
        ensures ok { OnOk result (AppendsAtMost MOST_PAGE into.old.items into.new.items) }
        ensures err { OnErr result (into.new.items ≡ into.old.items) }
        ensures reported { (reported : Pages) → Some self.old.pages ≡ Some reported
            → FetchStates (page_of reported name.now) into.old.items into.new.items result }

        // Why nothing was.
        ensures failed { Counts (IsErrOf result Failed) self.old.faults self.new.faults }
        ensures missing { Counts (IsErrOf result Missing) self.old.misses self.new.misses }
        ensures too_long { Counts (IsErrOf result TooLong) self.old.overs self.new.overs }

        // The page that is open stays open, and what is left of it stays.
        ensures open_stays { self.new.is_open ≡ self.old.is_open }
        ensures rest_stays { Some self.new.left ≡ Some self.old.left }
        ensures given_stays { self.new.given ≡ self.old.given }

        // The plan alone makes a call fail, and nothing else raises a count.
        ensures planned { IsErrOf result Failed ↔ (fetch_fails self.old ≡ true) }
        ensures counts { self.new ≡ after_fetch self.old result }
    {
        self.calls = self.calls.saturating_add(1);
        self.named = self.named.saturating_add(1);
        if self.plan.names(self.calls) {
            self.faults = self.faults.saturating_add(1);
            return Err(Fetch::Failed);
        }
        let Some(place) = find_page(&self.pages, name) else {
            self.misses = self.misses.saturating_add(1);
            return Err(Fetch::Missing);
        };
        let bytes = bytes_at(&self.pages, place);
        if bytes.len() > MOST_PAGE {
            self.overs = self.overs.saturating_add(1);
            return Err(Fetch::TooLong);
        }
        match into.extend_from_slice(bytes) {
            Ok(()) => Ok(()),
            Err(_) => Err(Fetch::Memory),
        }
    }
    /// Opens the page of that name. It fails exactly where the plan names the call.
    fn open_page(&mut self, name: &str) -> Result<(), Fetch>
        ensures same { self.new.pages ≡ self.old.pages }
        ensures fetched { self.new.calls ≡ counted self.old.calls }
        ensures named { self.new.named ≡ counted self.old.named }

        // What is open: that page, and all of it is left.
        ensures open { OnOk result (self.new.is_open ≡ true) }
        ensures given { OnOk result (self.new.given ≡ 0) }
        ensures reported { (reported : Pages) → Some self.old.pages ≡ Some reported → OpenStates (page_of reported name.now) (Some self.new.left) result }

        // After an error, what was open.
        ensures open_stays { OnErr result (self.new.is_open ≡ self.old.is_open) }
        ensures rest_stays { OnErr result (Some self.new.left ≡ Some self.old.left) }
        ensures given_stays { OnErr result (self.new.given ≡ self.old.given) }

        // Why no page was opened; its length is no cause.
        ensures failed { Counts (IsErrOf result Failed) self.old.faults self.new.faults }
        ensures missing { Counts (IsErrOf result Missing) self.old.misses self.new.misses }
        ensures too_long { Counts (IsErrOf result TooLong) self.old.overs self.new.overs }
        ensures not_too_long { IsErrOf result TooLong → ⊥ }

        // The plan alone makes a call fail, and nothing else raises a count.
        ensures planned { IsErrOf result Failed ↔ (fetch_fails self.old ≡ true) }
        ensures counts { self.new ≡ after_open self.old name.now result }
    {
        self.calls = self.calls.saturating_add(1);
        self.named = self.named.saturating_add(1);
        if self.plan.names(self.calls) {
            self.faults = self.faults.saturating_add(1);
            return Err(Fetch::Failed);
        }
        let Some(place) = find_page(&self.pages, name) else {
            self.misses = self.misses.saturating_add(1);
            return Err(Fetch::Missing);
        };
        self.opened = Some(place);
        self.given = 0;
        Ok(())
    }

    /// Appends the next bytes of the page that is open. It fails exactly where the plan names the call.
    fn next_piece(&mut self, into: &mut Vec<u8>) -> Result<u32, Fetch>
        requires open { self.old.is_open ≡ true }
        ensures same { self.new.pages ≡ self.old.pages }
        ensures fetched { self.new.calls ≡ counted self.old.calls }
        ensures named { self.new.named ≡ self.old.named }

        // What was given: the first bytes of what was left.
        ensures ok { IfOk result (λ n. AppendsExactly n into.old.items into.new.items) }
        ensures few { IfOk result (λ n. n ≤ MOST_PIECE) }
        ensures reported { (left : List ℕ) → Some self.old.left ≡ Some left → IfOk result (λ n. IsPiece left into.old.items into.new.items n) }
        ensures err { OnErr result (into.new.items ≡ into.old.items) }

        // What is left: the rest of the same page.
        ensures open_stays { self.new.is_open ≡ true }
        ensures rest { Some self.new.left ≡ rest_after (Some self.old.left) result }
        ensures given { self.new.given ≡ self.old.given + taken_count result }
        ensures limit { self.new.given ≤ most_given }

        // Why nothing was given; that there is no such page is no cause.
        ensures failed { Counts (IsErrOf result Failed) self.old.faults self.new.faults }
        ensures missing { Counts (IsErrOf result Missing) self.old.misses self.new.misses }
        ensures not_missing { IsErrOf result Missing → ⊥ }
        ensures too_long { Counts (IsErrOf result TooLong) self.old.overs self.new.overs }
        ensures over { (IsErrOf result Failed → ⊥) → (IsErrOf result Memory → ⊥) → IsErrOf result TooLong ↔ IsOverlong (Some self.old.left) self.old.given }

        // The plan alone makes a call fail, nothing else raises a count, and a piece is as long as it may be.
        ensures planned { IsErrOf result Failed ↔ (fetch_fails self.old ≡ true) }
        ensures counts { self.new ≡ after_piece self.old result }
        ensures length { IfOk result (λ n. n ≡ piece_length self.old) }
    {
        self.calls = self.calls.saturating_add(1);
        if self.plan.names(self.calls) {
            self.faults = self.faults.saturating_add(1);
            return Err(Fetch::Failed);
        }
        let Some(place) = self.opened else {
            unreachable!();
        };
        let left = left_at(&self.pages, place, self.given);
        if left.is_empty() {
            return Ok(0);
        }
        if self.given as u64 == MOST_GIVEN {
            self.overs = self.overs.saturating_add(1);
            return Err(Fetch::TooLong);
        }
        let count = (self.piece as usize)
            .min(left.len())
            .min(MOST_GIVEN as usize - self.given);
        match into.extend_from_slice(&left[..count]) {
            Ok(()) => {
                self.given += count;
                Ok(count as u32)
            }
            Err(_) => Err(Fetch::Memory),
        }
    }
}
