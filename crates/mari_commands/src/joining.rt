//! `blocks FOLDER FIRST LAST`: quarter hours of a folder cleared as one market, with its blocks of bids.

ghost use Rattle.std.specs.Prelude.{◌≡◌, if◌then◌else◌};
ghost use Rattle.mari_market.specs.Clearing.{Clears, IsBudget, IsWorkerCount};
ghost use Rattle.mari_market.specs.Market.{IsValid};
ghost use Rattle.mari_io.specs.Outside.{Counts, Rose};
ghost use Rattle.mari_commands.specs.Outcome.{AreJoinable, IsSayable, ReportsBlocks, ReportsQuarters};

use crate::outcome::JointJob;
use mari_answers::{Status, say, say_no_page, say_refused};
use mari_blocks::JointText;
use mari_day::BooksFault;
use mari_io::{Shelf, Sink};
use mari_market::{Cleared, Clearer, Market};
use mari_quarters::clear_quarters;
use mari_workers::{Alone, Crew, Turnstile, search};
use std::alloc::Global;
use std::sync::Wait;
use std::thread::Threads;

/// The status of a joint market that is printed, by whether it is published.
fn joint_status(published: bool) -> Status
    ensures { result ≡ (if published then Status.Done else Status.Unpublished) }
{
    if published {
        Status::Done
    } else {
        Status::Unpublished
    }
}

/// Writes the text of a joint market, or the line of why there is none.
fn say_quarters<K: Sink>(
    alloc: Global,
    sink: &mut K,
    given: &Result<JointText, BooksFault>,
) -> Status
    requires { IsSayable given.now }
    ensures reports { ReportsQuarters given.now (K.taken sink.old) (K.taken sink.new) result }
    ensures cause { Counts (result ≡ Status.WriteFault) (K.faults sink.old) (K.faults sink.new) }
{
    match given {
        Ok(printed) => say(
            sink,
            printed.text.as_slice(),
            joint_status(printed.published),
        ),
        Err(BooksFault::Fetch(file, why)) => say_no_page(alloc, sink, *file, *why),
        Err(BooksFault::Refused(refusal)) => say_refused(alloc, sink, *refusal),
        Err(BooksFault::Memory) => Status::Memory,
    }
}

/// Clears the quarters by this clearer, and writes what is printed of them. It returns if the clearer does.
fn join_by<S: Shelf, K: Sink, C: Clearer>(
    alloc: Global,
    quarters: &JointJob,
    clearer: &mut C,
    shelf: &mut S,
    sink: &mut K,
) -> Status
    requires quarters { AreJoinable quarters.now }
    requires ready { C.ready clearer.old }
    ensures same { S.pages shelf.new ≡ S.pages shelf.old }
    ensures reported { ReportsBlocks (S.pages shelf.old) (Rose (S.faults shelf.old) (S.faults shelf.new)) quarters.now
        (K.taken sink.old) (K.taken sink.new) result }

    // Why a page wasn't had, or a text not written.
    ensures read_fault { Counts (result ≡ Status.ReadFault) (S.faults shelf.old) (S.faults shelf.new) }
    ensures missing { Counts (result ≡ Status.Missing) (S.misses shelf.old) (S.misses shelf.new) }
    ensures too_long { Counts (result ≡ Status.TooLong) (S.overs shelf.old) (S.overs shelf.new) }
    ensures cause { Counts (result ≡ Status.WriteFault) (K.faults sink.old) (K.faults sink.new) }
{
    let given = clear_quarters(
        alloc,
        shelf,
        quarters.folder.as_str(),
        quarters.first,
        quarters.last,
        quarters.nodes,
        clearer,
    );
    say_quarters(alloc, sink, &given)
}

/// Clears quarters by one worker, which is this thread. It waits for nobody.
pub fn join_alone<S: Shelf, K: Sink>(
    alloc: Global,
    quarters: &JointJob,
    shelf: &mut S,
    sink: &mut K,
) -> Status
    requires quarters { AreJoinable quarters.now }
    ensures same { S.pages shelf.new ≡ S.pages shelf.old }
    ensures reported { ReportsBlocks (S.pages shelf.old) (Rose (S.faults shelf.old) (S.faults shelf.new)) quarters.now
        (K.taken sink.old) (K.taken sink.new) result }

    // Why a page wasn't had, or a text not written.
    ensures read_fault { Counts (result ≡ Status.ReadFault) (S.faults shelf.old) (S.faults shelf.new) }
    ensures missing { Counts (result ≡ Status.Missing) (S.misses shelf.old) (S.misses shelf.new) }
    ensures too_long { Counts (result ≡ Status.TooLong) (S.overs shelf.old) (S.overs shelf.new) }
    ensures cause { Counts (result ≡ Status.WriteFault) (K.faults sink.old) (K.faults sink.new) }
{
    join_by(alloc, quarters, &mut Alone, shelf, sink)
}

/// Clears quarters by several workers in threads of their own. It may wait for them.
pub fn join_together<S: Shelf, K: Sink, G: Turnstile, R: Threads + Wait + Sync>(
    rt: &R,
    alloc: Global,
    quarters: &JointJob,
    shelf: &mut S,
    sink: &mut K,
    turnstile: &G,
) -> Status
    requires quarters { AreJoinable quarters.now }
    ensures same { S.pages shelf.new ≡ S.pages shelf.old }
    ensures reported { ReportsBlocks (S.pages shelf.old) (Rose (S.faults shelf.old) (S.faults shelf.new)) quarters.now
        (K.taken sink.old) (K.taken sink.new) result }

    // Why a page wasn't had, or a text not written.
    ensures read_fault { Counts (result ≡ Status.ReadFault) (S.faults shelf.old) (S.faults shelf.new) }
    ensures missing { Counts (result ≡ Status.Missing) (S.misses shelf.old) (S.misses shelf.new) }
    ensures too_long { Counts (result ≡ Status.TooLong) (S.overs shelf.old) (S.overs shelf.new) }
    ensures cause { Counts (result ≡ Status.WriteFault) (K.faults sink.old) (K.faults sink.new) }
{
    let workers = quarters.workers;
    let mut crew = Crew {
        run: |alloc: Global, market: &Market, budget: u32| -> Cleared
            requires { IsValid market.now × IsBudget budget × IsWorkerCount workers }
            ensures { Clears market.entry.now budget result }
        { search(rt, alloc, market, workers, budget, turnstile) },
    };
    join_by(alloc, quarters, &mut crew, shelf, sink)
}
