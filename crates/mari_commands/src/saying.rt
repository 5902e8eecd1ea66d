//! What is printed of an outcome, and the status that it ends with.

ghost use Rattle.std.specs.Prelude.{◌≡◌, ◌≤◌, ◌+◌};
ghost use Rattle.mari_io.specs.Outside.{Counts, Rose};
ghost use Rattle.mari_answers.specs.Reports.{AsksForOne};
ghost use Rattle.mari_commands.specs.Outcome.{AreQuarters, IsOwn, IsReportable, Reported};

use crate::clearing::clear_alone;
use crate::feeding::fed;
use crate::joining::join_alone;
use crate::outcome::Outcome;
use crate::usage::usage_line;
use crate::valuing::say_values;
use mari_answers::{Status, say, say_invalid, say_no_page, say_refused};
use mari_io::{Shelf, Sink};
use std::alloc::Global;

/// Writes what is printed of an outcome, and answers its status. A day and quarters are cleared by this thread, so that
/// the call waits for nobody. Of the shelf it asks only for the publication that is printed as a feed, and for the
/// files of quarters that are cleared as one market.
pub fn report<S: Shelf, K: Sink>(
    alloc: Global,
    shelf: &mut S,
    sink: &mut K,
    outcome: &Outcome,
) -> Status
    requires { IsReportable outcome.now }
    ensures same { S.pages shelf.new ≡ S.pages shelf.old }
    ensures untouched { (IsOwn outcome.now → ⊥) → S.fetches shelf.new ≡ S.fetches shelf.old }
    ensures alone { (AreQuarters outcome.now → ⊥) → AsksForOne (S.fetches shelf.old) (S.fetches shelf.new) (S.given shelf.new) }
    ensures named { (AreQuarters outcome.now → ⊥) → S.named shelf.new ≤ S.named shelf.old + 1 }
    ensures reported { Reported (S.pages shelf.old) (Rose (S.faults shelf.old) (S.faults shelf.new)) outcome.now (K.taken sink.old) (K.taken sink.new) result }

    // Why a page wasn't had, or a text not written.
    ensures read_fault { Counts (IsOwn outcome.now × (result ≡ Status.ReadFault)) (S.faults shelf.old) (S.faults shelf.new) }
    ensures missing { Counts (IsOwn outcome.now × (result ≡ Status.Missing)) (S.misses shelf.old) (S.misses shelf.new) }
    ensures too_long { Counts (IsOwn outcome.now × (result ≡ Status.TooLong)) (S.overs shelf.old) (S.overs shelf.new) }
    ensures cause { Counts (result ≡ Status.WriteFault) (K.faults sink.old) (K.faults sink.new) }
{
    match outcome {
        Outcome::NoCommand => say(sink, usage_line(), Status::Usage),
        Outcome::Day(job) => clear_alone(alloc, job, sink),
        Outcome::Feed(folder) => fed(alloc, shelf, sink, folder),
        Outcome::Blocks(quarters) => join_alone(alloc, quarters, shelf, sink),
        Outcome::Values(valued) => say_values(alloc, sink, valued),
        Outcome::Text(text) => say(sink, text, Status::Done),
        Outcome::Invalid { run, fault } => say_invalid(alloc, sink, *run, *fault),
        Outcome::NoPage(file, why) => say_no_page(alloc, sink, *file, *why),
        Outcome::Refused(refusal) => say_refused(alloc, sink, *refusal),
        Outcome::Memory => Status::Memory,
    }
}
