//! The top call.

ghost use Rattle.std.specs.Prelude.{◌≡◌, ◌≤◌, ◌+◌, ℕ, List, None, Some, map, string_bytes, ◌⊎◌};
ghost use Rattle.mari_units.specs.declared.faults.Refusal.{Refusal};
ghost use Rattle.mari_io.specs.Outside.{Counts, Pages, Rose};
ghost use Rattle.mari_io.specs.declared.shelf.Fetch.TheVariants as fetch;
ghost use Rattle.mari_publish.specs.declared.fault.TextFault.{TextFault};
ghost use Rattle.mari_day.specs.Files.{Gap};
ghost use Rattle.mari_capacity.specs.declared.ending.ValueEnd.{ValueEnd as TheValueEnd};
ghost use Rattle.mari_words.specs.Asked.Asked.{Generate};
ghost use Rattle.mari_words.specs.Words.{command_at};
ghost use Rattle.mari_commands.specs.Commands.{AsksForFeed, AsksForFiles, AsksForPages, EndsValues, HasBooksToClear, IsFeedable, IsMigratable, IsReadable, LacksPage, RefusesFeed, RefusesFiles, RefusesText};
ghost use Rattle.mari_answers.specs.Texts.{text_refusal};
ghost use Rattle.mari_commands.specs.Headline.{HasBudget};
ghost use Rattle.mari_answers.specs.Reports.{AsksForOne};
ghost use Rattle.mari_commands.specs.Outcome.{AreQuarters, IsNoPage, IsOfWords, IsOwn, IsReportable, IsSummarised, Reported, Says};
ghost use Rattle.mari_commands.specs.Values.{value_status};
ghost use Rattle.mari_commands.specs.Program.{IsDayStatus, IsStatus, IsVerdictStatus, OrFault, gap_status};
ghost use Rattle.mari_commands.specs.Joint.{AnswersOf, Decides, IsJoinable};
ghost use Rattle.mari_commands.specs.Splits.{HasIslandBudget, IsSplittable};

use crate::checking::checked;
use crate::clearing::{clear_together, to_clear};
use crate::generating::generated;
use crate::joining::join_together;
use crate::migrating::migrated;
use crate::outcome::{JointJob, Outcome, Way};
use crate::saying::report;
use crate::valuing::valued;
use mari_answers::Status;
use mari_io::{Shelf, Sink};
use mari_words::{Command, WordsFault, read_words};
use mari_workers::Turnstile;
use std::alloc::Global;
use std::sync::Wait;
use std::thread::Threads;

/// What the words and the shelf's pages come to. It waits for workers only where a day is generated.
fn outcome_of<S: Shelf, G: Turnstile, R: Threads + Wait + Sync>(
    rt: &R,
    alloc: Global,
    words: &[String],
    shelf: &mut S,
    turnstile: &G,
) -> Outcome
    // What is found of the pages, where the shelf reports them.
    ensures same { S.pages shelf.new ≡ S.pages shelf.old }
    ensures reported { (reported : Pages) → S.pages shelf.old ≡ Some reported → Says (command_at (map string_bytes words.now)) reported result }

    // Where the words read no folder, nothing is fetched.
    ensures untouched { (AsksForFiles (command_at (map string_bytes words.now)) → ⊥) → S.fetches shelf.new ≡ S.fetches shelf.old }
    ensures unnamed { (AsksForFiles (command_at (map string_bytes words.now)) → ⊥) → S.named shelf.new ≡ S.named shelf.old }

    // What comes of the words on any shelf.
    ensures words { IsOfWords (command_at (map string_bytes words.now)) result }
    ensures generated { (number : ℕ) → command_at (map string_bytes words.now) ≡ Some (Generate number) → IsSummarised number result }
    ensures reportable { IsReportable result }

    // Why a page wasn't had.
    ensures failed { Counts (IsNoPage fetch.Failed result) (S.faults shelf.old) (S.faults shelf.new) }
    ensures missing { Counts (IsNoPage fetch.Missing result) (S.misses shelf.old) (S.misses shelf.new) }
    ensures too_long { Counts (IsNoPage fetch.TooLong result) (S.overs shelf.old) (S.overs shelf.new) }
{
    match read_words(alloc, words) {
        Ok(
            Command::Clear {
                folder,
                nodes,
                workers,
            },
        ) => to_clear(alloc, shelf, &folder, Way::Whole, nodes, workers),
        Ok(Command::Check { folder }) => checked(alloc, shelf, &folder),
        Ok(Command::Generate { number }) => generated(rt, alloc, number, turnstile),
        Ok(Command::Migrate { folder, part }) => migrated(alloc, shelf, &folder, part),
        Ok(Command::Feed { folder }) => Outcome::Feed(folder),
        Ok(
            Command::Split {
                folder,
                nodes,
                workers,
            },
        ) => to_clear(alloc, shelf, &folder, Way::Islands, nodes, workers),
        Ok(Command::Value { folder, more }) => valued(alloc, shelf, &folder, more),
        Ok(
            Command::Blocks {
                folder,
                first,
                last,
                nodes,
                workers,
            },
        ) => Outcome::Blocks(JointJob {
            folder,
            first,
            last,
            nodes,
            workers,
        }),
        Err(WordsFault::Usage) => Outcome::NoCommand,
        Err(WordsFault::Memory) => Outcome::Memory,
    }
}

/// Writes what is printed of an outcome, and answers its status. It waits for workers only where a day or quarters are
/// cleared by several.
fn finish<S: Shelf, K: Sink, G: Turnstile, R: Threads + Wait + Sync>(
    rt: &R,
    alloc: Global,
    outcome: &Outcome,
    shelf: &mut S,
    sink: &mut K,
    turnstile: &G,
) -> Status
    requires { IsReportable outcome.now }
    ensures same { S.pages shelf.new ≡ S.pages shelf.old }
    ensures untouched { (IsOwn outcome.now → ⊥) → S.fetches shelf.new ≡ S.fetches shelf.old }
    ensures alone { (AreQuarters outcome.now → ⊥) → AsksForOne (S.fetches shelf.old) (S.fetches shelf.new) (S.given shelf.new) }
    ensures named { (AreQuarters outcome.now → ⊥) → S.named shelf.new ≤ S.named shelf.old + 1 }
    ensures reported { Reported (S.pages shelf.old) (Rose (S.faults shelf.old) (S.faults shelf.new)) outcome.now (K.taken sink.old) (K.taken sink.new) result }

    // Why a page wasn't had, or a text not written.
    ensures read_fault { Counts (IsOwn outcome.now × (result ≡ Status.ReadFault)) (S.faults shelf.old) (S.faults shelf.new) }
    ensures missing { Counts (IsOwn outcome.now × (result ≡ Status.Missing)) (S.misses shelf.old) (S.misses shelf.new) }
    ensures too_long { Counts (IsOwn outcome.now × (result ≡ Status.TooLong)) (S.overs shelf.old) (S.overs shelf.new) }
    ensures cause { Counts (result ≡ Status.WriteFault) (K.faults sink.old) (K.faults sink.new) }
{
    match outcome {
        Outcome::Day(job) if job.workers > 1 => clear_together(rt, alloc, job, sink, turnstile),
        Outcome::Blocks(quarters) if quarters.workers > 1 => {
            join_together(rt, alloc, quarters, shelf, sink, turnstile)
        }
        other => report(alloc, shelf, sink, other),
    }
}

/// Does all that the program does, by the words after its name:
///
/// - `clear FOLDER [--nodes N] [--workers K]` clears the runs of the folder's day and prints the day as it is made. A
///   run's search makes at most N nodes, 1 to `MOST_NODES`, or `USUAL_NODES` where the words don't say; K workers
///   search, 1 to `MOST_WORKERS`, or `USUAL_WORKERS`.
/// - `check FOLDER` checks the folder's publication.txt against its market files.
/// - `generate NUMBER` clears a generated day and prints its summary.
/// - `migrate FOLDER borders` and `migrate FOLDER limits` print these files in the form that states limits for each
///   run.
/// - `feed FOLDER` prints the folder's publication.txt as JSON, a line for each part. It reads no other file.
/// - `split FOLDER [--nodes N] [--workers K]` clears the runs of the folder's day island by island, each island within N
///   nodes, and prints the day as it is made.
/// - `value FOLDER K` prints what K MW more, 1 to `MOST_RAISE`, on each limit of a border bring at most to each run of
///   the folder's publication.txt while its gates stay, whether or not prices exist then. It checks the text block by
///   block, up to its first fault.
/// - `blocks FOLDER FIRST LAST [--nodes N] [--workers K]` clears the scheduled runs of the quarter hours FIRST to LAST, 1
///   to `MOST_QUARTERS`, as one market, with the blocks of bids of the folder's blocks.csv, and prints it.
///
/// The market files of a folder are fetched in their order and then read in that order; blocks.csv after them. Two or
/// more workers take their findings from the turnstile, and the call may then wait for them. On `check`, on `migrate`,
/// on `feed`, on `value`, and on `clear`, `split` and `blocks` with one worker it uses only calls that return.
pub fn run_program<S: Shelf, K: Sink, G: Turnstile, R: Threads + Wait + Sync>(
    rt: &R,
    alloc: Global,
    words: &[String],
    shelf: &mut S,
    sink: &mut K,
    turnstile: &G,
) -> Status
    // The headline is in here: what each answer says of the words, of the pages and of what is printed.
    ensures answers { AnswersOf (command_at (map string_bytes words.now)) (S.pages shelf.old) (Rose (S.faults shelf.old) (S.faults shelf.new))
        (K.taken sink.old) (K.taken sink.new) result }
    ensures same { S.pages shelf.new ≡ S.pages shelf.old }

    // Where the words read no page, nothing is fetched. On a feed at most one call names a page, and each further one is for
    // a piece, at most one for each byte that was given, and one.
    ensures untouched { (AsksForPages (command_at (map string_bytes words.now)) → ⊥) → S.fetches shelf.new ≡ S.fetches shelf.old }
    ensures alone { AsksForFeed (command_at (map string_bytes words.now)) → AsksForOne (S.fetches shelf.old) (S.fetches shelf.new) (S.given shelf.new) }
    ensures named { AsksForFeed (command_at (map string_bytes words.now)) → S.named shelf.new ≤ S.named shelf.old + 1 }

    // Why a page wasn't had, or a text not written.
    ensures read_fault { Counts (result ≡ Status.ReadFault) (S.faults shelf.old) (S.faults shelf.new) }
    ensures missing { Counts (result ≡ Status.Missing) (S.misses shelf.old) (S.misses shelf.new) }
    ensures too_long { Counts (result ≡ Status.TooLong) (S.overs shelf.old) (S.overs shelf.new) }
    ensures write_fault { Counts (result ≡ Status.WriteFault) (K.faults sink.old) (K.faults sink.new) }

    // Words that are no command are answered so, the first refusal of the market files, the fault that is reported of
    // the text of a publication that is checked or printed as a feed, and the first page that isn't held or is too
    // long.
    ensures no_command { command_at (map string_bytes words.now) ≡ None → (result ≡ Status.Usage) ⊎ ((result ≡ Status.WriteFault) ⊎ (result ≡ Status.Memory)) }
    ensures refuses { (reported : Pages) (refusal : Refusal) → S.pages shelf.old ≡ Some reported
        → RefusesFiles (command_at (map string_bytes words.now)) reported refusal
        → OrFault (IsStatus (Status.Refused refusal)) result }
    ensures refuses_text { (reported : Pages) (page : List ℕ) (fault : TextFault) → S.pages shelf.old ≡ Some reported
        → RefusesText (command_at (map string_bytes words.now)) reported page fault
        → OrFault (IsStatus (Status.Refused (text_refusal fault))) result }
    ensures refuses_feed { (reported : Pages) (page : List ℕ) (fault : TextFault) → S.pages shelf.old ≡ Some reported
        → RefusesFeed (command_at (map string_bytes words.now)) reported page fault
        → OrFault (IsStatus (Status.Refused (text_refusal fault))) result }
    ensures gaps { (reported : Pages) (file : ℕ) (gap : Gap) → S.pages shelf.old ≡ Some reported
        → LacksPage (command_at (map string_bytes words.now)) reported file gap
        → OrFault (IsStatus (gap_status gap)) result }

    // Folders whose pages are accepted are cleared, and wholly where the budget holds each run's search tree, or that
    // of each island where they are cleared island by island; a publication that is read is checked, or printed as a
    // feed; the values of limits end as the publication does, with their last line exactly where it is valid; files
    // that state their limits for the day are migrated; and days are generated.
    ensures cleared { (reported : Pages) → S.pages shelf.old ≡ Some reported → HasBooksToClear (command_at (map string_bytes words.now)) reported
        → OrFault IsDayStatus result }
    ensures complete { (reported : Pages) → S.pages shelf.old ≡ Some reported → HasBudget (command_at (map string_bytes words.now)) reported
        → OrFault (IsStatus Status.Done) result }
    ensures split { (reported : Pages) → S.pages shelf.old ≡ Some reported → IsSplittable (command_at (map string_bytes words.now)) reported
        → OrFault IsDayStatus result }
    ensures islands { (reported : Pages) → S.pages shelf.old ≡ Some reported → HasIslandBudget (command_at (map string_bytes words.now)) reported
        → OrFault (IsStatus Status.Done) result }
    ensures checked { (reported : Pages) → S.pages shelf.old ≡ Some reported → IsReadable (command_at (map string_bytes words.now)) reported
        → OrFault IsVerdictStatus result }
    ensures fed { (reported : Pages) → S.pages shelf.old ≡ Some reported → IsFeedable (command_at (map string_bytes words.now)) reported
        → OrFault (IsStatus Status.Done) result }
    ensures values { (reported : Pages) (end : TheValueEnd) → S.pages shelf.old ≡ Some reported
        → EndsValues (command_at (map string_bytes words.now)) reported end → OrFault (IsStatus (value_status end)) result }
    ensures migrated { (reported : Pages) → S.pages shelf.old ≡ Some reported → IsMigratable (command_at (map string_bytes words.now)) reported
        → OrFault (IsStatus Status.Done) result }
    ensures generated { (number : ℕ) → command_at (map string_bytes words.now) ≡ Some (Generate number)
        → (result ≡ Status.Done) ⊎ ((result ≡ Status.WriteFault) ⊎ (result ≡ Status.Memory)) }

    // Quarters that are cleared as one market are refused by their first refusal, lack their first page that can't be
    // had, and are cleared where there is one; wholly where the budget holds its search tree.
    ensures blocks { (reported : Pages) (wanted : Status) → S.pages shelf.old ≡ Some reported
        → Decides (command_at (map string_bytes words.now)) reported wanted → OrFault (IsStatus wanted) result }
    ensures joined { (reported : Pages) → S.pages shelf.old ≡ Some reported → IsJoinable (command_at (map string_bytes words.now)) reported
        → OrFault IsDayStatus result }
{
    let outcome = outcome_of(rt, alloc, words, shelf, turnstile);
    finish(rt, alloc, &outcome, shelf, sink, turnstile)
}
