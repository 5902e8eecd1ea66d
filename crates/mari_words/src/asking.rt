//! What the words of a command ask for, its folder lent.

ghost use Rattle.std.specs.Prelude.{◌≡◌, ◌≤◌, option_map, IfSome};
ghost use Rattle.std.specs.Option.{option_copied};
ghost use Rattle.clap.specs.Words.{first_of, found_of, rows_of};
ghost use Rattle.mari_words.specs.Asked.{lent_asked};
ghost use Rattle.mari_words.specs.Words.{asked_for, folder_in, natural_in, nodes_in, number_or, part_named, workers_in};
ghost use Rattle.mari_words.specs.Words.Verb.{Clears, Checks, Generates, Migrates, Feeds, Splits, Joins, Values};
ghost use Rattle.mari_words.specs.Given.{asked_by, given_of};

use crate::command::{FilePart, USUAL_NODES, USUAL_WORKERS};
use clap::ArgMatches;
use mari_units::{LAST_NUMBER, MOST_NODES, MOST_QUARTERS, MOST_RAISE, MOST_WORKERS, read_mw};

/// What words ask for.
#[derive(Clone, Copy)]
pub enum Asked<'a> {
    /// `clear`.
    Clear {
        /// The folder's name.
        folder: &'a str,
        /// How many nodes a run's search may make, 1 to `MOST_NODES`.
        nodes: u32,
        /// How many workers search, 1 to `MOST_WORKERS`.
        workers: u32,
    },
    /// `check`.
    Check {
        /// The folder's name.
        folder: &'a str,
    },
    /// `generate`.
    Generate {
        /// The number that the day is drawn by, 0 to `LAST_NUMBER`.
        number: u32,
    },
    /// `migrate`.
    Migrate {
        /// The folder's name.
        folder: &'a str,
        /// The file whose new form is asked for.
        part: FilePart,
    },
    /// `feed`.
    Feed {
        /// The folder's name.
        folder: &'a str,
    },
    /// `split`.
    Split {
        /// The folder's name.
        folder: &'a str,
        /// How many nodes an island's search may make, 1 to `MOST_NODES`.
        nodes: u32,
        /// How many workers search, 1 to `MOST_WORKERS`.
        workers: u32,
    },
    /// `blocks`: the first quarter hour is at most the last.
    Blocks {
        /// The folder's name.
        folder: &'a str,
        /// The first quarter hour, from 1.
        first: u32,
        /// The last one, up to `MOST_QUARTERS`.
        last: u32,
        /// How many nodes the search may make, 1 to `MOST_NODES`.
        nodes: u32,
        /// How many workers search, 1 to `MOST_WORKERS`.
        workers: u32,
    },
    /// `value`.
    Value {
        /// The folder's name.
        folder: &'a str,
        /// By how many MW each limit is raised, 1 to `MOST_RAISE`.
        more: u32,
    },
}

/// The value that was found under a name.
fn text<'a>(found: &ArgMatches<'a>, name: &str) -> Option<&'a str>
    ensures { option_copied result ≡ first_of name.now (rows_of (found_of found.now)) }
{
    found.get_str(name)
}

/// The word, if it names a folder.
fn folder(word: &str) -> Option<&str>
    ensures { option_copied result ≡ folder_in word.entry.now }
{
    match word {
        "" | "-" => None,
        folder => Some(folder),
    }
}

/// The number from `low` to `high` that a text writes, by digits alone.
fn number(low: u32, high: u32, text: &[u8]) -> Option<u32>
    ensures number { result ≡ natural_in low high text.now }
    ensures range { IfSome result (λ n. (low ≤ n) × (n ≤ high)) }
{
    if matches!(text, [b'-', ..]) {
        return None;
    }
    match read_mw(text, i64::from(low), i64::from(high)) {
        Ok(number) => Some(number.0 as u32),
        Err(_) => None,
    }
}

/// The number of an option, or the usual one.
fn number_of(usual: u32, low: u32, high: u32, text: Option<&str>) -> Option<u32>
    ensures { result ≡ number_or usual low high (option_copied text.entry) }
{
    match text {
        None => Some(usual),
        Some(text) => number(low, high, text.as_bytes()),
    }
}

/// The file whose new form is asked for.
fn part(word: &str) -> Option<FilePart>
    ensures { result ≡ part_named word.now }
{
    match word {
        "borders" => Some(FilePart::Borders),
        "limits" => Some(FilePart::Limits),
        _ => None,
    }
}

/// How many nodes a run's search may make.
fn nodes(found: &ArgMatches<'_>) -> Option<u32>
    ensures { result ≡ nodes_in (given_of (rows_of (found_of found.now))) }
{
    number_of(USUAL_NODES, 1, MOST_NODES, text(found, "nodes"))
}

/// How many workers search a run.
fn workers(found: &ArgMatches<'_>) -> Option<u32>
    ensures { result ≡ workers_in (given_of (rows_of (found_of found.now))) }
{
    number_of(USUAL_WORKERS, 1, MOST_WORKERS, text(found, "workers"))
}

/// What `clear` asks for, if its words are right.
fn clear<'a>(found: &ArgMatches<'a>) -> Option<Asked<'a>>
    ensures { option_map lent_asked result ≡ asked_for Clears (given_of (rows_of (found_of found.now))) }
{
    let folder = folder(text(found, "first")?)?;
    let nodes = nodes(found)?;
    let workers = workers(found)?;
    Some(Asked::Clear {
        folder,
        nodes,
        workers,
    })
}

/// What `check` asks for, if its words are right.
fn check<'a>(found: &ArgMatches<'a>) -> Option<Asked<'a>>
    ensures { option_map lent_asked result ≡ asked_for Checks (given_of (rows_of (found_of found.now))) }
{
    let folder = folder(text(found, "first")?)?;
    Some(Asked::Check { folder })
}

/// What `generate` asks for, if its words are right.
fn generate<'a>(found: &ArgMatches<'a>) -> Option<Asked<'a>>
    ensures { option_map lent_asked result ≡ asked_for Generates (given_of (rows_of (found_of found.now))) }
{
    let word = text(found, "first")?;
    let number = number(0, LAST_NUMBER, word.as_bytes())?;
    Some(Asked::Generate { number })
}

/// What `migrate` asks for, if its words are right.
fn migrate<'a>(found: &ArgMatches<'a>) -> Option<Asked<'a>>
    ensures { option_map lent_asked result ≡ asked_for Migrates (given_of (rows_of (found_of found.now))) }
{
    let folder = folder(text(found, "first")?)?;
    let part = part(text(found, "second")?)?;
    Some(Asked::Migrate { folder, part })
}

/// What `feed` asks for, if its words are right.
fn feed<'a>(found: &ArgMatches<'a>) -> Option<Asked<'a>>
    ensures { option_map lent_asked result ≡ asked_for Feeds (given_of (rows_of (found_of found.now))) }
{
    let folder = folder(text(found, "first")?)?;
    Some(Asked::Feed { folder })
}

/// What `split` asks for, if its words are right.
fn split<'a>(found: &ArgMatches<'a>) -> Option<Asked<'a>>
    ensures { option_map lent_asked result ≡ asked_for Splits (given_of (rows_of (found_of found.now))) }
{
    let folder = folder(text(found, "first")?)?;
    let nodes = nodes(found)?;
    let workers = workers(found)?;
    Some(Asked::Split {
        folder,
        nodes,
        workers,
    })
}

/// What `blocks` asks for, if its words are right.
fn blocks<'a>(found: &ArgMatches<'a>) -> Option<Asked<'a>>
    ensures { option_map lent_asked result ≡ asked_for Joins (given_of (rows_of (found_of found.now))) }
{
    let folder = folder(text(found, "first")?)?;
    let first = number(1, MOST_QUARTERS, text(found, "second")?.as_bytes())?;
    let last = number(first, MOST_QUARTERS, text(found, "third")?.as_bytes())?;
    let nodes = nodes(found)?;
    let workers = workers(found)?;
    Some(Asked::Blocks {
        folder,
        first,
        last,
        nodes,
        workers,
    })
}

/// What `value` asks for, if its words are right.
fn value<'a>(found: &ArgMatches<'a>) -> Option<Asked<'a>>
    ensures { option_map lent_asked result ≡ asked_for Values (given_of (rows_of (found_of found.now))) }
{
    let folder = folder(text(found, "first")?)?;
    let word = text(found, "second")?;
    let more = number(1, MOST_RAISE, word.as_bytes())?;
    Some(Asked::Value { folder, more })
}

/// What the command of this name asks for.
pub fn asked_of<'a>(name: &str, found: &ArgMatches<'a>) -> Option<Asked<'a>>
    ensures { option_map lent_asked result ≡ asked_by name.now (rows_of (found_of found.now)) }
{
    match name {
        "clear" => clear(found),
        "check" => check(found),
        "generate" => generate(found),
        "migrate" => migrate(found),
        "feed" => feed(found),
        "split" => split(found),
        "blocks" => blocks(found),
        "value" => value(found),
        _ => None,
    }
}
