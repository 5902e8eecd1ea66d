//! A command, and the call that reads it.

ghost use Rattle.std.specs.Prelude.{◌≡◌, ◌↔◌, map, string_bytes, IfOk};
ghost use Rattle.mari_words.specs.Asked.{asked, lent_asked};
ghost use Rattle.clap.specs.Words.{kind_of, subcommand_rows_of};
ghost use Rattle.mari_words.specs.Given.{asked_in};
ghost use Rattle.mari_words.specs.Words.{command_at, Reads};

use crate::asking::{Asked, asked_of};
use crate::parser::parser;
use clap::error::ErrorKind;
use clap::{ArgMatches, Error};
use mari_units::Memory;
use std::alloc::Global;

/// How many nodes a run's search may make where the words don't say.
pub const USUAL_NODES: u32 = 10_000;

/// How many workers search a run where the words don't say.
pub const USUAL_WORKERS: u32 = 2;

/// The file of a folder whose new form is asked for.
#[derive(Clone, Copy, Debug, PartialEq, Eq)]
pub enum FilePart {
    /// borders.csv.
    Borders,
    /// limits.csv.
    Limits,
}

/// What the program is to do.
#[derive(Drop)]
pub enum Command {
    /// `clear FOLDER [--nodes N] [--workers K]`.
    Clear {
        /// The folder's name.
        folder: String,
        /// How many nodes a run's search may make, 1 to `MOST_NODES`.
        nodes: u32,
        /// How many workers search, 1 to `MOST_WORKERS`.
        workers: u32,
    },
    /// `check FOLDER`.
    Check {
        /// The folder's name.
        folder: String,
    },
    /// `generate NUMBER`.
    Generate {
        /// The number that the day is drawn by, 0 to `LAST_NUMBER`.
        number: u32,
    },
    /// `migrate FOLDER borders` or `migrate FOLDER limits`.
    Migrate {
        /// The folder's name.
        folder: String,
        /// The file whose new form is asked for.
        part: FilePart,
    },
    /// `feed FOLDER`.
    Feed {
        /// The folder's name.
        folder: String,
    },
    /// `split FOLDER [--nodes N] [--workers K]`.
    Split {
        /// The folder's name.
        folder: String,
        /// How many nodes an island's search may make, 1 to `MOST_NODES`.
        nodes: u32,
        /// How many workers search, 1 to `MOST_WORKERS`.
        workers: u32,
    },
    /// `blocks FOLDER FIRST LAST [--nodes N] [--workers K]`: the first quarter hour is at most the last.
    Blocks {
        /// The folder's name.
        folder: String,
        /// The first quarter hour, from 1.
        first: u32,
        /// The last one, up to `MOST_QUARTERS`.
        last: u32,
        /// How many nodes the search may make, 1 to `MOST_NODES`.
        nodes: u32,
        /// How many workers search, 1 to `MOST_WORKERS`.
        workers: u32,
    },
    /// `value FOLDER K`.
    Value {
        /// The folder's name.
        folder: String,
        /// By how many MW each limit is raised, 1 to `MOST_RAISE`.
        more: u32,
    },
}

/// Why words gave no command.
#[derive(Clone, Copy, Debug, PartialEq, Eq)]
pub enum WordsFault {
    /// They are no command.
    Usage,
    /// Out of memory: the parser, what it found, or the command couldn't be kept.
    Memory,
}

/// The same command with a folder of its own.
fn kept(alloc: Global, lent: Asked<'_>) -> Result<Command, Memory>
    ensures { IfOk result (λ command. asked command ≡ lent_asked lent.entry) }
{
    Ok(match lent {
        Asked::Clear {
            folder,
            nodes,
            workers,
        } => Command::Clear {
            folder: String::from_str(alloc, folder)?,
            nodes,
            workers,
        },
        Asked::Check { folder } => Command::Check {
            folder: String::from_str(alloc, folder)?,
        },
        Asked::Generate { number } => Command::Generate { number },
        Asked::Migrate { folder, part } => Command::Migrate {
            folder: String::from_str(alloc, folder)?,
            part,
        },
        Asked::Feed { folder } => Command::Feed {
            folder: String::from_str(alloc, folder)?,
        },
        Asked::Split {
            folder,
            nodes,
            workers,
        } => Command::Split {
            folder: String::from_str(alloc, folder)?,
            nodes,
            workers,
        },
        Asked::Blocks {
            folder,
            first,
            last,
            nodes,
            workers,
        } => Command::Blocks {
            folder: String::from_str(alloc, folder)?,
            first,
            last,
            nodes,
            workers,
        },
        Asked::Value { folder, more } => Command::Value {
            folder: String::from_str(alloc, folder)?,
            more,
        },
    })
}

/// The command that was found, if its values are a command's.
fn command_in(alloc: Global, found: &ArgMatches<'_>) -> Result<Command, WordsFault>
    ensures { Reads result (asked_in (subcommand_rows_of found.now)) }
{
    let Some((name, found)) = found.subcommand() else {
        return Err(WordsFault::Usage);
    };
    let Some(lent) = asked_of(name, found) else {
        return Err(WordsFault::Usage);
    };
    match kept(alloc, lent) {
        Ok(command) => Ok(command),
        Err(Memory) => Err(WordsFault::Memory),
    }
}

/// Why no words were taken: out of memory, or they are of no command's form.
fn fault_of(error: &Error) -> WordsFault
    ensures { (result ≡ WordsFault.Memory) ↔ (kind_of error.now ≡ ErrorKind.OutOfMemory) }
{
    match error.kind() {
        ErrorKind::OutOfMemory => WordsFault::Memory,
        _ => WordsFault::Usage,
    }
}

/// The command that the words after the program's name are.
pub fn read_words(alloc: Global, words: &[String]) -> Result<Command, WordsFault>
    ensures { Reads result (command_at (map string_bytes words.now)) }
{
    let Ok(parser) = parser(alloc) else {
        return Err(WordsFault::Memory);
    };
    match parser.try_get_matches_from(words) {
        Ok(found) => command_in(alloc, &found),
        Err(error) => Err(fault_of(&error)),
    }
}
