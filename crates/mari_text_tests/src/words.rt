//! Words that are commands, and words that aren't.

use crate::same::same_in;
use mari_words::{Command, FilePart, WordsFault, read_words};
use std::alloc::Global;
use std::process::Abort;
use std::test::Fail;

/// A line of words, and the folder and the numbers of the command that they are: the nodes and the workers are its last
/// two numbers, and 0 stands after them.
type Row = (&'static str, &'static str, [u32; 4]);

/// The verb of a command, its folder, or no text where it has none, and its numbers.
type Reported<'a> = (&'static str, &'a str, [u32; 4]);

/// The words of a line: those between single spaces, so that two spaces are an empty word.
fn words_of(alloc: Global, line: &str) -> Result<Vec<String>, Fail> {
    let mut words = Vec::new(alloc);
    for word in line.split(' ') {
        words.push(String::from_str(alloc, word)?)?;
    }
    Ok(words)
}

/// What the words of a line are.
fn read(alloc: Global, line: &str) -> Result<Result<Command, WordsFault>, Fail> {
    let words = words_of(alloc, line)?;
    let read = read_words(alloc, words.as_slice());
    drop(words);
    Ok(read)
}

fn reported(command: &Command) -> Reported<'_> {
    match command {
        Command::Clear {
            folder,
            nodes,
            workers,
        } => ("clear", folder, [*nodes, *workers, 0, 0]),
        Command::Check { folder } => ("check", folder, [0; 4]),
        Command::Generate { number } => ("generate", "", [*number, 0, 0, 0]),
        Command::Migrate {
            folder,
            part: FilePart::Borders,
        } => ("migrate borders", folder, [0; 4]),
        Command::Migrate {
            folder,
            part: FilePart::Limits,
        } => ("migrate limits", folder, [0; 4]),
        Command::Feed { folder } => ("feed", folder, [0; 4]),
        Command::Split {
            folder,
            nodes,
            workers,
        } => ("split", folder, [*nodes, *workers, 0, 0]),
        Command::Blocks {
            folder,
            first,
            last,
            nodes,
            workers,
        } => ("blocks", folder, [*first, *last, *nodes, *workers]),
        Command::Value { folder, more } => ("value", folder, [*more, 0, 0, 0]),
    }
}

/// Compares the command of a row with what is wanted of it.
fn compare(rt: &impl Abort, alloc: Global, verb: &'static str, row: &Row) -> Result<(), Fail> {
    match read(alloc, row.0)? {
        Ok(command) => {
            same_in(rt, row.0, reported(&command), (verb, row.1, row.2));
            drop(command);
            Ok(())
        }
        Err(_fault) => Err("the words are a command".into()),
    }
}

/// Compares the commands of rows with what is wanted of them.
fn compare_each(
    rt: &impl Abort,
    alloc: Global,
    verb: &'static str,
    rows: &[Row],
) -> Result<(), Fail> {
    for row in rows {
        compare(rt, alloc, verb, row)?;
    }
    Ok(())
}

/// The fault of words that are no command.
fn fault_of(read: Result<Command, WordsFault>) -> Option<WordsFault> {
    match read {
        Ok(command) => {
            drop(command);
            None
        }
        Err(fault) => Some(fault),
    }
}

/// Fails where the words of one of these lines are a command.
fn refuse_each(rt: &impl Abort, alloc: Global, lines: &[&str]) -> Result<(), Fail> {
    for line in lines {
        let fault = fault_of(read(alloc, line)?);
        same_in(rt, line, fault, Some(WordsFault::Usage));
    }
    Ok(())
}

/// Words that clear a folder.
const CLEARS: &[Row] = &[
    ("clear F", "F", [10_000, 2, 0, 0]),
    ("clear F --nodes 5", "F", [5, 2, 0, 0]),
    ("clear --nodes 5 F", "F", [5, 2, 0, 0]),
    ("clear --nodes=5 F", "F", [5, 2, 0, 0]),
    ("clear F --workers 16", "F", [10_000, 16, 0, 0]),
    ("clear --workers 3 F --nodes=05", "F", [5, 3, 0, 0]),
    (
        "clear --nodes=50000 --workers=1 -- -F",
        "-F",
        [50_000, 1, 0, 0],
    ),
    ("clear --nodes 5 -- F", "F", [5, 2, 0, 0]),
    ("clear F --", "F", [10_000, 2, 0, 0]),
    ("clear F --nodes 5 --", "F", [5, 2, 0, 0]),
    ("clear -- F", "F", [10_000, 2, 0, 0]),
    ("clear -- --", "--", [10_000, 2, 0, 0]),
    ("clear -- --nodes", "--nodes", [10_000, 2, 0, 0]),
    ("clear -- --nodes=5", "--nodes=5", [10_000, 2, 0, 0]),
    ("clear clear", "clear", [10_000, 2, 0, 0]),
    (
        "clear F --nodes 0000000000000000000000000000000000000009",
        "F",
        [9, 2, 0, 0],
    ),
];

#[test]
fn words_that_clear_a_folder(rt: HostRuntime) -> Result<(), Fail> {
    compare_each(&rt, rt.alloc(), "clear", CLEARS)
}

/// Words that are no command.
const NO_COMMANDS: &[&str] = &[
    "",
    "clear",
    "clea F",
    "clear F F",
    "F",
    "-- clear F",
    "--nodes 5 clear F",
    "clear ",
    "clear -- ",
    "clear -",
    "clear -- -",
    "clear -F",
    "clear F -n 5",
    "clear F --node 5",
    "clear F --nodes",
    "clear F --nodes=",
    "clear F --nodes 5 --nodes 5",
    "clear F --nodes=5 --nodes 5",
    "clear --workers=1 F --workers=2",
    "clear --nodes -- 5 F",
    "clear F --nodes --",
    "clear F --nodes --workers 5",
    "clear F -- --nodes 5",
    "clear -- -- F",
    "clear F --nodes 0",
    "clear F --nodes 50001",
    "clear F --nodes +5",
    "clear F --nodes -5",
    "clear F --nodes=-5",
    "clear F --nodes 5.0",
    "clear F --nodes 1000000000000000000000000000000000000000",
    "clear F --workers 0",
    "clear F --workers 17",
    "check",
    "check F --nodes 5",
    "check F clear",
    "check -",
    "generate",
    "generate 1 1",
    "generate -1",
    "generate +1",
    "generate 2147483648",
    "generate 1 --workers 1",
    "migrate F",
    "migrate F zones",
    "migrate F borders limits",
    "migrate borders F",
    "value F",
    "value 10",
    "value F 0",
    "value F 1001",
    "value F +1",
    "value F -1",
    "value F 1 1",
    "value - 1",
    "value F  1",
    "value F 1 --nodes 5",
    "help",
    "help clear",
    "--help",
    "clear --help",
    "clear -h F",
    "--version",
    "-V",
];

#[test]
fn words_that_are_no_command(rt: HostRuntime) -> Result<(), Fail> {
    refuse_each(&rt, rt.alloc(), NO_COMMANDS)?;
    let fault = fault_of(read_words(rt.alloc(), &[]));
    same_in(&rt, "no word", fault, Some(WordsFault::Usage));
    Ok(())
}

/// Words that check a folder.
const CHECKS: &[Row] = &[
    ("check F", "F", [0; 4]),
    ("check -- -F", "-F", [0; 4]),
    ("check F --", "F", [0; 4]),
];

/// Words that generate a day.
const GENERATES: &[Row] = &[
    ("generate 007", "", [7, 0, 0, 0]),
    ("generate 0", "", [0; 4]),
    ("generate 2147483647", "", [2_147_483_647, 0, 0, 0]),
    ("generate -- 1", "", [1, 0, 0, 0]),
];

/// Words that print a page of borders in its new form.
const MIGRATES_BORDERS: &[Row] = &[("migrate F borders", "F", [0; 4])];

/// Words that print a page of limits.
const MIGRATES_LIMITS: &[Row] = &[
    ("migrate F -- limits", "F", [0; 4]),
    ("migrate -- F limits", "F", [0; 4]),
];

#[test]
fn words_without_options(rt: HostRuntime) -> Result<(), Fail> {
    let alloc = rt.alloc();
    compare_each(&rt, alloc, "check", CHECKS)?;
    compare_each(&rt, alloc, "generate", GENERATES)?;
    compare_each(&rt, alloc, "migrate borders", MIGRATES_BORDERS)?;
    compare_each(&rt, alloc, "migrate limits", MIGRATES_LIMITS)
}

/// Words that raise the limits of a folder.
const VALUES: &[Row] = &[
    ("value F 1", "F", [1, 0, 0, 0]),
    ("value F 1000", "F", [1000, 0, 0, 0]),
    ("value F 0001000", "F", [1000, 0, 0, 0]),
    ("value -- -F 10", "-F", [10, 0, 0, 0]),
    ("value F -- 10", "F", [10, 0, 0, 0]),
    ("value F 10 --", "F", [10, 0, 0, 0]),
    ("value value 10", "value", [10, 0, 0, 0]),
    ("value 10 10", "10", [10, 0, 0, 0]),
];

#[test]
fn words_that_raise_limits(rt: HostRuntime) -> Result<(), Fail> {
    compare_each(&rt, rt.alloc(), "value", VALUES)
}

/// Words that print a folder's publication as JSON.
const FEEDS: &[Row] = &[
    ("feed F", "F", [0; 4]),
    ("feed -- -F", "-F", [0; 4]),
    ("feed F --", "F", [0; 4]),
    ("feed -- --", "--", [0; 4]),
    ("feed feed", "feed", [0; 4]),
];

/// Words that don't.
const NO_FEEDS: &[&str] = &[
    "feed",
    "feed ",
    "feed -",
    "feed -F",
    "feed F F",
    "feed F --nodes 5",
    "feed F --workers=2",
    "feed -- -- F",
    "feeds F",
    "fee F",
    "Feed F",
];

#[test]
fn words_that_print_a_publication_as_json(rt: HostRuntime) -> Result<(), Fail> {
    compare_each(&rt, rt.alloc(), "feed", FEEDS)?;
    refuse_each(&rt, rt.alloc(), NO_FEEDS)
}

/// Words that split a folder's day into islands.
const SPLITS: &[Row] = &[
    ("split F", "F", [10_000, 2, 0, 0]),
    ("split F --nodes 3", "F", [3, 2, 0, 0]),
    (
        "split --workers=16 F --nodes=50000",
        "F",
        [50_000, 16, 0, 0],
    ),
    ("split --nodes 5 -- --nodes", "--nodes", [5, 2, 0, 0]),
    ("split F --", "F", [10_000, 2, 0, 0]),
    ("split split", "split", [10_000, 2, 0, 0]),
];

/// Words that don't.
const NO_SPLITS: &[&str] = &[
    "split",
    "split -",
    "split -F",
    "split F F",
    "split F --nodes",
    "split F --nodes 0",
    "split F --nodes 50001",
    "split F --workers 17",
    "split F --nodes 5 --nodes=5",
    "split F -- --nodes 5",
    "spli F",
];

#[test]
fn words_that_split_a_folder(rt: HostRuntime) -> Result<(), Fail> {
    compare_each(&rt, rt.alloc(), "split", SPLITS)?;
    refuse_each(&rt, rt.alloc(), NO_SPLITS)
}

/// Words that clear quarters of a folder as one market, with the first and the last quarter as the first two numbers.
const BLOCKS: &[Row] = &[
    ("blocks F 1 2", "F", [1, 2, 10_000, 2]),
    ("blocks F 1 1", "F", [1, 1, 10_000, 2]),
    ("blocks F 1 400", "F", [1, 400, 10_000, 2]),
    ("blocks F 400 400", "F", [400, 400, 10_000, 2]),
    ("blocks F 009 10", "F", [9, 10, 10_000, 2]),
    ("blocks F 1 2 --nodes 5", "F", [1, 2, 5, 2]),
    ("blocks --nodes 5 F 1 2", "F", [1, 2, 5, 2]),
    ("blocks F --workers=3 1 2", "F", [1, 2, 10_000, 3]),
    ("blocks F 1 --workers 3 2", "F", [1, 2, 10_000, 3]),
    (
        "blocks --nodes=50000 F 1 --workers=16 2",
        "F",
        [1, 2, 50_000, 16],
    ),
    ("blocks --nodes 5 -- -F 1 2", "-F", [1, 2, 5, 2]),
    ("blocks F 1 -- 2", "F", [1, 2, 10_000, 2]),
    ("blocks F 1 2 --", "F", [1, 2, 10_000, 2]),
    ("blocks blocks 3 4", "blocks", [3, 4, 10_000, 2]),
    ("blocks 1 2 3", "1", [2, 3, 10_000, 2]),
];

/// Words that don't.
const NO_BLOCKS: &[&str] = &[
    "blocks",
    "blocks F",
    "blocks F 1",
    "blocks 1 2",
    "blocks F 1 2 3",
    "blocks - 1 2",
    "blocks  1 2",
    "blocks -F 1 2",
    "blocks F 2 1",
    "blocks F 0 1",
    "blocks F 0 0",
    "blocks F 1 0",
    "blocks F 1 401",
    "blocks F 401 401",
    "blocks F +1 2",
    "blocks F 1 +2",
    "blocks F -- 1 -2",
    "blocks F -1 2",
    "blocks F 1  2",
    "blocks F 1.0 2",
    "blocks F one two",
    "blocks F 1-2",
    "blocks F 1 4294967297",
    "blocks F 4294967297 4294967298",
    "blocks F 1 4000000000000000000000000",
    "blocks F 1 ",
    "blocks 1 2 F",
    "blocks F 1 --nodes 2",
    "blocks F 1 2 --third=2",
    "blocks F 1 2 --nodes",
    "blocks F 1 2 --nodes 0",
    "blocks F 1 2 --nodes 50001",
    "blocks F 1 2 --workers 0",
    "blocks F 1 2 --workers 17",
    "blocks F 1 2 --nodes 5 --nodes=5",
    "blocks F 1 -- 2 --nodes 5",
    "blocks F 1 2 --first 1",
    "block F 1 2",
];

#[test]
fn words_that_clear_quarters_as_one_market(rt: HostRuntime) -> Result<(), Fail> {
    compare_each(&rt, rt.alloc(), "blocks", BLOCKS)?;
    refuse_each(&rt, rt.alloc(), NO_BLOCKS)
}
