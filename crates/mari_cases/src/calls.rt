//! The calls of a case.

use crate::fault::Fault;
use crate::paragraph::Section;
use crate::shelf::shelf_of;
use crate::stated::Stated;
use crate::wanted::is_wanted;
use mari_commands::run_program;
use mari_io::{FaultPlan, MemoryShelf, MemorySink};
use mari_units::Items;
use mari_workers::FreeTurnstile;
use std::alloc::{AllocError, Global};
use std::sync::Wait;
use std::thread::Threads;

/// How many bytes a sink takes in a call, so that a text is written by many.
const MOST: u32 = 10;

/// How many bytes a sink has room for.
const ROOM: u32 = 1_000_000;

/// A case.
#[derive(Clone, Copy)]
pub struct Case<'a> {
    /// Its file.
    pub file: &'a str,
    /// The number of its first line there.
    pub line: usize,
    /// What its first lines state.
    pub stated: Stated<'a>,
    /// Its sections, and the pages that it takes over.
    pub sections: &'a [Section<'a>],
    /// What its calls print, the last line without its end.
    pub wanted: &'a str,
}

/// Adds a word.
fn add_word(alloc: Global, words: &mut Vec<String>, word: &str) -> Result<(), AllocError> {
    words.push(String::from_str(alloc, word)?)?;
    Ok(())
}

/// Adds the words of a line: those between blanks, and each text between two quotes.
fn add_words(alloc: Global, words: &mut Vec<String>, line: &str) -> Result<(), AllocError> {
    let mut is_quoted = false;
    for part in line.split('"') {
        if is_quoted {
            add_word(alloc, words, part)?;
        } else {
            for word in part.split_whitespace() {
                add_word(alloc, words, word)?;
            }
        }
        is_quoted = !is_quoted;
    }
    Ok(())
}

/// Runs the program on these words, this shelf and this sink. It answers the exit code.
fn exit_code(
    rt: &(impl Threads + Wait + Sync),
    alloc: Global,
    words: &[String],
    mut shelf: MemoryShelf,
    sink: &mut MemorySink,
) -> u8 {
    let status = run_program(rt, alloc, words, &mut shelf, sink, &FreeTurnstile);
    status.code()
}

/// Whether a call agrees that came to this code and printed these bytes. Where it doesn't, it is printed as a case.
fn compare(
    rt: &impl Print,
    alloc: Global,
    case: &Case<'_>,
    words: &str,
    code: u8,
    bytes: &[u8],
) -> Result<bool, Fault> {
    let Ok(text) = str::from_utf8(bytes) else {
        return Err(Fault::Line(case.line, "what is printed isn't text"));
    };
    if code == case.stated.code && is_wanted(alloc, text, case.wanted)? {
        return Ok(true);
    }
    let (file, line, name) = (case.file, case.line, case.stated.name);
    println!(rt; "{file}:{line}: case {name}\n>{words}\nexit {code}\n-- prints --\n{text}")?;
    Ok(false)
}

/// Makes a call by the words of a line, and answers whether it agrees.
pub fn agrees(
    rt: &(impl Print + Threads + Wait + Sync),
    alloc: Global,
    case: &Case<'_>,
    line: &str,
) -> Result<bool, Fault> {
    let mut words = Vec::new(alloc);
    add_words(alloc, &mut words, line)?;
    let shelf = shelf_of(alloc, case)?;
    let plan = FaultPlan {
        calls: Items::of(Vec::new(alloc)),
    };
    let mut sink = MemorySink::new(alloc, MOST, ROOM, plan)?;
    let code = exit_code(rt, alloc, words.as_slice(), shelf, &mut sink);
    compare(rt, alloc, case, line, code, sink.bytes())
}
