//! Cases of the whole program as data: `mari_cases FILE..` makes the calls that these files state, each over a folder in
//! memory, and compares its exit code and the text that it prints.
//!
//! A case file is a text of paragraphs, with a blank line between two of them. A paragraph is a folder, a case, or
//! remarks alone:
//!
//! ```text
//! # A remark, to the end of its line. It may stand before the sections of any paragraph.
//!
//! folder a full border
//! like two zones
//! without limits.csv
//! -- borders.csv --
//! from,to,limit,back
//! A,B,50,50
//!
//! case what 10 MW more are worth
//! in a full border
//! > value F 10
//! > value -- F 0010
//! exit 0
//! -- prints --
//! value 1 10
//! ...
//! done 1 0
//! ```
//!
//! - `folder NAME` names the pages that follow. A folder may be used by what stands after it, in the same file and in
//!   those after it.
//! - `like NAME` in a folder and `in NAME` in a case take over the pages of that folder. A page of the paragraph's own
//!   stands in place of the one that is taken over, and `without PAGE` leaves one out.
//! - `> WORDS` is a call of the program by these words. It finds the pages in the folder `F`. A text between two quotes
//!   is one word, which may have blanks or be empty.
//! - `exit CODE` is the exit code of each call, `0` where it isn't stated.
//! - `fails NUMBER..` are the numbers, from 1, of the calls on the shelf that fail, and `by bytes` has the shelf give one
//!   byte at a time.
//! - A section begins with the line `-- NAME --` and ends before the next one, or with its paragraph. Its lines are the
//!   page of that name; where the last of them ends in `\`, it has no line end, nor the `\`.
//! - The section `prints` has the whole text that each call prints. Three dots in a line of it stand for any text, and a
//!   line of three dots for any lines.
//!
//! Each file is answered by a line with the numbers of its cases and calls, after each call that differs in the form of
//! a case, with the code and the text that it came to. The status is 1 where one differs or a file can't be followed.
#![tactic(auto)]

mod calls;
mod fault;
mod files;
mod folders;
mod paragraph;
mod shelf;
mod stated;
mod wanted;

use fault::Fault;
use files::{Tally, run_file, say};
use mari_io::{DiskShelf, Fetch, Shelf};
use std::alloc::Global;
use std::env;
use std::process::ExitCode;
use std::rt::Env;
use std::sync::Wait;
use std::thread::Threads;

/// The names of the files: the words after the program's own name.
fn file_names(rt: &(impl Env + AllocGlobal)) -> Result<Vec<String>, Fault> {
    let Ok(words) = env::args(rt) else {
        return Err(Fault::Unread);
    };
    let mut names: Vec<String> = words.collect(rt.alloc())?;
    if !names.is_empty() {
        names.remove(0);
    }
    Ok(names)
}

/// The text of a file.
fn read_text<S: Shelf>(alloc: Global, shelf: &mut S, name: &str) -> Result<String, Fault> {
    let mut bytes = Vec::new(alloc);
    match shelf.fetch(name, &mut bytes) {
        Ok(()) => String::from_utf8(bytes).map_err(|_| Fault::Unread),
        Err(Fetch::Memory) => Err(Fault::Memory),
        Err(_) => Err(Fault::Unread),
    }
}

/// The texts of the files, in their order.
fn read_texts<S: Shelf>(
    rt: &impl Print,
    alloc: Global,
    shelf: &mut S,
    names: &[String],
) -> Result<Vec<String>, Fault> {
    let mut texts = Vec::new(alloc);
    for name in names {
        match read_text(alloc, shelf, name.as_str()) {
            Ok(text) => texts.push(text)?,
            Err(fault) => return Err(say(rt, name.as_str(), fault)),
        }
    }
    Ok(texts)
}

/// Makes the calls of each file, and answers whether all of them agree.
fn run_files(
    rt: &(impl Print + Threads + Wait + Sync),
    alloc: Global,
    names: &[String],
    texts: &[String],
) -> Result<bool, Fault> {
    let mut folders = Vec::new(alloc);
    let mut agree = true;
    for (name, text) in names.iter().zip(texts) {
        let name = name.as_str();
        match run_file(rt, alloc, name, text.as_str(), &mut folders) {
            Ok(tally) => agree = tally.says(rt, name)? && agree,
            Err(fault) => return Err(say(rt, name, fault)),
        }
    }
    Ok(agree)
}

/// Reads the files that the words name, and makes their calls.
fn run<S: Shelf>(
    rt: &(impl Env + Print + AllocGlobal + Threads + Wait + Sync),
    shelf: &mut S,
) -> Result<bool, Fault> {
    let names = file_names(rt)?;
    let texts = read_texts(rt, rt.alloc(), shelf, names.as_slice())?;
    run_files(rt, rt.alloc(), names.as_slice(), texts.as_slice())
}

/// Ends with status 0 where all calls agree, and else with status 1.
fn main(rt: HostRuntime) -> ExitCode {
    let mut shelf = DiskShelf::new(rt);
    match run(&rt, &mut shelf) {
        Ok(true) => ExitCode::SUCCESS,
        Ok(false) | Err(_) => ExitCode::FAILURE,
    }
}
