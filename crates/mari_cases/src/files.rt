//! A case file, paragraph by paragraph.

use crate::calls::{Case, agrees};
use crate::fault::Fault;
use crate::folders::{Kept, keep, take_over};
use crate::paragraph::{PRINTS, Paragraph, Section, line_ends, text_of};
use crate::stated::{Kind, Stated};
use std::alloc::Global;
use std::sync::Wait;
use std::thread::Threads;

/// How many cases and calls there were, and how many calls differ.
#[derive(Clone, Copy)]
pub struct Tally {
    cases: usize,
    calls: usize,
    differing: usize,
}

impl Tally {
    /// Prints it as the line of a file, and answers whether all calls agree.
    pub fn says(self, rt: &impl Print, file: &str) -> Result<bool, Fault> {
        let Tally {
            cases,
            calls,
            differing,
        } = self;
        println!(rt; "{file}: cases {cases}, calls {calls}, differing {differing}")?;
        Ok(differing == 0)
    }
}

/// Prints why a file can't be followed, and answers that.
pub fn say(rt: &impl Print, file: &str, fault: Fault) -> Fault {
    let printed = match fault {
        Fault::Memory => println!(rt; "{file}: out of memory"),
        Fault::Unread => println!(rt; "{file}: can't be read"),
        Fault::Line(line, why) => println!(rt; "{file}:{line}: {why}"),
        Fault::Unprinted => Ok(()),
    };
    match printed {
        Ok(()) => fault,
        Err(_) => Fault::Unprinted,
    }
}

/// Makes the calls of a case.
fn run_case(
    rt: &(impl Print + Threads + Wait + Sync),
    alloc: Global,
    case: &Case<'_>,
    head: &str,
    tally: &mut Tally,
) -> Result<(), Fault> {
    let before = tally.calls;
    for line in head.split('\n') {
        if let Some(words) = line.strip_prefix('>') {
            tally.calls = tally.calls.saturating_add(1);
            if !agrees(rt, alloc, case, words)? {
                tally.differing = tally.differing.saturating_add(1);
            }
        }
    }
    if tally.calls == before {
        return Err(Fault::Line(case.line, "a case without a call"));
    }
    tally.cases = tally.cases.saturating_add(1);
    Ok(())
}

/// The sections of a paragraph, and the pages that it takes over.
fn sections_of<'a>(
    alloc: Global,
    paragraph: &Paragraph<'a>,
    like: Option<&str>,
    folders: &[Kept<'a>],
) -> Result<Vec<Section<'a>>, Fault> {
    let mut sections = paragraph.sections(alloc)?;
    if let Some(folder) = like {
        if !take_over(&mut sections, folders, folder, paragraph)? {
            return Err(paragraph.fault("a folder that isn't stated before"));
        }
    }
    Ok(sections)
}

/// Follows a paragraph: keeps its folder, or makes the calls of its case.
fn run_paragraph<'a>(
    rt: &(impl Print + Threads + Wait + Sync),
    alloc: Global,
    file: &str,
    paragraph: &Paragraph<'a>,
    folders: &mut Vec<Kept<'a>>,
    tally: &mut Tally,
) -> Result<(), Fault> {
    let stated = Stated::of(paragraph)?;
    let sections = sections_of(alloc, paragraph, stated.like, folders.as_slice())?;
    match stated.kind {
        Kind::Remarks if sections.is_empty() => Ok(()),
        Kind::Remarks => Err(paragraph.fault("a section of no folder and of no case")),
        Kind::Folder => Ok(keep(folders, stated.name, sections.as_slice())?),
        Kind::Case => {
            let Some(wanted) = text_of(sections.as_slice(), PRINTS) else {
                return Err(paragraph.fault("a case without a section prints"));
            };
            let case = Case {
                file,
                line: paragraph.line,
                stated,
                sections: sections.as_slice(),
                wanted,
            };
            run_case(rt, alloc, &case, paragraph.head, tally)
        }
    }
}

/// Makes the calls of a file, and adds its folders.
pub fn run_file<'a>(
    rt: &(impl Print + Threads + Wait + Sync),
    alloc: Global,
    file: &str,
    text: &'a str,
    folders: &mut Vec<Kept<'a>>,
) -> Result<Tally, Fault> {
    let mut tally = Tally {
        cases: 0,
        calls: 0,
        differing: 0,
    };
    let mut line = 1usize;
    let text = match text.strip_suffix('\n') {
        Some(text) => text,
        None => text,
    };
    for part in text.split("\n\n") {
        let paragraph = Paragraph::new(line, part);
        run_paragraph(rt, alloc, file, &paragraph, folders, &mut tally)?;
        line = line.saturating_add(line_ends(part)).saturating_add(2);
    }
    Ok(tally)
}
