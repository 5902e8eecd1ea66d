//! The shelf of a case.

use crate::calls::Case;
use crate::fault::Fault;
use crate::paragraph::{PRINTS, Section};
use mari_io::{FaultPlan, MemoryShelf, Name64, Page};
use mari_units::Items;
use std::alloc::{AllocError, Global};

/// The bytes of a page whose lines these are: a last line that ends in a backslash isn't ended.
fn page_bytes(alloc: Global, lines: &str) -> Result<Vec<u8>, AllocError> {
    if lines.is_empty() {
        return Ok(Vec::new(alloc));
    }
    let (lines, end) = match lines.strip_suffix('\\') {
        Some(open) => (open, ""),
        None => (lines, "\n"),
    };
    let mut bytes = lines.as_bytes().to_vec(alloc)?;
    bytes.extend_from_slice(end.as_bytes())?;
    Ok(bytes)
}

/// The page of a section, in folder `F`. The line is that of the case.
fn page_of(alloc: Global, line: usize, section: &Section<'_>) -> Result<Page, Fault> {
    let name = section.name;
    let path = format!(in alloc; "F/{name}")?;
    if path.is_empty() || path.len() > 64 {
        return Err(Fault::Line(line, "a page's name is too long"));
    }
    Ok(Page {
        name: Name64::of(alloc, path.as_str())?,
        bytes: Items::of(page_bytes(alloc, section.text)?),
    })
}

/// The pages of sections.
fn pages_of(alloc: Global, line: usize, sections: &[Section<'_>]) -> Result<Vec<Page>, Fault> {
    let mut pages = Vec::new(alloc);
    for section in sections {
        if section.name != PRINTS {
            pages.push(page_of(alloc, line, section)?)?;
        }
    }
    Ok(pages)
}

/// The plan by which the calls of these numbers fail.
fn plan_of(alloc: Global, line: usize, fails: &str) -> Result<FaultPlan, Fault> {
    let mut calls = Vec::new(alloc);
    for number in fails.split_whitespace() {
        match number.parse::<u32>() {
            Ok(call) => calls.push(call)?,
            Err(_) => return Err(Fault::Line(line, "a call that fails is no number")),
        }
    }
    Ok(FaultPlan {
        calls: Items::of(calls),
    })
}

/// The shelf of a case: its pages in folder `F`, its calls that fail, and whether it gives one byte at a time.
pub fn shelf_of(alloc: Global, case: &Case<'_>) -> Result<MemoryShelf, Fault> {
    let plan = plan_of(alloc, case.line, case.stated.fails)?;
    let pages = pages_of(alloc, case.line, case.sections)?;
    if case.stated.by_bytes {
        return Ok(MemoryShelf::with_piece(pages, plan, 1));
    }
    Ok(MemoryShelf::new(pages, plan))
}
