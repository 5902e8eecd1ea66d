//! Texts that come in pieces.

use crate::same::{same, same_in};
use crate::texts::{DONE_ONE, TWO_ZONES, made};
use mari_lines::MOST_LINE;
use mari_publish::{Block, Part, TextFault, TextReader};
use std::alloc::Global;
use std::test::Fail;

/// The parts of a text, the most bytes of a piece of it, the marks of the parts that come of it, whether the reader
/// waits for more at the end, and what it reports of the text.
struct Case {
    name: &'static str,
    parts: &'static [(&'static str, u32)],
    most: usize,
    marks: &'static [u64],
    waits: bool,
    want: Result<(), TextFault>,
}

const CASES: &[Case] = &[
    Case {
        name: "a text in single bytes",
        parts: &[(TWO_ZONES, 1), (DONE_ONE, 1)],
        most: 1,
        marks: &[96, 799_712_000, 2],
        waits: true,
        want: Ok(()),
    },
    Case {
        name: "the same text in one piece",
        parts: &[(TWO_ZONES, 1), (DONE_ONE, 1)],
        most: 65_536,
        marks: &[96, 799_712_000, 2],
        waits: true,
        want: Ok(()),
    },
    Case {
        name: "a line of 40,000 digits that ends",
        parts: &[(TWO_ZONES, 1), ("7", 40_000), ("\n", 1), (DONE_ONE, 1)],
        most: 1_000,
        marks: &[96, 799_712_000],
        waits: false,
        want: Err(TextFault::BadLine(21)),
    },
    Case {
        name: "a line of 40,000 digits with no end",
        parts: &[(TWO_ZONES, 1), ("7", 40_000)],
        most: 1_000,
        marks: &[96, 799_712_000],
        waits: true,
        want: Err(TextFault::Truncated(21)),
    },
];

/// A number that shows what kind of part it is, and what is in it.
fn mark_of(part: &Part) -> u64 {
    match part {
        Part::Head { quarters, .. } => u64::from(*quarters),
        Part::Block(Block::Published(block)) => block.welfare,
        Part::Block(Block::Unpublished(heading, _)) => u64::from(heading.run),
        Part::Totals { providers, .. } => providers.as_slice().len() as u64,
    }
}

/// The mark of the next part that is there.
fn next_mark(alloc: Global, reader: &mut TextReader) -> Result<Option<u64>, TextFault> {
    match reader.next(alloc)? {
        Some(part) => {
            let mark = mark_of(&part);
            drop(part);
            Ok(Some(mark))
        }
        None => Ok(None),
    }
}

/// Adds the marks of the parts that are there, up to four, and gives the fault after them, if there is one.
fn add_marks(
    alloc: Global,
    reader: &mut TextReader,
    marks: &mut Vec<u64>,
) -> Result<Option<TextFault>, Fail> {
    for _ in 0..4 {
        match next_mark(alloc, reader) {
            Ok(Some(mark)) => marks.push(mark)?,
            Ok(None) => return Ok(None),
            Err(fault) => return Ok(Some(fault)),
        }
    }
    Ok(None)
}

/// Gives a reader a text in pieces of at most `most` bytes, adds the marks of the parts that come, and gives the fault
/// after them.
fn feed(
    alloc: Global,
    reader: &mut TextReader,
    text: &[u8],
    most: usize,
    marks: &mut Vec<u64>,
) -> Result<Option<TextFault>, Fail> {
    for piece in text.chunks(most.max(1)) {
        reader.push(piece)?;
        let fault = add_marks(alloc, reader, marks)?;
        if fault.is_some() {
            return Ok(fault);
        }
    }
    Ok(None)
}

/// Adds the marks of a text in pieces of at most `most` bytes, and reports whether the reader waits for more at its
/// end, and what the text is then, or the fault before.
fn outcome(
    alloc: Global,
    text: &[u8],
    most: usize,
    marks: &mut Vec<u64>,
) -> Result<(bool, Result<(), TextFault>), Fail> {
    let mut reader = TextReader::start(alloc);
    let fed = feed(alloc, &mut reader, text, most, marks);
    let waits = reader.waits();
    let end = if waits {
        reader.end()
    } else {
        drop(reader);
        Ok(())
    };
    match fed? {
        Some(fault) => Ok((waits, Err(fault))),
        None => Ok((waits, end)),
    }
}

#[test]
fn a_text_gives_the_same_parts_in_pieces_of_any_length(rt: HostRuntime) -> Result<(), Fail> {
    let alloc = rt.alloc();
    for case in CASES {
        let text = made(alloc, case.parts)?;
        let mut marks = Vec::new(alloc);
        let reported = outcome(alloc, text.as_bytes(), case.most, &mut marks);
        drop(text);
        same_in(&rt, case.name, reported?, (case.waits, case.want));
        same_in(&rt, case.name, marks.as_slice(), case.marks);
    }
    Ok(())
}

#[test]
fn at_most_32_768_bytes_of_a_line_are_kept(rt: HostRuntime) -> Result<(), Fail> {
    assert_eq!(rt; MOST_LINE, 32_768);
    Ok(())
}

/// What comes of a text with a fault, and again, and again once there is more of it.
fn three_answers(
    alloc: Global,
    reader: &mut TextReader,
) -> Result<[Result<Option<u64>, TextFault>; 3], Fail> {
    reader.push(b"mari 1 2025-03-12 96 10000\nwelfare 0\nwelfare x\n")?;
    let head = next_mark(alloc, reader);
    let fault = next_mark(alloc, reader);
    reader.push(b"done 0 0\n")?;
    let again = next_mark(alloc, reader);
    Ok([head, fault, again])
}

#[test]
fn a_fault_comes_again(rt: HostRuntime) -> Result<(), Fail> {
    let alloc = rt.alloc();
    let mut reader = TextReader::start(alloc);
    let answers = three_answers(alloc, &mut reader);
    drop(reader);
    let fault = Err(TextFault::BadOrder(2));
    same(&rt, answers?, [Ok(Some(96)), fault, fault]);
    Ok(())
}
