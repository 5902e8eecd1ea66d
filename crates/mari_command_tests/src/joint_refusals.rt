//! Pages of blocks that are no text, or too long.

use crate::cases::Printed::Whole;
use crate::cases::{AT_A_LOSS, Folder, compare, page, pages, plan, sink};
use mari_io::MemoryShelf;
use std::alloc::Global;
use std::process::Abort;
use std::sync::Wait;
use std::test::Fail;
use std::thread::Threads;

/// Clears the quarters of a folder with these bytes as its page of blocks, and compares the exit code and the line.
fn answers(
    rt: &(impl Abort + Threads + Wait + Sync),
    alloc: Global,
    bytes: Vec<u8>,
    code: u8,
    line: &str,
) -> Result<(), Fail> {
    let mut held = pages(
        alloc,
        Folder {
            blocks: None,
            ..AT_A_LOSS
        },
    )?;
    held.push(page(alloc, "F/blocks.csv", bytes)?)?;
    let shelf = MemoryShelf::new(held, plan(alloc, &[])?);
    let sink = sink(alloc, 10, 10_000, &[])?;
    let words = ["blocks", "F", "1", "2"];
    let want = (code, Whole(&[line]));
    compare(rt, alloc, "a page", &words, shelf, sink, want)
}

#[test]
fn a_page_of_blocks_that_is_no_text_and_one_that_is_too_long(rt: HostRuntime) -> Result<(), Fail> {
    let alloc = rt.alloc();
    let bytes = b"block,bid\nb,x1\nb,\xff\n".to_vec(alloc)?;
    answers(&rt, alloc, bytes, 3, "refused blocks.csv 3 3 NotUtf8\n")?;
    let bytes = vec![in alloc; b'Z'; 268_435_457]?;
    answers(&rt, alloc, bytes, 9, "toolong blocks.csv\n")
}
