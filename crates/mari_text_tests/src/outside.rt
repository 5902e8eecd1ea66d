//! The outside in memory by its plans, and the real standard output.

use crate::same::same;
use mari_io::{
    Failed, FaultPlan, Fetch, MemoryShelf, MemorySink, Name64, Page, Shelf, Sink, StdSink,
};
use mari_units::Items;
use std::alloc::Global;
use std::test::Fail;

fn plan(alloc: Global, calls: &[u32]) -> Result<FaultPlan, Fail> {
    Ok(FaultPlan {
        calls: Items::of(calls.to_vec(alloc)?),
    })
}

fn page(alloc: Global, bytes: Vec<u8>) -> Result<Page, Fail> {
    Ok(Page {
        name: Name64::of(alloc, "F/zones.csv")?,
        bytes: Items::of(bytes),
    })
}

fn pages(alloc: Global, bytes: Vec<u8>) -> Result<Vec<Page>, Fail> {
    let page = page(alloc, bytes)?;
    Ok(vec![in alloc; page]?)
}

/// A shelf with a page of these bytes, whose calls of these numbers fail.
fn shelf_of(alloc: Global, bytes: Vec<u8>, faults: &[u32]) -> Result<MemoryShelf, Fail> {
    let pages = pages(alloc, bytes)?;
    Ok(MemoryShelf::new(pages, plan(alloc, faults)?))
}

/// What three fetches give: two of the page, and one of another.
fn three_fetches(shelf: &mut MemoryShelf, into: &mut Vec<u8>) -> [Result<(), Fetch>; 3] {
    [
        shelf.fetch("F/zones.csv", into),
        shelf.fetch("F/zones.csv", into),
        shelf.fetch("F/bids.csv", into),
    ]
}

#[test]
fn a_page_is_fetched_unless_the_plan_names_the_call(rt: HostRuntime) -> Result<(), Fail> {
    let alloc = rt.alloc();
    let mut shelf = shelf_of(alloc, b"Z,T\n".to_vec(alloc)?, &[2])?;
    let mut into = b"A".to_vec(alloc)?;
    let fetched = three_fetches(&mut shelf, &mut into);
    drop(shelf);
    same(&rt, into.as_slice(), b"AZ,T\n".as_slice());
    drop(into);
    let want = [Ok(()), Err(Fetch::Failed), Err(Fetch::Missing)];
    same(&rt, fetched, want);
    Ok(())
}

/// What a fetch of a page of a length gives.
fn fetched_of_length(alloc: Global, length: usize) -> Result<Result<(), Fetch>, Fail> {
    let mut shelf = shelf_of(alloc, vec![in alloc; b'Z'; length]?, &[])?;
    let mut into = Vec::new(alloc);
    let fetched = shelf.fetch("F/zones.csv", &mut into);
    drop(into);
    drop(shelf);
    Ok(fetched)
}

#[test]
fn a_page_is_too_long_from_one_byte_past_the_limit(rt: HostRuntime) -> Result<(), Fail> {
    same(&rt, fetched_of_length(rt.alloc(), 268_435_456)?, Ok(()));
    let fetched = fetched_of_length(rt.alloc(), 268_435_457)?;
    same(&rt, fetched, Err(Fetch::TooLong));
    Ok(())
}

/// What four writes give.
fn four_writes(sink: &mut MemorySink) -> [Result<usize, Failed>; 4] {
    [
        sink.write(b"abcd"),
        sink.write(b"d"),
        sink.write(b"de"),
        sink.write(b"e"),
    ]
}

#[test]
fn a_sink_takes_what_a_call_and_its_room_allow(rt: HostRuntime) -> Result<(), Fail> {
    let plan = plan(rt.alloc(), &[2])?;
    let mut sink = MemorySink::new(rt.alloc(), 3, 4, plan)?;
    let written = four_writes(&mut sink);
    same(&rt, sink.bytes(), b"abcd".as_slice());
    drop(sink);
    same(&rt, written, [Ok(3), Err(Failed), Ok(1), Ok(0)]);
    Ok(())
}

#[test]
fn the_real_standard_output_takes_a_line(rt: HostRuntime) {
    let mut sink = StdSink::new(rt);
    same(&rt, sink.write(b"taken\n"), Ok(6));
}

/// What the shelf answers to each of its calls in turn.
type Answers = [Result<u32, Fetch>; 4];

/// What the pieces of an opened page are, with a fetch of it between them.
fn pieces(
    shelf: &mut MemoryShelf,
    into: &mut Vec<u8>,
    whole: &mut Vec<u8>,
) -> Result<Answers, Fetch> {
    shelf.open_page("F/zones.csv")?;
    let first = shelf.next_piece(into);
    shelf.fetch("F/zones.csv", whole)?;
    let second = shelf.next_piece(into);
    let third = shelf.next_piece(into);
    Ok([first, second, third, shelf.next_piece(into)])
}

/// What opening another page and opening this one give, and what the pieces of this one are then.
type Given = ([Result<(), Fetch>; 2], Result<Answers, Fetch>);

fn opened(shelf: &mut MemoryShelf, into: &mut Vec<u8>, whole: &mut Vec<u8>) -> Given {
    let opened = [
        shelf.open_page("F/bids.csv"),
        shelf.open_page("F/zones.csv"),
    ];
    (opened, pieces(shelf, into, whole))
}

/// The shelf of that, which gives three bytes at a time.
fn shelf_of_pieces(alloc: Global) -> Result<MemoryShelf, Fail> {
    let pages = pages(alloc, b"Z,T\nA".to_vec(alloc)?)?;
    Ok(MemoryShelf::with_piece(pages, plan(alloc, &[2, 6])?, 3))
}

#[test]
fn a_page_is_given_in_pieces_and_the_plan_numbers_all_calls(rt: HostRuntime) -> Result<(), Fail> {
    let mut shelf = shelf_of_pieces(rt.alloc())?;
    let mut into = b"A".to_vec(rt.alloc())?;
    let mut whole = Vec::new(rt.alloc());
    let given = opened(&mut shelf, &mut into, &mut whole);
    drop(shelf);
    same(&rt, into.as_slice(), b"AZ,T\nA".as_slice());
    drop(into);
    same(&rt, whole.as_slice(), b"Z,T\nA".as_slice());
    drop(whole);
    let opened = [Err(Fetch::Missing), Err(Fetch::Failed)];
    let pieces = [Ok(3), Err(Fetch::Failed), Ok(2), Ok(0)];
    same(&rt, given, (opened, Ok(pieces)));
    Ok(())
}

/// The first piece of a page, and all pieces of it once it is opened again.
fn pieces_again(shelf: &mut MemoryShelf, into: &mut Vec<u8>) -> Result<Answers, Fetch> {
    shelf.open_page("F/zones.csv")?;
    let before = shelf.next_piece(into);
    shelf.open_page("F/zones.csv")?;
    let first = shelf.next_piece(into);
    let second = shelf.next_piece(into);
    Ok([before, first, second, shelf.next_piece(into)])
}

#[test]
fn a_page_opened_again_is_given_from_its_start(rt: HostRuntime) -> Result<(), Fail> {
    let alloc = rt.alloc();
    let mut shelf = shelf_of(alloc, vec![in alloc; b'Z'; 70_000]?, &[])?;
    let mut into = Vec::new(alloc);
    let pieces = pieces_again(&mut shelf, &mut into);
    drop(into);
    drop(shelf);
    same(&rt, pieces, Ok([Ok(65_536), Ok(65_536), Ok(4_464), Ok(0)]));
    Ok(())
}
