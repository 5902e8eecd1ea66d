//! Real files, and what is counted of them.

ghost use Rattle.std.specs.Prelude.{◌≡◌, true};

use crate::same::same;
use mari_io::{DiskShelf, Fetch, Shelf, fetch_opened, read_piece};
use std::alloc::Global;
use std::io::{ErrorKind, Read};
use std::test::Fail;
use std::{fs, io};

/// The counts of a shelf: failed fetches, missing pages, pages that are too long.
type Counts = (u64, u64, u64);

fn counts(shelf: &DiskShelf<HostRuntime>) -> Counts {
    (shelf.faults(), shelf.misses(), shelf.overs())
}

/// Writes a real file of a number of bytes.
fn write_real(rt: HostRuntime, path: &str, length: usize) -> Result<(), Fail> {
    let bytes = vec![in rt.alloc(); b'Z'; length]?;
    let written = fs::write(&rt, path, bytes.as_slice());
    drop(bytes);
    Ok(written?)
}

/// What fetching a file gives, how many bytes were appended, and the counts then.
type Fetched = (Result<(), Fetch>, usize, Counts);

fn fetch(rt: HostRuntime, path: &str) -> Fetched {
    let mut into = Vec::new(rt.alloc());
    let mut shelf = DiskShelf::new(rt);
    let fetched = shelf.fetch(path, &mut into);
    let counts = counts(&shelf);
    drop(shelf);
    let length = into.len();
    drop(into);
    (fetched, length, counts)
}

/// What fetching a real file of a number of bytes gives.
fn fetch_real(rt: HostRuntime, path: &str, length: usize) -> Result<Fetched, Fail> {
    write_real(rt, path, length)?;
    let fetched = fetch(rt, path);
    fs::remove_file(&rt, path)?;
    Ok(fetched)
}

#[test]
fn a_real_file_is_a_page(rt: HostRuntime) -> Result<(), Fail> {
    let answer = fetch_real(rt, "mari_test_page", 20_000)?;
    same(&rt, answer, (Ok(()), 20_000, (0, 0, 0)));
    Ok(())
}

#[test]
fn a_real_file_is_too_long_past_the_limit(rt: HostRuntime) -> Result<(), Fail> {
    let answer = fetch_real(rt, "mari_test_long_page", 268_435_457)?;
    same(&rt, answer, (Err(Fetch::TooLong), 0, (0, 0, 1)));
    Ok(())
}

/// What fetching no file and fetching a folder gives, and the counts before, between and after.
fn two_fetches(
    shelf: &mut DiskShelf<HostRuntime>,
    into: &mut Vec<u8>,
) -> ([Result<(), Fetch>; 2], [Counts; 3]) {
    let none = counts(shelf);
    let missing = shelf.fetch("mari_test_nothing", into);
    let one = counts(shelf);
    let failed = shelf.fetch(".", into);
    ([missing, failed], [none, one, counts(shelf)])
}

#[test]
fn no_file_counts_as_missing_and_a_folder_as_failed(rt: HostRuntime) {
    let mut into = Vec::new(rt.alloc());
    let mut shelf = DiskShelf::new(rt);
    let fetched = two_fetches(&mut shelf, &mut into);
    drop(shelf);
    drop(into);
    let want = [Err(Fetch::Missing), Err(Fetch::Failed)];
    same(&rt, fetched, (want, [(0, 0, 0), (0, 1, 0), (1, 1, 0)]));
}

/// A reader of the bytes of a text, a few at a time, which fails after them where that is asked.
#[derive(Drop)]
struct Pieces<'a> {
    rest: &'a [u8],
    most: usize,
    fault: Option<ErrorKind>,
}

impl Read for Pieces<'_> {
    fn read(&mut self, buf: &mut [u8]) -> io::Result<usize> {
        let count = self.rest.len().min(self.most).min(buf.len());
        if count == 0 {
            if let Some(kind) = self.fault {
                return Err(io::Error::from(kind));
            }
        }
        buf[..count].copy_from_slice(&self.rest[..count]);
        self.rest = &self.rest[count..];
        Ok(count)
    }
}

/// Fails of a reader after its bytes, what a fetch gives then, and what stands in the page.
const SHORT_READS: &[(Option<ErrorKind>, Result<(), Fetch>, &str)] = &[
    (None, Ok(()), "Adate,rule\n"),
    (Some(ErrorKind::Other), Err(Fetch::Failed), "A"),
    (Some(ErrorKind::OutOfMemory), Err(Fetch::Memory), "A"),
];

/// What fetching the ten bytes of a page gives by a reader that has this fault after them.
fn fetch_by(fault: Option<ErrorKind>, into: &mut Vec<u8>) -> Result<(), Fetch> {
    let rest = b"date,rule\n";
    let most = 3;
    fetch_opened(Ok(Pieces { rest, most, fault }), into)
}

#[test]
fn short_reads_lose_nothing_and_a_fault_is_no_end(rt: HostRuntime) -> Result<(), Fail> {
    for (fault, want, text) in SHORT_READS {
        let mut into = b"A".to_vec(rt.alloc())?;
        let fetched = fetch_by(*fault, &mut into);
        same(&rt, into.as_slice(), text.as_bytes());
        drop(into);
        same(&rt, fetched, *want);
    }
    Ok(())
}

/// The next piece of the file that is open.
fn next(shelf: &mut DiskShelf<HostRuntime>, into: &mut Vec<u8>) -> Result<u32, Fetch>
    requires { shelf.old.is_open ≡ true }
    ensures { shelf.new.is_open ≡ true }
{
    shelf.next_piece(into)
}

/// How many bytes the first three pieces of a real file have.
fn three_pieces(
    shelf: &mut DiskShelf<HostRuntime>,
    path: &str,
    into: &mut Vec<u8>,
) -> Result<[u32; 3], Fetch> {
    shelf.open_page(path)?;
    let first = next(shelf, into)?;
    let second = next(shelf, into)?;
    Ok([first, second, next(shelf, into)?])
}

/// How many bytes those pieces have, and whether they are this text.
type Given = (Result<[u32; 3], Fetch>, bool);

fn first_pieces(rt: HostRuntime, path: &str, text: &[u8]) -> Given {
    let mut into = Vec::new(rt.alloc());
    let mut shelf = DiskShelf::new(rt);
    let pieces = three_pieces(&mut shelf, path, &mut into);
    drop(shelf);
    let is_text = into.as_slice() == text;
    drop(into);
    (pieces, is_text)
}

/// The same of a real file of that text.
fn first_pieces_of(rt: HostRuntime, path: &str, text: &[u8]) -> Result<Given, Fail> {
    fs::write(&rt, path, text)?;
    let given = first_pieces(rt, path, text);
    fs::remove_file(&rt, path)?;
    Ok(given)
}

/// 8,000 of a letter, and as many of another.
fn two_letters(alloc: Global) -> Result<Vec<u8>, Fail> {
    let mut text = vec![in alloc; b'Z'; 8_000]?;
    for _ in 0..8_000 {
        text.push(b'Y')?;
    }
    Ok(text)
}

#[test]
fn a_real_file_is_given_in_pieces(rt: HostRuntime) -> Result<(), Fail> {
    let text = two_letters(rt.alloc())?;
    let given = first_pieces_of(rt, "mari_test_pieces", text.as_slice());
    drop(text);
    same(&rt, given?, (Ok([8_192, 7_808, 0]), true));
    Ok(())
}

/// Faults of a reader, and what reading on after its bytes gives then.
const FAULTS: &[(ErrorKind, Result<u32, Fetch>)] = &[
    (ErrorKind::Other, Err(Fetch::Failed)),
    (ErrorKind::OutOfMemory, Err(Fetch::Memory)),
];

/// What reading the nine bytes of a page gives by a reader that has this fault after them, and reading on.
fn four_pieces(fault: ErrorKind, into: &mut Vec<u8>) -> [Result<u32, Fetch>; 4] {
    let mut pieces = Pieces {
        rest: b"done 1 0\n",
        most: 4,
        fault: Some(fault),
    };
    [
        read_piece(&mut pieces, into, 3),
        read_piece(&mut pieces, into, 30),
        read_piece(&mut pieces, into, 30),
        read_piece(&mut pieces, into, 30),
    ]
}

#[test]
fn a_fault_between_pieces_is_no_end_of_the_file(rt: HostRuntime) -> Result<(), Fail> {
    for (fault, want) in FAULTS {
        let mut into = Vec::new(rt.alloc());
        let given = four_pieces(*fault, &mut into);
        same(&rt, into.as_slice(), b"done 1 0\n".as_slice());
        drop(into);
        same(&rt, given, [Ok(3), Ok(4), Ok(2), *want]);
    }
    Ok(())
}
