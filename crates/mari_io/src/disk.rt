//! A shelf of real files.

ghost use Rattle.std.specs.Prelude.{None, Some, Err, ◌≡◌, ◌≤◌, ◌+◌, ◌++◌, ◌<◌, ◌↔◌, List, ℕ, true, length, take, drop, OnOk, OnErr, IfOk, IfErr, IsOk, IsErr, IfSome, IsErrOf};
ghost use Rattle.std.specs.IoError.{error_kind};
ghost use Rattle.std.specs.Io.KnownBytes.{Consumes, Keeps, IsAtEnd};
ghost use Rattle.mari_units.specs.declared.limits.TheConstants.{MOST_PAGE};
ghost use Rattle.mari_io.specs.declared.shelf.TheConstants.{MOST_PIECE};
ghost use Rattle.mari_io.specs.declared.shelf.Fetch.TheVariants.{Failed, Missing, TooLong, Memory};
ghost use Rattle.mari_io.specs.Outside.{Counts, Pages, counted, page_of, FetchStates, AppendsAtMost, OpenStates, AppendsExactly, IsPiece, rest_after, IsOverlong, most_given, taken_count};
ghost use Rattle.mari_io.specs.System.{fault_of_opening, fault_of_reading, after_disk_call, new_disk, opened, more_given, page_named};

use crate::shelf::MOST_GIVEN;
use crate::{Fetch, Shelf};
use mari_units::MOST_PAGE;
use std::io::{ErrorKind, Read};
use std::marker::Model;
use std::rt::Files;
use std::{fs, io};

/// How many bytes of a file are read at once.
const BUFFER: usize = 8192;

/// Files by their paths. It reports no pages: what a file holds is trusted. Contracts see its counts.
#[derive(Drop)]
pub struct DiskShelf<R: Files + Drop> {
    rt: R,
    calls: u64,
    named: u64,
    faults: u64,
    misses: u64,
    overs: u64,
    file: Option<R::File>,
    given: u64,
}

impl<R: Files + Drop> Model for DiskShelf<R> {
    ghost use Rattle.std.specs.Prelude.{◌≤◌, is_some};
    ghost use Rattle.mari_io.specs.declared.shelf.TheConstants.{MOST_GIVEN};
    ghost use Rattle.mari_io.specs.System.{DiskCounts};

    ghost Value = { DiskCounts };

    ghost view = { λ s. record {
      calls = s.calls;
      named = s.named;
      faults = s.faults;
      misses = s.misses;
      overs = s.overs;
      is_open = is_some s.file;
      given = s.given;
    } };

    ghost invariant = { λ s. s.given ≤ MOST_GIVEN };
}

impl<R: Files + Drop> DiskShelf<R> {
    /// A shelf that opens files by this runtime, and of which nothing was asked yet.
    pub fn new(rt: R) -> DiskShelf<R>
        ensures { result ≡ new_disk }
    {
        DiskShelf {
            rt,
            calls: 0,
            named: 0,
            faults: 0,
            misses: 0,
            overs: 0,
            file: None,
            given: 0,
        }
    }

    /// How many calls failed.
    pub fn faults(&self) -> u64
        ensures { result ≡ self.now.faults }
    {
        self.faults
    }

    /// How many calls named a file that isn't there.
    pub fn misses(&self) -> u64
        ensures { result ≡ self.now.misses }
    {
        self.misses
    }

    /// How many calls met a file that is too long.
    pub fn overs(&self) -> u64
        ensures { result ≡ self.now.overs }
    {
        self.overs
    }

    /// Counts what a call answered.
    fn count<T>(&mut self, answer: &Result<T, Fetch>)
        ensures counts { self.new ≡ after_disk_call self.old answer.now }
        ensures failed { Counts (IsErrOf answer.now Failed) self.old.faults self.new.faults }
        ensures missing { Counts (IsErrOf answer.now Missing) self.old.misses self.new.misses }
        ensures too_long { Counts (IsErrOf answer.now TooLong) self.old.overs self.new.overs }
    {
        self.calls = self.calls.saturating_add(1);
        match answer {
            Err(Fetch::Failed) => self.faults = self.faults.saturating_add(1),
            Err(Fetch::Missing) => self.misses = self.misses.saturating_add(1),
            Err(Fetch::TooLong) => self.overs = self.overs.saturating_add(1),
            Ok(_) | Err(Fetch::Memory) => {}
        }
    }

    /// Opens the file of that path in place of the one that is open.
    fn open_file(&mut self, name: &str) -> Result<(), Fetch>
        ensures opened { self.new ≡ opened self.old result }
        ensures not_too_long { IsErrOf result TooLong → ⊥ }
    {
        match fs::open(&self.rt, name) {
            Ok(file) => {
                self.file = Some(file);
                self.given = 0;
                Ok(())
            }
            Err(error) => Err(opening_fault(&error)),
        }
    }

    /// Appends the next bytes of the file that is open, unless `MOST_GIVEN` bytes of it were given.
    fn read_on(&mut self, into: &mut Vec<u8>) -> Result<u32, Fetch>
        // There is a file to read on.
        requires open { self.old.is_open ≡ true }

        // How much of it is given by now; nothing else changes.
        ensures given { self.new ≡ more_given self.old result }
        ensures limit { self.new.given ≤ most_given }

        // What was given.
        ensures ok { IfOk result (λ n. AppendsExactly n into.old.items into.new.items) }
        ensures few { IfOk result (λ n. n ≤ MOST_PIECE) }
        ensures err { OnErr result (into.new.items ≡ into.old.items) }

        // Why nothing was; that there is no such file is no cause.
        ensures not_missing { IsErrOf result Missing → ⊥ }
        ensures over { IsErrOf result TooLong ↔ (self.old.given ≡ most_given) }
    {
        let most = MOST_GIVEN - self.given;
        if most == 0 {
            return Err(Fetch::TooLong);
        }
        let Some(file) = &mut self.file else {
            unreachable!();
        };
        let count = read_piece(file, into, most)?;
        self.given += u64::from(count);
        Ok(count)
    }
}

/// Why a file couldn't be opened.
fn opening_fault(error: &io::Error) -> Fetch
    ensures { result ≡ fault_of_opening (error_kind error.now) }
{
    match error.kind() {
        ErrorKind::NotFound => Fetch::Missing,
        ErrorKind::OutOfMemory => Fetch::Memory,
        _ => Fetch::Failed,
    }
}

/// Why an open file couldn't be read.
fn reading_fault(error: &io::Error) -> Fetch
    ensures { result ≡ fault_of_reading (error_kind error.now) }
{
    if error.kind() == ErrorKind::OutOfMemory {
        Fetch::Memory
    } else {
        Fetch::Failed
    }
}

/// Appends what is left of a file, if that is no more than a page may have. Of a longer file it appends no more than that,
/// and reads at most a buffer more.
fn read_page<F: Read>(file: &mut F, into: &mut Vec<u8>) -> Result<(), Fetch>
    ensures ok { OnOk result (AppendsAtMost MOST_PAGE into.old.items into.new.items) }
    ensures kept { take (length into.old.items) into.new.items ≡ into.old.items }
    ensures bytes { OnOk result (IfSome (F.remaining file.old) (λ xs. into.new.items ≡ into.old.items ++ xs)) }
    ensures too_long { IsErrOf result TooLong → IfSome (F.remaining file.old) (λ xs. MOST_PAGE < length xs) }
    ensures not_missing { IsErrOf result Missing → ⊥ }
{
    let mut buffer = [0u8; BUFFER];
    let mut total = 0;
    for _ in 0..u64::MAX {
        let count = match file.read(&mut buffer) {
            Ok(count) => count,
            Err(error) => return Err(reading_fault(&error)),
        };
        if count == 0 {
            return Ok(());
        }
        if count > MOST_PAGE - total {
            return Err(Fetch::TooLong);
        }
        if into.extend_from_slice(&buffer[..count]).is_err() {
            return Err(Fetch::Memory);
        }
        total += count;
    }
    Err(Fetch::Failed)
}

/// Appends the next bytes of an open file, at most `most` and at most `MOST_PIECE`, and answers how many; 0 is the end
/// of the file. Room for them is made before they are read, so that none is lost.
///
/// It answers `Failed` where the file can't be read and `Memory`, and leaves `into` as it was then.
pub fn read_piece<F: Read>(file: &mut F, into: &mut Vec<u8>, most: u64) -> Result<u32, Fetch>
    // Something is asked for.
    requires some { 1 ≤ most }

    // What was read: nothing only where the file ends.
    ensures ok { IfOk result (λ n. AppendsExactly n into.old.items into.new.items) }
    ensures few { IfOk result (λ n. (n ≤ most) × (n ≤ MOST_PIECE)) }
    ensures bytes { OnOk result (Consumes (F.remaining file.old) (F.remaining file.new) (drop (length into.old.items) into.new.items)) }
    ensures at_end { IfOk result (λ n. n ≡ 0 → IsAtEnd (F.remaining file.old)) }

    // What an error leaves: all as it was.
    ensures err { OnErr result (into.new.items ≡ into.old.items) }
    ensures none_lost { OnErr result (Keeps (F.remaining file.old) (F.remaining file.new)) }

    // Why nothing was read: a failure, or no memory.
    ensures not_missing { IsErrOf result Missing → ⊥ }
    ensures not_too_long { IsErrOf result TooLong → ⊥ }
{
    let mut buffer = [0u8; BUFFER];
    if into.reserve(BUFFER).is_err() {
        return Err(Fetch::Memory);
    }
    let room = most.min(BUFFER as u64) as usize;
    match file.read(&mut buffer[..room]) {
        Ok(count) => {
            into.extend_from_slice(&buffer[..count]).unwrap();
            Ok(count as u32)
        }
        Err(error) => Err(reading_fault(&error)),
    }
}

/// Appends the whole of a file, at most `MOST_PAGE` bytes, or says why it couldn't be opened or read.
///
/// It answers `Missing` where there is no such file, `Failed` where it can't be opened or read, `TooLong` where it is
/// longer, and `Memory`. It leaves `into` as it was then.
pub fn fetch_opened<F: Read + Drop>(opened: io::Result<F>, into: &mut Vec<u8>) -> Result<(), Fetch>
    ensures ok { OnOk result (AppendsAtMost MOST_PAGE into.old.items into.new.items) }
    ensures err { OnErr result (into.new.items ≡ into.old.items) }

    // What was read is the whole file; a file that is too long has more bytes than a page may have.
    ensures opened { OnOk result (IsOk opened) }
    ensures bytes { OnOk result (IfOk opened (λ file. IfSome (F.remaining file) (λ xs. into.new.items ≡ into.old.items ++ xs))) }
    ensures too_long { IsErrOf result TooLong → IfOk opened (λ file. IfSome (F.remaining file) (λ xs. MOST_PAGE < length xs)) }

    // Why a file can't be opened is the system's error; only such a one is missing.
    ensures unopened { IfErr opened (λ error. result ≡ Err (fault_of_opening (error_kind error))) }
    ensures missing { IsErrOf result Missing → IsErr opened }
{
    let mut file = match opened {
        Ok(file) => file,
        Err(error) => return Err(opening_fault(&error)),
    };
    let before = into.len();
    match read_page(&mut file, into) {
        Ok(()) => Ok(()),
        Err(fault) => {
            into.truncate(before);
            Err(fault)
        }
    }
}

impl<R: Files + Drop> Shelf for DiskShelf<R> {
    ghost pages = { λ _. None };

    ghost fetches = { λ s. s.calls };

    ghost named = { λ s. s.named };

    ghost faults = { λ s. s.faults };

    ghost misses = { λ s. s.misses };

    ghost overs = { λ s. s.overs };

    ghost rest = { λ _. None };

    ghost given = { λ s. s.given };

    ghost is_open = { λ s. s.is_open };

    fn fetch(&mut self, name: &str, into: &mut Vec<u8>) -> Result<(), Fetch>
        ensures fetched { self.new.calls ≡ counted self.old.calls }
        ensures named { self.new.named ≡ counted self.old.named }

        // What was read; no page is reported.
        ensures ok { OnOk result (AppendsAtMost MOST_PAGE into.old.items into.new.items) }
        ensures err { OnErr result (into.new.items ≡ into.old.items) }
        ensures reported { (reported : Pages) → None ≡ Some reported → FetchStates (page_of reported name.now) into.old.items into.new.items result }

        // Why nothing was.
        ensures failed { Counts (IsErrOf result Failed) self.old.faults self.new.faults }
        ensures missing { Counts (IsErrOf result Missing) self.old.misses self.new.misses }
        ensures too_long { Counts (IsErrOf result TooLong) self.old.overs self.new.overs }

        // The file that is open stays open, and the number of its bytes that were given stays.
        ensures open_stays { self.new.is_open ≡ self.old.is_open }
        ensures given_stays { self.new.given ≡ self.old.given }

        // The counts of calls, of pages named and of the answer go up by one, and nothing else changes.
        ensures counts { self.new ≡ after_disk_call (page_named self.old) result }
    {
        self.named = self.named.saturating_add(1);
        let answer = fetch_opened(fs::open(&self.rt, name), into);
        self.count(&answer);
        answer
    }

    fn open_page(&mut self, name: &str) -> Result<(), Fetch>
        ensures fetched { self.new.calls ≡ counted self.old.calls }
        ensures named { self.new.named ≡ counted self.old.named }

        // What is open: that file, of which nothing was given; no page is reported.
        ensures open { OnOk result (self.new.is_open ≡ true) }
        ensures given { OnOk result (self.new.given ≡ 0) }
        ensures reported { (reported : Pages) → None ≡ Some reported → OpenStates (page_of reported name.now) None result }

        // After an error, what was open.
        ensures open_stays { OnErr result (self.new.is_open ≡ self.old.is_open) }
        ensures given_stays { OnErr result (self.new.given ≡ self.old.given) }

        // Why no file was opened; its length is no cause.
        ensures failed { Counts (IsErrOf result Failed) self.old.faults self.new.faults }
        ensures missing { Counts (IsErrOf result Missing) self.old.misses self.new.misses }
        ensures too_long { Counts (IsErrOf result TooLong) self.old.overs self.new.overs }
        ensures not_too_long { IsErrOf result TooLong → ⊥ }

        // The counts of calls, of pages named and of the answer go up by one, and only what is open changes with them.
        ensures counts { self.new ≡ after_disk_call (opened (page_named self.old) result) result }
    {
        self.named = self.named.saturating_add(1);
        let answer = self.open_file(name);
        self.count(&answer);
        answer
    }

    fn next_piece(&mut self, into: &mut Vec<u8>) -> Result<u32, Fetch>
        requires open { self.old.is_open ≡ true }
        ensures fetched { self.new.calls ≡ counted self.old.calls }
        ensures named { self.new.named ≡ self.old.named }

        // What was given; what was left isn't reported.
        ensures ok { IfOk result (λ n. AppendsExactly n into.old.items into.new.items) }
        ensures few { IfOk result (λ n. n ≤ MOST_PIECE) }
        ensures reported { (left : List ℕ) → None ≡ Some left → IfOk result (λ n. IsPiece left into.old.items into.new.items n) }
        ensures err { OnErr result (into.new.items ≡ into.old.items) }

        // What is left: the rest of the same file.
        ensures open_stays { self.new.is_open ≡ true }
        ensures rest { None ≡ rest_after None result }
        ensures given { self.new.given ≡ self.old.given + taken_count result }
        ensures limit { self.new.given ≤ most_given }

        // Why nothing was given; that there is no such file is no cause.
        ensures failed { Counts (IsErrOf result Failed) self.old.faults self.new.faults }
        ensures missing { Counts (IsErrOf result Missing) self.old.misses self.new.misses }
        ensures not_missing { IsErrOf result Missing → ⊥ }
        ensures too_long { Counts (IsErrOf result TooLong) self.old.overs self.new.overs }
        ensures over { (IsErrOf result Failed → ⊥) → (IsErrOf result Memory → ⊥) → IsErrOf result TooLong ↔ IsOverlong None self.old.given }

        // The counts of calls and of the answer go up by one, and only what was given changes with them.
        ensures counts { self.new ≡ after_disk_call (more_given self.old result) result }
    {
        let answer = self.read_on(into);
        self.count(&answer);
        answer
    }
}
