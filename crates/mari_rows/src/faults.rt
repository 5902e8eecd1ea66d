//! What is wrong with a page, and where.
ghost use Rattle.std.specs.Prelude.{◌≡◌};

use crate::checks::{FileCheck, RowCheck};
use mari_units::Memory;
use std::alloc::{AllocError, AllocFailed};
use thiserror::Error;

/// Why a page has no rows. Lines count records, the header being 1.
#[derive(Clone, Copy, Debug, PartialEq, Eq)]
pub enum RowFault {
    /// The first record isn't the header.
    BadHeader,
    /// The record at this line has another number of fields than the header.
    BadRow(u32),
    /// A field of the record at this line isn't UTF-8.
    NotUtf8(u32),
    /// Out of memory.
    Memory,
}

/// Why a name was not added.
#[derive(Clone, Copy, Debug, PartialEq, Eq)]
pub enum AddFault {
    /// The index has it already.
    Repeated,
    /// Out of memory.
    Memory,
}

/// The first refusal of a book.
#[derive(Clone, Copy, Debug, PartialEq, Eq, Error)]
pub enum BookFault {
    /// A record fails a check: its line, the header being 1, and the number of the check.
    #[error("line {line}: check {number} fails")]
    At { line: u32, number: u8 },
    /// Out of memory.
    #[error("out of memory")]
    Memory,
}

impl From<Memory> for RowFault {
    ghost use Rattle.mari_rows.specs.declared.faults.RowFault.TheVariants.{Memory};

    ghost from_gives = { λ _ fault. fault ≡ Memory };

    fn from(_: Memory) -> Self {
        RowFault::Memory
    }
}

impl From<AllocError> for RowFault {
    ghost use Rattle.mari_rows.specs.declared.faults.RowFault.TheVariants.{Memory};

    ghost from_gives = { λ _ fault. fault ≡ Memory };

    fn from(_: AllocError) -> Self {
        RowFault::Memory
    }
}

impl<T: Drop> From<AllocFailed<T>> for RowFault {
    ghost use Rattle.mari_rows.specs.declared.faults.RowFault.TheVariants.{Memory};

    ghost from_gives = { λ _ fault. fault ≡ Memory };

    fn from(_: AllocFailed<T>) -> Self {
        RowFault::Memory
    }
}

impl From<Memory> for BookFault {
    ghost use Rattle.mari_rows.specs.declared.faults.BookFault.TheVariants.{Memory};

    ghost from_gives = { λ _ fault. fault ≡ Memory };

    fn from(_: Memory) -> Self {
        BookFault::Memory
    }
}

impl From<AllocError> for BookFault {
    ghost use Rattle.mari_rows.specs.declared.faults.BookFault.TheVariants.{Memory};

    ghost from_gives = { λ _ fault. fault ≡ Memory };

    fn from(_: AllocError) -> Self {
        BookFault::Memory
    }
}

impl<T: Drop> From<AllocFailed<T>> for BookFault {
    ghost use Rattle.mari_rows.specs.declared.faults.BookFault.TheVariants.{Memory};

    ghost from_gives = { λ _ fault. fault ≡ Memory };

    fn from(_: AllocFailed<T>) -> Self {
        BookFault::Memory
    }
}

impl From<RowFault> for BookFault {
    ghost use Rattle.mari_rows.specs.Books.{refusal_of};

    ghost from_gives = { λ fault refusal. refusal ≡ refusal_of fault };

    fn from(fault: RowFault) -> Self {
        let (line, check) = match fault {
            RowFault::BadHeader => (1, RowCheck::BadHeader),
            RowFault::BadRow(line) => (line, RowCheck::BadRow),
            RowFault::NotUtf8(line) => (line, RowCheck::NotUtf8),
            RowFault::Memory => return BookFault::Memory,
        };
        let (number, _name) = check.entry();
        BookFault::At { line, number }
    }
}
