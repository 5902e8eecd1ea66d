//! The checks of a file, each with its number and its name.
ghost use Rattle.std.specs.Prelude.{◌≡◌, ℕ, List};
ghost use Rattle.mari_rows.specs.declared.faults.BookFault.TheVariants as refused;
ghost use Rattle.mari_rows.specs.Checks.{row_check_name, row_check_number, refusal_at};

use crate::faults::BookFault;
use mari_units::Memory;
use std::alloc::{AllocError, AllocFailed};

/// A check by which a file may be refused.
///
/// The numbers name the checks. They aren't the order in which a file is tested.
pub trait FileCheck: Copy + 'static {
    /// All checks of the file.
    const ALL: &'static [Self];

    /// Its number.
    ghost number: { Self → ℕ };

    /// The name under which a refusal by it is printed.
    ghost name: { Self → List ℕ };

    /// Its number and its name.
    fn entry(self) -> (u8, &'static str)
        ensures number { result.0 ≡ number self }
        ensures name { result.1.now ≡ name self };
}

/// A check that every file has, before its own.
#[derive(Clone, Copy, Debug, PartialEq, Eq)]
pub enum RowCheck {
    /// The first record isn't the file's header.
    BadHeader,
    /// The record has another number of fields than the header.
    BadRow,
    /// A field of the record isn't UTF-8.
    NotUtf8,
}

impl FileCheck for RowCheck {
    const ALL: &'static [Self] = &[RowCheck::BadHeader, RowCheck::BadRow, RowCheck::NotUtf8];

    ghost number = { row_check_number };

    ghost name = { row_check_name };

    #[tactic(auto, unfolding(crate::specs::Checks::row_check_name))]
    fn entry(self) -> (u8, &'static str) {
        match self {
            RowCheck::BadHeader => (1, "BadHeader"),
            RowCheck::BadRow => (2, "BadRow"),
            RowCheck::NotUtf8 => (3, "NotUtf8"),
        }
    }
}

/// Why a line is not taken into a book.
#[derive(Clone, Copy, Debug, Drop, PartialEq, Eq)]
pub enum LineFault<C> {
    /// It fails a check.
    Fails(C),
    /// Out of memory.
    Memory,
}

impl<C: FileCheck> LineFault<C> {
    /// The refusal at a line.
    pub fn at(self, line: u32) -> BookFault
        ensures { result ≡ refusal_at C.number self line }
    {
        match self {
            LineFault::Fails(check) => BookFault::At {
                line,
                number: check.entry().0,
            },
            LineFault::Memory => BookFault::Memory,
        }
    }
}

impl<C> From<Memory> for LineFault<C> {
    ghost use Rattle.mari_rows.specs.declared.checks.LineFault.TheVariants.{Memory};

    ghost from_gives = { λ _ fault. fault ≡ Memory };

    fn from(_: Memory) -> Self {
        LineFault::Memory
    }
}

impl<C> From<AllocError> for LineFault<C> {
    ghost use Rattle.mari_rows.specs.declared.checks.LineFault.TheVariants.{Memory};

    ghost from_gives = { λ _ fault. fault ≡ Memory };

    fn from(_: AllocError) -> Self {
        LineFault::Memory
    }
}

impl<C, T: Drop> From<AllocFailed<T>> for LineFault<C> {
    ghost use Rattle.mari_rows.specs.declared.checks.LineFault.TheVariants.{Memory};

    ghost from_gives = { λ _ fault. fault ≡ Memory };

    fn from(_: AllocFailed<T>) -> Self {
        LineFault::Memory
    }
}
