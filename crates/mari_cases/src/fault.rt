//! Why case files can't be followed.

use mari_units::Memory;
use std::alloc::{AllocError, AllocFailed};
use std::io;

/// Why case files can't be followed.
#[derive(Clone, Copy)]
pub enum Fault {
    /// Out of memory.
    Memory,
    /// Standard output can't be written.
    Unprinted,
    /// A file can't be read, or isn't text.
    Unread,
    /// A line that can't be followed, by its number from 1, and why.
    Line(usize, &'static str),
}

impl From<Memory> for Fault {
    fn from(_: Memory) -> Self {
        Fault::Memory
    }
}

impl From<AllocError> for Fault {
    fn from(_: AllocError) -> Self {
        Fault::Memory
    }
}

impl<T: Drop> From<AllocFailed<T>> for Fault {
    fn from(_: AllocFailed<T>) -> Self {
        Fault::Memory
    }
}

impl From<io::Error> for Fault {
    fn from(_: io::Error) -> Self {
        Fault::Unprinted
    }
}
