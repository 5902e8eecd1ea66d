//! The outside as two traits: a shelf that gives pages by their names, whole or in pieces, and a sink that takes
//! bytes. Both count what went wrong, so that whoever calls them can say why a call failed.
//!
//! In memory a shelf reports its pages and a sink what it took, and both fail by a plan; over real files and standard
//! output neither reports anything. The crate stands on `mari_units`. Its promise: an answer other than success or
//! `Memory` comes only where its count rose in that call, or stands at its last value.
#![tactic(auto)]

mod disk;
mod memory_shelf;
mod memory_sink;
mod output;
mod page;
mod plan;
mod shelf;
mod sink;
mod writing;

pub use disk::{DiskShelf, fetch_opened, read_piece};
pub use memory_shelf::MemoryShelf;
pub use memory_sink::MemorySink;
pub use output::StdSink;
pub use page::{Name64, Page};
pub use plan::FaultPlan;
pub use shelf::{Fetch, MOST_GIVEN, MOST_PIECE, Shelf};
pub use sink::{Failed, Sink};
pub use writing::write_all;
