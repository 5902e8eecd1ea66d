//! How the valuing of a publication ends, and why no more of it is taken.

ghost use Rattle.mari_capacity.specs.Taking.{IsStopAt};

use mari_io::Fetch;
use mari_publish::TextFault;
use mari_units::{Items, Memory};

/// How the valuing of a publication ends.
#[derive(Clone, Copy, Debug, PartialEq, Eq)]
pub enum ValueEnd {
    /// The publication is valid.
    Valid {
        /// How many of its runs are published.
        published: u32,
        /// How many of its runs aren't.
        unpublished: u32,
    },
    /// Its first fault is one of the check.
    Invalid {
        /// The run that has it, counted from 1; 0 for the head, and for the totals of a day without runs.
        run: u32,
        /// The fault's number.
        fault: u8,
    },
    /// Its first fault is one of the text; never because memory ran out.
    Text(TextFault),
    /// The shelf gave no page, or no further piece; never because memory ran out.
    Fetch(Fetch),
}

/// What more room on each border of a publication is worth.
#[derive(Drop)]
pub struct Valued {
    /// The lines, each with its line feed.
    pub text: Items<u8>,
    /// How they end.
    pub end: ValueEnd,
}

/// Why no more of a publication is taken.
#[derive(Clone, Copy, Debug, PartialEq, Eq)]
pub enum ValueStop {
    /// It ends here.
    At(ValueEnd),
    /// Out of memory.
    Memory,
}

/// Stops where a fault was found, of a run.
pub(crate) fn stop_at(run: u32, found: Result<Option<u8>, Memory>) -> Result<(), ValueStop>
    ensures { IsStopAt run found result }
{
    match found {
        Ok(None) => Ok(()),
        Ok(Some(fault)) => Err(ValueStop::At(ValueEnd::Invalid { run, fault })),
        Err(Memory) => Err(ValueStop::Memory),
    }
}
