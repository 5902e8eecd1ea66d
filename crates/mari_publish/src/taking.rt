//! What comes with one line.

ghost use Rattle.std.specs.Prelude.{◌+◌, ◌≤◌};
ghost use Rattle.mari_publish.specs.Order.{HasRoom};
ghost use Rattle.mari_publish.specs.Gathering.{Took};

use crate::fault::TextFault;
use crate::follow::{FollowFault, follow_line};
use crate::held::Kept;
use crate::publication::Part;
use mari_lines::{FormFault, read_line};
use mari_units::MOST_RUNS;
use std::alloc::Global;

/// Why bytes are not taken as the next line.
#[derive(Clone, Copy)]
pub enum TakeFault {
    /// They have no line's form.
    Formless,
    /// The line may not stand here.
    OutOfOrder,
    /// Out of memory.
    Memory,
}

impl TakeFault {
    ghost use Rattle.std.specs.Prelude.{◌≡◌};
    ghost use Rattle.mari_publish.specs.Gathering.{text_fault};

    /// The fault of a text in whose line of this number it is.
    pub fn at(self, line: u32) -> TextFault
        ensures { result ≡ text_fault line self }
    {
        match self {
            TakeFault::Formless => TextFault::BadLine(line),
            TakeFault::OutOfOrder => TextFault::BadOrder(line),
            TakeFault::Memory => TextFault::Memory,
        }
    }
}

/// Takes the line that is spelled so, and gives the part that is whole with it. After a fault what is kept is as it
/// was.
pub fn take_line(alloc: Global, kept: &mut Kept, here: &[u8]) -> Result<Option<Part>, TakeFault>
    requires counts { kept.old.counts.published + kept.old.counts.unpublished ≤ MOST_RUNS }
    requires room { HasRoom kept.old.held kept.old.counts }
    ensures { Took kept.old here.now kept.new result }
{
    let line = match read_line(alloc, here) {
        Ok(line) => line,
        Err(FormFault::Formless) => return Err(TakeFault::Formless),
        Err(FormFault::Memory) => return Err(TakeFault::Memory),
    };
    match follow_line(alloc, kept, line) {
        Ok(part) => Ok(part),
        Err(FollowFault::OutOfOrder) => Err(TakeFault::OutOfOrder),
        Err(FollowFault::Memory) => Err(TakeFault::Memory),
    }
}
