//! Why a text is no publication's.

use std::alloc::AllocError;

/// Why a text is not that of a publication. Lines count from 1.
#[derive(Clone, Copy, Debug, PartialEq, Eq)]
pub enum TextFault {
    /// The line of this number has no form that a day has.
    BadLine(u32),
    /// The line of this number can't stand where it stands.
    BadOrder(u32),
    /// The text ends too early, in the line of this number.
    Truncated(u32),
    /// Out of memory.
    Memory,
}

impl From<AllocError> for TextFault {
    ghost use Rattle.std.specs.Prelude.{◌≡◌};
    ghost use Rattle.mari_publish.specs.declared.fault.TextFault.TheVariants.{Memory};

    ghost from_gives = { λ _ e. e ≡ Memory };

    fn from(_: AllocError) -> Self {
        TextFault::Memory
    }
}
