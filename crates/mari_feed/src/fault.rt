//! Why bytes are no part.

use std::alloc::{AllocError, AllocFailed};

/// Why bytes are no part.
#[derive(Clone, Copy, Debug, PartialEq, Eq)]
pub enum FeedFault {
    /// They are no JSON: `serde_json` refuses them, and memory isn't the cause.
    NotJson,
    /// They are JSON, but of no part in range.
    NotAPart,
    /// Out of memory.
    Memory,
}

impl From<AllocError> for FeedFault {
    ghost use Rattle.std.specs.Prelude.{◌≡◌};
    ghost use Rattle.mari_feed.specs.declared.fault.FeedFault.TheVariants.{Memory as NoMemory};

    ghost from_gives = { λ _ e. e ≡ NoMemory };

    fn from(_: AllocError) -> Self {
        FeedFault::Memory
    }
}

impl<T: Drop> From<AllocFailed<T>> for FeedFault {
    ghost use Rattle.std.specs.Prelude.{◌≡◌};
    ghost use Rattle.mari_feed.specs.declared.fault.FeedFault.TheVariants.{Memory as NoMemory};

    ghost from_gives = { λ _ e. e ≡ NoMemory };

    fn from(_: AllocFailed<T>) -> Self {
        FeedFault::Memory
    }
}
