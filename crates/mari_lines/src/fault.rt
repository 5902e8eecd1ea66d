//! Why bytes are no line, or no field.

use std::alloc::AllocFailed;

/// Why bytes were not read.
#[derive(Clone, Copy, Debug, PartialEq, Eq)]
pub enum FormFault {
    /// What is looked for is never written so.
    Formless,
    /// Out of memory.
    Memory,
}

impl<T: Drop> From<AllocFailed<T>> for FormFault {
    ghost use Rattle.std.specs.Prelude.{◌≡◌};
    ghost use Rattle.mari_lines.specs.declared.fault.FormFault.TheVariants.{Memory as NoMemory};

    ghost from_gives = { λ _ e. e ≡ NoMemory };

    fn from(_: AllocFailed<T>) -> Self {
        FormFault::Memory
    }
}
