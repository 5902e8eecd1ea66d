//! Which calls fail, in memory.

ghost use Rattle.std.specs.Prelude.{◌≡◌};
ghost use Rattle.mari_io.specs.Memory.{is_planned};

use mari_units::Items;

/// Which calls fail; the calls of all functions of a shelf are numbered together. With no numbers, no call fails.
/// Making it takes no memory.
#[derive(Drop)]
pub struct FaultPlan {
    /// The numbers, from 1, of the calls that fail.
    pub calls: Items<u32>,
}

impl FaultPlan {
    /// Whether the plan names this call.
    pub fn names(&self, call: u64) -> bool
        ensures { result ≡ is_planned self.now call }
    {
        self.calls
            .as_slice()
            .iter()
            .any(|number| u64::from(*number) == call)
    }
}
