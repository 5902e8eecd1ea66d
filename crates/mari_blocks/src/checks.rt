//! The checks of a joint market.
ghost use Rattle.std.specs.Prelude.{◌≡◌};
ghost use Rattle.mari_blocks.specs.JointChecks.{joint_check_name, joint_check_number, refusal_by};

use mari_rows::FileCheck;
use mari_units::{Memory, Refusal};
use std::alloc::{AllocError, AllocFailed};

/// The number of blocks.csv among the files of a folder.
const BLOCKS_FILE: u8 = 10;

/// The number of runs.csv.
const RUNS_FILE: u8 = 6;

/// The number of links.csv.
const LINKS_FILE: u8 = 5;

/// A check of whether quarters can be one market, in the order in which they are tested. Each is reported of a file,
/// beside the checks of that file, at its first line.
#[derive(Clone, Copy, Debug, PartialEq, Eq)]
pub enum JointCheck {
    /// A quarter has no scheduled run: reported of runs.csv.
    NoScheduled,
    /// A bid needs a bid of another of the quarters, is barred by it, or has a technical link to it: reported of
    /// links.csv.
    AcrossQuarters,
    /// The joint market has more of something than a run's market may have: reported of blocks.csv.
    TooLarge,
}

impl FileCheck for JointCheck {
    const ALL: &'static [Self] = &[
        JointCheck::NoScheduled,
        JointCheck::AcrossQuarters,
        JointCheck::TooLarge,
    ];

    ghost number = { joint_check_number };

    ghost name = { joint_check_name };

    #[tactic(auto, unfolding(crate::specs::JointChecks::joint_check_name))]
    fn entry(self) -> (u8, &'static str) {
        match self {
            JointCheck::NoScheduled => (16, "NoScheduled"),
            JointCheck::AcrossQuarters => (18, "AcrossQuarters"),
            JointCheck::TooLarge => (17, "TooLarge"),
        }
    }
}

impl JointCheck {
    /// The refusal by this check, which stands at the first line of its file.
    fn refusal(self) -> Refusal
        ensures { result ≡ refusal_by self }
    {
        let file = match self {
            JointCheck::NoScheduled => RUNS_FILE,
            JointCheck::AcrossQuarters => LINKS_FILE,
            JointCheck::TooLarge => BLOCKS_FILE,
        };
        let (number, _name) = self.entry();
        Refusal {
            file,
            line: 1,
            number,
        }
    }

    /// That there is no joint market, by this check.
    pub(crate) fn fault(self) -> JointFault
        ensures { result ≡ JointFault.Refused (refusal_by self) }
    {
        JointFault::Refused(self.refusal())
    }
}

/// Why there is no joint market.
#[derive(Clone, Copy, Debug, PartialEq, Eq)]
pub enum JointFault {
    /// A file is refused.
    Refused(Refusal),
    /// Out of memory.
    Memory,
}

impl From<Memory> for JointFault {
    ghost use Rattle.mari_blocks.specs.declared.checks.JointFault.TheVariants.{Memory};

    ghost from_gives = { λ _ fault. fault ≡ Memory };

    fn from(_: Memory) -> Self {
        JointFault::Memory
    }
}

impl From<AllocError> for JointFault {
    ghost use Rattle.mari_blocks.specs.declared.checks.JointFault.TheVariants.{Memory};

    ghost from_gives = { λ _ fault. fault ≡ Memory };

    fn from(_: AllocError) -> Self {
        JointFault::Memory
    }
}

impl<T: Drop> From<AllocFailed<T>> for JointFault {
    ghost use Rattle.mari_blocks.specs.declared.checks.JointFault.TheVariants.{Memory};

    ghost from_gives = { λ _ fault. fault ≡ Memory };

    fn from(_: AllocFailed<T>) -> Self {
        JointFault::Memory
    }
}
