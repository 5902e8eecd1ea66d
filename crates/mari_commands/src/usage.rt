//! How the program is called.

ghost use Rattle.std.specs.Prelude.{◌≡◌};
ghost use Rattle.mari_commands.specs.Printing.{usage_line as usage_text};

/// The line that says how the program is called.
#[tactic(auto, unfolding(crate::specs::Printing::usage_line))]
pub fn usage_line() -> &'static [u8]
    ensures { result.now ≡ usage_text }
{
    b"usage: mari clear FOLDER [--nodes N] [--workers K] | mari check FOLDER | mari generate NUMBER | mari migrate FOLDER borders | mari migrate FOLDER limits | mari feed FOLDER | mari split FOLDER [--nodes N] [--workers K] | mari blocks FOLDER FIRST LAST [--nodes N] [--workers K] | mari value FOLDER K\n"
}
