//! What a form of text is, to whoever reads it.

ghost use Rattle.std.specs.Prelude.{◌≡◌, ◌≤◌, ◌<◌, ◌^◌, ℕ, List, length};
ghost use Rattle.mari_lines.specs.Reading.{Lacks};
ghost use Rattle.mari_lines.specs.declared.line.TheConstants.{MOST_LINE};
ghost use Rattle.mari_stream.specs.Forms.{Follow, Form, TookLine};

use mari_publish::TakeFault;
use std::alloc::Global;

/// What is kept of a text of a form between two lines.
pub trait TextForm: Drop {
    /// A line.
    type Line;

    /// A part of what the text says, which is whole with the last of its lines.
    type Part;

    /// The form.
    ghost form: { Form Self Self.Line Self.Part };

    /// What is kept before the first line.
    fn start(alloc: Global) -> Self
        ensures { result ≡ form.start };

    /// Takes the line that is spelled so, and gives the part that is whole with it. After a fault this is used no more.
    fn take_line(&mut self, alloc: Global, here: &[u8]) -> Result<Option<Self::Part>, TakeFault>
        requires { (lines : List Self.Line) × (parts : List Self.Part) × Follow form lines parts self.old }
        ensures { TookLine form self.old here.now self.new result };

    /// Whether the last line has come.
    fn is_done(&self) -> bool
        ensures { result ≡ form.is_done self.now };

    /// Lines in range that are spelled alike are the same, no spelling has a line feed or is longer than `MOST_LINE`, and
    /// lines that may follow one another are few.
    ///
    /// The call does nothing: its contract is a law of the form.
    fn lines_keep()
        ensures same { (l m : Self.Line) → form.IsLine l → form.IsLine m → form.spelled l ≡ form.spelled m → l ≡ m }
        ensures no_feed { (l : Self.Line) → form.IsLine l → Lacks 10 (form.spelled l) }
        ensures short { (l : Self.Line) → form.IsLine l → length (form.spelled l) ≤ MOST_LINE }
        ensures few { (lines : List Self.Line) (parts : List Self.Part) (kept : Self) → Follow form lines parts kept → length lines < 2 ^ 31 };
}
