//! What holds of every line of the second form.

ghost use Rattle.std.specs.Prelude.{◌≡◌, ◌≢◌, ◌≤◌, [], length};
ghost use Rattle.mari_lines.specs.Reading.{Lacks};
ghost use Rattle.mari_lines.specs.declared.line.TheConstants.{MOST_LINE};
ghost use Rattle.mari_reach_lines.specs.Ranges.{ReachInRange};
ghost use Rattle.mari_reach_lines.specs.Spelling.{reach_spelling};
ghost use Rattle.mari_reach_lines.specs.declared.line.ReachLine.{ReachLine as AnyLine};

/// Lines in range that are spelled alike are the same; no spelling has a line feed, none is longer than `MOST_LINE`, and
/// none is empty.
pub fn reach_lines_differ()
    ensures same { (l m : AnyLine) → ReachInRange l → ReachInRange m → reach_spelling l ≡ reach_spelling m → l ≡ m }
    ensures no_feed { (l : AnyLine) → ReachInRange l → Lacks 10 (reach_spelling l) }
    ensures short { (l : AnyLine) → ReachInRange l → length (reach_spelling l) ≤ MOST_LINE }
    ensures some { (l : AnyLine) → ReachInRange l → reach_spelling l ≢ [] }
{}
