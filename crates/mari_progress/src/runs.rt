//! The runs of a day: how many there are, and the heading of each.

ghost use Rattle.std.specs.Prelude.{◌≡◌, ◌≤◌, length};
ghost use Rattle.mari_progress.specs.Reported.{heading_of};

use mari_publish::Heading;
use mari_remain::{Books, run_entry};
use mari_units::MOST_RUNS;

/// How many runs the day has.
pub fn run_count(books: &Books) -> u32
    requires { length books.now.runs.runs ≤ MOST_RUNS }
    ensures { result ≡ length books.now.runs.runs }
{
    books.runs.runs.as_slice().len() as u32
}

/// The heading of a run, counted from 1.
pub fn heading(books: &Books, run: u32) -> Heading
    requires { 1 ≤ run }
    ensures { result ≡ heading_of books.now run }
{
    let entry = run_entry(books, run);
    Heading {
        run,
        quarter: entry.quarter,
        direct: entry.direct,
    }
}
