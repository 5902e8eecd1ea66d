//! Reading a book from its page, line by line.
ghost use Rattle.std.specs.Prelude.{◌≡◌, ◌≤◌, ◌<◌, ◌++◌, ◌∷◌, [], List, length, option_map, unwrap_or, IfOk};
ghost use Rattle.mari_rows.specs.Books.{book_in, book_of_read, first_failing, refusal_of, Grammar, GivesBook};
ghost use Rattle.mari_rows.specs.Checks.{TakesLine};
ghost use Rattle.mari_rows.specs.Rows.{first_row_fault, rows_of_width};
ghost use Rattle.mari_rows.specs.Widths.{KnowsWide};
ghost use Rattle.mari_rows.specs.declared.rows.Row.{Row as Line};

use crate::checks::{FileCheck, LineFault};
use crate::faults::BookFault;
use crate::rows::Row;
use crate::tested_rows::TestedRows;
use mari_units::{MOST_PAGE, Memory};
use std::alloc::Global;

/// What keeps the book of the lines so far.
pub trait BookSoFar {
    /// The file's own checks.
    type Check: FileCheck;

    /// The book that the lines make.
    type Book;

    /// What makes a page this book.
    ghost grammar: { Self → Grammar Self.Book };

    /// It is what these lines make.
    ghost Holds: { Self → List Line → Type 0 };

    /// Takes one more line, or reports the first check that it fails. After that it is used no more.
    fn take(&mut self, alloc: Global, line: &Row) -> Result<(), LineFault<Self::Check>>
        requires { (earlier : List Line) × Holds self.old earlier × (length earlier < MOST_PAGE) }
        ensures same { grammar self.new ≡ grammar self.old }
        ensures takes { (earlier : List Line) → Holds self.old earlier
            → TakesLine Self.Check.number result (first_failing ((grammar self.old).line_checks earlier line.now))
            (λ _. Holds self.new (earlier ++ line.now ∷ [])) };

    /// The book of all lines, or the first check of the whole file that fails.
    fn end(self, alloc: Global) -> Result<Self::Book, LineFault<Self::Check>>
        requires { (lines : List Line) × Holds self lines }
        ensures { (lines : List Line) → Holds self lines
            → TakesLine Self.Check.number result (first_failing ((grammar self).file_checks lines)) (λ book. book ≡ (grammar self).book lines) };
}

/// The first refusal, where a line before these rows is refused: the fault of a row by itself comes before it.
fn first_refusal(rows: &mut TestedRows<'_>, refused: BookFault) -> Result<BookFault, Memory>
    requires { KnowsWide rows.old }
    ensures { IfOk result (λ first. first ≡ unwrap_or (option_map refusal_of (first_row_fault rows.old.width rows.old.rows)) refused) }
{
    match rows.first_fault()? {
        Some(fault) => Ok(BookFault::from(fault)),
        None => Ok(refused),
    }
}

/// The book of these lines, or their first refusal. Where a line is refused, the rows after it are only tested.
fn book_of<S: BookSoFar + Drop>(
    alloc: Global,
    lines: &mut TestedRows<'_>,
    mut so_far: S,
) -> Result<S::Book, BookFault>
    requires lines { length lines.old.rows ≤ MOST_PAGE }
    requires wide { KnowsWide lines.old }
    requires none { S.Holds so_far [] }
    ensures { GivesBook result (book_of_read (S.grammar so_far) (rows_of_width lines.old.width lines.old.rows)) }
{
    let mut line = Row::none(alloc);
    'lines: while lines.read(&mut line)? {
        if let Err(fault) = so_far.take(alloc, &line) {
            let first = first_refusal(lines, fault.at(line.line))?;
            return Err(first);
        }
    }
    match so_far.end(alloc) {
        Ok(book) => Ok(book),
        Err(fault) => Err(fault.at(1)),
    }
}

/// Reads the book of a page with these columns, whose names stand between the commas, or reports its first refusal. `csv`
/// reads the page once.
pub fn read_book<S: BookSoFar + Drop>(
    alloc: Global,
    page: &[u8],
    columns: &str,
    so_far: S,
) -> Result<S::Book, BookFault>
    requires page { length page.now ≤ MOST_PAGE }
    requires columns { (S.grammar so_far).columns ≡ columns.now }
    requires none { S.Holds so_far [] }
    ensures { GivesBook result (book_in (S.grammar so_far) page.now) }
{
    let mut lines = TestedRows::of(alloc, page, columns)?;
    book_of(alloc, &mut lines, so_far)
}
