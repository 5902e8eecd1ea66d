//! The rows of a page: its records below the header, each with its line.
ghost use Rattle.std.specs.Prelude.{◌≡◌, ◌≤◌, ◌∷◌, [], ℕ, All, List, None, true, false, length, map, IfErr, IfOk, IsOk, MatchOption, OnErr, OnOk};
ghost use Rattle.mari_rows.specs.Headers.{has_header as has_header_in};
ghost use Rattle.mari_rows.specs.Records.{records_in};
ghost use Rattle.mari_rows.specs.Rows.{columns_of as columns_in, fault_of_row, field_of, rows_after_header as rows_after_header_in, rows_from, rows_in, rows_of_width, IsFaultOf, TestsRow};

use crate::faults::RowFault;
use crate::record_fields::Fields;
use crate::records::{Records, TestedRecord};
use crate::tested_rows::TestedRows;
use crate::widths::wide_line;
use mari_units::{Items, MOST_PAGE, Memory};
use std::alloc::{AllocError, Global};
use std::marker::Model;

/// A record and its line.
#[derive(Drop)]
pub struct Row {
    /// Its number among the file's records, the header being 1.
    pub line: u32,
    /// Its fields.
    pub fields: Fields,
}

/// The records below the header, in their order.
#[derive(Drop)]
pub struct Rows {
    /// The records.
    pub rows: Items<Row>,
}

/// The rows of a page that are still to be read, one at a time, which contracts see as the list of them.
///
/// It holds one record at a time, so a book is read with no more memory than the book takes.
#[derive(Drop)]
pub struct RowReader<'a> {
    records: Records<'a>,
    line: u32,
}

impl<'a> Model for RowReader<'a> {
    ghost use Rattle.std.specs.Prelude.{List, ◌+◌, ◌<◌, ◌^◌, length};
    ghost use Rattle.mari_rows.specs.Rows.{rows_from};
    ghost use Rattle.mari_rows.specs.declared.rows.Row.{Row};

    ghost Value = { List Row };

    ghost view = { λ r. rows_from r.line r.records };

    ghost invariant = { λ r. r.line + length r.records < 2 ^ 32 };
}

impl Row {
    /// A place for a row, with no fields yet.
    pub(crate) fn none(alloc: Global) -> Row {
        Row {
            line: 0,
            fields: Fields::none(alloc),
        }
    }

    /// The field at a place, and nothing past the last.
    pub fn field(&self, place: usize) -> &[u8]
        ensures { result.now ≡ field_of self.now place }
    {
        match self.fields.get(place) {
            Some(field) => field,
            None => &[],
        }
    }
}

impl<'a> RowReader<'a> {
    /// The next row. After `Memory` there are no more.
    pub fn next(&mut self) -> Result<Option<Row>, Memory>
        ensures next { IfOk result (λ next. MatchOption next ((self.old ≡ []) × (self.new ≡ [])) (λ row. self.old ≡ row ∷ self.new)) }
        ensures err { OnErr result (self.new ≡ []) }
    {
        match self.records.next()? {
            None => Ok(None),
            Some(fields) => {
                let line = self.line;
                self.line += 1;
                Ok(Some(Row { line, fields }))
            }
        }
    }

    /// Reads the next row into this one, and tests it by itself, where `width` fields are wanted; false where there is
    /// none. After an error there are no more.
    pub(crate) fn read_of_width(&mut self, width: usize, row: &mut Row) -> Result<bool, RowFault>
        ensures none { IfOk result (λ found. found ≡ false → (self.old ≡ []) × (self.new ≡ [])) }
        ensures read { IfOk result (λ found. found ≡ true → (self.old ≡ row.new ∷ self.new) × (fault_of_row width row.new ≡ None)) }
        ensures fault { IfErr result (IsFaultOf (rows_of_width width self.old)) }
        ensures err { OnErr result (self.new ≡ []) }
    {
        let found = self
            .records
            .read_of_width(self.line, width, &mut row.fields)?;
        if found {
            row.line = self.line;
            self.line += 1;
        }
        Ok(found)
    }

    /// The line of the next row, if there is one.
    pub(crate) fn next_line(&self) -> u32
        ensures { (records : List (List (List ℕ))) × (self.now ≡ rows_from result records) }
    {
        self.line
    }

    /// Tests the next row, where `width` fields are wanted.
    pub(crate) fn test_next(&mut self, width: usize) -> Result<TestedRecord, Memory>
        ensures tested { IfOk result (TestsRow width self.old self.new) }
        ensures err { OnErr result (self.new ≡ []) }
    {
        let tested = self.records.test_next(self.line, width)?;
        if tested != TestedRecord::End {
            self.line += 1;
        }
        Ok(tested)
    }
}

/// The texts between the commas.
pub(crate) fn columns_of(alloc: Global, columns: &str) -> Result<Vec<&[u8]>, AllocError>
    ensures { IfOk result (λ v. map (λ x. x.now) v.items ≡ columns_in columns.now) }
{
    columns
        .as_bytes()
        .split(|byte| *byte == b',')
        .collect(alloc)
}

/// Whether the first record of a page is these columns, whose names stand between the commas.
pub fn has_header(alloc: Global, page: &[u8], columns: &str) -> Result<bool, Memory>
    ensures { IfOk result (λ has. has ≡ has_header_in columns.now page.now) }
{
    let columns = columns_of(alloc, columns)?;
    if wide_line(page, columns.len()) == Some(1) {
        return Ok(false);
    }
    let mut records = Records::of(alloc, page)?;
    let is_header = records.next_is(alloc, columns.as_slice())?;
    Ok(is_header.unwrap_or(false))
}

/// The rows of a page whose header is these columns.
pub(crate) fn rows_after_header<'a>(
    alloc: Global,
    page: &'a [u8],
    columns: &[&[u8]],
) -> Result<RowReader<'a>, RowFault>
    requires { length page.now ≤ MOST_PAGE }
    ensures rows { IfOk result (λ rows. rows_after_header_in (map (λ c. c.now) columns.now) (records_in page.now) ≡ Ok rows) }
    ensures fault { IfErr result (IsFaultOf (rows_after_header_in (map (λ c. c.now) columns.now) (records_in page.now))) }
{
    let mut records = Records::of(alloc, page)?;
    match records.next_is(alloc, columns)? {
        Some(true) => Ok(RowReader { records, line: 2 }),
        Some(false) | None => Err(RowFault::BadHeader),
    }
}

/// Tests each row of a page with these columns by itself, or reports the first fault.
fn test_rows(alloc: Global, page: &[u8], columns: &str) -> Result<(), RowFault>
    requires { length page.now ≤ MOST_PAGE }
    ensures fine { OnOk result (IsOk (rows_in columns.now page.now)) }
    ensures fault { IfErr result (IsFaultOf (rows_in columns.now page.now)) }
{
    let mut rows = TestedRows::of(alloc, page, columns)?;
    match rows.first_fault()? {
        Some(fault) => Err(fault),
        None => Ok(()),
    }
}

/// Reads the rows of a page with these columns, whose names stand between the commas.
///
/// The whole page is read through for a row with a fault before the first row is given.
pub fn read_rows<'a>(
    alloc: Global,
    page: &'a [u8],
    columns: &str,
) -> Result<RowReader<'a>, RowFault>
    requires { length page.now ≤ MOST_PAGE }
    ensures rows { IfOk result (λ rows. rows_in columns.now page.now ≡ Ok rows) }
    ensures fault { IfErr result (IsFaultOf (rows_in columns.now page.now)) }
{
    test_rows(alloc, page, columns)?;
    let TestedRows {
        rows,
        width: _,
        wide: _,
    } = TestedRows::of(alloc, page, columns)?;
    Ok(rows)
}

/// The rows of a page with these columns, whose names stand between the commas.
pub fn rows_of(alloc: Global, bytes: &[u8], columns: &str) -> Result<Rows, RowFault>
    requires { length bytes.now ≤ MOST_PAGE }
    ensures rows { IfOk result (λ rows. rows_in columns.now bytes.now ≡ Ok rows.rows) }
    ensures widths { IfOk result (λ rows. All (λ row. length row.fields ≡ length (columns_in columns.now)) rows.rows) }
    ensures fault { IfErr result (IsFaultOf (rows_in columns.now bytes.now)) }
{
    let mut left = read_rows(alloc, bytes, columns)?;
    let mut rows = Vec::new(alloc);
    'rows: while let Some(row) = left.next()? {
        rows.push(row)?;
    }
    Ok(Rows {
        rows: Items::of(rows),
    })
}
