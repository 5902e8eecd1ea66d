//! The rows of a page, each tested by itself as it is read.
ghost use Rattle.std.specs.Prelude.{◌≡◌, ◌≤◌, ◌∷◌, [], None, true, false, length, IfErr, IfOk, IfSome, OnOk};
ghost use Rattle.mari_rows.specs.Rows.{fault_of_row, first_row_fault, rows_in, rows_of_width, IsFaultOf};
ghost use Rattle.mari_rows.specs.Widths.{KnowsWide};

use crate::faults::RowFault;
use crate::records::TestedRecord;
use crate::rows::{Row, RowReader, columns_of, rows_after_header};
use crate::widths::wide_line;
use mari_units::{MOST_PAGE, Memory};
use std::alloc::Global;

/// The rows of a page that are still to be read, each of which is tested by itself as it is read.
#[derive(Drop)]
pub(crate) struct TestedRows<'a> {
    /// The rows.
    pub(crate) rows: RowReader<'a>,
    /// How many fields are wanted.
    pub(crate) width: usize,
    /// The line of the first row with very many fields, if there is one. That row isn't read.
    pub(crate) wide: Option<usize>,
}

impl<'a> TestedRows<'a> {
    /// The rows of a page with these columns, whose names stand between the commas. None of them is read yet.
    pub(crate) fn of(alloc: Global, page: &'a [u8], columns: &str) -> Result<Self, RowFault>
        requires { length page.now ≤ MOST_PAGE }
        ensures rows { IfOk result (λ rows. rows_in columns.now page.now ≡ rows_of_width rows.width rows.rows) }
        ensures few { IfOk result (λ rows. length rows.rows ≤ length page.now) }
        ensures wide { IfOk result KnowsWide }
        ensures fault { IfErr result (IsFaultOf (rows_in columns.now page.now)) }
    {
        let columns = columns_of(alloc, columns)?;
        let width = columns.len();
        let wide = wide_line(page, width);
        if wide == Some(1) {
            return Err(RowFault::BadHeader);
        }
        let rows = rows_after_header(alloc, page, columns.as_slice())?;
        Ok(TestedRows { rows, width, wide })
    }

    /// The fault of the next row, where it is the first with very many fields.
    fn wide_fault(&self) -> Option<RowFault>
        requires { KnowsWide self.now }
        ensures { IfSome result (λ fault. first_row_fault self.now.width self.now.rows ≡ Some fault) }
    {
        let line = self.rows.next_line();
        if self.wide == Some(line as usize) {
            Some(RowFault::BadRow(line))
        } else {
            None
        }
    }

    /// Reads the next row into this one, or reports what is wrong with it by itself; false where there is none. After an
    /// error no row is to be read.
    pub(crate) fn read(&mut self, row: &mut Row) -> Result<bool, RowFault>
        requires { KnowsWide self.old }
        ensures none { IfOk result (λ found. found ≡ false → self.old.rows ≡ []) }
        ensures read { IfOk result (λ found. found ≡ true → (self.old.rows ≡ row.new ∷ self.new.rows) × (fault_of_row self.old.width row.new ≡ None)) }
        ensures width { self.new.width ≡ self.old.width }
        ensures wide { OnOk result (KnowsWide self.new) }
        ensures fault { IfErr result (IsFaultOf (rows_of_width self.old.width self.old.rows)) }
    {
        if let Some(fault) = self.wide_fault() {
            return Err(fault);
        }
        self.rows.read_of_width(self.width, row)
    }

    /// The first fault that a row has by itself, if there is one. No row is copied.
    pub(crate) fn first_fault(&mut self) -> Result<Option<RowFault>, Memory>
        requires { KnowsWide self.old }
        ensures { IfOk result (λ fault. fault ≡ first_row_fault self.old.width self.old.rows) }
    {
        'rows: loop {
            if let Some(fault) = self.wide_fault() {
                return Ok(Some(fault));
            }
            match self.rows.test_next(self.width)? {
                TestedRecord::Fine => {}
                TestedRecord::Faulty(fault) => return Ok(Some(fault)),
                TestedRecord::End => return Ok(None),
            }
        }
    }
}
