//! The records of a page, one after the other.
ghost use Rattle.std.specs.Prelude.{◌≡◌, ◌∷◌, [], None, true, false, map, IfErr, IfOk, OnErr, MatchOption};
ghost use Rattle.std.specs.List.{list_all};
ghost use Rattle.std.specs.Str.{is_utf8 as is_utf8_of};
ghost use Rattle.csv.specs.Reading.{error_kind, NotLengths};
ghost use Rattle.csv.specs.Records.{fields_of};
ghost use Rattle.mari_rows.specs.Records.{records_in, IsBetweenRecords, ReadsRecord};
ghost use Rattle.mari_rows.specs.Rows.{fault_of_row, is_header as is_header_of, rows_from, rows_of_width, IsFaultOf, TestsHeader, TestsNext};

use crate::faults::RowFault;
use crate::record_fields::Fields;
use csv::{ByteRecord, Error, ErrorKind, Reader, ReaderBuilder};
use mari_units::Memory;
use std::alloc::{AllocError, Global};
use std::marker::Model;

/// The records of a page that are still to be read, which contracts see as the list of them.
pub(crate) struct Records<'a> {
    reader: Box<Reader<&'a [u8]>>,
    row: ByteRecord,
    has_ended: bool,
}

impl<'a> Model for Records<'a> {
    ghost use Rattle.std.specs.Prelude.{◌≡◌, List, [], ℕ, false, if◌then◌else◌};
    ghost use Rattle.mari_rows.specs.Records.{records_left, IsBetweenRecords};

    ghost Value = { List (List (List ℕ)) };

    ghost view = { λ r. if r.has_ended then [] else records_left r.reader.value };

    ghost invariant = { λ r. r.has_ended ≡ false → IsBetweenRecords r.reader.value };
}

impl Drop for Records<'_> {
    fn drop(self) {
        let Self {
            reader: _reader,
            row: _row,
            has_ended: _,
        } = self;
    }
}

/// What the test of the next record says.
#[derive(Clone, Copy, PartialEq, Eq)]
pub(crate) enum TestedRecord {
    /// There is none.
    End,
    /// Nothing is wrong with it by itself.
    Fine,
    /// This is wrong with it.
    Faulty(RowFault),
}

/// Whether bytes are text in UTF-8.
fn is_text(bytes: &[u8]) -> bool
    ensures { result ≡ is_utf8_of bytes.now }
{
    std::str::from_utf8(bytes).is_ok()
}

/// Whether each field of a record is text, field by field.
#[tactic(auto, using(crate::proofs::RowLemmas::text_more, crate::proofs::RowLemmas::not_text))]
fn each_is_text(row: &ByteRecord) -> bool
    ensures { result ≡ list_all is_utf8_of (fields_of row.now) }
{
    for i in 0..row.len() {
        if let Some(field) = row.get(i) {
            if !is_text(field) {
                return false;
            }
        }
    }
    true
}

/// Whether each field of a record is text. ASCII, as most records are, is known from all its bytes at once.
#[tactic(auto, using(crate::proofs::RowLemmas::ascii_text))]
fn all_text(row: &ByteRecord) -> bool
    ensures { result ≡ list_all is_utf8_of (fields_of row.now) }
{
    row.as_slice().is_ascii() || each_is_text(row)
}

/// What is wrong with a record of this line by itself, where `width` fields are wanted. No field is copied.
fn fault_of(row: &ByteRecord, line: u32, width: usize) -> Option<RowFault>
    ensures { result ≡ fault_of_row width (record { line = line; fields = fields_of row.now }) }
{
    if row.len() != width {
        Some(RowFault::BadRow(line))
    } else if !all_text(row) {
        Some(RowFault::NotUtf8(line))
    } else {
        None
    }
}

/// The bytes of each field, lent.
fn texts_of(alloc: Global, row: &ByteRecord) -> Result<Vec<&[u8]>, AllocError>
    ensures { IfOk result (λ v. map (λ x. x.now) v.items ≡ fields_of row.now) }
{
    let mut texts = Vec::with_capacity(alloc, row.len())?;
    for i in 0..row.len() {
        if let Some(field) = row.get(i) {
            texts.push(field)?;
        }
    }
    Ok(texts)
}

/// Whether a record is the column names. One of another number of fields isn't looked at.
#[tactic(auto, using(crate::proofs::RowLemmas::no_header))]
fn is_header(alloc: Global, row: &ByteRecord, columns: &[&[u8]]) -> Result<bool, Memory>
    ensures { IfOk result (λ r. r ≡ is_header_of (map (λ c. c.now) columns.now) (fields_of row.now)) }
{
    if row.len() != columns.len() {
        return Ok(false);
    }
    let texts = texts_of(alloc, row)?;
    Ok(texts.as_slice() == columns)
}

/// What stops a reader that takes records of any number of fields is that memory runs out.
fn memory_of(error: Error) -> Memory
    requires { NotLengths (error_kind error) }
{
    match error.into_kind() {
        ErrorKind::UnequalLengths { .. } => unreachable!(),
        _ => Memory,
    }
}

/// Reads the next record, if there is one.
fn read_record(reader: &mut Reader<&[u8]>, row: &mut ByteRecord) -> Result<bool, Memory>
    requires { IsBetweenRecords reader.old }
    ensures { IfOk result (ReadsRecord reader.old reader.new (fields_of row.new)) }
{
    match reader.read_byte_record(row) {
        Ok(found) => Ok(found),
        Err(error) => Err(memory_of(error)),
    }
}

impl<'a> Records<'a> {
    /// The records of a page. The reader is given a header of no fields, or else it would keep two copies of the first
    /// record. Its tables take 17 kB, so it stands on the heap.
    pub(crate) fn of(alloc: Global, page: &'a [u8]) -> Result<Self, Memory>
        ensures { IfOk result (λ records. records ≡ records_in page.now) }
    {
        let reader = ReaderBuilder::new().flexible(true).from_reader(alloc, page);
        let mut reader = Box::new(alloc, reader)?;
        if reader.set_byte_headers(ByteRecord::new(alloc)).is_err() {
            return Err(Memory);
        }
        Ok(Records {
            reader,
            row: ByteRecord::new(alloc),
            has_ended: false,
        })
    }

    /// The fields of the next record. After `Memory` there are no more.
    pub(crate) fn next(&mut self) -> Result<Option<Fields>, Memory>
        ensures next { IfOk result (λ next. MatchOption next ((self.old ≡ []) × (self.new ≡ [])) (λ fields. self.old ≡ fields ∷ self.new)) }
        ensures err { OnErr result (self.new ≡ []) }
    {
        if self.has_ended {
            return Ok(None);
        }
        self.has_ended = true;
        if !read_record(&mut self.reader, &mut self.row)? {
            return Ok(None);
        }
        let record = self.row.clone()?;
        self.has_ended = false;
        Ok(Some(Fields::of(record)))
    }

    /// Reads the next record, of this line, into a place for its fields, and tests it by itself, where `width` fields
    /// are wanted; false where there is none. After an error there are no more.
    pub(crate) fn read_of_width(
        &mut self,
        line: u32,
        width: usize,
        fields: &mut Fields,
    ) -> Result<bool, RowFault>
        ensures none { IfOk result (λ found. found ≡ false → (self.old ≡ []) × (self.new ≡ [])) }
        ensures read { IfOk result
            (λ found. found ≡ true → (self.old ≡ fields.new ∷ self.new) × (fault_of_row width (record { line = line; fields = fields.new }) ≡ None)) }
        ensures fault { IfErr result (IsFaultOf (rows_of_width width (rows_from line self.old))) }
        ensures err { OnErr result (self.new ≡ []) }
    {
        if self.has_ended {
            return Ok(false);
        }
        self.has_ended = true;
        if !read_record(&mut self.reader, &mut fields.row)? {
            return Ok(false);
        }
        if let Some(fault) = fault_of(&fields.row, line, width) {
            return Err(fault);
        }
        self.has_ended = false;
        Ok(true)
    }

    /// Whether the next record is these columns, if there is one. After `Memory` there are no more.
    pub(crate) fn next_is(
        &mut self,
        alloc: Global,
        columns: &[&[u8]],
    ) -> Result<Option<bool>, Memory>
        ensures next { IfOk result (TestsHeader (map (λ c. c.now) columns.now) self.old self.new) }
        ensures err { OnErr result (self.new ≡ []) }
    {
        if self.has_ended {
            return Ok(None);
        }
        self.has_ended = true;
        if !read_record(&mut self.reader, &mut self.row)? {
            return Ok(None);
        }
        let is_header = is_header(alloc, &self.row, columns)?;
        self.has_ended = false;
        Ok(Some(is_header))
    }

    /// Tests the next record, of this line, where `width` fields are wanted. After `Memory` there are no more.
    pub(crate) fn test_next(&mut self, line: u32, width: usize) -> Result<TestedRecord, Memory>
        ensures tested { IfOk result (TestsNext width line self.old self.new) }
        ensures err { OnErr result (self.new ≡ []) }
    {
        if self.has_ended {
            return Ok(TestedRecord::End);
        }
        self.has_ended = true;
        if !read_record(&mut self.reader, &mut self.row)? {
            return Ok(TestedRecord::End);
        }
        self.has_ended = false;
        match fault_of(&self.row, line, width) {
            Some(fault) => Ok(TestedRecord::Faulty(fault)),
            None => Ok(TestedRecord::Fine),
        }
    }
}
