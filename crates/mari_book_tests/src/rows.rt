//! Records, headers and names.

use crate::pages::page_of;
use crate::same::same;
use mari_rows::{AddFault, NameIndex, RowFault, Rows, has_header, rows_of};
use mari_units::{MOST_PAGE, Memory, read_name};
use std::alloc::{AllocError, Global};
use std::process::Abort;
use std::test::Fail;

/// More names than these tests add.
const FEW: u32 = 9;

/// The place of a name that is added.
fn add(alloc: Global, names: &mut NameIndex, text: &[u8]) -> Result<u32, AddFault> {
    match read_name(alloc, text) {
        Ok(name) if names.len() < FEW => names.add(alloc, name),
        _ => Err(AddFault::Memory),
    }
}

/// The places of the names B, A and B again, and of A where it is found or added.
fn add_each(
    alloc: Global,
    names: &mut NameIndex,
) -> ([Result<u32, AddFault>; 3], Result<u32, Memory>) {
    let added = [
        add(alloc, names, b"B"),
        add(alloc, names, b"A"),
        add(alloc, names, b"B"),
    ];
    if names.len() < FEW {
        (added, names.find_or_add(alloc, b"A"))
    } else {
        (added, Err(Memory))
    }
}

#[test]
fn names_keep_their_places(rt: HostRuntime) {
    let mut names = NameIndex::new(rt.alloc());
    let added = add_each(rt.alloc(), &mut names);
    let found = (names.find(b"B"), names.find(b"C"), names.len());
    same(&rt, names.name_at(1), Some(b"A".as_slice()));
    same(&rt, names.name_at(2), None);
    drop(names);
    let places = [Ok(0), Ok(1), Err(AddFault::Repeated)];
    same(&rt, (added, found), ((places, Ok(1)), (Some(0), None, 2)));
}

/// The lines of three records, the second field of the first, both fields of the second, and the second and the third
/// of the last.
type Fields<'a> = ([u32; 3], [&'a [u8]; 5]);

fn fields(rows: &Rows) -> Option<Fields<'_>> {
    match rows.rows.as_slice() {
        [first, second, third] => Some((
            [first.line, second.line, third.line],
            [
                first.field(1),
                second.field(0),
                second.field(1),
                third.field(1),
                third.field(2),
            ],
        )),
        _ => None,
    }
}

#[test]
fn rows_of_each_line_end(rt: HostRuntime) -> Result<(), Fail> {
    let page = b"\xef\xbb\xbf\"a\",b\r\n1,2\n\n\"3,\"\"\n\",\r,6";
    let Ok(rows) = rows_of(rt.alloc(), page, "a,b") else {
        return Err(Fail::new("no rows"));
    };
    let want: [&[u8]; 5] = [b"2", b"3,\"\n", b"", b"6", b""];
    same(&rt, fields(&rows), Some(([2, 3, 4], want)));
    drop(rows);
    Ok(())
}

/// A page of commas between these bytes.
fn page_of_commas<'a>(
    alloc: Global,
    before: &'a [u8],
    commas: u32,
    after: &'a [u8],
) -> Result<Vec<u8>, AllocError> {
    page_of(alloc, &[(before, 1), (b",", commas), (after, 1)])
}

/// The fault of the first line of a page that has one.
fn fault_of(alloc: Global, page: &[u8]) -> Option<RowFault> {
    if page.len() > MOST_PAGE {
        return Some(RowFault::Memory);
    }
    rows_of(alloc, page, "a,b").err()
}

/// What stands before and after the commas of a page, and its first fault.
type Row = (&'static [u8], &'static [u8], Option<RowFault>);

/// Compares the first faults of pages of records of two fields.
fn compare(rt: &impl Abort, alloc: Global, commas: u32, rows: &[Row]) -> Result<(), Fail> {
    for (before, after, want) in rows {
        let page = page_of_commas(alloc, before, commas, after)?;
        let fault = fault_of(alloc, page.as_slice());
        drop(page);
        same(rt, fault, *want);
    }
    Ok(())
}

/// Pages of records of two fields, and the fault of the first line that has one.
const BAD_LINES: &[Row] = &[
    (b"", b"", Some(RowFault::BadHeader)),
    (b"\n\n", b"", Some(RowFault::BadHeader)),
    (b"a\n1,2\n", b"", Some(RowFault::BadHeader)),
    (b"a, b\n1,2\n", b"", Some(RowFault::BadHeader)),
    (b"b,a\n1\n", b"", Some(RowFault::BadHeader)),
    (b"a,b\n1,2\n1\n\xff,2\n", b"", Some(RowFault::BadRow(3))),
    (b"a,b\n1,2,3\n", b"", Some(RowFault::BadRow(2))),
    (b"a,b\n\xff\n", b"", Some(RowFault::BadRow(2))),
    (b"a,b\n1,2\n1,\xff\n1\n", b"", Some(RowFault::NotUtf8(3))),
    (b"a,b\n", b"", None),
];

#[test]
fn first_bad_line(rt: HostRuntime) -> Result<(), Fail> {
    compare(&rt, rt.alloc(), 0, BAD_LINES)
}

/// As many commas as a line of one field too many has, where no quotes hold them.
const COMMAS: u32 = 16_777_216;

/// What stands before and after the commas of a page, and its first fault.
const VERY_MANY_FIELDS: &[Row] = &[
    (b"", b"\n1,2\n", Some(RowFault::BadHeader)),
    (b"b,a\n", b"", Some(RowFault::BadHeader)),
    (b"a,b\n", b"", Some(RowFault::BadRow(2))),
    (
        b"\xef\xbb\xbfa,b\r\n\r\n",
        b"\n1\n",
        Some(RowFault::BadRow(2)),
    ),
    (b"a,b\n1,\"\n\"\n", b"\xff", Some(RowFault::BadRow(3))),
    (b"a,b\n1,\xff\n", b"", Some(RowFault::NotUtf8(2))),
    (b"a,b\n1\n", b"", Some(RowFault::BadRow(2))),
    (b"a,b\n1,\"", b"\"\n", None),
];

#[test]
fn records_of_very_many_fields(rt: HostRuntime) -> Result<(), Fail> {
    compare(&rt, rt.alloc(), COMMAS, VERY_MANY_FIELDS)
}

/// Whether a page of commas after these bytes has its header.
fn has_its_header(alloc: Global, before: &[u8]) -> Result<bool, Fail> {
    let page = page_of_commas(alloc, before, COMMAS, b"")?;
    if page.len() > MOST_PAGE {
        drop(page);
        return Err("the page is short".into());
    }
    let has_header = has_header(alloc, page.as_slice(), "a,b");
    drop(page);
    Ok(has_header?)
}

#[test]
fn header_of_very_many_fields(rt: HostRuntime) -> Result<(), Fail> {
    same(&rt, has_its_header(rt.alloc(), b"")?, false);
    same(&rt, has_its_header(rt.alloc(), b"a,b\n")?, true);
    Ok(())
}
