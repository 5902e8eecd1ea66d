//! The first record of a page with very many fields, found without memory.
ghost use Rattle.std.specs.Prelude.{◌≡◌, ◌==◌, max};
ghost use Rattle.std.specs.List.{count_by};
ghost use Rattle.csv.specs.Machine.{ends_at_end, in_field as in_field_of, step as step_of};
ghost use Rattle.csv.specs.Reading.{default_config, records, strip_bom};
ghost use Rattle.mari_rows.specs.Records.{records_in};
ghost use Rattle.mari_rows.specs.Rows.{rows_from};
ghost use Rattle.mari_rows.specs.Widths.{ended_by, first_wide, state_of};

/// The most fields of a record that `csv` is given to read. It keeps 8 bytes for each field's end, and a page may be
/// nothing but commas.
pub(crate) const WIDEST: usize = 16_777_216;

/// Where a byte of a page stands, as `csv` reads it.
#[derive(Clone, Copy)]
enum Place {
    RecordStart,
    FieldStart,
    InField,
    InQuotes,
    AfterQuote,
    AfterReturn,
}

/// What a byte ends.
#[derive(Clone, Copy)]
enum Ended {
    Nothing,
    Field,
    Record,
}

impl Place {
    /// The place after a byte that may end the field, and what it ends.
    fn after_unquoted(byte: u8) -> (Place, Ended)
        ensures place { state_of result.0 ≡ (in_field_of default_config byte).0 }
        ensures ended { result.1 ≡ ended_by (in_field_of default_config byte).1 }
    {
        match byte {
            b',' => (Place::FieldStart, Ended::Field),
            b'\r' => (Place::AfterReturn, Ended::Record),
            b'\n' => (Place::RecordStart, Ended::Record),
            _ => (Place::InField, Ended::Nothing),
        }
    }

    /// The place after a byte of this place, and what it ends.
    fn after(self, byte: u8) -> (Place, Ended)
        ensures place { state_of result.0 ≡ (step_of default_config (state_of self) byte).0 }
        ensures ended { result.1 ≡ ended_by (step_of default_config (state_of self) byte).1 }
    {
        match (self, byte) {
            (Place::RecordStart | Place::AfterReturn, b'\r' | b'\n') => {
                (Place::RecordStart, Ended::Nothing)
            }
            (Place::RecordStart | Place::AfterReturn | Place::FieldStart, b'"') => {
                (Place::InQuotes, Ended::Nothing)
            }
            (Place::InQuotes, b'"') => (Place::AfterQuote, Ended::Nothing),
            (Place::InQuotes, _) => (Place::InQuotes, Ended::Nothing),
            (Place::AfterQuote, b'"') => (Place::InQuotes, Ended::Nothing),
            _ => Place::after_unquoted(byte),
        }
    }

    /// Whether the end of the page here ends a record.
    fn is_in_record(self) -> bool
        ensures { result ≡ ends_at_end (state_of self) }
    {
        !matches!(self, Place::RecordStart | Place::AfterReturn)
    }
}

/// The page without a byte order mark at its head.
fn without_mark(page: &[u8]) -> &[u8]
    ensures { result.now ≡ strip_bom page.now }
{
    page.strip_prefix(b"\xef\xbb\xbf").unwrap_or(page)
}

/// How many commas there are. A loop, since it runs eight times as fast as `filter` and `count`.
fn commas_in(text: &[u8]) -> usize
    ensures { result ≡ count_by (λ b. b == 44) text.now }
{
    let mut commas = 0;
    for byte in text {
        if *byte == b',' {
            commas += 1;
        }
    }
    commas
}

/// The line of the first record with more than `most` fields, by a walk along the text.
fn wide_line_in(text: &[u8], most: usize) -> Option<usize>
    ensures { result ≡ first_wide most (rows_from 1 (records default_config text.now)) }
{
    let mut place = Place::RecordStart;
    let mut line = 1;
    let mut commas = 0;
    for byte in text {
        let (next, ended) = place.after(*byte);
        place = next;
        match ended {
            Ended::Nothing => {}
            Ended::Field => commas += 1,
            Ended::Record => {
                if commas >= most {
                    return Some(line);
                }
                line += 1;
                commas = 0;
            }
        }
    }
    (place.is_in_record() && commas >= most).then_some(line)
}

/// The line of the first record that isn't to be read: it has more fields than the columns, and more than `WIDEST`.
/// Where the page has fewer commas there is none, so that most pages are only looked through for commas.
pub(crate) fn wide_line(page: &[u8], columns: usize) -> Option<usize>
    ensures { result ≡ first_wide (max columns WIDEST) (rows_from 1 (records_in page.now)) }
{
    let most = columns.max(WIDEST);
    let text = without_mark(page);
    if text.len() < most || commas_in(text) < most {
        None
    } else {
        wide_line_in(text, most)
    }
}
