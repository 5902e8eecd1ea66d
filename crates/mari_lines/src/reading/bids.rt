//! A bid's line that stands first in a text, read in one pass, and without looking for its end first. Where these calls
//! answer nothing, a bid's line may still stand there.

ghost use Rattle.std.specs.Prelude.{◌≡◌, ◌<◌, ◌++◌, ◌∷◌, true, take, length, codes, IfSome};
ghost use Rattle.std.specs.List.{list_all};
ghost use Rattle.mari_units.specs.Names.{IsName, is_name_byte as is_name_byte_of};
ghost use Rattle.mari_lines.specs.Ranges.{InRange};
ghost use Rattle.mari_lines.specs.Spelling.{line_text};
ghost use Rattle.mari_lines.specs.declared.line.Line.TheVariants as line;

use super::leading::leading_number;
use crate::line::BidLine;
use mari_units::{MOST_MW, MOST_NAME, Name, is_name_byte, name_of_first};

/// What stands after a bid's first word and the space that ends it.
#[inline(always)]
fn after_keyword(text: &[u8]) -> Option<&[u8]>
    ensures { IfSome result (λ fields. text.now ≡ codes "bid " ++ fields.now) }
{
    let (word, fields) = text.split_first_chunk::<4>()?;
    if word != b"bid " {
        return None;
    }
    Some(fields)
}

/// The name that the bytes before a place are, and what stands after the space there.
#[inline(always)]
fn name_before<'a>(
    text: &'a [u8],
    first: &[u8; MOST_NAME],
    place: usize,
) -> Option<(Name, &'a [u8])>
    requires first { first.now ≡ take MOST_NAME text.now }
    requires place { place < length first.now }
    requires bytes { list_all is_name_byte_of (take place first.now) ≡ true }
    ensures { IfSome result (λ x. IsName x.0 × (text.now ≡ x.0 ++ 32 ∷ x.1.now)) }
{
    if place == 0 {
        return None;
    }
    if first[place] != b' ' {
        return None;
    }
    Some((name_of_first(first, place), &text[place + 1..]))
}

/// The name of less than `MOST_NAME` bytes that stands first in a text, and what stands after the space that ends it. The
/// bytes are looked at in an array, whose length is known before.
#[inline(always)]
fn leading_name(text: &[u8]) -> Option<(Name, &[u8])>
    ensures { IfSome result (λ x. IsName x.0 × (text.now ≡ x.0 ++ 32 ∷ x.1.now)) }
{
    let first = text.first_chunk::<MOST_NAME>()?;
    for (i, byte) in first.iter().enumerate() {
        if !is_name_byte(*byte) {
            return name_before(text, first, i);
        }
    }
    None
}

/// What stands after the end of a line.
#[inline(always)]
fn after_end(text: &[u8]) -> Option<&[u8]>
    ensures { IfSome result (λ after. text.now ≡ 10 ∷ after.now) }
{
    match text {
        [b'\n', after @ ..] => Some(after),
        _ => None,
    }
}

/// The bid whose line stands first in a text, and what stands after the end of that line.
#[inline(always)]
pub fn leading_bid(text: &[u8]) -> Option<(BidLine, &[u8])>
    ensures { IfSome result (λ x. InRange (line.Bid x.0) × (text.now ≡ line_text (line.Bid x.0) ++ x.1.now)) }
{
    let fields = after_keyword(text)?;
    let (id, number) = leading_name(fields)?;
    let (mw, end) = leading_number(number, MOST_MW)?;
    let after = after_end(end)?;
    Some((BidLine { id, mw }, after))
}
