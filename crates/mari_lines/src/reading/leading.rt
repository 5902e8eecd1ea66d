//! Numbers that stand first in a text, each read in one pass together with the place where its digits end. Where these
//! calls answer nothing, a number may still stand there.

ghost use Rattle.std.specs.Prelude.{◌≡◌, ◌≤◌, ◌<◌, ◌/◌, ◌%◌, ◌+◌, ◌-◌, ◌++◌, ◌∷◌, [], true, take, length, IfSome};
ghost use Rattle.std.specs.Char.{is_ascii_digit};
ghost use Rattle.std.specs.List.{list_all};
ghost use Rattle.std.specs.Fmt.{decimal};
ghost use Rattle.mari_units.specs.Numbers.{value_of_digits};

/// The number up to `greatest` that the digits before a place write, and what stands from there on.
#[inline(always)]
fn number_before(text: &[u8], place: usize, number: u32, greatest: u32) -> Option<(u32, &[u8])>
    requires place { place ≤ length text.now }
    requires digits { list_all is_ascii_digit (take place text.now) ≡ true }
    requires number { number ≡ value_of_digits (take place text.now) }
    ensures { IfSome result (λ x. (x.0 ≤ greatest) × (text.now ≡ decimal x.0 ++ x.1.now)) }
{
    if place == 0 {
        return None;
    }
    if text[0] == b'0' && place > 1 {
        return None;
    }
    if number > greatest {
        return None;
    }
    Some((number, &text[place..]))
}

/// The number that a digit writes.
#[inline(always)]
fn digit(byte: u8) -> Option<u32>
    ensures { IfSome result (λ d. (is_ascii_digit byte ≡ true) × (d ≡ byte - 48) × (d < 10)) }
{
    if byte.is_ascii_digit() {
        Some(u32::from(byte - b'0'))
    } else {
        None
    }
}

/// The number of up to four digits that stands first in a text of more bytes, and what stands after it. Most numbers
/// are such, and read so in half the time of a loop.
#[inline(always)]
fn short_number(text: &[u8], greatest: u32) -> Option<(u32, &[u8])>
    ensures { IfSome result (λ x. (x.0 ≤ greatest) × (text.now ≡ decimal x.0 ++ x.1.now)) }
{
    if text.len() < 5 {
        return None;
    }
    let first = digit(text[0])?;
    let Some(second) = digit(text[1]) else {
        return number_before(text, 1, first, greatest);
    };
    let two = 10 * first + second;
    let Some(third) = digit(text[2]) else {
        return number_before(text, 2, two, greatest);
    };
    let three = 10 * two + third;
    let Some(fourth) = digit(text[3]) else {
        return number_before(text, 3, three, greatest);
    };
    if text[4].is_ascii_digit() {
        return None;
    }
    number_before(text, 4, 10 * three + fourth, greatest)
}

/// The same of any number, byte by byte.
#[inline(never)]
fn long_number(text: &[u8], greatest: u32) -> Option<(u32, &[u8])>
    ensures { IfSome result (λ x. (x.0 ≤ greatest) × (text.now ≡ decimal x.0 ++ x.1.now)) }
{
    let mut number = 0u64;
    for (i, byte) in text.iter().enumerate() {
        if !byte.is_ascii_digit() {
            return number_before(text, i, number as u32, greatest);
        }
        number = 10 * number + u64::from(*byte - b'0');
        if number > u64::from(greatest) {
            return None;
        }
    }
    number_before(text, text.len(), number as u32, greatest)
}

/// The number up to `greatest` that stands first in a text, and what stands after it.
#[inline(always)]
pub fn leading_number(text: &[u8], greatest: u32) -> Option<(u32, &[u8])>
    ensures { IfSome result (λ x. (x.0 ≤ greatest) × (text.now ≡ decimal x.0 ++ x.1.now)) }
{
    match short_number(text, greatest) {
        Some(found) => Some(found),
        None => long_number(text, greatest),
    }
}

/// The two bytes after a point that stands first in a text, and what stands after them.
fn leading_decimals(text: &[u8]) -> Option<(u8, u8, &[u8])>
    ensures { IfSome result (λ x. text.now ≡ 46 ∷ x.0 ∷ x.1 ∷ x.2.now) }
{
    match text {
        [b'.', tenths, ones, after @ ..] => Some((*tenths, *ones, after)),
        _ => None,
    }
}

/// The number of hundredths up to `greatest` that stands first in a text, and what stands after it.
#[inline(always)]
pub fn leading_hundredths(text: &[u8], greatest: u32) -> Option<(u32, &[u8])>
    ensures { IfSome result (λ x. (x.0 ≤ greatest) × (text.now ≡ (decimal (x.0 / 100) ++ 46 ∷ (48 + x.0 % 100 / 10) ∷ (48 + x.0 % 10) ∷ []) ++ x.1.now)) }
{
    let (whole, pointed) = leading_number(text, greatest / 100)?;
    let (tenths, ones, after) = leading_decimals(pointed)?;
    if !tenths.is_ascii_digit() {
        return None;
    }
    if !ones.is_ascii_digit() {
        return None;
    }
    let parts = 10 * u64::from(tenths - b'0') + u64::from(ones - b'0');
    let number = 100 * u64::from(whole) + parts;
    if number > u64::from(greatest) {
        return None;
    }
    Some((number as u32, after))
}
