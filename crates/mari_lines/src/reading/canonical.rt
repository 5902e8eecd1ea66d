//! Whether a text is a number as it is printed, found from its last byte to its first.

ghost use Rattle.std.specs.Prelude.{◌≡◌, ◌≢◌, ◌≤◌, ◌+◌, ◌/◌, ◌%◌, ◌^◌, ◌↔◌, ◌∷◌, [], ◌++◌, IsTrue, List, MatchOption, unsigned_abs, ℕ};
ghost use Rattle.std.specs.Fmt.{decimal, signed_decimal};
ghost use Rattle.mari_units.specs.Numbers.{printed_ten_thousandths, sign_of};
ghost use Rattle.mari_lines.specs.Spelling.{money_text};

use mari_units::Quarters;

/// What stands before a text's last byte, where that is `end`.
fn before(text: &[u8], end: u8) -> Option<&[u8]>
    ensures { MatchOption result ((front : List ℕ) → text.now ≢ front ++ end ∷ [])
        (λ front. text.now ≡ front.now ++ end ∷ []) }
{
    match text {
        [front @ .., last] if *last == end => Some(front),
        _ => None,
    }
}

/// A number's last digit.
fn last_digit(number: u128) -> u8
    ensures { result ≡ 48 + number % 10 }
{
    b'0' + (number % 10) as u8
}

/// Whether a text is a number's digits, without leading zeros.
fn is_decimal(text: &[u8], number: u128) -> bool
    ensures { IsTrue result ↔ (text.now ≡ decimal number) }
{
    let Some(front) = before(text, last_digit(number)) else {
        return false;
    };
    if number < 10 {
        return front.is_empty();
    }
    is_decimal(front, number / 10)
}

/// What stands before a number's last two digits, where a text ends with them.
fn before_two_digits(text: &[u8], number: u128) -> Option<&[u8]>
    ensures { let end : List ℕ = (48 + number % 100 / 10) ∷ (48 + number % 10) ∷ [] in
        MatchOption result ((front : List ℕ) → text.now ≢ front ++ end) (λ front. text.now ≡ front.now ++ end) }
{
    let front = before(text, last_digit(number))?;
    before(front, last_digit(number / 10))
}

/// Whether a text writes this number of hundredths: digits, a point and two decimals.
fn is_hundredths(text: &[u8], number: u128) -> bool
    ensures { IsTrue result
        ↔ (text.now ≡ decimal (number / 100) ++ 46 ∷ (48 + number % 100 / 10) ∷ (48 + number % 10) ∷ []) }
{
    let Some(pointed) = before_two_digits(text, number) else {
        return false;
    };
    let Some(front) = before(pointed, b'.') else {
        return false;
    };
    is_decimal(front, number / 100)
}

/// Whether a text writes this number of ten-thousandths: digits, a point and four decimals.
fn is_ten_thousandths(text: &[u8], number: u128) -> bool
    ensures { IsTrue result ↔ (text.now ≡ printed_ten_thousandths number) }
{
    let Some(front) = before_two_digits(text, number) else {
        return false;
    };
    is_hundredths(front, number / 100)
}

/// What stands after the sign of a number, where a text begins with it.
fn after_sign(text: &[u8], negative: bool) -> Option<&[u8]>
    ensures { MatchOption result ((size : List ℕ) → text.now ≢ sign_of negative ++ size)
        (λ size. text.now ≡ sign_of negative ++ size.now) }
{
    match text {
        [b'-', size @ ..] if negative => Some(size),
        _ if negative => None,
        _ => Some(text),
    }
}

/// Whether a text is a whole number as it is printed.
pub fn is_whole_text(text: &[u8], value: i128) -> bool
    ensures { IsTrue result ↔ (text.now ≡ signed_decimal value) }
{
    let Some(size) = after_sign(text, value < 0) else {
        return false;
    };
    is_decimal(size, value.unsigned_abs())
}

/// Whether a text is an amount of money as it is printed.
pub fn is_money_text(text: &[u8], money: Quarters) -> bool
    requires { unsigned_abs money.0 ≤ 10 ^ 30 }
    ensures { IsTrue result ↔ (text.now ≡ money_text money) }
{
    let Some(size) = after_sign(text, money.0 < 0) else {
        return false;
    };
    is_ten_thousandths(size, 25 * money.0.unsigned_abs())
}
