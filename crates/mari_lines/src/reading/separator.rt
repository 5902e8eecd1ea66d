//! Bytes up to a separator.

ghost use Rattle.std.specs.Prelude.{◌≡◌, ◌++◌, ◌∷◌, MatchOption};
ghost use Rattle.mari_lines.specs.Reading.{Lacks};

use memchr::memchr;

/// The bytes before the first separator, and those after it.
pub fn split_once(separator: u8, bytes: &[u8]) -> Option<(&[u8], &[u8])>
    ensures { MatchOption result (Lacks separator bytes.now) (λ x. Lacks separator x.0.now × (bytes.now ≡ x.0.now ++ separator ∷ x.1.now)) }
{
    match memchr(separator, bytes) {
        Some(place) => Some((&bytes[..place], &bytes[place + 1..])),
        None => None,
    }
}

/// The same byte by byte, which takes less time where the separator is near.
pub fn split_near(separator: u8, bytes: &[u8]) -> Option<(&[u8], &[u8])>
    ensures { MatchOption result (Lacks separator bytes.now) (λ x. Lacks separator x.0.now × (bytes.now ≡ x.0.now ++ separator ∷ x.1.now)) }
{
    for (i, byte) in bytes.iter().enumerate() {
        if *byte == separator {
            return Some((&bytes[..i], &bytes[i + 1..]));
        }
    }
    None
}
