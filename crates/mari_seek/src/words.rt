//! Gate words.

use mari_gates::empty_prefix;
use mari_market::Prefix;
use std::cmp::Ordering;

/// Whether a gate is open in a word.
pub(crate) fn has(word: &Prefix, gate: u32) -> bool {
    match word.bits.get((gate / 64) as usize) {
        Some(bits) => (*bits >> (gate % 64)) & 1 == 1,
        None => false,
    }
}

/// Opens or closes a gate of a word.
pub(crate) fn put(word: &mut Prefix, gate: u32, open: bool) {
    if let Some(bits) = word.bits.get_mut((gate / 64) as usize) {
        let bit = 1u64 << (gate % 64);
        if open {
            *bits |= bit;
        } else {
            *bits &= !bit;
        }
    }
}

/// The word that closes every gate.
pub(crate) fn closed(gates: u32) -> Prefix {
    let mut word = empty_prefix();
    word.length = gates;
    word
}

/// Which of two words of one length comes first: at the first gate that differs it is closed.
fn order(one: &Prefix, other: &Prefix) -> Ordering {
    for place in 0..8usize {
        let (bits, others) = (one.bits[place], other.bits[place]);
        if bits != others {
            let differing = (bits ^ others).trailing_zeros();
            return if differing < 64 && (bits >> differing) & 1 == 1 {
                Ordering::Greater
            } else {
                Ordering::Less
            };
        }
    }
    Ordering::Equal
}

/// Whether a word comes before another of its length.
pub(crate) fn is_before(one: &Prefix, other: &Prefix) -> bool {
    order(one, other) == Ordering::Less
}
