//! Reads and writes of lists that do nothing beyond their ends: the search needs no more than to be safe.

/// The number at a place, or 0.
pub(crate) fn at(list: &[i64], place: usize) -> i64 {
    match list.get(place) {
        Some(number) => *number,
        None => 0,
    }
}

/// Writes the number at a place, if there is one.
pub(crate) fn set(list: &mut [i64], place: usize, number: i64) {
    if let Some(slot) = list.get_mut(place) {
        *slot = number;
    }
}

/// Adds to the number at a place, if there is one.
pub(crate) fn add(list: &mut [i64], place: usize, more: i64) {
    if let Some(slot) = list.get_mut(place) {
        *slot = slot.saturating_add(more);
    }
}

/// The number from `low` to `high` that is nearest.
pub(crate) fn nearest(number: i64, low: i64, high: i64) -> i64 {
    number.max(low).min(high)
}

/// A length as the number of an item.
pub(crate) fn number_of(length: usize) -> u32 {
    u32::try_from(length).unwrap_or(u32::MAX)
}
