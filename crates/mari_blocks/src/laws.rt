//! That the quarters of a joint market are named in one way.

ghost use Rattle.std.specs.Prelude.{◌≡◌, ◌↔◌, ◌<◌, ◌≤◌, ◌+◌, ℕ, true, length, Contains};
ghost use Rattle.mari_blocks.specs.Blocks.{is_within};
ghost use Rattle.mari_blocks.specs.Joint.{quarters_of, zones_before};
ghost use Rattle.mari_blocks.specs.Prices.{zone_quarter};

use mari_remain::Books;

/// The quarters from a first to a last one are the same as a list and as a test; and a zone of the joint market has the
/// quarter at whose zones it stands.
///
/// The call does nothing: its contract is the law.
pub fn quarters_agree(books: &Books)
    ensures within { (first last quarter : ℕ) → (is_within first last quarter ≡ true) ↔ Contains (quarters_of first last) quarter }
    ensures zones { (first quarter zone : ℕ) → first ≤ quarter → zone < length books.now.zones.zones
        → zone_quarter books.now first (zones_before books.now first quarter + zone) ≡ quarter }
{
    let _books = books;
}
