//! Where pages come from.

ghost use Rattle.std.specs.Prelude.{◌≡◌, ◌≤◌, ◌+◌, ◌↔◌, ℕ, List, Bool, true, Option, IsErrOf, IfOk, OnOk, OnErr, Some, None};
ghost use Rattle.mari_units.specs.declared.limits.TheConstants.{MOST_PAGE};
ghost use Rattle.mari_io.specs.declared.shelf.Fetch.TheVariants.{Failed, Missing, TooLong, Memory};
ghost use Rattle.mari_io.specs.Outside.{Counts, Pages, counted, page_of, FetchStates, AppendsAtMost, OpenStates, AppendsExactly, IsPiece, rest_after, IsOverlong, most_given, taken_count};

/// The most bytes of a piece.
pub const MOST_PIECE: usize = 65_536;

/// The most bytes that are given of a page in pieces.
pub const MOST_GIVEN: u64 = 1_099_511_627_776;

/// Why a call gave nothing.
#[derive(Clone, Copy, Debug, PartialEq, Eq)]
pub enum Fetch {
    /// The call failed.
    Failed,
    /// There is no such page.
    Missing,
    /// The page is longer than `MOST_PAGE`, or in pieces than `MOST_GIVEN`.
    TooLong,
    /// Out of memory.
    Memory,
}

/// Where pages are got by their names, whole or in pieces.
///
/// Its counts go up by one at each event of their kind, up to the last value of 64 bits, and never fall.
pub trait Shelf {
    /// The pages, where the shelf reports them.
    ghost pages: { Self → Option Pages };

    /// How many calls were made, of all its functions together.
    ghost fetches: { Self → ℕ };

    /// How many of them named a page: all but those for a further piece.
    ghost named: { Self → ℕ };

    /// How often a call failed.
    ghost faults: { Self → ℕ };

    /// How often a page wasn't there.
    ghost misses: { Self → ℕ };

    /// How often a page was too long.
    ghost overs: { Self → ℕ };

    /// What is left of the page that was opened last, where pages are reported.
    ghost rest: { Self → Option (List ℕ) };

    /// How many bytes were given since a page was opened.
    ghost given: { Self → ℕ };

    /// Whether a page was opened.
    ghost is_open: { Self → Bool };

    /// Appends the page of that name to `into`. After an error `into` is as it was.
    fn fetch(&mut self, name: &str, into: &mut Vec<u8>) -> Result<(), Fetch>
        ensures same { pages self.new ≡ pages self.old }
        ensures fetched { fetches self.new ≡ counted (fetches self.old) }
        ensures named { named self.new ≡ counted (named self.old) }

        // What was read.
        ensures ok { OnOk result (AppendsAtMost MOST_PAGE into.old.items into.new.items) }
        ensures err { OnErr result (into.new.items ≡ into.old.items) }
        ensures reported { (reported : Pages) → pages self.old ≡ Some reported → FetchStates (page_of reported name.now) into.old.items into.new.items result }

        // Why nothing was.
        ensures failed { Counts (IsErrOf result Failed) (faults self.old) (faults self.new) }
        ensures missing { Counts (IsErrOf result Missing) (misses self.old) (misses self.new) }
        ensures too_long { Counts (IsErrOf result TooLong) (overs self.old) (overs self.new) }

        // The page that is open stays open, and what is left of it stays.
        ensures open_stays { is_open self.new ≡ is_open self.old }
        ensures rest_stays { rest self.new ≡ rest self.old }
        ensures given_stays { given self.new ≡ given self.old };

    /// Opens the page of that name, which is then given in pieces. After an error the page that was open before is
    /// still open.
    fn open_page(&mut self, name: &str) -> Result<(), Fetch>
        ensures same { pages self.new ≡ pages self.old }
        ensures fetched { fetches self.new ≡ counted (fetches self.old) }
        ensures named { named self.new ≡ counted (named self.old) }

        // What is open: that page, and all of it is left.
        ensures open { OnOk result (is_open self.new ≡ true) }
        ensures given { OnOk result (given self.new ≡ 0) }
        ensures reported { (reported : Pages) → pages self.old ≡ Some reported → OpenStates (page_of reported name.now) (rest self.new) result }
        ensures unreported { OnOk result (pages self.old ≡ None → rest self.new ≡ None) }

        // After an error, what was open.
        ensures open_stays { OnErr result (is_open self.new ≡ is_open self.old) }
        ensures rest_stays { OnErr result (rest self.new ≡ rest self.old) }
        ensures given_stays { OnErr result (given self.new ≡ given self.old) }

        // Why no page was opened; its length is no cause.
        ensures failed { Counts (IsErrOf result Failed) (faults self.old) (faults self.new) }
        ensures missing { Counts (IsErrOf result Missing) (misses self.old) (misses self.new) }
        ensures too_long { Counts (IsErrOf result TooLong) (overs self.old) (overs self.new) }
        ensures not_too_long { IsErrOf result TooLong → ⊥ };

    /// Appends the next bytes of the page that is open, at most `MOST_PIECE`, and answers how many they are: 0 exactly
    /// at its end. After an error `into` and what is left of the page are as they were.
    fn next_piece(&mut self, into: &mut Vec<u8>) -> Result<u32, Fetch>
        requires open { is_open self.old ≡ true }
        ensures same { pages self.new ≡ pages self.old }
        ensures fetched { fetches self.new ≡ counted (fetches self.old) }
        ensures named { named self.new ≡ named self.old }

        // What was given: `n` bytes, and where what was left is reported, its first ones.
        ensures ok { IfOk result (λ n. AppendsExactly n into.old.items into.new.items) }
        ensures few { IfOk result (λ n. n ≤ MOST_PIECE) }
        ensures reported { (left : List ℕ) → rest self.old ≡ Some left → IfOk result (λ n. IsPiece left into.old.items into.new.items n) }
        ensures err { OnErr result (into.new.items ≡ into.old.items) }

        // What is left: the rest of the same page.
        ensures open_stays { is_open self.new ≡ true }
        ensures rest { rest self.new ≡ rest_after (rest self.old) result }
        ensures given { given self.new ≡ given self.old + taken_count result }
        ensures limit { given self.new ≤ most_given }

        // Why nothing was given; that there is no such page is no cause.
        ensures failed { Counts (IsErrOf result Failed) (faults self.old) (faults self.new) }
        ensures missing { Counts (IsErrOf result Missing) (misses self.old) (misses self.new) }
        ensures not_missing { IsErrOf result Missing → ⊥ }
        ensures too_long { Counts (IsErrOf result TooLong) (overs self.old) (overs self.new) }
        ensures over { (IsErrOf result Failed → ⊥) → (IsErrOf result Memory → ⊥) → IsErrOf result TooLong ↔ IsOverlong (rest self.old) (given self.old) };
}
