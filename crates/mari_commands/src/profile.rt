//! The law of the profile: its numbers, as the pages state them.

ghost use Rattle.std.specs.Prelude.{◌≡◌, ◌^◌, pos};
ghost use Rattle.mari_io.specs.declared.shelf.TheConstants.{MOST_GIVEN, MOST_PIECE};
ghost use Rattle.mari_lines.specs.declared.line.TheConstants.{MOST_LINE, MOST_MONEY};
ghost use Rattle.mari_market.specs.declared.limits.TheConstants.{MOST_ORDERS};
ghost use Rattle.mari_units.specs.declared.limits.TheConstants.{LAST_NUMBER, MOST_BIDS, MOST_BID_MW, MOST_BORDERS, MOST_DEMANDS, MOST_FLOW, MOST_GATES, MOST_MW, MOST_NAME, MOST_NODES, MOST_PAGE, MOST_PROVIDERS, MOST_QUARTERS, MOST_RAISE, MOST_RUNS, MOST_WORKERS, MOST_ZONES};
ghost use Rattle.mari_units.specs.declared.numbers.TheConstants.{CAP};
ghost use Rattle.mari_words.specs.declared.command.TheConstants.{USUAL_NODES, USUAL_WORKERS};

/// Each limit of the profile is this number. Elsewhere a clause cites the constant of the code alone,
/// and would hold at any other value of it.
pub fn profile_is_kept()
    // Prices, in cents per MWh, quantities, in MW, and money, in quarter cents.
    ensures cap { CAP ≡ pos 9_999_900 }
    ensures bid { MOST_BID_MW ≡ 9_999 }
    ensures quantity { MOST_MW ≡ 99_999 }
    ensures flow { MOST_FLOW ≡ 199_998 }
    ensures raise { MOST_RAISE ≡ 1_000 }
    ensures money { MOST_MONEY ≡ 4_000_000_000_000_000_000 }

    // What a day, its quarter hours and the market of a run have at most.
    ensures zones { MOST_ZONES ≡ 64 }
    ensures borders { MOST_BORDERS ≡ 256 }
    ensures quarters { MOST_QUARTERS ≡ 400 }
    ensures runs { MOST_RUNS ≡ 1_000 }
    ensures bids { MOST_BIDS ≡ 4_096 }
    ensures gates { MOST_GATES ≡ 512 }
    ensures demands { MOST_DEMANDS ≡ 512 }
    ensures orders { MOST_ORDERS ≡ 4_608 }
    ensures providers { MOST_PROVIDERS ≡ 1_638_400 }

    // Budgets and workers, the greatest and the usual ones.
    ensures nodes { MOST_NODES ≡ 50_000 }
    ensures usual_nodes { USUAL_NODES ≡ 10_000 }
    ensures workers { MOST_WORKERS ≡ 16 }
    ensures usual_workers { USUAL_WORKERS ≡ 2 }

    // Bytes of a name, of a line of a publication, of a page that is fetched whole, of one that is read in pieces, and of a
    // piece; and the last number of a generated day.
    ensures name { MOST_NAME ≡ 16 }
    ensures line { MOST_LINE ≡ 2 ^ 15 }
    ensures page { MOST_PAGE ≡ 2 ^ 28 }
    ensures given { MOST_GIVEN ≡ 2 ^ 40 }
    ensures piece { MOST_PIECE ≡ 2 ^ 16 }
    ensures last { LAST_NUMBER ≡ 2_147_483_647 }
{}
