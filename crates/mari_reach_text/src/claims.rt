//! What a block says of its activation, as a number.

ghost use Rattle.std.specs.Prelude.{◌≡◌};
ghost use Rattle.mari_reach_text.specs.Claims.{one_if_first as one_for};

use mari_reach_lines::Claim;

/// 1 for a block that states the first activation of its market, and 0 for one within a gap.
pub fn one_if_first(claim: Claim) -> u32
    ensures { result ≡ one_for claim }
{
    match claim {
        Claim::First => 1,
        Claim::Within(_) => 0,
    }
}
