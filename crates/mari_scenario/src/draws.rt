//! The generator's draws.

ghost use Rattle.std.specs.Prelude.{◌≡◌, ◌<◌, ◌^◌};
ghost use Rattle.mari_scenario.specs.Draws.{below as below_of, next as next_of};

/// The state after a draw.
#[tactic(auto, unfolding(crate::specs::Draws::next))]
pub fn next(state: u32) -> u32
    ensures state { result ≡ next_of state }
    ensures range { result < 2 ^ 31 }
{
    ((1_103_515_245 * u64::from(state) + 12_345) % 2_147_483_648) as u32
}

/// The number below a bound that a draw gives, from the state after it.
pub fn below(bound: u32, state: u32) -> u32
    requires { 0 < bound }
    ensures number { result ≡ below_of bound state }
    ensures range { result < bound }
{
    state / 65_536 % bound
}
