//! One incumbent under one thread and under two.

ghost use Rattle.std.specs.Prelude.{◌≡◌, ◌<◌};

use crate::same::same;
use mari_incumbent::{Incumbent, Seat};
use std::test::Fail;
use std::thread::join;

#[test]
fn two_seats_of_one_incumbent(rt: HostRuntime) -> Result<(), Fail> {
    let (incumbent, mut first) = Incumbent::start(rt.alloc(), 5, 2)?;
    let mut second = incumbent.split(&mut first);
    same(&rt, incumbent.offer(&mut second, 9), 9);
    same(&rt, incumbent.offer(&mut first, 7), 9);
    same(&rt, incumbent.meet(&mut first, &mut second), 9);
    incumbent.join(&mut first, second);
    same(&rt, first.seen(), 9);
    same(&rt, first.offered(), 9);
    same(&rt, incumbent.look(&mut first), 9);
    same(&rt, incumbent.close(first), 9);
    Ok(())
}

/// Offers 1,000 numbers, from this one on.
fn offer_from(incumbent: &Incumbent, mut seat: Seat, from: u64) -> Seat
    requires incumbent { seat.incumbent ≡ incumbent.now }
    requires small { from < 1000 }
    ensures incumbent { result.incumbent ≡ seat.incumbent }
    ensures parts { result.parts ≡ seat.parts }
{
    for k in 0..1000 {
        incumbent.offer(&mut seat, from + k);
    }
    seat
}

#[test]
fn two_threads_offer_and_the_greatest_is_kept(rt: HostRuntime) -> Result<(), Fail> {
    let (incumbent, mut first) = Incumbent::start(rt.alloc(), 5, 2)?;
    let second = incumbent.split(&mut first);
    let shared = &incumbent;
    let (mut one, other) = join(
        &rt,
        move || -> Seat
            requires { first.incumbent ≡ shared.now }
            ensures { (result.incumbent ≡ first.incumbent) × (result.parts ≡ first.parts) }
        { offer_from(shared, first, 1) },
        move || -> Seat
            requires { second.incumbent ≡ shared.now }
            ensures { (result.incumbent ≡ second.incumbent) × (result.parts ≡ second.parts) }
        { offer_from(shared, second, 501) },
    );
    incumbent.join(&mut one, other);
    same(&rt, incumbent.close(one), 1500);
    Ok(())
}
