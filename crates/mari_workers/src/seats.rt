//! The seats of several workers: one for each, and all joined again.

ghost use Rattle.std.specs.Prelude.{◌≡◌, ℕ, ◌+◌, ◌-◌, ◌<◌, IfOk, slice_index_or, vec_len};
ghost use Rattle.mari_incumbent.specs.Incumbent.{seat_view};
ghost use Rattle.mari_workers.specs.Together.{IsSeated};
ghost use Rattle.mari_workers.specs.Worked.{HoldsBest, IsWorked};

use crate::worker::Worked;
use mari_incumbent::{Incumbent, Seat};
use mari_market::Market;
use std::alloc::{AllocError, Global};

/// A worker and its seat.
#[derive(Drop)]
pub(crate) struct Seated {
    /// The worker's number.
    pub(crate) worker: u32,
    /// Its seat.
    pub(crate) seat: Seat,
}

/// A seat of one part for each worker.
pub(crate) fn seated_of(
    alloc: Global,
    incumbent: &Incumbent,
    mine: &mut Seat,
    workers: u32,
) -> Result<Vec<Seated>, AllocError>
    requires { (mine.old.incumbent ≡ incumbent.now) × (workers < mine.old.parts) }
    ensures len { IfOk result (λ v. vec_len v ≡ workers) }
    ensures seated { IfOk result (λ v. (i : ℕ) (d : _) → i < workers → IsSeated incumbent.now workers (slice_index_or v.items i d)) }
    ensures mine { IfOk result (λ _. mine.new ≡ seat_view incumbent.now mine.old.seen mine.old.offered (mine.old.parts - workers)) }
{
    let mut seated = Vec::with_capacity(alloc, workers as usize)?;
    for worker in 0..workers {
        let seat = incumbent.split(mine);
        seated.push(Seated { worker, seat })?;
    }
    Ok(seated)
}

/// Joins a worker's seat, and keeps the better best.
fn take_in(market: &Market, incumbent: &Incumbent, mine: &mut Worked, other: Worked)
    requires mine { HoldsBest market.now incumbent.now mine.old }
    requires other { HoldsBest market.now incumbent.now other }
    ensures mine { HoldsBest market.now incumbent.now mine.new }
    ensures parts { mine.new.seat.parts ≡ mine.old.seat.parts + other.seat.parts }
{
    let Worked { seat, best } = other;
    if mine.seat.offered() < seat.offered() {
        mine.best = best;
    }
    incumbent.join(&mut mine.seat, seat);
}

/// Joins the seats of all workers, and keeps the best of all.
pub(crate) fn gather(
    market: &Market,
    incumbent: &Incumbent,
    mine: &mut Worked,
    mut worked: Vec<Worked>,
)
    requires mine { HoldsBest market.now incumbent.now mine.old }
    requires worked { (i : ℕ) (d : _) → i < vec_len worked → IsWorked market.now incumbent.now (slice_index_or worked.items i d) }
    ensures mine { HoldsBest market.now incumbent.now mine.new }
    ensures parts { mine.new.seat.parts ≡ mine.old.seat.parts + vec_len worked }
{
    while let Some(one) = worked.pop() {
        take_in(market, incumbent, mine, one);
    }
}
