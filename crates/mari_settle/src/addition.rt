//! Sums of ledgers.

ghost use Rattle.std.specs.Prelude.{◌≡◌, ◌+◌, ℕ};
ghost use Rattle.std.specs.List.{AllZip};
ghost use Rattle.mari_settle.specs.Conditions.{AddUp, LedgerIsWithin, LedgersAddUp, LinesAddUp};
ghost use Rattle.mari_settle.specs.Lines.{lines_together, map_along, together};

use crate::ledger::{Ledger, OperatorLine};
use mari_units::Quarters;

/// The sum of two amounts.
fn sum_of(amount: Quarters, other: Quarters) -> Quarters
    requires { AddUp amount other }
    ensures { result ≡ together amount other }
{
    Quarters(amount.0 + other.0)
}

/// The sum of two lines of one operator.
fn sum_of_lines(line: OperatorLine, other: OperatorLine) -> OperatorLine
    requires { LinesAddUp line other }
    ensures { result ≡ lines_together line other }
{
    OperatorLine {
        payment: sum_of(line.payment, other.payment),
        rent: sum_of(line.rent, other.rent),
    }
}

/// Adds to each amount the other one at its place.
fn add_amounts(amounts: &mut [Quarters], others: &[Quarters])
    requires { AllZip AddUp amounts.old others.now }
    ensures { amounts.new ≡ map_along together amounts.old others.now }
{
    for i in 0..amounts.len() {
        amounts[i] = sum_of(amounts[i], others[i]);
    }
}

/// Adds to each line the other one at its place.
fn add_lines(lines: &mut [OperatorLine], others: &[OperatorLine])
    requires { AllZip LinesAddUp lines.old others.now }
    ensures { lines.new ≡ map_along lines_together lines.old others.now }
{
    for i in 0..lines.len() {
        lines[i] = sum_of_lines(lines[i], others[i]);
    }
}

impl Ledger {
    /// Adds another ledger to this one, number by number.
    ///
    /// Both are of the same books and the same borders, so that they have equal numbers of lines, amounts and rents.
    /// Each sum lies within 10^30 quarter-cents.
    pub fn add(&mut self, other: &Ledger)
        requires { LedgersAddUp self.old other.now }
        ensures operators { self.new.operators ≡ map_along lines_together self.old.operators other.now.operators }
        ensures providers { self.new.providers ≡ map_along together self.old.providers other.now.providers }
        ensures rents { self.new.rents ≡ map_along together self.old.rents other.now.rents }
        ensures within { (m n : ℕ) → LedgerIsWithin m self.old → LedgerIsWithin n other.now → LedgerIsWithin (m + n) self.new }
    {
        add_lines(self.operators.as_mut_slice(), other.operators.as_slice());
        add_amounts(self.providers.as_mut_slice(), other.providers.as_slice());
        add_amounts(self.rents.as_mut_slice(), other.rents.as_slice());
    }
}
