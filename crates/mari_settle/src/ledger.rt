//! The ledger, and the one in which nothing stands yet.

ghost use Rattle.std.specs.Prelude.{◌≡◌, length, replicate, IfOk};
ghost use Rattle.mari_settle.specs.Lines.{nothing, no_line};

use mari_bids::BidBook;
use mari_units::{Items, Memory, Quarters};
use mari_zones::{BorderBook, ZoneBook};
use std::alloc::Global;

/// What an operator pays and gets.
///
/// The payment is negative where the operator is paid, as for energy that its zones give out.
#[derive(Clone, Copy, Debug, PartialEq, Eq)]
pub struct OperatorLine {
    /// What it pays for the energy that its zones take in, in quarter-cents.
    pub payment: Quarters,
    /// Its part of the rents of its borders, in quarter-cents.
    pub rent: Quarters,
}

impl OperatorLine {
    ghost use Rattle.std.specs.Prelude.{◌^◌};
    ghost use Rattle.mari_settle.specs.Conditions.{LineIsWithin};
    ghost use Rattle.mari_settle.specs.Ledger.{net_of};

    /// The payment less the rent, in quarter-cents.
    pub fn net(self) -> Quarters
        requires { LineIsWithin (10 ^ 30) self }
        ensures { result.0 ≡ net_of self }
    {
        Quarters(self.payment.0 - self.rent.0)
    }
}

/// The ledger of a run, or of several.
#[derive(Drop)]
pub struct Ledger {
    /// A line for each operator.
    pub operators: Items<OperatorLine>,
    /// What each provider is paid, in quarter-cents; below 0 it pays.
    pub providers: Items<Quarters>,
    /// The congestion rent of each border, in quarter-cents.
    pub rents: Items<Quarters>,
}

impl Ledger {
    ghost use Rattle.mari_settle.specs.Conditions.{LedgerIsWithin};

    /// The ledger in which every number is 0.
    pub fn start(
        alloc: Global,
        zones: &ZoneBook,
        borders: &BorderBook,
        bids: &BidBook,
    ) -> Result<Ledger, Memory>
        ensures operators { IfOk result (λ ledger. ledger.operators ≡ replicate (length zones.now.operators) no_line) }
        ensures providers { IfOk result (λ ledger. ledger.providers ≡ replicate (length bids.now.providers) nothing) }
        ensures rents { IfOk result (λ ledger. ledger.rents ≡ replicate (length borders.now.borders) nothing) }
        ensures within { IfOk result (LedgerIsWithin 0) }
    {
        let line = OperatorLine {
            payment: Quarters(0),
            rent: Quarters(0),
        };
        let operators = vec![in alloc; line; zones.operators.len() as usize]?;
        let providers = vec![in alloc; Quarters(0); bids.providers.len() as usize]?;
        let rents = vec![in alloc; Quarters(0); borders.borders.as_slice().len()]?;
        Ok(Ledger {
            operators: Items::of(operators),
            providers: Items::of(providers),
            rents: Items::of(rents),
        })
    }
}
