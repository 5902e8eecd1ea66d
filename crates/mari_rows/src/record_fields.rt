//! The fields of one record.
ghost use Rattle.std.specs.Prelude.{◌≡◌, [], slice_get, option_map};
ghost use Rattle.csv.specs.Records.{fields_of};

use csv::ByteRecord;
use std::alloc::Global;
use std::marker::Model;

/// The fields of one record, each of any bytes, which contracts see as the list of them. They lie one after the other
/// in one buffer, so a record takes memory twice, however many fields it has.
#[derive(Drop)]
pub struct Fields {
    pub(crate) row: ByteRecord,
}

impl Model for Fields {
    ghost use Rattle.std.specs.Prelude.{List, ℕ};
    ghost use Rattle.csv.specs.Records.{fields_of};

    ghost Value = { List (List ℕ) };

    ghost view = { λ f. fields_of f.row };
}

impl Fields {
    /// The fields of a record.
    pub(crate) fn of(row: ByteRecord) -> Self
        ensures { result ≡ fields_of row }
    {
        Fields { row }
    }

    /// A place for the fields of a record, with none yet.
    pub(crate) fn none(alloc: Global) -> Self
        ensures { result ≡ [] }
    {
        Fields {
            row: ByteRecord::new(alloc),
        }
    }

    /// The bytes of the field at a place, counted from 0.
    #[tactic(auto, using(crate::proofs::RowLemmas::field_is))]
    pub fn get(&self, place: usize) -> Option<&[u8]>
        ensures { option_map (λ field. field.now) result ≡ slice_get self.now place }
    {
        self.row.get(place)
    }
}
