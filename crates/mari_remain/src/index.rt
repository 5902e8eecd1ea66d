//! Bids by their quarter, and demands by their run.

ghost use Rattle.std.specs.Prelude.{◌≡◌, ◌≤◌, ◌<◌, ◌++◌, ◌∷◌, [], IfOk, OnOk, length, map};
ghost use Rattle.std.specs.List.{All, range_with_len};
ghost use Rattle.mari_remain.specs.Lists.{places_of};

use mari_units::{MOST_PAGE, Memory};
use std::alloc::{AllocFailed, Global};
use std::marker::Model;

/// The numbers of one quarter's bids or of one run's demands, which contracts see as their list.
#[derive(Drop)]
pub(crate) struct Numbers {
    numbers: Vec<u32>,
}

impl Model for Numbers {
    ghost use Rattle.std.specs.Prelude.{List, ℕ};

    ghost Value = { List ℕ };

    ghost view = { λ n. n.numbers.items };
}

impl Numbers {
    /// No numbers.
    fn new(alloc: Global) -> Numbers
        ensures { result ≡ [] }
    {
        Numbers {
            numbers: Vec::new(alloc),
        }
    }

    /// Appends a number.
    fn push(&mut self, number: u32) -> Result<(), AllocFailed<u32>>
        ensures { OnOk result (self.new ≡ self.old ++ number ∷ []) }
    {
        self.numbers.push(number)
    }

    /// The numbers, lent.
    pub(crate) fn as_slice(&self) -> &[u32]
        ensures { result.now ≡ self.now }
    {
        self.numbers.as_slice()
    }
}

/// `keys` empty lists.
fn empty(alloc: Global, keys: u32) -> Result<Vec<Numbers>, Memory>
    ensures { IfOk result (λ made. made.items ≡ map (λ key. []) (range_with_len 0 keys)) }
{
    let mut made = Vec::new(alloc);
    for key in 0..keys {
        made.push(Numbers::new(alloc))?;
    }
    Ok(made)
}

/// For each key below `count`, the places of the items that have it.
pub(crate) fn index_of(alloc: Global, keys: &[u32], count: u32) -> Result<Vec<Numbers>, Memory>
    requires keys { All (λ key. key < count) keys.now }
    requires few { length keys.now ≤ MOST_PAGE }
    ensures { IfOk result (λ index. index.items ≡ map (places_of keys.now) (range_with_len 0 count)) }
{
    let mut index = empty(alloc, count)?;
    for (place, key) in keys.iter().enumerate() {
        index[*key as usize].push(place as u32)?;
    }
    Ok(index)
}
