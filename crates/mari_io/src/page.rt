//! Pages by their names.

ghost use Rattle.std.specs.Prelude.{◌≡◌, ◌≤◌, ◌<◌, length, IfOk, MatchOption, Some, None, drop};
ghost use Rattle.mari_io.specs.Outside.{page_of};
ghost use Rattle.mari_io.specs.Memory.{pages_of, bytes_of};

use mari_units::{Items, Memory};
use std::alloc::Global;
use std::marker::Model;

/// A page's name: a text of 1 to 64 bytes. Contracts see the list of its bytes.
#[derive(Drop)]
pub struct Name64 {
    text: String,
}

impl Model for Name64 {
    ghost use Rattle.std.specs.Prelude.{◌≤◌, List, ℕ, length};
    ghost use Rattle.std.specs.String.{string_bytes};

    ghost Value = { List ℕ };

    ghost view = { λ n. string_bytes n.text };

    ghost invariant = { λ n. (1 ≤ length (string_bytes n.text)) × (length (string_bytes n.text) ≤ 64) };
}

impl Name64 {
    /// The name that this text is.
    pub fn of(alloc: Global, text: &str) -> Result<Name64, Memory>
        requires some { 1 ≤ length text.now }
        requires short { length text.now ≤ 64 }
        ensures { IfOk result (λ name. name ≡ text.now) }
    {
        Ok(Name64 {
            text: String::from_str(alloc, text)?,
        })
    }

    /// The text of the name.
    pub fn as_str(&self) -> &str
        ensures { result.now ≡ self.now }
    {
        self.text.as_str()
    }
}

/// A page.
#[derive(Drop)]
pub struct Page {
    /// The path by which it is fetched.
    pub name: Name64,
    /// Its bytes.
    pub bytes: Items<u8>,
}

/// The place of the first page of that name.
pub fn find_page(pages: &[Page], name: &str) -> Option<usize>
    ensures { MatchOption result (page_of (pages_of pages.now) name.now ≡ None)
        (λ i. (i < length pages.now) × (page_of (pages_of pages.now) name.now ≡ Some (bytes_of pages.now i))) }
{
    for (i, page) in pages.iter().enumerate() {
        if page.name.as_str() == name {
            return Some(i);
        }
    }
    None
}

/// The bytes of the page at this place.
pub fn bytes_at(pages: &[Page], place: usize) -> &[u8]
    requires { place < length pages.now }
    ensures { result.now ≡ bytes_of pages.now place }
{
    pages[place].bytes.as_slice()
}

/// What is left of the page at this place.
pub fn left_at(pages: &[Page], place: usize, given: usize) -> &[u8]
    requires place { place < length pages.now }
    requires given { given ≤ length (bytes_of pages.now place) }
    ensures { result.now ≡ drop given (bytes_of pages.now place) }
{
    let bytes = bytes_at(pages, place);
    &bytes[given..]
}
