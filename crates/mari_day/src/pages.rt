//! The pages of a folder, fetched in the order of its files.

ghost use Rattle.std.specs.Prelude.{◌≡◌, ◌≤◌, ◌<◌, ◌==◌, ◌++◌, ◌∷◌, [], ℕ, List, IfErr, IfOk, IfSome, Some, is_some, length, if◌then◌else◌};
ghost use Rattle.std.specs.List.{All};
ghost use Rattle.mari_units.specs.declared.limits.TheConstants.{MOST_PAGE};
ghost use Rattle.mari_io.specs.Outside.{Counts, Pages};
ghost use Rattle.mari_io.specs.declared.shelf.Fetch.TheVariants as fetch;
ghost use Rattle.mari_zones.specs.Borders.{version_in};
ghost use Rattle.mari_day.specs.Files.{files, files_in, page_in, page_among, place_of};
ghost use Rattle.mari_day.specs.Fetching.{IsFault, IsOfFile, FetchesFolder, FetchesPage, FetchesPages, FetchingStates, PageStates};

use crate::files::{FILES, File, path_in};
use mari_io::{Fetch, Shelf};
use mari_units::{Items, Memory};
use mari_zones::version_of;
use std::alloc::Global;
use std::marker::Model;

/// Why the pages aren't there.
#[derive(Clone, Copy, Debug, PartialEq, Eq)]
pub enum PagesFault {
    /// The fetch of a file gave none.
    Fetch(File, Fetch),
    /// Out of memory.
    Memory,
}

/// The pages of a folder's files, limits.csv among them exactly where the borders are of version 2. Contracts see the
/// list of their bytes, in the order of the files.
#[derive(Drop)]
pub struct Folder {
    pages: Items<Items<u8>>,
}

impl Model for Folder {
    ghost use Rattle.std.specs.Prelude.{◌≡◌, ◌≤◌, List, ℕ, length};
    ghost use Rattle.std.specs.List.{All};
    ghost use Rattle.mari_units.specs.declared.limits.TheConstants.{MOST_PAGE};
    ghost use Rattle.mari_zones.specs.Borders.{version_in};
    ghost use Rattle.mari_day.specs.Files.{files_of, page_among};
    ghost use Rattle.mari_day.specs.declared.files.File.TheVariants.{Borders};

    ghost Value = { List (List ℕ) };

    ghost view = { λ f. f.pages };

    ghost invariant = { λ f. (length f.pages ≡ length (files_of (version_in (page_among f.pages Borders))))
        × All (λ (page : List ℕ). length page ≤ MOST_PAGE) f.pages };
}

impl Folder {
    /// The bytes of one of the seven files.
    pub fn page(&self, file: File) -> &[u8]
        requires { place_of file < 7 }
        ensures page { result.now ≡ page_among self.now file }
        ensures small { length result.now ≤ MOST_PAGE }
    {
        self.pages.as_slice()[file.place()].as_slice()
    }

    /// The bytes of limits.csv, where it is one of the folder's files.
    pub fn limits(&self) -> Option<&[u8]>
        ensures there { is_some result ≡ (version_in (page_among self.now File.Borders) == 2) }
        ensures count { length self.now ≡ (if is_some result then 8 else 7) }
        ensures page { IfSome result (λ page. page.now ≡ page_among self.now File.Limits) }
        ensures small { IfSome result (λ page. length page.now ≤ MOST_PAGE) }
    {
        match self.pages.as_slice().get(File::Limits.place()) {
            Some(page) => Some(page.as_slice()),
            None => None,
        }
    }
}

/// Fetches the page of one file.
fn fetch_page<S: Shelf>(
    alloc: Global,
    shelf: &mut S,
    folder: &str,
    file: File,
) -> Result<Items<u8>, PagesFault>
    // The shelf is asked once, or not at all, out of memory.
    ensures same { S.pages shelf.new ≡ S.pages shelf.old }
    ensures small { IfOk result (λ page. length page ≤ MOST_PAGE) }
    ensures fetched { FetchesPage (S.fetches shelf.old) (S.fetches shelf.new) result }

    // Whose a fault is. Out of memory in a fetch is reported as such.
    ensures file { IsOfFile file result }
    ensures memory { IsFault fetch.Memory result → ⊥ }

    // What it says of the page, where pages are reported.
    ensures reported { (reported : Pages) → S.pages shelf.old ≡ Some reported → PageStates file (page_in reported folder.now file) result }

    // Why the page wasn't had.
    ensures failed { Counts (IsFault fetch.Failed result) (S.faults shelf.old) (S.faults shelf.new) }
    ensures missing { Counts (IsFault fetch.Missing result) (S.misses shelf.old) (S.misses shelf.new) }
    ensures too_long { Counts (IsFault fetch.TooLong result) (S.overs shelf.old) (S.overs shelf.new) }
{
    let Ok(path) = path_in(alloc, folder, file.name()) else {
        return Err(PagesFault::Memory);
    };
    let mut bytes = Vec::new(alloc);
    match shelf.fetch(path.as_str(), &mut bytes) {
        Ok(()) => Ok(Items::of(bytes)),
        Err(Fetch::Memory) => Err(PagesFault::Memory),
        Err(fault) => Err(PagesFault::Fetch(file, fault)),
    }
}

/// Fetches the pages of the seven files that every folder has, in order.
fn fetch_seven<S: Shelf>(
    alloc: Global,
    shelf: &mut S,
    folder: &str,
) -> Result<Items<Items<u8>>, PagesFault>
    // One fetch is counted for each file, up to the first whose page can't be had; out of memory, no more than that.
    ensures same { S.pages shelf.new ≡ S.pages shelf.old }
    ensures small { IfOk result (All (λ (page : List ℕ). length page ≤ MOST_PAGE)) }
    ensures fetched { FetchesPages 7 (S.fetches shelf.old) (S.fetches shelf.new) result }

    // What it says of the pages, where they are reported. Out of memory is reported as such.
    ensures memory { IsFault fetch.Memory result → ⊥ }
    ensures reported { (reported : Pages) → S.pages shelf.old ≡ Some reported → FetchingStates reported folder.now files result }

    // Why a page wasn't had.
    ensures failed { Counts (IsFault fetch.Failed result) (S.faults shelf.old) (S.faults shelf.new) }
    ensures missing { Counts (IsFault fetch.Missing result) (S.misses shelf.old) (S.misses shelf.new) }
    ensures too_long { Counts (IsFault fetch.TooLong result) (S.overs shelf.old) (S.overs shelf.new) }
{
    let mut pages = Vec::new(alloc);
    for file in FILES {
        match fetch_page(alloc, shelf, folder, file) {
            Ok(page) => match pages.push(page) {
                Ok(()) => {}
                Err(_) => return Err(PagesFault::Memory),
            },
            Err(fault) => return Err(fault),
        }
    }
    Ok(Items::of(pages))
}

/// The version of the borders among the seven pages.
fn version_among(alloc: Global, seven: &[Items<u8>]) -> Result<u8, Memory>
    requires { length seven.now ≡ 7 }
    ensures { IfOk result (λ version. version ≡ version_in (page_among seven.now File.Borders)) }
{
    version_of(alloc, seven[File::Borders.place()].as_slice())
}

/// The folder of the seven pages and of limits.csv after them.
fn with_limits(seven: Items<Items<u8>>, limits: Items<u8>) -> Result<Folder, PagesFault>
    requires seven { length seven ≡ 7 }
    requires version { version_in (page_among seven File.Borders) ≡ 2 }
    requires small { All (λ (page : List ℕ). length page ≤ MOST_PAGE) seven }
    requires small_too { length limits ≤ MOST_PAGE }
    ensures folder { IfOk result (λ folder. folder ≡ seven ++ limits ∷ []) }
    ensures memory { IfErr result (λ fault. fault ≡ PagesFault.Memory) }
{
    let mut pages = seven.into_vec();
    match pages.push(limits) {
        Ok(()) => Ok(Folder {
            pages: Items::of(pages),
        }),
        Err(_) => Err(PagesFault::Memory),
    }
}

/// Fetches the pages of a folder's files, in order: the seven, and limits.csv after them where the borders are of
/// version 2.
pub fn fetch_pages<S: Shelf>(
    alloc: Global,
    shelf: &mut S,
    folder: &str,
) -> Result<Folder, PagesFault>
    // One fetch is counted for each file, up to the first whose page can't be had; out of memory, no more than that.
    ensures same { S.pages shelf.new ≡ S.pages shelf.old }
    ensures fetched { FetchesFolder (S.pages shelf.old) folder.now (S.fetches shelf.old) (S.fetches shelf.new) result }

    // What it says of the pages, where they are reported. Out of memory is reported as such.
    ensures memory { IsFault fetch.Memory result → ⊥ }
    ensures reported { (reported : Pages) → S.pages shelf.old ≡ Some reported → FetchingStates reported folder.now (files_in reported folder.now) result }

    // Why a page wasn't had.
    ensures failed { Counts (IsFault fetch.Failed result) (S.faults shelf.old) (S.faults shelf.new) }
    ensures missing { Counts (IsFault fetch.Missing result) (S.misses shelf.old) (S.misses shelf.new) }
    ensures too_long { Counts (IsFault fetch.TooLong result) (S.overs shelf.old) (S.overs shelf.new) }
{
    let seven = match fetch_seven(alloc, shelf, folder) {
        Ok(seven) => seven,
        Err(fault) => return Err(fault),
    };
    match version_among(alloc, seven.as_slice()) {
        Ok(2) => match fetch_page(alloc, shelf, folder, File::Limits) {
            Ok(limits) => with_limits(seven, limits),
            Err(fault) => Err(fault),
        },
        Ok(_) => Ok(Folder { pages: seven }),
        Err(_) => Err(PagesFault::Memory),
    }
}
