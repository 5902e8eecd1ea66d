//! A folder whose pages are kept in memory, and its books.

ghost use Rattle.std.specs.Prelude.{IfOk};
ghost use Rattle.mari_day.specs.Dated.{IsDated};
ghost use Rattle.mari_remain.specs.Accepted.{IsAccepted};

use mari_day::{BooksFault, read_books};
use mari_io::{FaultPlan, MemoryShelf, Name64, Page};
use mari_remain::Books;
use mari_units::Items;
use std::alloc::Global;
use std::test::Fail;

/// The pages of folder F that differ from test to test.
#[derive(Clone, Copy)]
pub(crate) struct Pages {
    /// day.csv.
    pub day: &'static [u8],
    /// zones.csv.
    pub zones: &'static [u8],
    /// borders.csv.
    pub borders: &'static [u8],
    /// bids.csv.
    pub bids: &'static [u8],
    /// links.csv.
    pub links: &'static [u8],
    /// runs.csv.
    pub runs: &'static [u8],
    /// demands.csv.
    pub demands: &'static [u8],
    /// limits.csv, if the folder has it.
    pub limits: Option<&'static [u8]>,
}

/// One zone, and a direct run after a scheduled one.
pub(crate) const ONE_ZONE: Pages = Pages {
    day: b"date,rule\n2025-03-12,\"CET-1CEST,M3.5.0,M10.5.0/3\"\n",
    zones: b"zone,operator\nZ,T\n",
    borders: b"from,to,limit,back\n",
    bids: b"id,provider,zone,quarter,direction,price,least,greatest,kind\nu1,P,Z,1,up,50.00,0,100,both\n",
    links: b"kind,first,second\n",
    runs: b"run,quarter,kind,reference\n1,1,scheduled,40.00\n2,1,direct,40.00\n",
    demands: b"run,zone,mw,price\n1,Z,70,\n2,Z,50,\n",
    limits: None,
};

/// Two zones with cheap energy in the first, a run with a demand in the second, and a border that it fills.
pub(crate) const TWO_ZONES: Pages = Pages {
    zones: b"zone,operator\nA,TA\nB,TB\n",
    borders: b"from,to,limit,back\nA,B,50,50\n",
    bids: b"id,provider,zone,quarter,direction,price,least,greatest,kind\n\
        a1,P1,A,1,up,20.00,0,100,both\nb1,P2,B,1,up,60.00,0,100,both\n",
    runs: b"run,quarter,kind,reference\n1,1,scheduled,40.00\n",
    demands: b"run,zone,mw,price\n1,B,80,\n",
    ..ONE_ZONE
};

/// A page with this name.
pub(crate) fn page(alloc: Global, name: &str, bytes: &[u8]) -> Result<Page, Fail> {
    if name.is_empty() || name.len() > 64 {
        return Err("a page's name has 1 to 64 bytes".into());
    }
    let name = Name64::of(alloc, name)?;
    Ok(Page {
        name,
        bytes: Items::of(bytes.to_vec(alloc)?),
    })
}

/// A plan by which the calls of these numbers fail.
pub(crate) fn plan(alloc: Global, calls: &[u32]) -> Result<FaultPlan, Fail> {
    Ok(FaultPlan {
        calls: Items::of(calls.to_vec(alloc)?),
    })
}

/// Adds the pages of folder F to others.
fn add_pages(alloc: Global, folder: &Pages, pages: &mut Vec<Page>) -> Result<(), Fail> {
    for (name, bytes) in &[
        ("F/day.csv", folder.day),
        ("F/zones.csv", folder.zones),
        ("F/borders.csv", folder.borders),
        ("F/bids.csv", folder.bids),
        ("F/links.csv", folder.links),
        ("F/runs.csv", folder.runs),
        ("F/demands.csv", folder.demands),
    ] {
        pages.push(page(alloc, name, bytes)?)?;
    }
    if let Some(limits) = folder.limits {
        pages.push(page(alloc, "F/limits.csv", limits)?)?;
    }
    Ok(())
}

/// A shelf with folder F. The fetches of these numbers fail.
pub(crate) fn shelf(alloc: Global, folder: &Pages, faults: &[u32]) -> Result<MemoryShelf, Fail> {
    let plan = plan(alloc, faults)?;
    let mut pages = Vec::new(alloc);
    add_pages(alloc, folder, &mut pages)?;
    Ok(MemoryShelf::new(pages, plan))
}

/// The books of folder F, or why it gives none, where the fetches of these numbers fail.
pub(crate) fn read(
    alloc: Global,
    folder: &Pages,
    faults: &[u32],
) -> Result<Result<Books, BooksFault>, Fail>
    ensures accepted { IfOk result (λ read. IfOk read IsAccepted) }
    ensures dated { IfOk result (λ read. IfOk read IsDated) }
{
    let mut shelf = shelf(alloc, folder, faults)?;
    let read = read_books(alloc, &mut shelf, "F");
    drop(shelf);
    Ok(read)
}

/// The books of folder F.
pub(crate) fn books(alloc: Global, folder: &Pages) -> Result<Books, Fail>
    ensures accepted { IfOk result IsAccepted }
    ensures dated { IfOk result IsDated }
{
    match read(alloc, folder, &[])? {
        Ok(books) => Ok(books),
        Err(_fault) => Err("the folder gives books".into()),
    }
}
