//! Folders in memory, and calls of the program on them.

use mari_io::{FaultPlan, MemoryShelf, MemorySink, Name64, Page};
use mari_reach_commands::run_reach;
use mari_units::Items;
use std::alloc::Global;
use std::process::Abort;
use std::test::Fail;

/// The pages of folder F that differ from case to case.
#[derive(Clone, Copy)]
pub(crate) struct Folder {
    /// zones.csv.
    pub(crate) zones: &'static str,
    /// borders.csv.
    pub(crate) borders: &'static str,
    /// bids.csv.
    pub(crate) bids: &'static str,
    /// runs.csv.
    pub(crate) runs: &'static str,
    /// demands.csv.
    pub(crate) demands: &'static str,
}

const DAY: &str = "date,rule\n2025-03-12,\"CET-1CEST,M3.5.0,M10.5.0/3\"\n";

/// The bytes of texts, one after the other.
fn joined(alloc: Global, parts: &[&str]) -> Result<Vec<u8>, Fail> {
    let mut bytes = Vec::new(alloc);
    for part in parts {
        bytes.extend_from_slice(part.as_bytes())?;
    }
    Ok(bytes)
}

/// A page of this name.
fn page(alloc: Global, name: &str, parts: &[&str]) -> Result<Page, Fail> {
    if name.is_empty() || name.len() > 64 {
        return Err(Fail::from("a page's name has 1 to 64 bytes"));
    }
    Ok(Page {
        name: Name64::of(alloc, name)?,
        bytes: Items::of(joined(alloc, parts)?),
    })
}

/// The pages of folder F, with the parts of its publication, if it has one.
fn pages(alloc: Global, folder: &Folder, publication: Option<&[&str]>) -> Result<Vec<Page>, Fail> {
    let mut pages = Vec::new(alloc);
    for (name, text) in &[
        ("F/day.csv", DAY),
        ("F/zones.csv", folder.zones),
        ("F/borders.csv", folder.borders),
        ("F/bids.csv", folder.bids),
        ("F/links.csv", "kind,first,second\n"),
        ("F/runs.csv", folder.runs),
        ("F/demands.csv", folder.demands),
    ] {
        pages.push(page(alloc, name, &[*text])?)?;
    }
    if let Some(parts) = publication {
        pages.push(page(alloc, "F/publication.txt", parts)?)?;
    }
    Ok(pages)
}

/// A plan by which the calls of these numbers fail.
fn plan(alloc: Global, calls: &[u32]) -> Result<FaultPlan, Fail> {
    Ok(FaultPlan {
        calls: Items::of(calls.to_vec(alloc)?),
    })
}

/// How a shelf gives pages.
#[derive(Clone, Copy)]
pub(crate) struct Giving<'a> {
    /// Whether it gives one byte at a time.
    pub(crate) by_bytes: bool,
    /// The numbers of its calls that fail.
    pub(crate) faults: &'a [u32],
}

/// It gives whole pages.
pub(crate) const WHOLE: Giving<'static> = Giving {
    by_bytes: false,
    faults: &[],
};

/// It gives one byte at a time.
pub(crate) const BY_BYTES: Giving<'static> = Giving {
    by_bytes: true,
    ..WHOLE
};

/// A shelf with folder F.
pub(crate) fn shelf(
    alloc: Global,
    folder: &Folder,
    publication: Option<&[&str]>,
    giving: Giving<'_>,
) -> Result<MemoryShelf, Fail> {
    let plan = plan(alloc, giving.faults)?;
    let pages = pages(alloc, folder, publication)?;
    if giving.by_bytes {
        return Ok(MemoryShelf::with_piece(pages, plan, 1));
    }
    Ok(MemoryShelf::new(pages, plan))
}

/// A sink that takes at most 10 bytes in a call, in which the writes of these numbers fail.
pub(crate) fn sink(alloc: Global, faults: &[u32]) -> Result<MemorySink, Fail> {
    let plan = plan(alloc, faults)?;
    Ok(MemorySink::new(alloc, 10, 10_000, plan)?)
}

/// Runs the program on these words, this shelf and this sink. It answers the exit code.
pub(crate) fn run(
    alloc: Global,
    texts: &[&str],
    mut shelf: MemoryShelf,
    sink: &mut MemorySink,
) -> Result<u8, Fail> {
    let mut words = Vec::new(alloc);
    for text in texts {
        words.push(String::from_str(alloc, text)?)?;
    }
    let status = run_reach(alloc, &words, &mut shelf, sink);
    Ok(status.code())
}

/// Whether a text is these parts, one after the other.
pub(crate) fn is_joined(text: &str, parts: &[&str]) -> bool {
    let mut rest = text;
    for part in parts {
        let Some(after) = rest.strip_prefix(*part) else {
            return false;
        };
        rest = after;
    }
    rest.is_empty()
}

/// What a call comes to: the exit code, and what is printed, in its parts.
pub(crate) type Answer<'a> = (u8, &'a [&'a str]);

/// Runs the program on these words, this shelf and this sink, and compares its exit code and what it printed.
pub(crate) fn compare(
    rt: &impl Abort,
    alloc: Global,
    texts: &[&str],
    shelf: MemoryShelf,
    mut sink: MemorySink,
    want: Answer<'_>,
) -> Result<(), Fail> {
    let code = run(alloc, texts, shelf, &mut sink)?;
    let text = str::from_utf8(sink.bytes())?;
    let agrees = code == want.0 && is_joined(text, want.1);
    assert!(rt;
        agrees,
        "{texts:?} answers {code} and prints {text}, not {want:?}"
    );
    Ok(())
}
