//! Folders in memory, and calls of the program on them.

use mari_commands::run_program;
use mari_io::{FaultPlan, MemoryShelf, MemorySink, Name64, Page};
use mari_units::Items;
use mari_workers::{FreeTurnstile, Turnstile};
use std::alloc::Global;
use std::process::Abort;
use std::sync::Wait;
use std::test::Fail;
use std::thread::Threads;

pub(crate) const DAY: &str = "date,rule\n2025-03-12,\"CET-1CEST,M3.5.0,M10.5.0/3\"\n";

pub(crate) const BIDS: &str = "id,provider,zone,quarter,direction,price,least,greatest,kind\n";

pub(crate) const ONE_BID: &str =
    "id,provider,zone,quarter,direction,price,least,greatest,kind\nu1,P,Z,1,up,50.00,0,100,both\n";

pub(crate) const TWO_BIDS: &str =
    "id,provider,zone,quarter,direction,price,least,greatest,kind\na1,P1,A,1,up,20.00,0,100,both\nb1,P2,B,1,up,60.00,0,100,both\n";

pub(crate) const DEMANDS: &str = "run,zone,mw,price\n";

pub(crate) const ONE_DEMAND: &str = "run,zone,mw,price\n1,Z,60,\n";

/// The pages of folder F that differ from case to case. The publication is in parts.
#[derive(Clone, Copy)]
pub(crate) struct Folder<'a> {
    /// day.csv.
    pub(crate) day: &'a str,
    /// zones.csv.
    pub(crate) zones: &'a str,
    /// borders.csv.
    pub(crate) borders: &'a str,
    /// bids.csv.
    pub(crate) bids: &'a str,
    /// links.csv.
    pub(crate) links: &'a str,
    /// runs.csv.
    pub(crate) runs: &'a str,
    /// demands.csv.
    pub(crate) demands: &'a str,
    /// limits.csv, if the folder has it.
    pub(crate) limits: Option<&'a str>,
    /// blocks.csv, if the folder has it.
    pub(crate) blocks: Option<&'a str>,
    /// The parts of publication.txt, if the folder has it.
    pub(crate) publication: Option<&'a [&'a str]>,
}

/// A folder of one zone, without a border or a link, and with one run.
pub(crate) const ONE_ZONE: Folder<'static> = Folder {
    day: DAY,
    zones: "zone,operator\nZ,T\n",
    borders: "from,to,limit,back\n",
    bids: ONE_BID,
    links: "kind,first,second\n",
    runs: "run,quarter,kind,reference\n1,1,scheduled,40.00\n",
    demands: ONE_DEMAND,
    limits: None,
    blocks: None,
    publication: None,
};

/// A folder of two zones, joined by a border of 50 MW.
pub(crate) const TWO_ZONES: Folder<'static> = Folder {
    zones: "zone,operator\nA,TA\nB,TB\n",
    borders: "from,to,limit,back\nA,B,50,50\n",
    bids: TWO_BIDS,
    demands: "run,zone,mw,price\n1,B,80,\n",
    ..ONE_ZONE
};

/// In each of two quarters a bid of 20 MW or none, which are one block, and a plain bid, for a demand of 40 MW. In the
/// second quarter the plain bid is cheaper than the block.
pub(crate) const AT_A_LOSS: Folder<'static> = Folder {
    bids: "id,provider,zone,quarter,direction,price,least,greatest,kind\nx1,P,Z,1,up,30.00,20,20,both\nx2,P,Z,2,up,30.00,20,20,both\np1,P,Z,1,up,50.00,0,100,both\np2,P,Z,2,up,20.00,0,100,both\n",
    runs: "run,quarter,kind,reference\n1,1,scheduled,40.00\n2,2,scheduled,40.00\n",
    demands: "run,zone,mw,price\n1,Z,40,\n2,Z,40,\n",
    blocks: Some("block,bid\nb,x1\nb,x2\n"),
    ..ONE_ZONE
};

/// The head of the day that the two zones print.
pub(crate) const HEAD: &str = "mari 1 2025-03-12 96 10000\n";

/// Its block.
pub(crate) const BLOCK: &str = "\
run 1 1 scheduled published
welfare 799712000
zone A 20.00 20.00 20.00 1
zone B 60.00 60.00 60.00 2
border A B 50 500.0000
bid a1 50
bid b1 30
demand 1 80
tree 1
bound 20.00 60.00
operator TA -250.0000 250.0000 -500.0000
operator TB 750.0000 250.0000 500.0000
provider P1 250.0000
provider P2 450.0000
end 1
";

/// Its totals.
pub(crate) const TOTALS: &str = "\
total-operator TA -250.0000 250.0000 -500.0000
total-operator TB 750.0000 250.0000 500.0000
total-provider P1 250.0000
total-provider P2 450.0000
done 1 0
";

/// The day that the two zones print, in its parts.
pub(crate) const TWO_ZONES_DAY: &[&str] = &[HEAD, BLOCK, TOTALS];

/// What is wanted of a printed text: that it is these parts, or that it has each of these lines.
#[derive(Clone, Copy)]
pub(crate) enum Printed<'a> {
    /// The whole text, in its parts.
    Whole(&'a [&'a str]),
    /// Lines that the text has.
    Lines(&'a [&'a str]),
}

impl Printed<'_> {
    /// Whether a text is as it is wanted.
    pub(crate) fn is(&self, text: &str) -> bool {
        match self {
            Printed::Whole(parts) => is_joined(text, parts),
            Printed::Lines(lines) => has_each(text, lines),
        }
    }
}

/// Whether a text is these parts, one after the other.
pub(crate) fn is_joined(text: &str, parts: &[&str]) -> bool {
    let mut rest = text;
    for part in parts {
        let Some(after) = rest.strip_prefix(*part) else {
            return false;
        };
        rest = after;
    }
    rest.is_empty()
}

/// Whether a text has each of these lines.
pub(crate) fn has_each(text: &str, lines: &[&str]) -> bool {
    for part in lines {
        if !text.contains(*part) {
            return false;
        }
    }
    true
}

/// How many bytes a sink has room for.
pub(crate) const ROOM: u32 = 1_000_000;

/// The bytes of texts, one after the other.
pub(crate) fn joined(alloc: Global, parts: &[&str]) -> Result<Vec<u8>, Fail> {
    let mut bytes = Vec::new(alloc);
    for part in parts {
        bytes.extend_from_slice(part.as_bytes())?;
    }
    Ok(bytes)
}

/// A page of this name.
pub(crate) fn page(alloc: Global, name: &str, bytes: Vec<u8>) -> Result<Page, Fail> {
    if name.is_empty() || name.len() > 64 {
        return Err(Fail::from("a page's name has 1 to 64 bytes"));
    }
    Ok(Page {
        name: Name64::of(alloc, name)?,
        bytes: Items::of(bytes),
    })
}

/// The pages of folder F.
pub(crate) fn pages(alloc: Global, folder: Folder<'_>) -> Result<Vec<Page>, Fail> {
    let mut pages = Vec::new(alloc);
    for (name, text) in &[
        ("F/day.csv", Some(folder.day)),
        ("F/zones.csv", Some(folder.zones)),
        ("F/borders.csv", Some(folder.borders)),
        ("F/bids.csv", Some(folder.bids)),
        ("F/links.csv", Some(folder.links)),
        ("F/runs.csv", Some(folder.runs)),
        ("F/demands.csv", Some(folder.demands)),
        ("F/limits.csv", folder.limits),
        ("F/blocks.csv", folder.blocks),
    ] {
        if let Some(text) = text {
            let bytes = joined(alloc, &[*text])?;
            pages.push(page(alloc, name, bytes)?)?;
        }
    }
    if let Some(parts) = folder.publication {
        let bytes = joined(alloc, parts)?;
        pages.push(page(alloc, "F/publication.txt", bytes)?)?;
    }
    Ok(pages)
}

/// A plan by which the calls of these numbers fail.
pub(crate) fn plan(alloc: Global, calls: &[u32]) -> Result<FaultPlan, Fail> {
    Ok(FaultPlan {
        calls: Items::of(calls.to_vec(alloc)?),
    })
}

/// A shelf with folder F, of which the calls of these numbers fail. It may give one byte at a time.
pub(crate) fn shelf(
    alloc: Global,
    folder: Folder<'_>,
    faults: &[u32],
    by_bytes: bool,
) -> Result<MemoryShelf, Fail> {
    let plan = plan(alloc, faults)?;
    let pages = pages(alloc, folder)?;
    if by_bytes {
        return Ok(MemoryShelf::with_piece(pages, plan, 1));
    }
    Ok(MemoryShelf::new(pages, plan))
}

/// A sink that takes at most `most` bytes in a call, with room for `room`, in which the writes of these numbers fail.
pub(crate) fn sink(
    alloc: Global,
    most: u32,
    room: u32,
    faults: &[u32],
) -> Result<MemorySink, Fail> {
    let plan = plan(alloc, faults)?;
    Ok(MemorySink::new(alloc, most, room, plan)?)
}

/// The words of a call.
pub(crate) fn words(alloc: Global, texts: &[&str]) -> Result<Vec<String>, Fail> {
    let mut words = Vec::new(alloc);
    for text in texts {
        words.push(String::from_str(alloc, text)?)?;
    }
    Ok(words)
}

/// Runs the program on these words, this shelf and this sink. It answers the exit code.
pub(crate) fn run<G: Turnstile>(
    rt: &(impl Abort + Threads + Wait + Sync),
    alloc: Global,
    texts: &[&str],
    mut shelf: MemoryShelf,
    sink: &mut MemorySink,
    turnstile: &G,
) -> Result<u8, Fail> {
    let words = words(alloc, texts)?;
    let status = run_program(rt, alloc, &words, &mut shelf, sink, turnstile);
    Ok(status.code())
}

/// Runs the program on these words, this shelf and this sink, and compares its exit code and what it printed.
pub(crate) fn compare(
    rt: &(impl Abort + Threads + Wait + Sync),
    alloc: Global,
    name: &str,
    texts: &[&str],
    shelf: MemoryShelf,
    mut sink: MemorySink,
    want: (u8, Printed<'_>),
) -> Result<(), Fail> {
    let code = run(rt, alloc, texts, shelf, &mut sink, &FreeTurnstile)?;
    let text = str::from_utf8(sink.bytes())?;
    let agrees = code == want.0 && want.1.is(text);
    assert!(rt;
        agrees,
        "{name}: {texts:?} answers {code} and prints {text}"
    );
    Ok(())
}
