//! A text as far as it has come: what is kept of the handled lines, and the bytes after them.

ghost use Rattle.std.specs.Prelude.{◌≡◌, ◌≤◌, ◌<◌, ◌+◌, ◌*◌, ◌++◌, ◌^◌, ℕ, List, Ok, None, OnOk, OnErr, true, false, vec_len, length};
ghost use Rattle.mari_publish.specs.declared.publication.Part.{Part as PartValue};
ghost use Rattle.mari_publish.specs.Order.{HasRoom};
ghost use Rattle.mari_publish.specs.Pieces.{ComesFrom, IsCome, IsNext, HasNoLine, IsWhole, KeepsFew, with_answer, come_of};
ghost use Rattle.mari_publish.specs.Handling.{Handles};

use crate::fault::TextFault;
use crate::follow::list_bids;
use crate::held::{Held, Kept};
use crate::publication::Part;
use crate::taking::take_line;
use mari_lines::{MOST_LINE, split_once};
use mari_units::{MOST_RUNS, Memory};
use std::alloc::Global;

/// What there is of the bytes after the handled lines.
#[derive(Clone, Copy)]
pub enum Ahead {
    /// All of them.
    Whole,
    /// A mark in place of a line that is too long, and whose end hasn't come.
    TooLong,
    /// A mark in place of a line that is too long, and whose end has come.
    Ended,
}

/// What has come of a text.
#[derive(Drop)]
pub struct Coming {
    /// What is kept of the handled lines.
    pub kept: Kept,
    /// How many lines are handled.
    pub lines: u32,
    /// What there is of the bytes after them.
    pub ahead: Ahead,
    /// The bytes of handled lines that are not forgotten yet, and those after them.
    pub bytes: Vec<u8>,
    /// How many of these bytes are handled.
    pub handled: usize,
}

/// What comes of the first line after the handled ones.
#[derive(Drop)]
pub enum Handled {
    /// It is whole: the part that is whole with it, if one is.
    Line(Option<Part>),
    /// No line is whole.
    Nothing,
}

/// Handles the first line after the handled ones, if it is whole.
fn handle_line(alloc: Global, coming: &mut Coming) -> Result<Handled, TextFault>
    requires handled { coming.old.handled ≤ vec_len coming.old.bytes }
    requires counts { coming.old.kept.counts.published + coming.old.kept.counts.unpublished ≤ MOST_RUNS }
    requires room { HasRoom coming.old.kept.held coming.old.kept.counts }
    requires lines { coming.old.lines < 2 ^ 31 }
    ensures handles { Handles (come_of coming.old) (come_of coming.new) result }
    ensures handled { coming.new.handled ≤ vec_len coming.new.bytes }
{
    match coming.ahead {
        Ahead::Whole => {}
        Ahead::TooLong => return Ok(Handled::Nothing),
        Ahead::Ended => return Err(TextFault::BadLine(coming.lines + 1)),
    }
    let Some((here, _after)) = split_once(b'\n', &coming.bytes[coming.handled..]) else {
        return Ok(Handled::Nothing);
    };
    if here.len() > MOST_LINE {
        return Err(TextFault::BadLine(coming.lines + 1));
    }
    let length = here.len() + 1;
    match take_line(alloc, &mut coming.kept, here) {
        Ok(part) => {
            coming.handled += length;
            coming.lines += 1;
            Ok(Handled::Line(part))
        }
        Err(fault) => Err(fault.at(coming.lines + 1)),
    }
}

/// Takes the lines of bids that come next in a block, in place. It stops at any other line, at one that isn't whole,
/// and where there is no memory for a bid: `handle_line` says which.
fn take_bids(alloc: Global, coming: &mut Coming)
    requires handled { coming.old.handled ≤ vec_len coming.old.bytes }
    requires lines { coming.old.lines < 2 ^ 31 }
    ensures handled { coming.new.handled ≤ vec_len coming.new.bytes }
    ensures stands { (text : List ℕ) (parts : List PartValue) → ComesFrom (come_of coming.old) text parts → ComesFrom (come_of coming.new) text parts }
    ensures no_more { length (come_of coming.new).unread ≤ length (come_of coming.old).unread }
{
    let Ahead::Whole = coming.ahead else {
        return;
    };
    if let Held::Listing(block) = &mut coming.kept.held {
        let (after, count) = list_bids(alloc, block, &coming.bytes[coming.handled..]);
        coming.handled = coming.bytes.len() - after.len();
        coming.lines += count;
    }
}

/// Handles lines up to the next part, or as far as whole lines have come.
pub fn next_part(alloc: Global, coming: &mut Coming) -> Result<Option<Part>, TextFault>
    requires handled { coming.old.handled ≤ vec_len coming.old.bytes }
    requires reader { IsCome (come_of coming.old) }
    ensures handled { coming.new.handled ≤ vec_len coming.new.bytes }
    ensures next { (text : List ℕ) (parts : List PartValue) → ComesFrom (come_of coming.old) text parts → IsNext text parts result }
    ensures stands { (text : List ℕ) (parts : List PartValue) → ComesFrom (come_of coming.old) text parts
        → ComesFrom (come_of coming.new) text (with_answer parts result) }
    ensures no_line { result ≡ Ok None → HasNoLine (come_of coming.new) }
{
    'lines: loop {
        take_bids(alloc, coming);
        match handle_line(alloc, coming) {
            Ok(Handled::Line(None)) => {}
            Ok(Handled::Line(Some(part))) => return Ok(Some(part)),
            Ok(Handled::Nothing) => return Ok(None),
            Err(fault) => return Err(fault),
        }
    }
}

/// Forgets the bytes of handled lines once they are more than `MOST_LINE`, so that those after them are seldom moved,
/// and those of a line that is too long: no more than `MOST_LINE` bytes stay of either.
pub fn forget(coming: &mut Coming)
    requires handled { coming.old.handled ≤ vec_len coming.old.bytes }
    requires no_line { HasNoLine (come_of coming.old) }
    ensures handled { coming.new.handled ≤ vec_len coming.new.bytes }
    ensures stands { (text : List ℕ) (parts : List PartValue) → ComesFrom (come_of coming.old) text parts → ComesFrom (come_of coming.new) text parts }
    ensures no_line { HasNoLine (come_of coming.new) }
    ensures few { KeepsFew (come_of coming.new) }
    ensures held { vec_len coming.new.bytes ≤ 2 * MOST_LINE }
{
    let handled = coming.handled;
    if coming.bytes.len() - handled > MOST_LINE {
        coming.handled = 0;
        coming.ahead = Ahead::TooLong;
        coming.bytes.clear();
    } else if handled > MOST_LINE {
        coming.handled = 0;
        drop(coming.bytes.drain(..handled));
    }
}

/// Appends to the text. Of a line that is too long it keeps only whether the line has ended.
pub fn append(coming: &mut Coming, piece: &[u8]) -> Result<(), Memory>
    requires handled { coming.old.handled ≤ vec_len coming.old.bytes }
    ensures handled { coming.new.handled ≤ vec_len coming.new.bytes }
    ensures appended { (text : List ℕ) (parts : List PartValue) → ComesFrom (come_of coming.old) text parts
        → OnOk result (ComesFrom (come_of coming.new) (text ++ piece.now) parts) }
    ensures same { OnErr result (come_of coming.new ≡ come_of coming.old) }
    ensures held { OnErr result (vec_len coming.new.bytes ≡ vec_len coming.old.bytes) }
{
    match coming.ahead {
        Ahead::Whole => coming.bytes.extend_from_slice(piece)?,
        Ahead::TooLong => {
            if split_once(b'\n', piece).is_some() {
                coming.ahead = Ahead::Ended;
            }
        }
        Ahead::Ended => {}
    }
    Ok(())
}

/// Whether all that has come is handled, and the last line of a publication with it.
pub fn is_whole(coming: &Coming) -> bool
    requires handled { coming.now.handled ≤ vec_len coming.now.bytes }
    ensures whole { result ≡ true → IsWhole (come_of coming.now) }
    ensures unfinished { result ≡ false → IsWhole (come_of coming.now) → ⊥ }
{
    if !matches!(coming.ahead, Ahead::Whole) {
        return false;
    }
    if coming.handled < coming.bytes.len() {
        return false;
    }
    match coming.kept.held {
        Held::Done => true,
        _ => false,
    }
}
