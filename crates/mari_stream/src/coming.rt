//! A text as far as it has come: what is kept of the handled lines, and the bytes after them.

ghost use Rattle.std.specs.Prelude.{◌≡◌, ◌≤◌, ◌<◌, ◌*◌, ◌++◌, [], ℕ, List, Option, Ok, None, Some, OnOk, vec_len, length};
ghost use Rattle.mari_stream.specs.Coming.{AllCome, ComesFrom, GivesNext, Handles, HasNoLine, IsCome, IsEnd, LinesKeep, come_of};
ghost use Rattle.mari_stream.specs.declared.coming.Handled.TheVariants as step;

use crate::form::TextForm;
use mari_lines::{MOST_LINE, split_once};
use mari_publish::TextFault;
use mari_units::Memory;
use std::alloc::Global;

/// What there is of the bytes after the handled lines.
#[derive(Clone, Copy)]
pub enum Ahead {
    /// All of them.
    Whole,
    /// A mark in place of a line that is too long, and whose end hasn't come.
    TooLong,
    /// A mark in place of a line that is too long, and whose end has come.
    Ended,
}

/// What has come of a text of a form. It keeps what the form keeps of the handled lines, and the bytes after them: at most
/// `MOST_LINE` of these, and as many of handled lines, beside the piece that came last. Of a line that is longer it keeps
/// only that it is. After an error it is used no more.
#[derive(Drop)]
pub struct Coming<F> {
    /// What is kept of the handled lines.
    pub kept: F,
    /// How many lines are handled.
    pub lines: u32,
    /// What there is of the bytes after them.
    pub ahead: Ahead,
    /// The bytes of handled lines that are not forgotten yet, and those after them.
    pub bytes: Vec<u8>,
    /// How many of these bytes are handled.
    pub handled: usize,
}

/// What comes of the first line after the handled ones.
pub enum Handled<T> {
    /// It is whole: the part that is whole with it, if one is.
    Line(Option<T>),
    /// No line is whole.
    Nothing,
}

/// The law of the form.
pub fn keep_lines<F: TextForm>()
    ensures { LinesKeep F.form }
{
    F::lines_keep();
}

/// A text of which nothing has come. It takes no memory.
pub fn nothing_come<F: TextForm>(alloc: Global) -> Coming<F>
    ensures handled { result.handled ≤ vec_len result.bytes }
    ensures all { AllCome F.form (come_of result) [] [] }
{
    keep_lines::<F>();
    Coming {
        kept: F::start(alloc),
        lines: 0,
        ahead: Ahead::Whole,
        bytes: Vec::new(alloc),
        handled: 0,
    }
}

/// Appends to the text. Of a line that is too long it keeps only whether the line has ended.
pub fn append<F: TextForm>(coming: &mut Coming<F>, piece: &[u8]) -> Result<(), Memory>
    requires handled { coming.old.handled ≤ vec_len coming.old.bytes }
    ensures handled { coming.new.handled ≤ vec_len coming.new.bytes }
    ensures appended { (text : List ℕ) (parts : List F.Part) → ComesFrom F.form (come_of coming.old) text parts
        → OnOk result (ComesFrom F.form (come_of coming.new) (text ++ piece.now) parts) }
{
    match coming.ahead {
        Ahead::Whole => coming.bytes.extend_from_slice(piece)?,
        Ahead::TooLong => {
            if split_once(b'\n', piece).is_some() {
                coming.ahead = Ahead::Ended;
            }
        }
        Ahead::Ended => {}
    }
    Ok(())
}

/// Handles the first line after the handled ones, if it is whole.
fn handle_line<F: TextForm>(
    alloc: Global,
    coming: &mut Coming<F>,
) -> Result<Handled<F::Part>, TextFault>
    requires handled { coming.old.handled ≤ vec_len coming.old.bytes }
    requires come { IsCome F.form (come_of coming.old) }
    ensures handled { coming.new.handled ≤ vec_len coming.new.bytes }
    ensures handles { (text : List ℕ) (parts : List F.Part) → ComesFrom F.form (come_of coming.old) text parts
        → Handles F.form (come_of coming.new) text parts result }
    ensures shorter { (x : Option F.Part) → result ≡ Ok (step.Line x) → length (come_of coming.new).unread < length (come_of coming.old).unread }
{
    keep_lines::<F>();
    match coming.ahead {
        Ahead::Whole => {}
        Ahead::TooLong => return Ok(Handled::Nothing),
        Ahead::Ended => return Err(TextFault::BadLine(coming.lines + 1)),
    }
    let Some((here, _after)) = split_once(b'\n', &coming.bytes[coming.handled..]) else {
        return Ok(Handled::Nothing);
    };
    if here.len() > MOST_LINE {
        return Err(TextFault::BadLine(coming.lines + 1));
    }
    let length = here.len() + 1;
    match coming.kept.take_line(alloc, here) {
        Ok(part) => {
            coming.handled += length;
            coming.lines += 1;
            Ok(Handled::Line(part))
        }
        Err(fault) => Err(fault.at(coming.lines + 1)),
    }
}

/// Forgets the bytes of handled lines once they are more than `MOST_LINE`, so that those after them are seldom moved, and
/// those of a line that is too long.
fn forget<F: TextForm>(coming: &mut Coming<F>)
    requires handled { coming.old.handled ≤ vec_len coming.old.bytes }
    requires no_line { HasNoLine (come_of coming.old) }
    ensures handled { coming.new.handled ≤ vec_len coming.new.bytes }
    ensures stands { (text : List ℕ) (parts : List F.Part) → ComesFrom F.form (come_of coming.old) text parts
        → ComesFrom F.form (come_of coming.new) text parts }
    ensures no_line { HasNoLine (come_of coming.new) }
    ensures held { vec_len coming.new.bytes ≤ 2 * MOST_LINE }
{
    let handled = coming.handled;
    if coming.bytes.len() - handled > MOST_LINE {
        coming.handled = 0;
        coming.ahead = Ahead::TooLong;
        coming.bytes.clear();
    } else if handled > MOST_LINE {
        coming.handled = 0;
        drop(coming.bytes.drain(..handled));
    }
}

/// Handles lines up to the next part, or as far as whole lines have come: then at most 2 times `MOST_LINE` bytes stay.
pub fn next_part<F: TextForm>(
    alloc: Global,
    coming: &mut Coming<F>,
) -> Result<Option<F::Part>, TextFault>
    requires handled { coming.old.handled ≤ vec_len coming.old.bytes }
    requires come { IsCome F.form (come_of coming.old) }
    ensures handled { coming.new.handled ≤ vec_len coming.new.bytes }
    ensures next { (text : List ℕ) (parts : List F.Part) → ComesFrom F.form (come_of coming.old) text parts
        → GivesNext F.form (come_of coming.new) text parts result }
    ensures shorter { (x : F.Part) → result ≡ Ok (Some x) → length (come_of coming.new).unread < length (come_of coming.old).unread }
    ensures held { result ≡ Ok None → vec_len coming.new.bytes ≤ 2 * MOST_LINE }
{
    'lines: loop {
        match handle_line(alloc, coming) {
            Ok(Handled::Line(None)) => {}
            Ok(Handled::Line(Some(part))) => return Ok(Some(part)),
            Ok(Handled::Nothing) => {
                forget(coming);
                return Ok(None);
            }
            Err(fault) => return Err(fault),
        }
    }
}

/// Whether the text ends as one of the form does, whose parts are all given.
pub fn end<F: TextForm>(coming: &Coming<F>) -> Result<(), TextFault>
    requires handled { coming.now.handled ≤ vec_len coming.now.bytes }
    requires come { IsCome F.form (come_of coming.now) }
    ensures { (text : List ℕ) (parts : List F.Part) → AllCome F.form (come_of coming.now) text parts → IsEnd F.form text parts result }
{
    keep_lines::<F>();
    let cut_off = TextFault::Truncated(coming.lines + 1);
    match coming.ahead {
        Ahead::Whole => {}
        _ => return Err(cut_off),
    }
    if coming.handled < coming.bytes.len() {
        return Err(cut_off);
    }
    if coming.kept.is_done() {
        Ok(())
    } else {
        Err(cut_off)
    }
}
