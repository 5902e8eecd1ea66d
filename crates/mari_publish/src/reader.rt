//! Reading a text in pieces.

ghost use Rattle.std.specs.Prelude.{◌≡◌, ◌≤◌, ◌*◌, ◌++◌, [], ℕ, List, Option, Result, Err, OnOk, OnErr, IsOk, true, false};
ghost use Rattle.mari_publish.specs.declared.fault.TextFault.TheVariants as text_fault;
ghost use Rattle.mari_publish.specs.declared.fault.TextFault.{TextFault as TextFaultValue};
ghost use Rattle.mari_publish.specs.declared.publication.Part.{Part as PartValue};
ghost use Rattle.mari_publish.specs.declared.publication.Publication.{Publication as PublicationValue};
ghost use Rattle.mari_publish.specs.Faults.{IsText, BadLineAt, BadOrderAt, TruncatedAt};
ghost use Rattle.mari_publish.specs.Pieces.{ComesFrom, HasPart, IsNext, IsEnd, KeepsFew, SameAnswer, with_answer, found_none};

use crate::coming::{Ahead, Coming, append, forget, is_whole, next_part};
use crate::fault::TextFault;
use crate::held::Kept;
use crate::publication::Part;
use mari_lines::MOST_LINE;
use mari_units::Memory;
use std::alloc::Global;
use std::marker::Model;

/// A text that comes in pieces. The reader keeps what has come of the part that is being read, and the bytes after the
/// lines that are handled: neither the text nor the parts that were given. Where `next` finds no further part, it holds
/// at most 2 times `MOST_LINE` bytes: half of them of handled lines, and of a line that is longer than `MOST_LINE` only
/// that it is too long.
#[derive(Drop)]
pub struct TextReader {
    coming: Coming,
    waits: bool,
}

impl Model for TextReader {
    ghost use Rattle.std.specs.Prelude.{◌≡◌, ◌≤◌, true, vec_len};
    ghost use Rattle.mari_publish.specs.Pieces.{ReaderState, IsCome, HasNoLine, KeepsFew, come_of};

    ghost Value = { ReaderState };

    ghost view = { λ r. record { come = come_of r.coming; waits = r.waits; bytes = vec_len r.coming.bytes } };

    ghost invariant = { λ r. (r.coming.handled ≤ vec_len r.coming.bytes) × IsCome (come_of r.coming) × (r.waits ≡ true → HasNoLine (come_of r.coming))
        × (r.waits ≡ true → KeepsFew (come_of r.coming)) };
}

impl TextReader {
    /// A reader of a text of which nothing has come. It takes no memory.
    pub fn start(alloc: Global) -> TextReader
        ensures stands { ComesFrom result.come [] [] }
        ensures waits { result.waits ≡ false }
    {
        TextReader {
            coming: Coming {
                kept: Kept::start(),
                lines: 0,
                ahead: Ahead::Whole,
                bytes: Vec::new(alloc),
                handled: 0,
            },
            waits: false,
        }
    }

    /// Whether the last `next` found no further part, and nothing was pushed since.
    pub fn waits(&self) -> bool
        ensures { result ≡ self.now.waits }
    {
        self.waits
    }

    /// Appends to the text. When out of memory the reader stays as it is.
    pub fn push(&mut self, piece: &[u8]) -> Result<(), Memory>
        ensures pushed { (text : List ℕ) (parts : List PartValue) → ComesFrom self.old.come text parts
            → OnOk result (ComesFrom self.new.come (text ++ piece.now) parts) }
        ensures waits { OnOk result (self.new.waits ≡ false) }
        ensures same { OnErr result (self.new ≡ self.old) }
    {
        append(&mut self.coming, piece)?;
        self.waits = false;
        Ok(())
    }

    /// The next part; none where no further one is whole. A fault of a line comes once all parts before it were given,
    /// and comes again at each further call.
    ///
    /// After an error the reader stands for the same text and the same parts as before; lines that were handled on the
    /// way stay handled.
    pub fn next(&mut self, alloc: Global) -> Result<Option<Part>, TextFault>
        // What it is, and what the reader stands for then: after an error, for what it stood for.
        ensures next { (text : List ℕ) (parts : List PartValue) → ComesFrom self.old.come text parts → IsNext text parts result }
        ensures stands { (text : List ℕ) (parts : List PartValue) → ComesFrom self.old.come text parts
            → ComesFrom self.new.come text (with_answer parts result) }
        ensures waits { self.new.waits ≡ found_none result }

        // Where no further part is whole, at most `MOST_LINE` bytes are kept after the handled lines, and at most twice
        // that together with these.
        ensures few { found_none result ≡ true → KeepsFew self.new.come }
        ensures held { found_none result ≡ true → self.new.bytes ≤ 2 * MOST_LINE }

        // The text so far and the parts given have no other answer, in whatever pieces the text came.
        ensures one { (text : List ℕ) (parts : List PartValue) (answer : Result (Option PartValue) TextFaultValue)
            → ComesFrom self.old.come text parts → IsNext text parts answer → SameAnswer answer result }

        // A part that is there and a fault stay what they are, whatever text comes after them.
        ensures part { (text more : List ℕ) (parts : List PartValue) (x : PartValue) → HasPart text parts x → HasPart (text ++ more) parts x }
        ensures bad_line { (text more : List ℕ) (n : ℕ) → BadLineAt text n → BadLineAt (text ++ more) n }
        ensures bad_order { (text more : List ℕ) (n : ℕ) → BadOrderAt text n → BadOrderAt (text ++ more) n }
    {
        self.waits = false;
        let part = next_part(alloc, &mut self.coming)?;
        if part.is_none() {
            forget(&mut self.coming);
            self.waits = true;
        }
        Ok(part)
    }

    /// Whether the text ends as that of a publication does, whose parts were given. The call before was a `next` that
    /// found no further part.
    pub fn end(self) -> Result<(), TextFault>
        requires waits { self.waits ≡ true }
        ensures end { (text : List ℕ) (parts : List PartValue) → ComesFrom self.come text parts → IsEnd text parts result }

        // Each answer comes exactly where it is due.
        ensures text { (text : List ℕ) (parts : List PartValue) (p : PublicationValue) → ComesFrom self.come text parts → IsText text p → IsOk result }
        ensures truncated { (text : List ℕ) (parts : List PartValue) (n : ℕ) → ComesFrom self.come text parts → TruncatedAt text n
            → result ≡ Err (text_fault.Truncated n) }
    {
        let whole = is_whole(&self.coming);
        let number = self.coming.lines + 1;
        drop(self);
        if whole {
            Ok(())
        } else {
            Err(TextFault::Truncated(number))
        }
    }
}
