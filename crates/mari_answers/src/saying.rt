//! What is said where something ends: a text or a line, and the status that it ends with.

ghost use Rattle.std.specs.Prelude.{◌≡◌, ◌≢◌, ◌++◌, Err};
ghost use Rattle.mari_io.specs.Outside.{Counts};
ghost use Rattle.mari_remain.specs.declared.books.Books.{Books as TheBooks};
ghost use Rattle.mari_day.specs.Files.{IsNamed};
ghost use Rattle.mari_day.specs.Reading.{NamesAFile};
ghost use Rattle.mari_day.specs.Refusals.{RefusesByCheck};
ghost use Rattle.mari_answers.specs.Lines.{invalid_line as invalid_text, refused_line as refused_text};
ghost use Rattle.mari_answers.specs.Refusals.{HasName};
ghost use Rattle.mari_answers.specs.Reports.{Reports, ReportsNoBooks, ReportsNoPage};

use crate::lines::{invalid_line, page_line, refused_line};
use crate::status::Status;
use mari_day::BooksFault;
use mari_io::{Fetch, Sink, write_all};
use mari_units::{Memory, Refusal};
use std::alloc::Global;

/// Writes a text, and answers its status, or that of a write fault.
pub fn say<K: Sink>(sink: &mut K, text: &[u8], status: Status) -> Status
    requires { status ≢ Status.WriteFault }
    ensures reports { Reports text.now status (K.taken sink.old) (K.taken sink.new) result }
    ensures cause { Counts (result ≡ Status.WriteFault) (K.faults sink.old) (K.faults sink.new) }
{
    match write_all(sink, text) {
        Ok(()) => status,
        Err(_) => Status::WriteFault,
    }
}

/// Writes a text and then a line, and answers their status, or that of a write fault.
pub fn say_after<K: Sink>(sink: &mut K, text: &[u8], line: &[u8], status: Status) -> Status
    requires { status ≢ Status.WriteFault }
    ensures reports { Reports (text.now ++ line.now) status (K.taken sink.old) (K.taken sink.new) result }
    ensures cause { Counts (result ≡ Status.WriteFault) (K.faults sink.old) (K.faults sink.new) }
{
    match write_all(sink, text) {
        Ok(()) => match write_all(sink, line) {
            Ok(()) => status,
            Err(_) => Status::WriteFault,
        },
        Err(_) => Status::WriteFault,
    }
}

/// Writes the line of a file whose page can't be had.
pub fn say_no_page<K: Sink>(alloc: Global, sink: &mut K, file: u8, why: Fetch) -> Status
    requires { IsNamed file }
    ensures reports { ReportsNoPage file why (K.taken sink.old) (K.taken sink.new) result }
    ensures cause { Counts (result ≡ Status.WriteFault) (K.faults sink.old) (K.faults sink.new) }
{
    match page_line(alloc, file, why) {
        Ok((line, status)) => say(sink, &line, status),
        Err(Memory) => Status::Memory,
    }
}

/// Writes the line of a refusal.
pub fn say_refused<K: Sink>(alloc: Global, sink: &mut K, refusal: Refusal) -> Status
    requires file { IsNamed refusal.file }
    requires name { HasName refusal }
    ensures reports { Reports (refused_text refusal) (Status.Refused refusal) (K.taken sink.old) (K.taken sink.new) result }
    ensures cause { Counts (result ≡ Status.WriteFault) (K.faults sink.old) (K.faults sink.new) }
{
    match refused_line(alloc, refusal) {
        Ok(line) => say(sink, &line, Status::Refused(refusal)),
        Err(Memory) => Status::Memory,
    }
}

/// Writes the line of a publication that isn't valid.
pub fn say_invalid<K: Sink>(alloc: Global, sink: &mut K, run: u32, fault: u8) -> Status
    ensures reports { Reports (invalid_text run fault) (Status.Invalid run fault) (K.taken sink.old) (K.taken sink.new) result }
    ensures cause { Counts (result ≡ Status.WriteFault) (K.faults sink.old) (K.faults sink.new) }
{
    match invalid_line(alloc, run, fault) {
        Ok((line, status)) => say(sink, &line, status),
        Err(Memory) => Status::Memory,
    }
}

/// Writes the line of why a folder has no books; none when out of memory.
pub fn say_no_books<K: Sink>(alloc: Global, sink: &mut K, fault: BooksFault) -> Status
    // The fault is one of reading a folder: it names a file, and a refusal is by a check of it.
    requires file { NamesAFile {T = TheBooks} (Err fault) }
    requires check { RefusesByCheck {T = TheBooks} (Err fault) }
    ensures reports { ReportsNoBooks fault (K.taken sink.old) (K.taken sink.new) result }
    ensures cause { Counts (result ≡ Status.WriteFault) (K.faults sink.old) (K.faults sink.new) }
{
    match fault {
        BooksFault::Fetch(file, why) => say_no_page(alloc, sink, file, why),
        BooksFault::Refused(refusal) => say_refused(alloc, sink, refusal),
        BooksFault::Memory => Status::Memory,
    }
}
