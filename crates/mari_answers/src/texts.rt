//! The refusal of a publication whose text has a fault, and its line.

ghost use Rattle.std.specs.Prelude.{◌≡◌};
ghost use Rattle.mari_io.specs.Outside.{Counts};
ghost use Rattle.mari_answers.specs.Checks.{text_check_number};
ghost use Rattle.mari_answers.specs.Reports.{ReportsText};
ghost use Rattle.mari_answers.specs.Texts.{refusal_of, text_refusal_at};

use crate::checks::TextCheck;
use crate::saying::say_refused;
use crate::status::Status;
use mari_day::PUBLICATION;
use mari_io::Sink;
use mari_publish::TextFault;
use mari_rows::FileCheck;
use mari_units::Refusal;
use std::alloc::Global;

/// The refusal of the publication's text at a line, by a check.
fn refused_text(line: u32, check: TextCheck) -> Refusal
    ensures { result ≡ text_refusal_at line (text_check_number check) }
{
    Refusal {
        file: PUBLICATION,
        line,
        number: check.entry().0,
    }
}

/// The refusal of a publication whose text has a fault; none when out of memory.
pub fn text_refusal(fault: TextFault) -> Option<Refusal>
    ensures { result ≡ refusal_of fault }
{
    match fault {
        TextFault::BadLine(line) => Some(refused_text(line, TextCheck::BadLine)),
        TextFault::BadOrder(line) => Some(refused_text(line, TextCheck::BadOrder)),
        TextFault::Truncated(line) => Some(refused_text(line, TextCheck::Truncated)),
        TextFault::Memory => None,
    }
}

/// Writes the line of a publication whose text has a fault.
pub fn say_text_fault<K: Sink>(alloc: Global, sink: &mut K, fault: TextFault) -> Status
    ensures reports { ReportsText fault (K.taken sink.old) (K.taken sink.new) result }
    ensures cause { Counts (result ≡ Status.WriteFault) (K.faults sink.old) (K.faults sink.new) }
{
    match text_refusal(fault) {
        Some(refusal) => say_refused(alloc, sink, refusal),
        None => Status::Memory,
    }
}
