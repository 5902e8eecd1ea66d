//! The lines of a status.

ghost use Rattle.std.specs.Prelude.{◌≡◌, ◌≢◌, IfOk};
ghost use Rattle.mari_day.specs.Files.{IsNamed};
ghost use Rattle.mari_answers.specs.Lines.{file_line as file_text, invalid_line as invalid_text, pair_line as pair_text, refused_line as refused_text};
ghost use Rattle.mari_answers.specs.Reports.{IsPageLine};
ghost use Rattle.mari_answers.specs.Refusals.{HasName};

use crate::refusals::check_name;
use crate::status::Status;
use mari_day::file_name;
use mari_io::Fetch;
use mari_units::{Memory, Refusal, put, put_number};
use std::alloc::Global;

/// The line of a word and a file, by its number from 1.
fn file_line(alloc: Global, word: &[u8], file: u8) -> Result<Vec<u8>, Memory>
    requires { IsNamed file }
    ensures { IfOk result (λ line. line.items ≡ file_text word.now file) }
{
    let mut line = Vec::new(alloc);
    put(&mut line, word)?;
    put(&mut line, b" ")?;
    put(&mut line, file_name(file).as_bytes())?;
    put(&mut line, b"\n")?;
    Ok(line)
}

/// The line of a file, by its number from 1, whose page can't be had, and its status. Where the page was given up out
/// of memory there is no line.
pub fn page_line(alloc: Global, file: u8, why: Fetch) -> Result<(Vec<u8>, Status), Memory>
    requires { IsNamed file }
    ensures line { IfOk result (λ p. IsPageLine file why p.0.items p.1) }
    ensures writes { IfOk result (λ p. p.1 ≢ Status.WriteFault) }
{
    match why {
        Fetch::Failed => Ok((file_line(alloc, b"readfault", file)?, Status::ReadFault)),
        Fetch::Missing => Ok((file_line(alloc, b"missing", file)?, Status::Missing)),
        Fetch::TooLong => Ok((file_line(alloc, b"toolong", file)?, Status::TooLong)),
        Fetch::Memory => Err(Memory),
    }
}

/// The line of a refusal.
pub fn refused_line(alloc: Global, refusal: Refusal) -> Result<Vec<u8>, Memory>
    requires file { IsNamed refusal.file }
    requires name { HasName refusal }
    ensures { IfOk result (λ line. line.items ≡ refused_text refusal) }
{
    let mut line = Vec::new(alloc);
    put(&mut line, b"refused ")?;
    put(&mut line, file_name(refusal.file).as_bytes())?;
    put(&mut line, b" ")?;
    put_number(alloc, &mut line, u128::from(refusal.line))?;
    put(&mut line, b" ")?;
    put_number(alloc, &mut line, u128::from(refusal.number))?;
    put(&mut line, b" ")?;
    put(&mut line, check_name(refusal).as_bytes())?;
    put(&mut line, b"\n")?;
    Ok(line)
}

/// A line of two numbers after a word that ends in a space.
pub fn pair_line(alloc: Global, word: &[u8], first: u32, second: u32) -> Result<Vec<u8>, Memory>
    ensures { IfOk result (λ line. line.items ≡ pair_text word.now first second) }
{
    let mut line = Vec::new(alloc);
    put(&mut line, word)?;
    put_number(alloc, &mut line, u128::from(first))?;
    put(&mut line, b" ")?;
    put_number(alloc, &mut line, u128::from(second))?;
    put(&mut line, b"\n")?;
    Ok(line)
}

/// The line of a publication that isn't valid, and its status.
pub fn invalid_line(alloc: Global, run: u32, fault: u8) -> Result<(Vec<u8>, Status), Memory>
    ensures line { IfOk result (λ p. p.0.items ≡ invalid_text run fault) }
    ensures status { IfOk result (λ p. p.1 ≡ Status.Invalid run fault) }
{
    let line = pair_line(alloc, b"invalid ", run, u32::from(fault))?;
    Ok((line, Status::Invalid { run, fault }))
}
