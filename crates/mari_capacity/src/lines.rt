//! The lines that say what limits are worth.

ghost use Rattle.std.specs.Prelude.{◌≡◌, ◌++◌, OnOk, length};
ghost use Rattle.std.specs.List.{All};
ghost use Rattle.mari_capacity.specs.Lines.{ArePrintable, IsPrintable, border_line as line_of_border, border_lines as lines_of_borders, opening_line as line_of_opening, run_lines, unpublished_line as line_of_unpublished, worth_fields as fields_of_worth};

use crate::worth::{BorderWorth, Worth};
use mari_lines::{put_field, put_money, put_number_field};
use mari_publish::{BorderLine, FullBlock};
use mari_units::{Memory, put};
use std::alloc::Global;

/// Appends the first line.
pub(crate) fn put_opening(alloc: Global, text: &mut Vec<u8>, more: u32) -> Result<(), Memory>
    ensures { OnOk result (text.new.items ≡ text.old.items ++ line_of_opening more) }
{
    put(text, b"value 1")?;
    put_number_field(alloc, text, u64::from(more))?;
    put(text, b"\n")
}

/// Appends a gain and a rise.
fn put_worth(alloc: Global, text: &mut Vec<u8>, worth: Worth) -> Result<(), Memory>
    requires { IsPrintable worth }
    ensures { OnOk result (text.new.items ≡ text.old.items ++ fields_of_worth worth) }
{
    put_money(alloc, text, worth.gain)?;
    put_money(alloc, text, worth.rise)
}

/// Appends the line of a border.
fn put_border(
    alloc: Global,
    text: &mut Vec<u8>,
    line: &BorderLine,
    worth: BorderWorth,
) -> Result<(), Memory>
    requires { ArePrintable worth }
    ensures { OnOk result (text.new.items ≡ text.old.items ++ line_of_border line.now worth) }
{
    put(text, b"border")?;
    put_field(text, line.from.bytes())?;
    put_field(text, line.to.bytes())?;
    put_worth(alloc, text, worth.forth)?;
    put_worth(alloc, text, worth.back)?;
    put(text, b"\n")
}

/// Appends a line for each border.
fn put_borders(
    alloc: Global,
    text: &mut Vec<u8>,
    lines: &[BorderLine],
    worths: &[BorderWorth],
) -> Result<(), Memory>
    requires lengths { length worths.now ≡ length lines.now }
    requires printable { All ArePrintable worths.now }
    ensures { OnOk result (text.new.items ≡ text.old.items ++ lines_of_borders lines.now worths.now) }
{
    for (border, line) in lines.iter().enumerate() {
        put_border(alloc, text, line, worths[border])?;
    }
    Ok(())
}

/// Appends the lines of a published run.
pub(crate) fn put_run(
    alloc: Global,
    text: &mut Vec<u8>,
    block: &FullBlock,
    worths: &[BorderWorth],
) -> Result<(), Memory>
    requires lengths { length worths.now ≡ length block.now.borders }
    requires printable { All ArePrintable worths.now }
    ensures { OnOk result (text.new.items ≡ text.old.items ++ run_lines block.now worths.now) }
{
    put(text, b"run")?;
    put_number_field(alloc, text, u64::from(block.heading.run))?;
    put(text, b"\n")?;
    put_borders(alloc, text, block.borders.as_slice(), worths)
}

/// Appends the line of a run that isn't published.
pub(crate) fn put_unpublished(alloc: Global, text: &mut Vec<u8>, run: u32) -> Result<(), Memory>
    ensures { OnOk result (text.new.items ≡ text.old.items ++ line_of_unpublished run) }
{
    put(text, b"run")?;
    put_number_field(alloc, text, u64::from(run))?;
    put_field(text, b"unpublished")?;
    put(text, b"\n")
}
