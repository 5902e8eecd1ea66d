//! What the tests of texts share.

use std::alloc::Global;
use std::test::Fail;

/// The day of two zones with a border that is full, up to its last line.
pub(crate) const TWO_ZONES: &str = "mari 1 2025-03-12 96 10000
run 1 1 scheduled published
welfare 799712000
zone A 20.00 20.00 20.00 1
zone B 60.00 60.00 60.00 2
border A B 50 500.0000
bid a1 50
bid b1 30
demand 1 80
tree 1
bound 20.00 60.00
operator TA -250.0000 250.0000 -500.0000
operator TB 750.0000 250.0000 500.0000
provider P1 250.0000
provider P2 450.0000
end 1
total-operator TA -250.0000 250.0000 -500.0000
total-operator TB 750.0000 250.0000 500.0000
total-provider P1 250.0000
total-provider P2 450.0000
";

/// The last line of that day.
pub(crate) const DONE_ONE: &str = "done 1 0\n";

/// Appends a text some times, each with its number from 1 in place of `#`.
fn append(alloc: Global, text: &mut String, part: &str, times: u32) -> Result<(), Fail> {
    for time in 1..=times {
        match part.split_once("#") {
            Some((before, after)) => {
                text.push_str(&format!(in alloc; "{before}{time}{after}")?)?;
            }
            None => text.push_str(part)?,
        }
    }
    Ok(())
}

/// The text that these parts make, each some times with its number from 1 in place of `#`.
pub(crate) fn made(alloc: Global, parts: &[(&str, u32)]) -> Result<String, Fail> {
    let mut text = String::new(alloc);
    for (part, times) in parts {
        append(alloc, &mut text, part, *times)?;
    }
    Ok(text)
}
