//! Whether a printed text is as it is wanted.

use std::alloc::{AllocError, Global};

/// What stands for any text.
const DOTS: &str = "...";

/// Each line of a text between two line ends, and a line of three dots as it is. So a text of whole lines is found
/// within another only where its lines are.
fn framed(alloc: Global, lines: &str) -> Result<String, AllocError> {
    let mut text = String::new(alloc);
    for line in lines.split('\n') {
        if line == DOTS {
            text.push_str(DOTS)?;
        } else {
            text.push('\n')?;
            text.push_str(line)?;
            text.push('\n')?;
        }
    }
    Ok(text)
}

/// What stands in a text after the first place of each of these pieces, one after the other.
fn after_each<'a>(text: &'a str, pieces: &str) -> Option<&'a str> {
    let mut rest = text;
    for piece in pieces.split(DOTS) {
        let (_, after) = rest.split_once(piece)?;
        rest = after;
    }
    Some(rest)
}

/// Whether a text is another, in which three dots stand for any text.
fn fits(text: &str, wanted: &str) -> bool {
    let Some((first, others)) = wanted.split_once(DOTS) else {
        return text == wanted;
    };
    let Some(rest) = text.strip_prefix(first) else {
        return false;
    };
    let Some((middle, last)) = others.rsplit_once(DOTS) else {
        return rest.ends_with(others);
    };
    match after_each(rest, middle) {
        Some(rest) => rest.ends_with(last),
        None => false,
    }
}

/// Whether a printed text is as it is wanted: these lines, the last of them without its end.
pub fn is_wanted(alloc: Global, printed: &str, lines: &str) -> Result<bool, AllocError> {
    if lines.is_empty() {
        return Ok(printed.is_empty());
    }
    let Some(printed) = printed.strip_suffix('\n') else {
        return Ok(false);
    };
    let printed = framed(alloc, printed)?;
    let wanted = framed(alloc, lines)?;
    Ok(fits(printed.as_str(), wanted.as_str()))
}
