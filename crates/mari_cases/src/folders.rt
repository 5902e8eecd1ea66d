//! Folders by their names.

use crate::fault::Fault;
use crate::paragraph::{Paragraph, Section, text_of};
use std::alloc::AllocError;

/// A page of a folder.
#[derive(Clone, Copy)]
pub struct Kept<'a> {
    folder: &'a str,
    page: Section<'a>,
}

/// Keeps these pages as those of a folder.
pub fn keep<'a>(
    folders: &mut Vec<Kept<'a>>,
    folder: &'a str,
    pages: &[Section<'a>],
) -> Result<(), AllocError> {
    for page in pages {
        folders.push(Kept {
            folder,
            page: *page,
        })?;
    }
    Ok(())
}

/// Whether a paragraph leaves out the page of this name.
fn leaves_out(paragraph: &Paragraph<'_>, page: &str) -> bool {
    for line in paragraph.head.split('\n') {
        if line.strip_prefix("without ") == Some(page) {
            return true;
        }
    }
    false
}

/// Adds the pages of a folder to those of a paragraph, but for those that the paragraph has or leaves out. It answers
/// whether there is such a folder.
pub fn take_over<'a>(
    pages: &mut Vec<Section<'a>>,
    folders: &[Kept<'a>],
    folder: &str,
    paragraph: &Paragraph<'_>,
) -> Result<bool, AllocError> {
    let mut found = false;
    for kept in folders {
        if kept.folder == folder {
            found = true;
            let page = kept.page;
            let is_own = text_of(pages.as_slice(), page.name).is_some();
            if !is_own && !leaves_out(paragraph, page.name) {
                pages.push(page)?;
            }
        }
    }
    Ok(found)
}
