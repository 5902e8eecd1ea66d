//! Paragraphs of a case file, and their sections.

use crate::fault::Fault;
use std::alloc::Global;

/// The name of the section that has what a call prints.
pub const PRINTS: &str = "prints";

/// A section.
#[derive(Clone, Copy)]
pub struct Section<'a> {
    /// Its name: that of a page, or `PRINTS`.
    pub name: &'a str,
    /// Its lines, the last of them without its end.
    pub text: &'a str,
}

impl<'a> Section<'a> {
    /// The section of a text from its name on.
    fn of(text: &'a str) -> Option<Section<'a>> {
        let (line, text) = match text.split_once('\n') {
            Some((line, text)) => (line, text),
            None => (text, ""),
        };
        let name = line.strip_suffix(" --")?;
        Some(Section { name, text })
    }
}

/// A paragraph.
#[derive(Clone, Copy)]
pub struct Paragraph<'a> {
    /// The number of its first line in the file, from 1.
    pub line: usize,
    /// The lines before its sections.
    pub head: &'a str,
    /// Its sections, the first of them from its name on.
    rest: Option<&'a str>,
}

impl<'a> Paragraph<'a> {
    /// The paragraph of this text.
    pub fn new(line: usize, text: &'a str) -> Paragraph<'a> {
        match text.split_once("\n-- ") {
            Some((head, rest)) => Paragraph {
                line,
                head,
                rest: Some(rest),
            },
            None => Paragraph {
                line,
                head: text,
                rest: None,
            },
        }
    }

    /// Its sections, in their order.
    pub fn sections(&self, alloc: Global) -> Result<Vec<Section<'a>>, Fault> {
        let mut sections = Vec::new(alloc);
        if let Some(rest) = self.rest {
            for text in rest.split("\n-- ") {
                match Section::of(text) {
                    Some(section) => sections.push(section)?,
                    None => return Err(self.fault("the name of a section ends in no --")),
                }
            }
        }
        Ok(sections)
    }

    /// What is wrong with it, at its first line.
    pub fn fault(&self, why: &'static str) -> Fault {
        Fault::Line(self.line, why)
    }
}

/// The text of the first section of this name.
pub fn text_of<'a>(sections: &[Section<'a>], name: &str) -> Option<&'a str> {
    for section in sections {
        if section.name == name {
            return Some(section.text);
        }
    }
    None
}

/// How many lines end in a text.
pub fn line_ends(text: &str) -> usize {
    text.bytes().filter(|byte| *byte == b'\n').count()
}
