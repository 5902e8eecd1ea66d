//! What the first lines of a paragraph state.

use crate::fault::Fault;
use crate::paragraph::Paragraph;

/// The first word of a line.
#[derive(Clone, Copy)]
enum Word {
    /// The line is a remark.
    Remark,
    /// The paragraph is a folder, of this name.
    Folder,
    /// The paragraph is a case, of this name.
    Case,
    /// The paragraph takes over the pages of a folder.
    Like,
    /// The paragraph leaves a page out.
    Without,
    /// The line is a call.
    Call,
    /// The exit code of the calls.
    Exit,
    /// The numbers of the calls on the shelf that fail.
    Fails,
    /// How the shelf gives its pages.
    By,
}

/// The words as they are written. An empty line is a remark, too.
const WORDS: &[(&str, Word)] = &[
    ("", Word::Remark),
    ("#", Word::Remark),
    ("folder", Word::Folder),
    ("case", Word::Case),
    ("like", Word::Like),
    ("in", Word::Like),
    ("without", Word::Without),
    (">", Word::Call),
    ("exit", Word::Exit),
    ("fails", Word::Fails),
    ("by", Word::By),
];

impl Word {
    /// The word that is written so.
    fn named(text: &str) -> Option<Word> {
        for (written, word) in WORDS {
            if *written == text {
                return Some(*word);
            }
        }
        None
    }

    /// The word that begins a line.
    fn of(line: &str) -> Option<Word> {
        match line.split_once(' ') {
            Some((first, _)) => Word::named(first),
            None => Word::named(line),
        }
    }

    /// The kind of a paragraph after a line of this word, unless that can't stand there.
    fn kind_after(self, kind: Kind) -> Option<Kind> {
        match self {
            Word::Remark => Some(kind),
            Word::Folder if kind == Kind::Remarks => Some(Kind::Folder),
            Word::Case if kind == Kind::Remarks => Some(Kind::Case),
            Word::Like | Word::Without if kind != Kind::Remarks => Some(kind),
            Word::Call | Word::Exit | Word::Fails | Word::By if kind == Kind::Case => Some(kind),
            _ => None,
        }
    }
}

/// What a paragraph is.
#[derive(Clone, Copy, PartialEq, Eq)]
pub enum Kind {
    /// Remarks alone.
    Remarks,
    /// A folder, with pages of its own or of another folder.
    Folder,
    /// A case, with calls of the program.
    Case,
}

/// What the first lines of a paragraph state, but for its calls and the pages that it leaves out.
#[derive(Clone, Copy)]
pub struct Stated<'a> {
    /// What the paragraph is.
    pub kind: Kind,
    /// The name of the folder or of the case.
    pub name: &'a str,
    /// The folder whose pages it takes over.
    pub like: Option<&'a str>,
    /// The exit code of its calls.
    pub code: u8,
    /// The numbers of the calls on the shelf that fail.
    pub fails: &'a str,
    /// Whether the shelf gives one byte at a time.
    pub by_bytes: bool,
}

/// The kind of a paragraph, each of whose first lines begins with a word that may stand there.
fn kind_of(paragraph: &Paragraph<'_>) -> Result<Kind, Fault> {
    let mut kind = Kind::Remarks;
    let mut number = paragraph.line;
    for line in paragraph.head.split('\n') {
        let next = match Word::of(line) {
            Some(word) => word.kind_after(kind),
            None => None,
        };
        match next {
            Some(next) => kind = next,
            None => return Err(Fault::Line(number, "this line can't stand here")),
        }
        number = number.saturating_add(1);
    }
    Ok(kind)
}

/// What stands after a word in the first line that begins with it.
fn after_word<'a>(head: &'a str, word: &str) -> Option<&'a str> {
    for line in head.split('\n') {
        if let Some((first, rest)) = line.split_once(' ') {
            if first == word {
                return Some(rest);
            }
        }
    }
    None
}

/// What stands after the first of two words that begins a line, or nothing.
fn after_either<'a>(head: &'a str, word: &str, other: &str) -> Option<&'a str> {
    match after_word(head, word) {
        Some(rest) => Some(rest),
        None => after_word(head, other),
    }
}

/// The exit code of a paragraph's calls.
fn code_of(paragraph: &Paragraph<'_>) -> Result<u8, Fault> {
    let Some(text) = after_word(paragraph.head, "exit") else {
        return Ok(0);
    };
    match text.parse::<u8>() {
        Ok(code) => Ok(code),
        Err(_) => Err(paragraph.fault("an exit code is a number up to 255")),
    }
}

/// Whether the shelf of a paragraph gives one byte at a time.
fn is_by_bytes(paragraph: &Paragraph<'_>) -> Result<bool, Fault> {
    match after_word(paragraph.head, "by") {
        None => Ok(false),
        Some(unit) if unit == "bytes" => Ok(true),
        Some(_) => Err(paragraph.fault("a shelf may give pages by bytes, and by nothing else")),
    }
}

impl<'a> Stated<'a> {
    /// What the first lines of a paragraph state.
    pub fn of(paragraph: &Paragraph<'a>) -> Result<Stated<'a>, Fault> {
        let head = paragraph.head;
        Ok(Stated {
            kind: kind_of(paragraph)?,
            name: after_either(head, "folder", "case").unwrap_or(""),
            like: after_either(head, "like", "in"),
            code: code_of(paragraph)?,
            fails: after_word(head, "fails").unwrap_or(""),
            by_bytes: is_by_bytes(paragraph)?,
        })
    }
}
