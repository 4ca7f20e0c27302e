//! Reads files of cases: tests as data, for programs that run them.
//!
//! A file of cases is text. The text before its first case is a remark.
//!
//! - A case begins with a line `== NAME` and ends before the next such line. The first line of a file begins no case.
//! - A section of a case begins with a line `-- KIND` or `-- KIND WORDS` and ends before the next line that begins a
//!   section or a case. Its lines are those after its first one, without blanks at the end. The text between the line
//!   of a case and its first section is a remark.
//! - The name, the kind and the words are trimmed. Lines end with a line feed.
//!
//! So this is a case with two sections, `source` with the words `A.j` and two lines, and `choices` with none:
//!
//! ```text
//! == a class without members
//! -- source A.j
//! .class A
//! .super java/lang/Object
//! -- choices 0 0 1
//! ```
#![tactic(auto)]

use std::alloc::{AllocError, Global};

/// The text before the name of a case.
const CASE: &str = "\n== ";

/// The text before the kind of a section.
const SECTION: &str = "\n-- ";

/// A part of a case.
#[derive(Clone, Copy)]
pub struct Section<'a> {
    /// The kind of the section: the first word of its line.
    pub kind: &'a str,
    /// The other words of its line.
    pub words: &'a str,
    /// The lines after it.
    pub lines: &'a str,
}

/// A case of a file.
#[derive(Drop)]
pub struct Case<'a> {
    pub name: &'a str,
    /// The sections of the case, in order.
    pub sections: Vec<Section<'a>>,
}

/// Returns the first line of a text, and the lines after it.
fn first_line(text: &str) -> (&str, &str) {
    match text.split_once('\n') {
        Some((first, others)) => (first, others),
        None => (text, ""),
    }
}

/// Returns the section whose text begins with its kind.
fn section_of(text: &str) -> Section<'_> {
    let (head, lines) = first_line(text);
    let head = head.trim();
    let (kind, words) = match head.split_once(' ') {
        Some((kind, words)) => (kind, words.trim()),
        None => (head, ""),
    };
    Section {
        kind,
        words,
        lines: lines.trim_end(),
    }
}

/// Returns the case whose text begins with its name.
fn case_of(alloc: Global, text: &str) -> Result<Case<'_>, AllocError> {
    let mut sections = Vec::new(alloc);
    for part in text.split(SECTION).skip(1) {
        sections.push(section_of(part))?;
    }
    let (name, _) = first_line(text);
    Ok(Case {
        name: name.trim(),
        sections,
    })
}

/// Returns the cases of a file, in order.
pub fn cases_of(alloc: Global, file: &str) -> Result<Vec<Case<'_>>, AllocError> {
    let mut cases = Vec::new(alloc);
    for text in file.split(CASE).skip(1) {
        cases.push(case_of(alloc, text)?)?;
    }
    Ok(cases)
}

impl<'a> Case<'a> {
    /// Returns the first section of this kind.
    pub fn section(&self, kind: &str) -> Option<Section<'a>> {
        self.sections
            .iter()
            .find(|section| section.kind == kind)
            .copied()
    }

    /// Returns the words of the first section of this kind.
    pub fn words(&self, kind: &str) -> Option<&'a str> {
        self.section(kind).map(|section| section.words)
    }

    /// Returns the lines of the first section of this kind.
    pub fn lines(&self, kind: &str) -> Option<&'a str> {
        self.section(kind).map(|section| section.lines)
    }
}
