//! The outcome of a command, or the wanted one.

use crate::bytes::{hex_of, lines_of, open_lines_of};
use crate::fault::CaseFault;
use cases::Section;
use std::alloc::{AllocError, Global};
use std::fmt;

/// The outcome of a command.
#[derive(Drop)]
pub(crate) struct Outcome {
    pub(crate) status: u8,
    /// The bytes that are written to standard output.
    pub(crate) output: Vec<u8>,
    /// The bytes that are written to standard error.
    pub(crate) errors: Vec<u8>,
}

/// A standard device that fails.
#[derive(Clone, Copy)]
pub(crate) enum Failure {
    /// Standard input, for a script.
    ScriptInput,
    /// Standard output, for the answers to a script.
    ScriptOutput,
    /// Standard output, for any other command.
    Output,
}

impl Failure {
    /// Returns the line that reports the failure.
    fn line(self) -> &'static str {
        match self {
            Failure::ScriptInput => "jvmx: S01 Read\n",
            Failure::ScriptOutput => "jvmx: S02 Write\n",
            Failure::Output => "jvmx: P05 Output\n",
        }
    }
}

/// Returns bytes as text, for the report of a difference.
fn shown(bytes: &[u8]) -> &str {
    std::str::from_utf8(bytes).unwrap_or("no text")
}

impl fmt::Display for Outcome {
    fn fmt<W: fmt::Write>(&self, f: &mut fmt::Formatter<W>) -> fmt::Result {
        let status = self.status;
        let output = shown(self.output.as_slice());
        let errors = shown(self.errors.as_slice());
        write!(f, "status {status}, output {output:?}, errors {errors:?}")
    }
}

/// Returns the bytes of a section: lines, lines without the last line end, or bytes in hexadecimal digits.
pub(crate) fn bytes_of(alloc: Global, section: &Section<'_>) -> Result<Vec<u8>, CaseFault> {
    match section.words {
        "" => lines_of(alloc, section.lines),
        "open" => open_lines_of(alloc, section.lines),
        "hex" => hex_of(alloc, section.lines),
        _ => Err(CaseFault::Words),
    }
}

impl Outcome {
    /// Returns the outcome that nothing is written, with the status 0.
    pub(crate) fn nothing(alloc: Global) -> Self {
        Outcome {
            status: 0,
            output: Vec::new(alloc),
            errors: Vec::new(alloc),
        }
    }

    /// Returns the outcome when a device fails after `count` bytes of output.
    pub(crate) fn failed(
        &self,
        alloc: Global,
        count: usize,
        failure: Failure,
    ) -> Result<Self, AllocError> {
        Ok(Outcome {
            status: 3,
            output: self.output[..count.min(self.output.len())].to_vec(alloc)?,
            errors: failure.line().as_bytes().to_vec(alloc)?,
        })
    }

    /// Returns the outcome when standard error accepts `room` bytes and then fails.
    pub(crate) fn without_errors(&self, alloc: Global, room: usize) -> Result<Self, AllocError> {
        Ok(Outcome {
            status: 3,
            output: self.output.clone()?,
            errors: self.errors[..room.min(self.errors.len())].to_vec(alloc)?,
        })
    }

    /// Decides whether two outcomes are equal.
    pub(crate) fn is(&self, other: &Outcome) -> bool {
        self.status == other.status
            && self.output.as_slice() == other.output.as_slice()
            && self.errors.as_slice() == other.errors.as_slice()
    }

    /// Sets the outcome to a refusal with this line.
    fn refuse(&mut self, alloc: Global, status: u8, line: &str) -> Result<(), CaseFault> {
        self.status = status;
        self.errors = format!(in alloc; "jvmx: {line}\n")?.into_bytes();
        Ok(())
    }

    /// Sets what a section wants. Returns whether the section is of this kind.
    pub(crate) fn take(&mut self, alloc: Global, section: &Section<'_>) -> Result<bool, CaseFault> {
        let words = section.words;
        match section.kind {
            "status" => match words.parse::<u8>() {
                Ok(status) => self.status = status,
                Err(_) => return Err(CaseFault::Number),
            },
            "output" => self.output = bytes_of(alloc, section)?,
            "errors" => self.errors = bytes_of(alloc, section)?,
            "prints" => self.output = lines_of(alloc, words)?,
            "ends" => {
                self.status = 1;
                self.errors = lines_of(alloc, words)?;
            }
            "refused" => self.refuse(alloc, 2, words)?,
            "failed" => self.refuse(alloc, 3, words)?,
            _ => return Ok(false),
        }
        Ok(true)
    }
}
