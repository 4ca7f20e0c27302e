//! Collects lines, and merges consecutive equal ones.

use std::alloc::{AllocError, Global};

/// Lines in order. The last one isn't in the text yet.
#[derive(Drop)]
pub struct Lines {
    text: String,
    last: String,
    times: usize,
}

impl Lines {
    pub fn new(alloc: Global) -> Lines {
        Lines {
            text: String::new(alloc),
            last: String::new(alloc),
            times: 0,
        }
    }

    /// Appends the last line to the text, with its number of repetitions.
    pub fn close(&mut self) -> Result<(), AllocError> {
        if self.times > 0 {
            self.text.push_str(self.last.as_str())?;
            if self.times > 1 {
                write!(self.text, " x{}", self.times)?;
            }
            self.text.push('\n')?;
        }
        self.times = 0;
        Ok(())
    }

    /// Adds a line. It is merged with the one before if they are equal.
    pub fn put(&mut self, line: &str) -> Result<(), AllocError> {
        if self.times > 0 && self.last.as_str() == line {
            self.times = self.times.saturating_add(1);
            return Ok(());
        }
        self.close()?;
        self.last.clear();
        self.last.push_str(line)?;
        self.times = 1;
        Ok(())
    }

    /// Adds a line that isn't merged with others.
    pub fn put_alone(&mut self, line: &str) -> Result<(), AllocError> {
        self.close()?;
        self.text.push_str(line)?;
        self.text.push('\n')
    }

    /// Returns the closed lines, without trailing white space.
    pub fn text(&self) -> &str {
        self.text.as_str().trim_end()
    }
}
