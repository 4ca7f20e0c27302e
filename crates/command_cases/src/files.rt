//! The files of a case, over those of the system.

use crate::fault::CaseFault;
use commands::{FileFault, Files};
use std::alloc::Global;

/// The content of a file of a case.
#[derive(Drop)]
enum Content {
    Bytes(Vec<u8>),
    /// The fault with which every read and write of the file fails.
    Fault(FileFault),
}

/// A file of a case.
#[derive(Drop)]
struct CaseFile {
    name: String,
    content: Content,
}

/// The files of a case, of which the latest with each name counts. Others are read from the files beneath, which are
/// never written.
#[derive(Drop)]
pub(crate) struct CaseFiles<F> {
    alloc: Global,
    files: Vec<CaseFile>,
    beneath: F,
}

impl<F: Files + Drop> CaseFiles<F> {
    /// Returns no files besides those beneath.
    pub(crate) fn new(alloc: Global, beneath: F) -> Self {
        CaseFiles {
            alloc,
            files: Vec::new(alloc),
            beneath,
        }
    }

    /// Adds a file, which hides all others with its name.
    fn put_content(&mut self, name: &str, content: Content) -> Result<(), FileFault> {
        let name = String::from_str(self.alloc, name)?;
        self.files.push(CaseFile { name, content })?;
        Ok(())
    }

    /// Adds a file of these bytes, which hides all others with its name.
    pub(crate) fn put(&mut self, name: &str, bytes: Vec<u8>) -> Result<(), FileFault> {
        self.put_content(name, Content::Bytes(bytes))
    }

    /// Makes every read and write of a file fail.
    pub(crate) fn put_fault(&mut self, name: &str, fault: FileFault) -> Result<(), FileFault> {
        self.put_content(name, Content::Fault(fault))
    }

    /// Returns the content of the latest file with a name.
    fn content(&self, name: &str) -> Option<&Content> {
        let mut found = None;
        for file in self.files.as_slice() {
            if file.name.as_str() == name {
                found = Some(&file.content);
            }
        }
        found
    }
}

impl<F: Files + Drop> Files for CaseFiles<F> {
    fn read(&mut self, name: &str) -> Result<Vec<u8>, FileFault> {
        match self.content(name) {
            Some(Content::Bytes(bytes)) => Ok(bytes.as_slice().to_vec(self.alloc)?),
            Some(Content::Fault(fault)) => Err(*fault),
            None => self.beneath.read(name),
        }
    }

    fn write(&mut self, name: &str, bytes: &[u8]) -> Result<(), FileFault> {
        if let Some(Content::Fault(fault)) = self.content(name) {
            return Err(*fault);
        }
        let bytes = bytes.to_vec(self.alloc)?;
        self.put(name, bytes)
    }
}

/// Returns the text of a file.
pub(crate) fn read_text<F: Files>(files: &mut F, name: &str) -> Result<String, CaseFault> {
    match String::from_utf8(files.read(name)?) {
        Ok(text) => Ok(text),
        Err(_) => Err(CaseFault::File),
    }
}
