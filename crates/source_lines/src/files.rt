//! The class files of a program's classes.

ghost use Rattle.std.specs.Prelude.{◌≡◌, ◌-◌, length};
ghost use Rattle.std.specs.Option.{option_copied};
ghost use Rattle.source_lines.specs.SourceLines.{file_of};

use jvms_file::class_file::ClassFile;
use jvms_program::number::ClassNumber;
use jvms_program::program::Class;

/// The class files of the last classes of a linked program. Those before them are built in.
#[derive(Clone, Copy)]
pub struct SourceFiles<'f> {
    /// The number of the class of the first file.
    pub first: usize,
    pub files: &'f [ClassFile],
}

impl<'f> SourceFiles<'f> {
    /// Returns the class files of a linked program's last classes.
    pub fn new(classes: &[Class], files: &'f [ClassFile]) -> Self
        ensures first { result.first ≡ length classes.now - length files.now }
        ensures files { result.files.now ≡ files.now }
    {
        SourceFiles {
            first: classes.len().saturating_sub(files.len()),
            files,
        }
    }

    /// Returns the class file of the class with this number, if it has one.
    pub(crate) fn file_of(&self, class: ClassNumber) -> Option<&'f ClassFile>
        ensures { option_copied result ≡ file_of self.now.first self.now.files.now class }
    {
        if class < self.first {
            return None;
        }
        self.files.get(class - self.first)
    }
}
