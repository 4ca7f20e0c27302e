//! Makes the class of a FILE.

use assembler::assemble;
use class_file::ClassFile;
use refused::{again, class_of, text_of};

/// Assembles a source.
fn assembled(rt: &HostRuntime, name: &str) -> Option<ClassFile> {
    let text = text_of(rt, name)?;
    let source = again!(rt, "source", jasmin_reader::read(rt.alloc(), text.as_str()))?;
    again!(rt, "assemble", assemble(rt.alloc(), &source))
}

/// Reads a class file, or assembles a source.
pub(crate) fn class_in(rt: &HostRuntime, name: &str) -> Option<ClassFile> {
    if name.ends_with(".j") {
        assembled(rt, name)
    } else {
        class_of(rt, name)
    }
}
