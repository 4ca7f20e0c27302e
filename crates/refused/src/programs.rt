//! Reads classes and programs from class files.

use crate::again;
use crate::files::bytes_of;
use class_file::{ClassFile, read};
use linker::{Program, link};

/// Reads the class of a class file.
pub fn class_of(rt: &HostRuntime, name: &str) -> Option<ClassFile> {
    let bytes = bytes_of(rt, name)?;
    again!(rt, "read", read(rt.alloc(), bytes.as_slice()))
}

/// Reads the classes of class files, in order.
fn classes_of(rt: &HostRuntime, names: &[String]) -> Option<Vec<linker::ClassFile>> {
    let mut classes = again!(rt, "classes", Vec::with_capacity(rt.alloc(), names.len()))?;
    for name in names {
        classes
            .push(class_of(rt, name.as_str())?.into_class())
            .ok()?;
    }
    Some(classes)
}

/// Links the program of class files. Reads and links them again if that is refused.
pub fn linked(rt: &HostRuntime, names: &[String]) -> Option<Program> {
    again!(rt, "link", link(rt.alloc(), classes_of(rt, names)?))
}
