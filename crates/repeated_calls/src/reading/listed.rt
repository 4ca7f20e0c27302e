//! Prints listings of classes, and their bytes.

use super::class::class_in;
use class_file::{ClassFile, write};
use listing::list;
use refused::again;

/// Prints the listing of a class.
fn print_listing(rt: &HostRuntime, class: &ClassFile) -> Option<()> {
    let text = again!(rt, "list", list(rt.alloc(), class))?;
    print!(rt; "{text}").ok()
}

/// Prints the bytes of a class.
fn print_bytes(rt: &HostRuntime, class: &ClassFile) -> Option<()> {
    let bytes = again!(rt, "write", write(rt.alloc(), class))?;
    println!(rt; "{bytes:?}").ok()
}

/// Prints the listing of a FILE's class, and its bytes.
fn print(rt: &HostRuntime, name: &str) -> Option<()> {
    let class = class_in(rt, name)?;
    print_listing(rt, &class)?;
    print_bytes(rt, &class)
}

/// Prints the listings of FILEs, each with the bytes of its class.
pub(crate) fn print_all(rt: &HostRuntime, names: &[String]) -> Option<()> {
    for name in names {
        print(rt, name.as_str())?;
    }
    Some(())
}
