//! Links the program of FILEs.

use super::class::class_in;
use escapes::put_name;
use linker::{ClassFile, Program, link};
use refused::again;
use std::alloc::{AllocError, Global};

/// Reads the classes of FILEs, in order.
fn classes_of(rt: &HostRuntime, names: &[String]) -> Option<Vec<ClassFile>> {
    let mut classes = again!(rt, "classes", Vec::with_capacity(rt.alloc(), names.len()))?;
    for name in names {
        classes
            .push(class_in(rt, name.as_str())?.into_class())
            .ok()?;
    }
    Some(classes)
}

/// Links the program of FILEs. Reads and links them again if that is refused.
fn linked(rt: &HostRuntime, names: &[String]) -> Option<Program> {
    again!(rt, "link", link(rt.alloc(), classes_of(rt, names)?))
}

/// Returns the text of a name.
fn text_of(alloc: Global, name: &[u16]) -> Result<String, AllocError> {
    let mut text = String::new(alloc);
    put_name(&mut text, name)?;
    Ok(text)
}

/// Prints the name of each class that isn't built in.
fn print_classes(rt: &HostRuntime, program: &Program) -> Option<()> {
    for (number, class) in program.classes().iter().enumerate() {
        if !program.is_built_in(number) {
            let name = again!(rt, "name", text_of(rt.alloc(), class.name.as_slice()))?;
            println!(rt; "class {name}").ok()?;
        }
    }
    Some(())
}

/// Links the program of FILEs, and prints its classes.
pub(crate) fn print(rt: &HostRuntime, names: &[String]) -> Option<()> {
    let program = linked(rt, names)?;
    let printed = print_classes(rt, &program);
    drop(program);
    printed
}
