//! Writes the lines of missing superclasses and superinterfaces.

ghost use Rattle.std.specs.Prelude.{◌≡◌, ◌++◌, IfOk, OnOk};
ghost use Rattle.std.specs.List.{flat_map};
ghost use Rattle.std.specs.Option.{option_to_list};
ghost use Rattle.std.specs.String.{string_bytes};
ghost use Rattle.jvms_program.specs.Program.{program_of};
ghost use Rattle.needs.specs.Supers.{line_of_super, lines_of_supers, missing_supers, super_line};

use crate::lack::Lack;
use crate::line::put_reason_of;
use classes::{ClassList, superclass_name};
use escapes::put_name;
use jvms_file::class_file::ClassFile;
use jvms_program::program::Class;
use jvms_program::thrown::Thrown;
use linker::{classes_of, last_classes};
use shared_data::shared::Text;
use std::alloc::{AllocError, Global};

/// Appends the line of a missing superclass or superinterface.
fn put_super_line(out: &mut String, class: &[u16], name: &[u16]) -> Result<(), AllocError>
    ensures { OnOk result
        (string_bytes out.new ≡ string_bytes out.old ++ super_line class.now name.now) }
{
    put_name(out, class)?;
    out.push_str(" ")?;
    let lack = Lack::Unresolved(Thrown::NoClassDefFoundError);
    put_reason_of(out, lack, Some(name), None)?;
    out.push_str("\n")
}

/// Appends the line of a superclass or superinterface of this name, if it is missing.
fn put_super(
    out: &mut String,
    list: &ClassList,
    class: &Class,
    name: &[u16],
) -> Result<(), AllocError>
    ensures { OnOk result (string_bytes out.new ≡ string_bytes out.old
        ++ line_of_super list.now class.now.name name.now) }
{
    if list.class_named(name).is_some() {
        return Ok(());
    }
    put_super_line(out, class.name.as_slice(), name)
}

/// Appends the line of a class's superclass, if it is missing.
fn put_superclass(out: &mut String, list: &ClassList, class: &Class) -> Result<(), AllocError>
    ensures { OnOk result (string_bytes out.new ≡ string_bytes out.old
        ++ flat_map (line_of_super list.now class.now.name) (option_to_list class.now.superclass)) }
{
    match superclass_name(class) {
        None => Ok(()),
        Some(name) => put_super(out, list, class, name),
    }
}

/// Appends the line of a class's superinterface, if it is missing.
fn put_interface(
    out: &mut String,
    list: &ClassList,
    class: &Class,
    name: &Text,
) -> Result<(), AllocError>
    ensures { OnOk result (string_bytes out.new ≡ string_bytes out.old
        ++ line_of_super list.now class.now.name name.now) }
{
    put_super(out, list, class, name.as_slice())
}

/// Appends the lines of the missing superinterfaces among these names.
fn put_interfaces(
    out: &mut String,
    list: &ClassList,
    class: &Class,
    names: &[Text],
) -> Result<(), AllocError>
    ensures { OnOk result (string_bytes out.new ≡ string_bytes out.old
        ++ flat_map (line_of_super list.now class.now.name) names.now) }
{
    for name in names {
        put_interface(out, list, class, name)?;
    }
    Ok(())
}

/// Appends the lines of a class's missing superclass and superinterfaces.
fn put_supers(out: &mut String, list: &ClassList, class: &Class) -> Result<(), AllocError>
    ensures { OnOk result (string_bytes out.new ≡ string_bytes out.old
        ++ lines_of_supers list.now class.now) }
{
    put_superclass(out, list, class)?;
    put_interfaces(out, list, class, class.interfaces.as_slice())
}

/// Appends the lines of the missing superclasses and superinterfaces of classes.
fn put_all_supers(out: &mut String, list: &ClassList, classes: &[Class]) -> Result<(), AllocError>
    ensures { OnOk result (string_bytes out.new ≡ string_bytes out.old
        ++ flat_map (lines_of_supers list.now) classes.now) }
{
    for class in classes {
        put_supers(out, list, class)?;
    }
    Ok(())
}

/// Returns a line for each superclass and superinterface that class files name and that is neither among them nor built
/// in. The text is empty if none is missing.
#[tactic(auto, unfolding(jvms_program::specs::Program::program_of), using(jvms_program::proofs::ProgramLaws::files_are_program))]
pub fn missing_supers(alloc: Global, files: Vec<ClassFile>) -> Result<String, AllocError>
    ensures { IfOk result (λ text. string_bytes text ≡ missing_supers files.items) }
{
    let classes = classes_of(alloc, files)?;
    let count = classes.len();
    let list = ClassList::new(alloc, classes)?;
    let mut text = String::new(alloc);
    put_all_supers(&mut text, &list, last_classes(&list, count))?;
    Ok(text)
}
