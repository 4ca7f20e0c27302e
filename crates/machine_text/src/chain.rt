//! The classes of an instance, from the top.

ghost use Rattle.std.specs.Prelude.{◌≡◌, IfOk, map, option_copied, reverse};
ghost use Rattle.std.specs.Option.{option_and_then};
ghost use Rattle.jvms_program.specs.Program.{class_named};
ghost use Rattle.jvms_program.specs.Resolution.{chain};

use classes::superclass_name;
use jvms_program::program::Class;
use program::Program;
use std::alloc::{AllocError, Global};

/// Returns the superclass of a class.
fn superclass<'p>(program: &'p Program, class: &Class) -> Option<&'p Class>
    ensures { option_copied result
        ≡ option_and_then (class_named program.now) class.now.superclass }
{
    program.class_named(superclass_name(class)?)
}

/// Returns the class of a name and its superclasses, the class itself first.
#[tactic(auto, using(crate::proofs::Chains::ways))]
fn chain_of<'p>(
    alloc: Global,
    program: &'p Program,
    name: &[u16],
) -> Result<Vec<&'p Class>, AllocError>
    ensures { IfOk result (λ classes. map (λ c. c.now) classes.items
        ≡ chain program.entry.now name.now) }
{
    let mut classes = Vec::new(alloc);
    let mut next = program.class_named(name);
    for _level in 0..program.classes().len() {
        let Some(class) = next else {
            return Ok(classes);
        };
        classes.push(class)?;
        next = superclass(program, class);
    }
    Ok(classes)
}

/// Returns the class of a name and its superclasses, the topmost first.
pub(crate) fn classes_from_top<'p>(
    alloc: Global,
    program: &'p Program,
    name: &[u16],
) -> Result<Vec<&'p Class>, AllocError>
    ensures { IfOk result (λ classes. map (λ c. c.now) classes.items
        ≡ reverse (chain program.entry.now name.now)) }
{
    let mut classes = chain_of(alloc, program, name)?;
    classes.reverse();
    Ok(classes)
}
