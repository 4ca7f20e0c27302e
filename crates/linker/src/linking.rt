//! Linking (JVMS 5.3).

ghost use Rattle.std.specs.Prelude.{◌≡◌, ◌++◌, ◌-◌, IfOk, MatchResult, drop, length, map};
ghost use Rattle.jvms_program.specs.BuiltIn.{built_in_classes};
ghost use Rattle.jvms_program.specs.Meaning.{meaning};
ghost use Rattle.linker.specs.declared.fault.LinkFault.TheVariants as fault;
ghost use Rattle.linker.specs.Linking.{Answers, HaveDistinctNames, link_result, refusal};

use crate::circles::circular;
use crate::class::meaning;
use crate::fault::LinkFault;
use crate::refusals::{built_in_name, missing_super, repeated_name, wrong_super};
use classes::{ClassList, Classes, Ordered};
use jvms_file::class_file::ClassFile;
use jvms_program::program::Class;
use program::Program;
use std::alloc::{AllocError, Global};

/// Returns the classes that class files mean, in order. Drops each file as soon as it has its class.
pub fn classes_of(alloc: Global, files: Vec<ClassFile>) -> Result<Vec<Class>, AllocError>
    ensures { IfOk result (λ classes. classes.items ≡ map meaning files.items) }
{
    let mut classes = Vec::with_capacity(alloc, files.len())?;
    for file in files {
        classes.push(meaning(alloc, file)?)?;
    }
    Ok(classes)
}

/// Returns the last `count` classes of a list.
pub fn last_classes(list: &ClassList, count: usize) -> &[Class]
    ensures { result.now ≡ drop (length list.now - count) list.now }
{
    let classes = list.classes();
    classes.split_at(classes.len().saturating_sub(count)).1
}

/// Runs the tests in order over all classes, which follow the built-in ones. Returns the first that fails, with the
/// first class that fails it.
fn check(alloc: Global, list: &ClassList, classes: &[Class]) -> Result<(), LinkFault>
    requires { list.now ≡ built_in_classes ++ classes.now }
    ensures { Answers result (refusal classes.now) }
{
    if let Some(class) = built_in_name(classes) {
        return Err(LinkFault::BuiltInName { class });
    }
    if let Some(class) = repeated_name(alloc, classes)? {
        return Err(LinkFault::RepeatedClass { class });
    }
    if let Some(class) = missing_super(list, classes) {
        return Err(LinkFault::MissingSuper { class });
    }
    if let Some(class) = wrong_super(list, classes) {
        return Err(LinkFault::SuperKind { class });
    }
    if let Some(class) = circular(alloc, list, classes)? {
        return Err(LinkFault::Circular { class });
    }
    Ok(())
}

/// Creates the program of classes that passed the tests. None of them is circular, so there is an order of them.
fn program_of(alloc: Global, list: ClassList) -> Result<Program, LinkFault>
    ensures { MatchResult result (λ p. p ≡ list) (λ e. e ≡ fault.Memory) }
{
    match Classes::ordered(alloc, list)? {
        Ordered::Classes(classes) => Ok(Program::new(alloc, classes)?),
        Ordered::Unordered(_) => Err(LinkFault::Memory),
    }
}

/// Links class files with the built-in classes (JVMS 5.3), or returns the first test that one of their classes fails. A
/// lack of memory may be returned instead.
#[tactic(auto, unfolding(crate::specs::Linking::link_result, jvms_program::specs::Program::program_of), using(jvms_program::proofs::ProgramLaws::files_are_program))]
pub fn link(alloc: Global, files: Vec<ClassFile>) -> Result<Program, LinkFault>
    // The built-in classes and those of the files in order, or the first test that fails.
    ensures exact { Answers result (link_result files.items) }
    // No two classes of the program have one name.
    ensures distinct { IfOk result (λ p. HaveDistinctNames p) }
{
    let classes = classes_of(alloc, files)?;
    let count = classes.len();
    let list = ClassList::new(alloc, classes)?;
    match check(alloc, &list, last_classes(&list, count)) {
        Ok(()) => program_of(alloc, list),
        Err(fault) => Err(fault),
    }
}
