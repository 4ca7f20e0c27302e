//! Tests look-ups in programs, by the Java Virtual Machine Specification (JVMS 5.4.3, 6.5).

use crate::programs::program_of;
use built_in::is_built_in;
use classes::OBJECT;
use fixtures::members::{field_reference, method_reference};
use fixtures::texts::units;
use jvms_program::number::{FieldNumber, MethodNumber};
use jvms_program::thrown::Thrown;
use program::Program;
use std::alloc::Global;
use std::process::Abort;
use std::test::Fail;

/// The names of classes.
const A: [u16; 1] = [65];

const C: [u16; 1] = [67];

/// The classes after the built-in ones, by their numbers. A (37) extends B (38), which extends Object. I (39) extends
/// Runnable. C (40) extends A and implements I. A has the static method `own`, and B has `up`.
const SOURCES: [&str; 4] = [
    ".class A\n.super B\n.method static own()V\nreturn\n.end method",
    ".class B\n.method up()V\nreturn\n.end method",
    ".interface I\n.implements java/lang/Runnable",
    ".class C\n.super A\n.implements I",
];

/// The method `up` of B.
const UP: MethodNumber = MethodNumber {
    class: 38,
    method: 0,
};

/// Returns the number of classes, the number of class A, and whether it and its method are found.
fn found(program: &Program) -> (usize, Option<usize>, bool, bool) {
    let own = MethodNumber {
        class: 37,
        method: 0,
    };
    (
        program.classes().len(),
        program.class_number(&A),
        program.class(37).is_some() && program.class_named(&A).is_some(),
        program.method(own).is_some() && matches!(program.key(own), Ok(Some(_))),
    )
}

fn looks_up_by_name(rt: &impl Abort, program: &Program) {
    assert_eq!(rt; found(program), (41, Some(37), true, true));
    let built_in = (
        is_built_in(&OBJECT),
        is_built_in(&A),
        program.is_built_in(36),
        program.is_built_in(37),
    );
    assert_eq!(rt; built_in, (true, false, true, false));
}

fn resolves_methods(rt: &impl Abort, alloc: Global, program: &Program) -> Result<(), Fail> {
    let up = method_reference(alloc, false, "A", "up", "()V")?;
    let found = (
        program.resolve_method(false, &up),
        program.resolve_method(true, &up),
    );
    let wrong = Err(Thrown::IncompatibleClassChangeError);
    assert_eq!(rt; found, (Ok(UP), wrong));
    Ok(())
}

fn resolves_fields(rt: &impl Abort, alloc: Global, program: &Program) -> Result<(), Fail> {
    let out = field_reference(alloc, "java/lang/System", "out", "Ljava/io/PrintStream;")?;
    let found = (
        program.resolve_field(true, &out),
        program.resolve_field(false, &out),
    );
    let wrong = Err(Thrown::IncompatibleClassChangeError);
    let out = FieldNumber { class: 3, field: 0 };
    assert_eq!(rt; found, (Ok(out), wrong));
    Ok(())
}

fn knows_what_fits(rt: &impl Abort, alloc: Global, program: &Program) -> Result<(), Fail> {
    let above = units(alloc, "java/lang/Runnable")?;
    let array = units(alloc, "[[LC;")?;
    let found = (
        program.fits(&C, above.as_slice()),
        program.fits(array.as_slice(), &C),
    );
    assert_eq!(rt; found, (true, false));
    Ok(())
}

fn selects_methods(rt: &impl Abort, alloc: Global, program: &Program) -> Result<(), Fail> {
    let named = method_reference(alloc, false, "B", "up", "()V")?;
    let selected = (
        program.select_from(&A, UP),
        program.select_from(&OBJECT, UP),
        program.select_special(&A, &named, UP),
    );
    assert_eq!(rt; selected, (Some(UP), None, Some(UP)));
    Ok(())
}

/// Tests each of these calls once.
fn looks_up(rt: &impl Abort, alloc: Global, program: &Program) -> Result<(), Fail> {
    looks_up_by_name(rt, program);
    resolves_methods(rt, alloc, program)?;
    resolves_fields(rt, alloc, program)?;
    knows_what_fits(rt, alloc, program)?;
    selects_methods(rt, alloc, program)
}

#[test]
fn programs_are_looked_up(rt: HostRuntime) -> Result<(), Fail> {
    let program = program_of(rt.alloc(), &SOURCES)?;
    looks_up(&rt, rt.alloc(), &program)
}
