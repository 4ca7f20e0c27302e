//! Tests hierarchies of many classes. Linking terminates for each, and so does a turn that decides whether a class is a
//! subtype of another. `bench/hierarchies.py` measures larger ones.

use crate::programs::{class_of, entry};
use crate::results::results_after;
use jvms_machine::value::Value;
use linker::{ClassFile, LinkFault, link};
use program::Program;
use std::alloc::Global;
use std::process::Abort;
use std::test::Fail;

/// A method of an interface that names a missing field.
const REFERENCE: &str = "
.method static <clinit>()V
getstatic I0/nope I
pop
return
.end method
";

/// Cycles, by their number of interfaces. Each interface has this method.
const CIRCLES: [(usize, &str); 6] = [
    (1, ""),
    (1, REFERENCE),
    (2, ""),
    (2, REFERENCE),
    (37, ""),
    (37, REFERENCE),
];

/// Diamonds, by their number of levels. Each interface has this method. The last number is that of the program's
/// classes, 37 of which are built in.
const DIAMONDS: [(usize, &str, usize); 2] = [(30, "", 97), (30, REFERENCE, 97)];

/// The number of interfaces of the chain.
const DEPTH: usize = 2_000;

/// A class below all interfaces of the chain, which also names a missing field. f decides whether it is a subtype of
/// the topmost interface, which it is, and of Runnable, which it isn't. It returns 1 shifted left by 0.
const LOWEST: &str = "
.class C
.implements I1999
.method <init>()V
aload_0
invokespecial java/lang/Object/<init>()V
return
.end method
.method static f()I
.limit stack 3
new C
dup
invokespecial C/<init>()V
instanceof I0
new C
dup
invokespecial C/<init>()V
instanceof java/lang/Runnable
ishl
ireturn
getstatic C/nope I
.end method
";

/// Assembles the interface of a number, with the superinterfaces of these numbers and this method.
fn interface(
    alloc: Global,
    number: usize,
    above: &[usize],
    method: &str,
) -> Result<ClassFile, Fail> {
    let mut text = format!(in alloc; ".interface I{number}\n")?;
    for other in above {
        let line = format!(in alloc; ".implements I{other}\n")?;
        text.push_str(line.as_str())?;
    }
    text.push_str(method)?;
    class_of(alloc, text.as_str())
}

/// Assembles `count` interfaces, each above the one before and the first above the last.
fn circle(alloc: Global, count: usize, method: &str) -> Result<Vec<ClassFile>, Fail> {
    let mut files = Vec::new(alloc);
    for number in 0..count {
        let next = number.saturating_add(1);
        let above = [if next < count { next } else { 0 }];
        files.push(interface(alloc, number, &above, method)?)?;
    }
    Ok(files)
}

fn fault_of_circle(alloc: Global, count: usize, method: &str) -> Result<Option<LinkFault>, Fail> {
    let files = circle(alloc, count, method)?;
    Ok(link(alloc, files).err())
}

fn assert_circles(rt: &impl Abort, alloc: Global, circles: &[(usize, &str)]) -> Result<(), Fail> {
    for (count, method) in circles {
        let fault = fault_of_circle(alloc, *count, *method)?;
        assert_eq!(rt; fault, Some(LinkFault::Circular { class: 0 }), "{count}");
    }
    Ok(())
}

/// Assembles `levels` levels of two interfaces, each below both interfaces of the level before.
fn diamonds(alloc: Global, levels: usize, method: &str) -> Result<Vec<ClassFile>, Fail> {
    let mut files = Vec::new(alloc);
    for number in 0..levels.saturating_mul(2) {
        let first = (number / 2).saturating_sub(1).saturating_mul(2);
        let above = [first, first.saturating_add(1)];
        let count = if number < 2 { 0 } else { 2 };
        files.push(interface(alloc, number, &above[..count], method)?)?;
    }
    Ok(files)
}

/// Returns the number of classes of a program of diamonds.
fn linked_diamonds(alloc: Global, levels: usize, method: &str) -> Result<usize, Fail> {
    let files = diamonds(alloc, levels, method)?;
    let program = link(alloc, files)?;
    Ok(program.classes().len())
}

fn assert_diamonds(
    rt: &impl Abort,
    alloc: Global,
    all: &[(usize, &str, usize)],
) -> Result<(), Fail> {
    for (levels, method, wanted) in all {
        let count = linked_diamonds(alloc, *levels, *method)?;
        assert_eq!(rt; count, *wanted);
    }
    Ok(())
}

#[test]
fn circles_are_refused_and_diamonds_linked(rt: HostRuntime) -> Result<(), Fail> {
    assert_circles(&rt, rt.alloc(), &CIRCLES)?;
    assert_diamonds(&rt, rt.alloc(), &DIAMONDS)
}

/// Assembles `count` interfaces, each below the one before.
fn chain(alloc: Global, count: usize) -> Result<Vec<ClassFile>, Fail> {
    let mut files = Vec::new(alloc);
    for number in 0..count {
        let above = [number.saturating_sub(1)];
        let count = if number == 0 { 0 } else { 1 };
        files.push(interface(alloc, number, &above[..count], "")?)?;
    }
    Ok(files)
}

/// Links the chain with the class below it.
fn chain_program(alloc: Global) -> Result<Program, Fail> {
    let mut files = chain(alloc, DEPTH)?;
    files.push(class_of(alloc, LOWEST)?)?;
    Ok(link(alloc, files)?)
}

/// Asserts that the method f returns 1 to a machine, and to a copy of it.
fn assert_run(rt: &impl Abort, alloc: Global, program: &Program) -> Result<(), Fail> {
    let entry = entry(alloc, "C", "f", "()I", &[])?;
    let results = results_after(alloc, program, &entry, 0)?;
    let one = Some(Value::Int(1));
    assert_eq!(rt; results, [one, one]);
    Ok(())
}

#[test]
fn a_long_chain_is_linked_and_run(rt: HostRuntime) -> Result<(), Fail> {
    let program = chain_program(rt.alloc())?;
    assert_run(&rt, rt.alloc(), &program)
}
