//! Tests limits of assembled classes, each met exactly and exceeded by one (JVMS 4.1, 4.4.7, 4.7.3, 6.5 `ldc`, `goto`).

use crate::sources::{assert_code, assert_fault, method, repeated};
use assembler::AsmFault;
use std::alloc::{AllocError, Global};
use std::process::Abort;
use std::test::Fail;

/// Returns the source of a class with `fields` fields of type int, and a method that loads 7. The pool has A, its
/// class, Object, its class, I, the fields' names, m, ()V, Code and the int.
fn int_after_fields(alloc: Global, fields: u32) -> Result<String, AllocError> {
    let mut text = String::from_str(alloc, ".class A\n")?;
    for field in 0..fields {
        let line = format!(in alloc; ".field f{field} I\n")?;
        text.push_str(line.as_str())?;
    }
    text.push_str(".method static m()V\nldc 7\nreturn\n.end method\n")?;
    Ok(text)
}

fn assert_load(rt: &impl Abort, alloc: Global, fields: u32, bytes: &[u8]) -> Result<(), Fail> {
    let text = int_after_fields(alloc, fields)?;
    let length = assert_code(rt, alloc, text.as_str(), bytes)?;
    assert_eq!(rt; length, Some(bytes.len()));
    Ok(())
}

#[test]
fn a_load_takes_two_bytes_of_number_above_255(rt: HostRuntime) -> Result<(), Fail> {
    assert_load(&rt, rt.alloc(), 246, &[0x12, 0xff, 0xb1])?;
    assert_load(&rt, rt.alloc(), 247, &[0x13, 0x01, 0x00, 0xb1])
}

fn assert_fields(
    rt: &impl Abort,
    alloc: Global,
    fields: u32,
    wanted: Option<AsmFault>,
) -> Result<(), Fail> {
    let text = int_after_fields(alloc, fields)?;
    assert_fault(rt, alloc, text.as_str(), wanted)
}

#[test]
fn a_pool_has_numbers_up_to_65534(rt: HostRuntime) -> Result<(), Fail> {
    assert_fields(&rt, rt.alloc(), 65_525, None)?;
    assert_fields(&rt, rt.alloc(), 65_526, Some(AsmFault::PoolFull))
}

/// Returns the source of a method with a goto over `nops` nops to a return.
fn goto_over(alloc: Global, nops: usize) -> Result<String, AllocError> {
    let nops = repeated(alloc, "nop\n", nops)?;
    let nops = nops.as_str();
    let lines = format!(in alloc; "goto L\n{nops}L: return")?;
    method(alloc, "()V", 0, lines.as_str())
}

#[test]
fn a_branch_reaches_32767_bytes(rt: HostRuntime) -> Result<(), Fail> {
    let text = goto_over(rt.alloc(), 32_764)?;
    assert_code(&rt, rt.alloc(), text.as_str(), &[0xa7, 0x7f, 0xff])?;
    let text = goto_over(rt.alloc(), 32_765)?;
    assert_fault(&rt, rt.alloc(), text.as_str(), Some(AsmFault::BranchTooFar))
}

fn assert_length(
    rt: &impl Abort,
    alloc: Global,
    nops: usize,
    wanted: Option<AsmFault>,
) -> Result<(), Fail> {
    let lines = repeated(alloc, "nop\n", nops)?;
    let text = method(alloc, "()V", 0, lines.as_str())?;
    assert_fault(rt, alloc, text.as_str(), wanted)
}

#[test]
fn code_has_65535_bytes_at_most(rt: HostRuntime) -> Result<(), Fail> {
    assert_length(&rt, rt.alloc(), 65_535, None)?;
    assert_length(&rt, rt.alloc(), 65_536, Some(AsmFault::CodeLength))
}

fn assert_text(
    rt: &impl Abort,
    alloc: Global,
    count: usize,
    wanted: Option<AsmFault>,
) -> Result<(), Fail> {
    let value = repeated(alloc, "a", count)?;
    let value = value.as_str();
    let text = format!(in alloc; ".class A\n.field f Ljava/lang/String; = \"{value}\"")?;
    assert_fault(rt, alloc, text.as_str(), wanted)
}

#[test]
fn a_text_has_65535_bytes_at_most(rt: HostRuntime) -> Result<(), Fail> {
    assert_text(&rt, rt.alloc(), 65_535, None)?;
    assert_text(&rt, rt.alloc(), 65_536, Some(AsmFault::TooMany))
}
