//! Tests that the code of methods is read as instructions (JVMS 4.7.3, 6.5, 7).

use crate::class_bytes::{G, refusal};
use const_pool::ScannedPool;
use insn::{Decoded, Insn, decode, insn_at};
use jvms_file::fault::ClassFault;
use jvms_file::insn::{
    Branch, Comparison, Division, IntInsn, Kind, LocalUse, LookupSwitch, Push, ReturnInsn, Simple,
    SwitchCase, TableSwitch,
};
use shared_data::boxed::Boxed;
use shared_data::items::Items;
use std::alloc::{AllocError, Global};
use std::process::Abort;
use std::test::Fail;

fn load(local: u16) -> Insn {
    Insn::Simple(Simple::Local(LocalUse::Load(Kind::Int), local))
}

fn store(local: u16) -> Insn {
    Insn::Simple(Simple::Local(LocalUse::Store(Kind::Int), local))
}

/// Returns a pool without entries, since these instructions name none.
fn pool(alloc: Global) -> Result<ScannedPool, AllocError> {
    ScannedPool::of(alloc, Items::new(alloc))
}

/// Decodes the instructions of bytes.
fn decoded(alloc: Global, bytes: &[u8]) -> Result<Decoded, Fail> {
    let entries = pool(alloc)?;
    Ok(decode(alloc, &entries, 49, bytes)?)
}

/// Returns the fault of bytes that aren't decoded, if they aren't.
fn refused(alloc: Global, bytes: &[u8]) -> Result<Option<ClassFault>, Fail> {
    let entries = pool(alloc)?;
    Ok(refusal(decode(alloc, &entries, 49, bytes)))
}

/// Returns the instructions of the greatest common divisor of two ints.
fn gcd() -> [Insn; 11] {
    [
        load(1),
        Insn::Branch(Branch::IfZero(Comparison::Equal), 9),
        load(1),
        load(0),
        load(1),
        Insn::Simple(Simple::Int(IntInsn::Division(Division::Remainder))),
        store(1),
        store(0),
        Insn::Branch(Branch::Goto, 0),
        load(0),
        Insn::Simple(Simple::Return(ReturnInsn::Value(Kind::Int))),
    ]
}

/// Returns instructions two of which are wide, since their local variable is above 255.
fn wide() -> [Insn; 6] {
    [
        load(0),
        store(299),
        Insn::Branch(Branch::Goto, 4),
        Insn::Simple(Simple::Nop),
        load(299),
        Insn::Simple(Simple::Return(ReturnInsn::Value(Kind::Int))),
    ]
}

/// The bytes of these instructions.
const WIDE: [u8; 15] = [
    0x15, 0x00, 0xc4, 0x36, 0x01, 0x2b, 0xa7, 0x00, 0x04, 0x00, 0xc4, 0x15, 0x01, 0x2b, 0xac,
];

/// Asserts that bytes are these instructions, which start at these bytes.
fn assert_insns(
    rt: &impl Abort,
    alloc: Global,
    bytes: &[u8],
    insns: &[Insn],
    starts: &[u32],
) -> Result<(), Fail> {
    let code = decoded(alloc, bytes)?;
    assert!(rt; code.insns.as_slice() == insns);
    assert_eq!(rt; code.starts.as_slice(), starts);
    Ok(())
}

#[test]
fn code_is_instructions(rt: HostRuntime) -> Result<(), Fail> {
    let starts = [0, 1, 4, 5, 6, 7, 8, 9, 10, 13, 14];
    assert_insns(&rt, rt.alloc(), &G[94..109], &gcd(), &starts)?;
    assert_insns(&rt, rt.alloc(), &WIDE, &wide(), &[0, 2, 6, 9, 10, 14])
}

/// Returns `nops` nops, a tableswitch whose default and targets are its own byte, and a return. Its padding isn't
/// zeros.
fn table_bytes(
    alloc: Global,
    nops: usize,
    low: i32,
    high: i32,
    targets: usize,
) -> Result<Vec<u8>, AllocError> {
    let mut bytes = vec![in alloc; 0; nops]?;
    bytes.push(0xaa)?;
    for _ in 0..3 - nops % 4 {
        bytes.push(0x7f)?;
    }
    for number in [0, low, high] {
        bytes.extend_from_slice(&number.to_be_bytes())?;
    }
    for _ in 0..targets {
        bytes.extend_from_slice(&[0; 4])?;
    }
    bytes.push(0xb1)?;
    Ok(bytes)
}

/// Returns a tableswitch whose default and targets are the instruction of this number.
fn table(alloc: Global, place: u32, low: i32, targets: usize) -> Result<Insn, AllocError> {
    let switch = TableSwitch {
        default: place,
        low,
        targets: Items::from_vec(vec![in alloc; place; targets]?),
    };
    Ok(Insn::Table(Boxed::new(alloc, switch)?))
}

/// Asserts that the bytes of a tableswitch after `pc` nops are decoded as the tableswitch, and that it has `length`
/// bytes.
fn assert_table(
    rt: &impl Abort,
    alloc: Global,
    pc: u32,
    bounds: (i32, i32),
    targets: usize,
    length: u32,
) -> Result<(), Fail> {
    let (low, high) = bounds;
    let bytes = table_bytes(alloc, pc as usize, low, high, targets)?;
    let code = decoded(alloc, &bytes)?;
    assert_eq!(rt;
        code.starts.as_slice().last().copied(),
        Some(pc.wrapping_add(length))
    );
    let table = table(alloc, pc, low, targets)?;
    assert!(rt;
        code.insns.as_slice().get(pc as usize) == Some(&table),
        "at {pc}"
    );
    Ok(())
}

#[test]
fn table_switches(rt: HostRuntime) -> Result<(), Fail> {
    for (pc, low, high, targets, length) in [
        (0, i32::MAX, i32::MAX, 1, 20),
        (1, i32::MAX, i32::MAX, 1, 19),
        (2, i32::MAX, i32::MAX, 1, 18),
        (3, i32::MAX, i32::MAX, 1, 17),
        (0u32, -1, 0, 2, 24),
        (3, -1, 0, 2, 21),
    ] {
        assert_table(&rt, rt.alloc(), pc, (low, high), targets, length)?;
    }
    Ok(())
}

/// A lookupswitch at byte 0 with one case. Its default and its case jump to itself.
const LOOKUP: [u8; 20] = [
    0xab, 1, 2, 3, 0, 0, 0, 0, 0, 0, 0, 1, 0xff, 0xff, 0xff, 0xff, 0, 0, 0, 0,
];

/// Returns that lookupswitch.
fn lookup(alloc: Global) -> Result<Insn, AllocError> {
    let case = SwitchCase {
        value: -1,
        target: 0,
    };
    let switch = LookupSwitch {
        default: 0,
        cases: Items::from_vec(vec![in alloc; case]?),
    };
    Ok(Insn::Lookup(Boxed::new(alloc, switch)?))
}

#[test]
fn lookup_switches(rt: HostRuntime) -> Result<(), Fail> {
    let lookup = [lookup(rt.alloc())?];
    assert_insns(&rt, rt.alloc(), &LOOKUP, &lookup, &[0])
}

/// Returns the fault of a method of `count` nops, if it is refused.
fn refused_nops(alloc: Global, count: usize) -> Result<Option<ClassFault>, Fail> {
    let nops = vec![in alloc; 0; count]?;
    refused(alloc, &nops)
}

#[test]
fn a_method_has_at_most_65535_bytes(rt: HostRuntime) -> Result<(), Fail> {
    assert_eq!(rt; refused_nops(rt.alloc(), 65535)?, None);
    assert_eq!(rt;
        refused_nops(rt.alloc(), 65536)?,
        Some(ClassFault::CodeLength)
    );
    Ok(())
}

#[test]
fn one_instruction(rt: HostRuntime) -> Result<(), Fail> {
    let entries = pool(rt.alloc())?;
    let (insn, rest) = insn_at(rt.alloc(), &entries, 49, 7, &[0x11, 0x80, 0x00, 0xac])?;
    assert!(rt; insn == Insn::Simple(Simple::Push(Push::Int(-32768))));
    assert_eq!(rt; rest, [0xac].as_slice());
    Ok(())
}
