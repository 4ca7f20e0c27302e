//! Tests sources that can't be assembled, and some that just can.

use crate::sources::{assert_fault, method};
use assembler::AsmFault;
use std::alloc::Global;
use std::process::Abort;
use std::test::Fail;

/// Lines of a method, with the fault of its source, if it has one. A range may end at the code's end.
const METHODS: [(&str, Option<AsmFault>); 11] = [
    ("goto L", Some(AsmFault::UndefinedLabel)),
    ("goto L\nL:", Some(AsmFault::UndefinedLabel)),
    (
        "tableswitch 0\nL\ndefault : M\nL: return",
        Some(AsmFault::UndefinedLabel),
    ),
    (
        ".catch all from L to M using N\nL: return\nM:",
        Some(AsmFault::UndefinedLabel),
    ),
    (
        ".catch all from L to M using M\nL: return\nM:",
        Some(AsmFault::UndefinedLabel),
    ),
    ("L: nop\nL: return", Some(AsmFault::RepeatedLabel)),
    ("", Some(AsmFault::CodeLength)),
    ("L:", Some(AsmFault::CodeLength)),
    (
        ".catch all from L to L using L\nL: return",
        Some(AsmFault::CatchRange),
    ),
    (
        ".catch all from M to L using L\nL: nop\nM: return",
        Some(AsmFault::CatchRange),
    ),
    (".catch a/E from L to M using L\nL: return\nM:", None),
];

/// Sources that are assembled. A native method may have labels and no code.
const SOURCES: [&str; 2] = [
    ".class A\n.method native m()V\n.throws a/E\nL:\n.end method",
    ".interface public I\n.implements J\n.field x J = -1\n.method abstract m()V\n.end method",
];

fn assert_method_fault(
    rt: &impl Abort,
    alloc: Global,
    lines: &str,
    wanted: Option<AsmFault>,
) -> Result<(), Fail> {
    let text = method(alloc, "()V", 0, lines)?;
    assert_fault(rt, alloc, text.as_str(), wanted)
}

fn assert_method_faults(
    rt: &impl Abort,
    alloc: Global,
    methods: &[(&str, Option<AsmFault>)],
) -> Result<(), Fail> {
    for (lines, wanted) in methods {
        assert_method_fault(rt, alloc, *lines, *wanted)?;
    }
    Ok(())
}

fn assert_assembled(rt: &impl Abort, alloc: Global, sources: &[&str]) -> Result<(), Fail> {
    for text in sources {
        assert_fault(rt, alloc, *text, None)?;
    }
    Ok(())
}

#[test]
fn a_method_has_these_faults(rt: HostRuntime) -> Result<(), Fail> {
    assert_method_faults(&rt, rt.alloc(), &METHODS)?;
    assert_assembled(&rt, rt.alloc(), &SOURCES)
}
