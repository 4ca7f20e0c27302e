//! Tests sources that are cut off: each is read, and assembled if it is still a source.

use assembler::{AsmFault, assemble};
use jasmin_reader::{SourceFault, read};
use std::alloc::Global;
use std::process::Abort;
use std::test::Fail;

/// A source that computes the greatest common divisor of two ints.
const GCD: &str = ".class public G
.super java/lang/Object
.method public static gcd(II)I
.limit stack 3
.limit locals 2
Top:
  iload_1
  ifeq End
  iload_1
  iload_0
  iload_1
  irem
  istore_1
  istore_0
  goto Top
End:
  iload_0
  ireturn
.end method
";

const HELLO_WORLD: &str = ".class public HelloWorld
.super java/lang/Object
.method public <init>()V
  aload_0
  invokenonvirtual java/lang/Object/<init>()V
  return
.end method
.method public static main([Ljava/lang/String;)V
  .limit stack 2
  getstatic java/lang/System/out Ljava/io/PrintStream;
  ldc \"Hello World!\"
  invokevirtual java/io/PrintStream/println(Ljava/lang/String;)V
  return
.end method
";

/// Decides whether a text is a source that is assembled. Asserts that the fault of any other is at one of its lines or
/// one of the assembler's, and that memory doesn't run out.
fn is_class(rt: &impl Abort, alloc: Global, text: &str) -> bool {
    let lines = text.lines().count().max(1);
    match read(alloc, text) {
        Ok(source) => {
            let fault = assemble(alloc, &source).err();
            assert!(rt; fault != Some(AsmFault::Memory), "no memory to assemble");
            fault.is_none()
        }
        Err(SourceFault::Flawed { flaw: _, line }) => {
            assert!(rt; 1 <= line && line <= lines, "line {line} of {lines}");
            false
        }
        Err(SourceFault::Memory) => {
            assert!(rt; false, "no memory to read");
            false
        }
    }
}

/// Returns the number of prefixes of a source that are classes, including the whole source.
fn count_classes(rt: &impl Abort, alloc: Global, whole: &str) -> usize {
    let mut classes = 0usize;
    for end in 0..=whole.len() {
        if let Some(cut) = whole.get(..end)
            && is_class(rt, alloc, cut)
        {
            classes = classes.saturating_add(1);
        }
    }
    classes
}

/// Counts the prefixes of two sources that are classes. They end within or after the name of `.class` or `.super` but
/// not at a `/`, or after an `.end method`. `public` alone is a name, too.
#[test]
fn cut_sources_are_classes_or_have_a_fault(rt: HostRuntime) -> Result<(), Fail> {
    assert_eq!(rt; count_classes(&rt, rt.alloc(), GCD), 9 + 4 + 4 + 7 + 2);
    assert_eq!(rt;
        count_classes(&rt, rt.alloc(), HELLO_WORLD),
        18 + 4 + 4 + 7 + 2 + 2
    );
    Ok(())
}
