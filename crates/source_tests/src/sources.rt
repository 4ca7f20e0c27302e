//! Provides sources to other tests, and assembles them.

use assembler::{AsmFault, ClassFile, assemble};
use jasmin_reader::read;
use jvms_file::class_file::MethodAttribute;
use std::alloc::{AllocError, Global};
use std::process::Abort;
use std::test::Fail;

/// Returns the source of a class `A` with one static method `m` of this descriptor, with `locals` local variables and
/// these lines.
pub fn method(
    alloc: Global,
    descriptor: &str,
    locals: u32,
    lines: &str,
) -> Result<String, AllocError> {
    format!(in alloc;
        ".class A\n.method static m{descriptor}\n.limit locals {locals}\n{lines}\n.end method\n"
    )
}

/// Assembles a source.
fn assembled(alloc: Global, text: &str) -> Result<Result<ClassFile, AsmFault>, Fail> {
    let source = read(alloc, text)?;
    Ok(assemble(alloc, &source))
}

/// Returns the bytes of the code of the first method of a class.
fn code_of(class: &ClassFile) -> Option<&[u8]> {
    let method = class.class().methods.as_slice().first()?;
    for attribute in method.attributes.as_slice() {
        if let MethodAttribute::Code { name: _, code } = attribute {
            return Some(code.layout.bytes.as_slice());
        }
    }
    None
}

/// Asserts that the code of a source's first method begins with these bytes, and returns its length.
pub fn assert_code(
    rt: &impl Abort,
    alloc: Global,
    text: &str,
    begin: &[u8],
) -> Result<Option<usize>, Fail> {
    let class = assembled(alloc, text)??;
    let code = code_of(&class);
    let found = code.and_then(|code| code.get(..begin.len()));
    assert!(rt; found == Some(begin), "{text}");
    Ok(code.map(|code| code.len()))
}

/// Asserts that a source is assembled, or has this fault.
pub fn assert_fault(
    rt: &impl Abort,
    alloc: Global,
    text: &str,
    wanted: Option<AsmFault>,
) -> Result<(), Fail> {
    let fault = assembled(alloc, text)?.err();
    assert_eq!(rt; fault, wanted, "{}", text.get(..99).unwrap_or(text));
    Ok(())
}

/// Returns a line repeated `count` times.
pub fn repeated(alloc: Global, line: &str, count: usize) -> Result<String, AllocError> {
    let mut text = String::new(alloc);
    for _ in 0..count {
        text.push_str(line)?;
    }
    Ok(text)
}
