//! Writes the lines of all instructions of a program that can't run.

ghost use Rattle.std.specs.Prelude.{◌≡◌, ◌++◌, ◌≤◌, IfOk, OnOk, drop, length, position};
ghost use Rattle.std.specs.List.{enumerate_from, flat_map};
ghost use Rattle.std.specs.Option.{is_some};
ghost use Rattle.std.specs.String.{string_bytes};
ghost use Rattle.jvms_program.specs.Program.{key_in};
ghost use Rattle.needs.specs.Lacks.{lack_of};
ghost use Rattle.needs.specs.Lines.{body_lines, class_lines, instruction_line, line_if, method_lines, needs_text, place_text};

use crate::lack::lack_of;
use crate::line::put_need_line;
use built_in::is_built_in;
use escapes::MethodKey;
use jvms_program::program::{Body, Class, Instruction, Method};
use program::Program;
use source_lines::{ClassSource, MethodSource, SourceFiles};
use std::alloc::AllocError;

/// A method of a class, by its number there and its key.
#[derive(Drop)]
struct NumberedMethod {
    number: usize,
    key: MethodKey,
}

/// Returns the key of a method, with the class that declares it.
fn key_in(class: &Class, method: &Method) -> Result<MethodKey, AllocError>
    ensures { IfOk result (λ key. key ≡ key_in class.now method.now) }
{
    Ok(MethodKey {
        class: class.name.share()?,
        name: method.name.share()?,
        descriptor: method.descriptor.share()?,
    })
}

/// Appends the line of an instruction, if it can't run.
fn put_instruction(
    out: &mut String,
    program: &Program,
    source: &MethodSource,
    method: &MethodKey,
    place: usize,
    instruction: &Instruction,
) -> Result<(), AllocError>
    ensures { OnOk result (string_bytes out.new ≡ string_bytes out.old ++ line_if
        (place_text source.now.0 source.now.1 method.now place)
        instruction.now (lack_of program.now instruction.now)) }
{
    match lack_of(program, instruction) {
        None => Ok(()),
        Some(lack) => put_need_line(out, source, method, place, instruction, lack),
    }
}

/// Appends the lines of the instructions from a place on.
fn put_instructions_from(
    out: &mut String,
    program: &Program,
    source: &MethodSource,
    method: &MethodKey,
    first: usize,
    instructions: &[Instruction],
) -> Result<(), AllocError>
    requires { first ≤ length instructions.now }
    ensures { OnOk result (string_bytes out.new ≡ string_bytes out.old ++ flat_map
        (instruction_line program.now (place_text source.now.0 source.now.1 method.now))
        (enumerate_from first (drop first instructions.now))) }
{
    for place in first..instructions.len() {
        put_instruction(out, program, source, method, place, &instructions[place])?;
    }
    Ok(())
}

/// Returns the place of the first instruction that can't run.
fn first_place(program: &Program, instructions: &[Instruction]) -> Option<usize>
    ensures { result ≡ position (λ i. is_some (lack_of program.now i)) instructions.now }
{
    instructions
        .iter()
        .position(|i| lack_of(program, i).is_some())
}

/// Appends the lines of a method's instructions. Finds the lines of the source only if one of them can't run.
fn put_instructions(
    out: &mut String,
    program: &Program,
    source: &ClassSource,
    method: &NumberedMethod,
    instructions: &[Instruction],
) -> Result<(), AllocError>
    ensures { OnOk result (string_bytes out.new ≡ string_bytes out.old ++ flat_map
        (instruction_line program.now (place_text source.now method.now.number method.now.key))
        (enumerate_from 0 instructions.now)) }
{
    let Some(first) = first_place(program, instructions) else {
        return Ok(());
    };
    let source = source.method(*out.allocator(), method.number)?;
    put_instructions_from(out, program, &source, &method.key, first, instructions)
}

/// Appends the lines of a method, if it has code.
fn put_body(
    out: &mut String,
    program: &Program,
    source: &ClassSource,
    method: &NumberedMethod,
    body: &Option<Body>,
) -> Result<(), AllocError>
    ensures { OnOk result (string_bytes out.new ≡ string_bytes out.old ++ body_lines program.now
        (place_text source.now method.now.number method.now.key) body.now) }
{
    match body {
        None => Ok(()),
        Some(body) => {
            put_instructions(out, program, source, method, body.instructions.as_slice())
        }
    }
}

/// Appends the lines of a method of a class.
fn put_method_lines(
    out: &mut String,
    program: &Program,
    source: &ClassSource,
    class: &Class,
    number: usize,
    method: &Method,
) -> Result<(), AllocError>
    ensures { OnOk result (string_bytes out.new ≡ string_bytes out.old
        ++ method_lines program.now source.now class.now (number, method.now)) }
{
    let key = key_in(class, method)?;
    put_body(
        out,
        program,
        source,
        &NumberedMethod { number, key },
        &method.body,
    )
}

/// Appends the lines of all methods of a class.
fn put_methods(
    out: &mut String,
    program: &Program,
    source: &ClassSource,
    class: &Class,
) -> Result<(), AllocError>
    ensures { OnOk result (string_bytes out.new ≡ string_bytes out.old ++ flat_map
        (method_lines program.now source.now class.now) (enumerate_from 0 class.now.methods)) }
{
    let methods = class.methods.as_slice();
    for (place, method) in methods.iter().enumerate() {
        put_method_lines(out, program, source, class, place, method)?;
    }
    Ok(())
}

/// Appends the lines of class `number`, if it isn't built in.
fn put_class(
    out: &mut String,
    program: &Program,
    sources: &SourceFiles,
    number: usize,
    class: &Class,
) -> Result<(), AllocError>
    ensures { OnOk result (string_bytes out.new ≡ string_bytes out.old
        ++ class_lines program.now sources.now.first sources.now.files.now (number, class.now)) }
{
    if is_built_in(class.name.as_slice()) {
        return Ok(());
    }
    put_methods(out, program, &sources.source_of(number), class)
}

/// Appends the lines of all classes of a program.
pub(crate) fn put_needs(
    out: &mut String,
    program: &Program,
    sources: &SourceFiles,
) -> Result<(), AllocError>
    ensures { OnOk result (string_bytes out.new ≡ string_bytes out.old
        ++ needs_text program.now sources.now.first sources.now.files.now) }
{
    let classes = program.classes();
    for (number, class) in classes.iter().enumerate() {
        put_class(out, program, sources, number, class)?;
    }
    Ok(())
}
