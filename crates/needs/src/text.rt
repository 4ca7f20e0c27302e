//! Writes all that a program lacks.

ghost use Rattle.std.specs.Prelude.{◌≡◌, IfOk};
ghost use Rattle.std.specs.String.{string_bytes};
ghost use Rattle.needs.specs.Unmatched.{missing_text, unmatched_lines};

use crate::lines::put_needs;
use crate::unmatched::put_unmatched;
use atom_spec::SpecificationLine;
use program::Program;
use source_lines::SourceFiles;
use std::alloc::{AllocError, Global};

/// Returns all that is missing. The classes that aren't built in have a line for each instruction that can't run. The
/// specification has one for each of its lines that matches none of their methods. The text is empty if nothing is
/// missing.
pub fn missing_text(
    alloc: Global,
    program: &Program,
    sources: &SourceFiles,
    lines: &[SpecificationLine],
) -> Result<String, AllocError>
    ensures { IfOk result (λ text. string_bytes text
        ≡ missing_text program.now sources.now.first sources.now.files.now lines.now) }
{
    let mut text = String::new(alloc);
    put_needs(&mut text, program, sources)?;
    put_unmatched(&mut text, program, lines)?;
    Ok(text)
}

/// Returns a line for each line of a specification that matches no method of the classes that aren't built in.
pub fn unmatched_text(
    alloc: Global,
    program: &Program,
    lines: &[SpecificationLine],
) -> Result<String, AllocError>
    ensures { IfOk result (λ text. string_bytes text ≡ unmatched_lines program.now lines.now) }
{
    let mut text = String::new(alloc);
    put_unmatched(&mut text, program, lines)?;
    Ok(text)
}
