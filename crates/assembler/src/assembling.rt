//! Assembles the class file of a source that a text spells.

ghost use Rattle.std.specs.Prelude.{◌≡◌, IfOk};
ghost use Rattle.jvms_program.specs.Meaning.{meaning};
ghost use Rattle.jasmin.specs.Denote.{denote};
ghost use Rattle.assembly.specs.Faults.{Answers};
ghost use Rattle.assembly.specs.Assembled.{class_file_of};

use crate::class::class_of;
use assembly::fault::AsmFault;
use class_file::ClassFile;
use jasmin_reader::Source;
use std::alloc::Global;

/// Returns the class file of a source, of version 49.0. The entries of its constant pool are numbered by first use. An
/// instruction is written as it is spelled. `wide` is added where it is needed, `ldc` becomes `ldc_w` if its entry's
/// index needs two bytes, and no branch is lengthened.
///
/// # Errors
///
/// Returns A01 to A05, A07 or A08 if a label, a branch, a length or a count can't be written, and A06 if memory ran
/// out.
#[tactic(auto, using(crate::proofs::Spelled::has_spelling, crate::proofs::Spelled::means_its_source))]
pub fn assemble(alloc: Global, source: &Source) -> Result<ClassFile, AsmFault>
    // The result is the class file, entry by entry and byte by byte, or the first fault, unless memory runs out.
    ensures exact { Answers result (class_file_of source.now) }
    // The class file means what the source denotes.
    ensures means { IfOk result (λ c. meaning c ≡ denote source.now) }
{
    let class = class_of(alloc, source.tree())?;
    Ok(ClassFile::new(class))
}
