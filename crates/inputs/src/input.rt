//! Reads a class file or a source as a class.

ghost use Rattle.std.specs.Prelude.{◌≡◌, IfErr};
ghost use Rattle.jvms_file.specs.ClassFile.{read};
ghost use Rattle.inputs.specs.Inputs.{Becomes, IsOfBytes, IsOfText, IsOfSort, class_in, class_of_bytes, class_of_text};

use crate::fault::InputFault;
use assembler::assemble;
use class_file::ClassFile;
use jasmin_reader::read as read_source;
use std::alloc::Global;

/// The content of a FILE.
#[derive(Debug, Drop)]
pub enum Input {
    /// The bytes of a class file (JVMS 4).
    ClassFile(Vec<u8>),
    /// The text of a source in Jasmin.
    Source(String),
}

/// Returns the class that bytes spell.
fn class_of_file(alloc: Global, bytes: &[u8]) -> Result<ClassFile, InputFault>
    ensures exact { Becomes result (class_of_bytes bytes.now) }
    ensures sort { IfErr result IsOfBytes }
{
    Ok(class_file::read(alloc, bytes)?)
}

/// Returns the class that a text is assembled to.
#[tactic(auto, unfolding(crate::specs::Inputs::class_of_text))]
fn class_of_source(alloc: Global, text: &str) -> Result<ClassFile, InputFault>
    ensures exact { Becomes result (class_of_text text.now) }
    ensures sort { IfErr result IsOfText }
{
    let source = read_source(alloc, text)?;
    Ok(assemble(alloc, &source)?)
}

/// Returns the class of a FILE.
///
/// # Errors
///
/// Returns C01 to C18 for a class file, and J01 to J12 or A01 to A08 for a source.
pub fn class_of(alloc: Global, input: &Input) -> Result<ClassFile, InputFault>
    // The result is the class that the bytes spell or that the text is assembled to, or the first fault, unless memory
    // runs out.
    ensures exact { Becomes result (class_in input.now) }
    // A fault, that of memory too, is one of this sort of FILE.
    ensures sort { IfErr result (IsOfSort input.now) }
{
    match input {
        Input::ClassFile(bytes) => class_of_file(alloc, bytes.as_slice()),
        Input::Source(text) => class_of_source(alloc, text.as_str()),
    }
}
