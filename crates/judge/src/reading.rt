//! Makes the program of class files and sources.

ghost use Rattle.std.specs.Prelude.{◌≡◌, length, IfOk, IfErr};
ghost use Rattle.inputs.specs.Inputs.{Becomes, class_in};
ghost use Rattle.judge.specs.Faults.{IsClassesFault, IsNoProgram, NamesFile};
ghost use Rattle.judge.specs.Programs.{classes_from, program_in};

use crate::fault::JudgeFault;
use inputs::{Input, InputFault, class_of};
use jvms_file::class_file::ClassFile;
use linker::link;
use program::Program;
use std::alloc::Global;

/// Returns the class of an input.
fn class_of_input(alloc: Global, input: &Input) -> Result<ClassFile, InputFault>
    ensures { Becomes result (class_in input.now) }
{
    let class = class_of(alloc, input)?;
    Ok(class.into_class())
}

/// Returns the classes of inputs.
///
/// # Errors
///
/// The fault of the first input that is no class.
pub fn classes_of(alloc: Global, inputs: &[Input]) -> Result<Vec<ClassFile>, JudgeFault>
    ensures classes { IfOk result (λ classes. classes_from 0 inputs.now ≡ Ok classes.items) }
    ensures fault { IfErr result (λ fault. IsClassesFault fault (classes_from 0 inputs.now)) }
    ensures named { IfErr result (λ fault. NamesFile (length inputs.now) fault) }
{
    let mut classes = Vec::new(alloc);
    for (file, input) in inputs.iter().enumerate() {
        match class_of_input(alloc, input) {
            Ok(class) => classes.push(class)?,
            Err(fault) => return Err(JudgeFault::Input { file, fault }),
        }
    }
    Ok(classes)
}

/// Returns the program of class files and sources with the built-in classes (JVMS 5.3).
///
/// # Errors
///
/// The fault of the first input that is no class. Else the reason why the classes can't be linked.
#[tactic(auto, unfolding(crate::specs::Programs::program_in))]
pub fn program_of(alloc: Global, inputs: &[Input]) -> Result<Program, JudgeFault>
    ensures exact { IfOk result (λ program. program_in inputs.now ≡ Ok program) }
    // A fault is returned only if its condition holds. A fault of an input names one of these.
    ensures fault { IfErr result (λ fault. IsNoProgram fault (program_in inputs.now)) }
    ensures named { IfErr result (λ fault. NamesFile (length inputs.now) fault) }
{
    let classes = classes_of(alloc, inputs)?;
    let program = link(alloc, classes)?;
    Ok(program)
}
