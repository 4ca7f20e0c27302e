//! `needs`: lists what the classes of a program lack.

ghost use Rattle.std.specs.Prelude.{◌≡◌, ◌≢◌, ◌+◌, IfOk, IfErr, OnOk, IsErrOf, Ok, length};
ghost use Rattle.std.specs.String.{string_bytes};
ghost use Rattle.judge.specs.Faults.{IsFault as IsJudgeFault, NamesFile as NamesInput};
ghost use Rattle.commands.specs.Faults.{IsFault, NamesFile, WroteBeginning};
ghost use Rattle.commands.specs.Missing.{HasWritten, missing_in, missing_in_program};

use crate::fault::RunFault;
use atom_spec::SpecificationLine;
use inputs::Input;
use judge::{JudgeFault, classes_of, program_of};
use jvms_file::class_file::ClassFile;
use needs::{missing_supers, missing_text};
use source_lines::SourceFiles;
use std::alloc::Global;
use trace::ByteOut;

/// Returns the text of what the program of class files and sources lacks, and of the lines of a specification that
/// match no method. `files` are the classes of the inputs.
fn missing_in_program(
    alloc: Global,
    inputs: &[Input],
    files: &[ClassFile],
    lines: &[SpecificationLine],
) -> Result<String, JudgeFault>
    ensures exact { IfOk result (λ text.
        missing_in_program lines.now files.now inputs.now ≡ Ok (string_bytes text)) }
    ensures fault { IfErr result
        (λ fault. IsJudgeFault fault (missing_in_program lines.now files.now inputs.now)) }
    ensures named { IfErr result (λ fault. NamesInput (length inputs.now) fault) }
{
    let program = program_of(alloc, inputs)?;
    let sources = SourceFiles::new(program.classes(), files);
    let text = missing_text(alloc, &program, &sources, lines)?;
    Ok(text)
}

/// Returns the text of missing superclasses, if there are any. Else returns the text of what the program lacks, and of
/// the lines of a specification that match no method.
#[tactic(auto, unfolding(crate::specs::Missing::missing_in))]
fn missing_in(
    alloc: Global,
    inputs: &[Input],
    lines: &[SpecificationLine],
) -> Result<String, JudgeFault>
    ensures exact { IfOk result (λ text. missing_in lines.now inputs.now ≡ Ok (string_bytes text)) }
    ensures fault { IfErr result (λ fault. IsJudgeFault fault (missing_in lines.now inputs.now)) }
    ensures named { IfErr result (λ fault. NamesInput (length inputs.now) fault) }
{
    let files = classes_of(alloc, inputs)?;
    let Ok(again) = classes_of(alloc, inputs) else {
        return Err(JudgeFault::Memory);
    };
    let supers = missing_supers(alloc, again)?;
    if supers.as_str().is_empty() {
        missing_in_program(alloc, inputs, files.as_slice(), lines)
    } else {
        Ok(supers)
    }
}

/// Writes what the program of class files and sources lacks, and which lines of a specification match none of its
/// methods. If superclasses or superinterfaces are missing, writes only those. Returns whether nothing is missing.
pub fn write_missing<W: ByteOut>(
    alloc: Global,
    inputs: &[Input],
    lines: &[SpecificationLine],
    output: &mut W,
) -> Result<bool, RunFault>
    // The text that was written is that of the program of the inputs, and the result is whether it is empty.
    ensures written { IfOk result (λ is_whole. HasWritten (missing_in lines.now inputs.now)
        (W.written output.old) (W.written output.new) is_whole) }
    ensures count { OnOk result (W.failures output.new ≡ W.failures output.old) }
    // A fault is returned only if its condition holds. A fault of a file names one of these.
    ensures fault { IfErr result (λ fault. IsFault fault (missing_in lines.now inputs.now)) }
    ensures named { IfErr result (λ fault. NamesFile (length inputs.now) fault) }
    ensures untouched { IfErr result (λ fault. fault ≢ RunFault.Output → output.new ≡ output.old) }
    // The fault is `Output` only if the writer failed. Then a prefix of the text was written.
    ensures failed { IsErrOf result RunFault.Output
        → W.failures output.new ≡ W.failures output.old + 1 }
    ensures beginning { IsErrOf result RunFault.Output
        → WroteBeginning (missing_in lines.now inputs.now)
        (λ text. text) (W.written output.old) (W.written output.new) }
{
    let text = missing_in(alloc, inputs, lines)?;
    output.write_all(text.as_bytes())?;
    Ok(text.as_str().is_empty())
}
