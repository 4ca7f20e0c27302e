//! Laws about programs. Each is the contract of an empty function, so that the gate proves it.

ghost use Rattle.std.specs.Prelude.{List};
ghost use Rattle.jvms_file.specs.declared.class_file.ClassFile.{ClassFile};
ghost use Rattle.jvms_program.specs.Program.{IsProgram, program_of};

/// Proves that the built-in classes, followed by the meanings of class files, are a program.
pub fn what_files_mean_is_a_program()
    ensures { (files : List ClassFile) → IsProgram (program_of files) }
{}
