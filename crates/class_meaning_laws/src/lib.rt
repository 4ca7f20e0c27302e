//! A law: an assembled class means what its source means. It is the contract of a function with an empty body.
#![tactic(auto)]

ghost use Rattle.std.specs.Prelude.{◌≡◌, Ok};
ghost use Rattle.jvms_file.specs.declared.class_file.ClassFile.{ClassFile};
ghost use Rattle.jvms_program.specs.Meaning.{meaning};
ghost use Rattle.jasmin.specs.declared.source.Source.{Source};
ghost use Rattle.jasmin.specs.Denote.{denote};
ghost use Rattle.assembly.specs.Assembled.{class_file_of};

/// Proves that the class file that a source is assembled to means the class that the source denotes.
pub fn assembled_class_means_its_source()
    ensures { (s : Source) (c : ClassFile) → class_file_of s ≡ Ok c → meaning c ≡ denote s }
{}
