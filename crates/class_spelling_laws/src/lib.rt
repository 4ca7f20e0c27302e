//! A law: bytes spell the class that a source is assembled to, by the grammar of class files. It is the contract of a
//! function with an empty body.
#![tactic(auto)]

ghost use Rattle.std.specs.Prelude.{◌≡◌, ℕ, List, Ok};
ghost use Rattle.jvms_file.specs.declared.class_file.ClassFile.{ClassFile};
ghost use Rattle.jvms_file.specs.Spelling.{Spells};
ghost use Rattle.jasmin.specs.declared.source.Source.{Source};
ghost use Rattle.pool_entries.specs.Entries.{AreProper};
ghost use Rattle.source_form_laws.specs.Formed.{IsFormed};
ghost use Rattle.assembly.specs.Assembled.{class_file_of};

/// Proves that bytes spell the class that a formed source is assembled to, if the units of its pool's texts have 16
/// bits (JVMS 4.1).
pub fn assembled_class_is_spelled()
    ensures { (s : Source) (c : ClassFile) → class_file_of s ≡ Ok c → IsFormed s → AreProper c.pool
        → (bytes : List ℕ) × Spells bytes c }
{}
