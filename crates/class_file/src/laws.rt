//! The bytes of a written class spell it. Each law is the contract of an empty function.

ghost use Rattle.std.specs.Prelude.{◌≡◌, ℕ, List, Ok};
ghost use Rattle.jvms_file.specs.declared.class_file.ClassFile.{ClassFile};
ghost use Rattle.jvms_file.specs.ClassFile.{read};
ghost use Rattle.jvms_file.specs.Spelling.{Spells};
ghost use Rattle.class_file.specs.Writing.{class_bytes};

/// Proves that a class that has a spelling is spelled by the bytes that are written of it (JVMS 4.1).
pub fn what_is_written_spells()
    ensures { (bytes : List ℕ) (c : ClassFile) → Spells bytes c → Spells (class_bytes c) c }
{}

/// Proves that a class that has a spelling is read from the bytes that are written of it (JVMS 4.1).
pub fn what_is_written_is_read_again()
    ensures { (bytes : List ℕ) (c : ClassFile) → Spells bytes c → read (class_bytes c) ≡ Ok c }
{}
