//! A law: bytes spell the code that a method is assembled to, by the grammar of class files. It is the contract of a
//! function with an empty body.
#![tactic(auto)]

ghost use Rattle.std.specs.Prelude.{◌≡◌, ℕ, List, Ok, false};
ghost use Rattle.std.specs.List.{AllByRecursion};
ghost use Rattle.jvms_file.specs.declared.class_file.Code.{Code};
ghost use Rattle.jvms_file.specs.declared.class_file.Constant.{Constant};
ghost use Rattle.jvms_file.specs.Spelling.{IsU2, SpellsCode};
ghost use Rattle.jasmin.specs.declared.source.MethodLines.{MethodLines};
ghost use Rattle.jasmin.specs.Denote.{operations};
ghost use Rattle.jasmin.specs.Assembling.{has_undefined_label, has_bad_range, is_too_many};
ghost use Rattle.source_form_laws.specs.Formed.{IsFormedItem};
ghost use Rattle.assembly.specs.Named.{AreOperands, AreCaught};
ghost use Rattle.assembly.specs.CodeOf.{code_within};

/// Proves that bytes spell the code that a method is assembled to, in a class file of version 49 (JVMS 4.7.3, 6.5). The
/// indices have to be those of what the code names in a pool. The instructions have to be formed, the labels and ranges
/// good, and the limits and counts within two bytes.
pub fn assembled_code_is_spelled()
    ensures { (pool : List Constant) (m : MethodLines) (operands caught : List ℕ) (code : Code)
        → AreOperands pool operands (operations m.code) → AreCaught pool caught m.catches
        → AllByRecursion IsFormedItem m.code → IsU2 m.max_stack → IsU2 m.max_locals
        → has_undefined_label m ≡ false → has_bad_range m ≡ false
        → is_too_many m.catches ≡ false → code_within operands caught m ≡ Ok code
        → (content : List ℕ) × SpellsCode pool 49 content code }
{}
