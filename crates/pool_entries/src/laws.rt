//! Laws for the crates above. Each is the contract of an empty function, so that the gate proves it.

ghost use Rattle.std.specs.Prelude.{◌≡◌, ℕ, List, Some};
ghost use Rattle.jvms_file.specs.declared.class_file.Constant.{Constant};
ghost use Rattle.jvms_file.specs.ConstantPool.{utf8_at, class_name_at, name_and_type_at};
ghost use Rattle.pool_entries.specs.Kept.{IsKept};
ghost use Rattle.pool_entries.specs.Named.{IsString, IsMember};

/// Proves that a pool keeps its own entries, and that keeping is transitive.
pub fn keeping_is_transitive()
    ensures reflexive { (pool : List Constant) → IsKept pool pool }
    ensures transitive { (a b c : List Constant) → IsKept a b → IsKept b c → IsKept a c }
{}

/// Proves that a number names the same in each pool that keeps the entries.
pub fn names_are_kept()
    ensures texts { (old new : List Constant) (n : ℕ) (text : List ℕ)
        → IsKept old new → utf8_at old n ≡ Some text → utf8_at new n ≡ Some text }
    ensures classes { (old new : List Constant) (n : ℕ) (name : List ℕ) → IsKept old new
        → class_name_at old n ≡ Some name → class_name_at new n ≡ Some name }
    ensures names_and_types { (old new : List Constant) (n : ℕ) (pair : List ℕ × List ℕ)
        → IsKept old new → name_and_type_at old n ≡ Some pair → name_and_type_at new n ≡ Some pair }
    ensures strings { (old new : List Constant) (n : ℕ) (text : List ℕ)
        → IsKept old new → IsString old n text → IsString new n text }
    ensures members { (make : ℕ → ℕ → Constant) (old new : List Constant)
        (n : ℕ) (class name descriptor : List ℕ) → IsKept old new
        → IsMember make old n class name descriptor → IsMember make new n class name descriptor }
{}
