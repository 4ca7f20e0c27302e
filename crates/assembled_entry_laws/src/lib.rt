//! Laws about what the pool indices of an assembled class name. Each is the contract of a function with an empty body.
#![tactic(auto)]

ghost use Rattle.std.specs.Prelude.{◌≡◌, ◌≤◌, ℕ, ℤ, List, [], length, Some, Ok};
ghost use Rattle.jvms_file.specs.declared.class_file.Constant.{Constant};
ghost use Rattle.jvms_file.specs.declared.class_file.Constant.TheVariants as constant;
ghost use Rattle.jvms_file.specs.ConstantPool.{entry, utf8_at, class_name_at, name_and_type_at};
ghost use Rattle.jasmin.specs.declared.source.Operation.{Operation};
ghost use Rattle.jasmin.specs.declared.source.CodeItem.{CodeItem};
ghost use Rattle.jasmin.specs.declared.source.Caught.{Caught};
ghost use Rattle.jasmin.specs.declared.source.CatchLine.{CatchLine};
ghost use Rattle.jasmin.specs.Denote.{operations};
ghost use Rattle.pool_entries.specs.declared.kind.MethodKind.{MethodKind};
ghost use Rattle.pool_entries.specs.Entries.{constant_entry, text_entry, class_entry, string_entry, integer_entry, long_entry, name_and_type_entry, field_entry, method_constant, method_entry};
ghost use Rattle.pool_entries.specs.Kept.{IsKept};
ghost use Rattle.pool_entries.specs.Named.{IsString, IsMember};
ghost use Rattle.assembly.specs.Named.{NamesClass, NamesOperand, AreOperands, NamesCaught, AreCaught, AreClasses};
ghost use Rattle.assembly.specs.Operands.{operands_onto, catches_onto, classes_onto};
ghost use Rattle.assembled_entry_laws.specs.Entered.{IsEntered};

/// Proves that the index that an entry is given names the entry, or what the entry names. The index fits two bytes, and
/// the new pool keeps the entries of the old one (JVMS 4.4).
pub fn one_entry()
    ensures constants { (pool new : List Constant) (c : Constant) (n : ℕ) → length pool ≤ 65534
        → constant_entry pool c ≡ Ok (n, new) → IsEntered pool n new × (entry new n ≡ Some c) }
    ensures texts { (pool new : List Constant) (units : List ℕ) (n : ℕ)
        → length pool ≤ 65534 → text_entry pool units ≡ Ok (n, new)
        → IsEntered pool n new × (utf8_at new n ≡ Some units) }
    ensures classes { (pool new : List Constant) (name : List ℕ) (n : ℕ)
        → length pool ≤ 65534 → class_entry pool name ≡ Ok (n, new)
        → IsEntered pool n new × (class_name_at new n ≡ Some name) }
    ensures strings { (pool new : List Constant) (units : List ℕ) (n : ℕ) → length pool ≤ 65534
        → string_entry pool units ≡ Ok (n, new) → IsEntered pool n new × IsString new n units }
    ensures integers { (pool new : List Constant) (k : ℤ) (n : ℕ)
        → length pool ≤ 65534 → integer_entry pool k ≡ Ok (n, new)
        → IsEntered pool n new × (entry new n ≡ Some (constant.Integer k)) }
    ensures longs { (pool new : List Constant) (k : ℤ) (n : ℕ)
        → length pool ≤ 65534 → long_entry pool k ≡ Ok (n, new)
        → IsEntered pool n new × (entry new n ≡ Some (constant.Long k)) }
    ensures names_and_types { (pool new : List Constant) (name descriptor : List ℕ) (n : ℕ)
        → length pool ≤ 65534 → name_and_type_entry pool name descriptor ≡ Ok (n, new)
        → IsEntered pool n new × (name_and_type_at new n ≡ Some (name, descriptor)) }
    ensures fields { (pool new : List Constant) (class name descriptor : List ℕ) (n : ℕ)
        → length pool ≤ 65534 → field_entry pool class name descriptor ≡ Ok (n, new)
        → IsEntered pool n new × IsMember (λ c m. constant.Field c m) new n class name descriptor }
    ensures methods { (how : MethodKind) (pool new : List Constant) (class name descriptor : List ℕ)
        (n : ℕ) → length pool ≤ 65534 → method_entry how pool class name descriptor ≡ Ok (n, new)
        → IsEntered pool n new × IsMember (method_constant how) new n class name descriptor }
{}

/// Proves that an index names the same class or operand in each pool that keeps the entries.
pub fn naming_is_kept()
    ensures class { (old new : List Constant) (n : ℕ) (name : List ℕ)
        → IsKept old new → NamesClass old n name → NamesClass new n name }
    ensures operand { (old new : List Constant) (n : ℕ) (o : Operation)
        → IsKept old new → NamesOperand old n o → NamesOperand new n o }
    ensures operands { (old new : List Constant) (numbers : List ℕ) (os : List Operation)
        → IsKept old new → AreOperands old numbers os → AreOperands new numbers os }
    ensures caught { (old new : List Constant) (n : ℕ) (c : Caught)
        → IsKept old new → NamesCaught old n c → NamesCaught new n c }
    ensures catches { (old new : List Constant) (numbers : List ℕ) (cs : List CatchLine)
        → IsKept old new → AreCaught old numbers cs → AreCaught new numbers cs }
    ensures classes { (old new : List Constant) (numbers : List ℕ) (names : List (List ℕ))
        → IsKept old new → AreClasses old numbers names → AreClasses new numbers names }
{}

/// Proves that the indices for a method's instructions name what the instructions name (JVMS 4.4).
pub fn operands_are_named()
    ensures { (pool new : List Constant) (items : List CodeItem) (numbers : List ℕ)
        → length pool ≤ 65534 → operands_onto [] pool items ≡ Ok (numbers, new)
        → AreOperands new numbers (operations items) × IsKept pool new × (length new ≤ 65534) }
{}

/// Proves that the indices for a method's catches name their classes (JVMS 4.7.3).
pub fn catches_are_named()
    ensures { (pool new : List Constant) (catches : List CatchLine) (numbers : List ℕ)
        → length pool ≤ 65534 → catches_onto [] pool catches ≡ Ok (numbers, new)
        → AreCaught new numbers catches × IsKept pool new × (length new ≤ 65534) }
{}

/// Proves that the indices for names of classes are those of their entries (JVMS 4.4.1).
pub fn classes_are_named()
    ensures { (pool new : List Constant) (names : List (List ℕ)) (numbers : List ℕ)
        → length pool ≤ 65534 → classes_onto [] pool names ≡ Ok (numbers, new)
        → AreClasses new numbers names × IsKept pool new × (length new ≤ 65534) }
{}
