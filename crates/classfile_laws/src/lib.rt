//! Reading and the grammar of class files agree. Each law is the contract of an empty function.
#![tactic(auto)]

ghost use Rattle.std.specs.Prelude.{◌≡◌, ◌<◌, ◌+◌, ◌*◌, ◌++◌, [], ℕ, List, length, Ok, Err};
ghost use Rattle.std.specs.List.{AllByRecursion};
ghost use Rattle.jvms_file.specs.declared.class_file.ClassFile.{ClassFile};
ghost use Rattle.jvms_file.specs.declared.class_file.Constant.{Constant};
ghost use Rattle.jvms_file.specs.declared.fault.ClassFault.{ClassFault};
ghost use Rattle.jvms_file.specs.declared.fault.ClassFault.TheVariants.{Truncated};
ghost use Rattle.jvms_file.specs.declared.insn.Insn.{Insn};
ghost use Rattle.jvms_file.specs.declared.insn.Insn.TheVariants as insn;
ghost use Rattle.jvms_file.specs.declared.insn.TableSwitch.{TableSwitch};
ghost use Rattle.jvms_file.specs.declared.insn.LookupSwitch.{LookupSwitch};
ghost use Rattle.jvms_file.specs.ClassFile.{read};
ghost use Rattle.jvms_file.specs.Code.{insns_of, layout_of};
ghost use Rattle.jvms_file.specs.ConstantPool.{pool_at, entries_fault};
ghost use Rattle.jvms_file.specs.Spelling.{Spells, SpellsPool, SpellsInsn, SpellsInsns};
ghost use Rattle.classfile_laws.specs.Switches.{HasAlignedDefault};

/// Proves that bytes that spell a class are read as that class (JVMS 4.1).
pub fn what_is_spelled_is_read()
    ensures { (bytes : List ℕ) (c : ClassFile) → Spells bytes c → read bytes ≡ Ok c }
{}

/// Proves that bytes that are read as a class spell it (JVMS 4.1).
pub fn what_is_read_is_spelled()
    ensures { (bytes : List ℕ) (c : ClassFile) → AllByRecursion (λ b. b < 256) bytes
        → read bytes ≡ Ok c → Spells bytes c }
{}

/// Proves that no bytes spell two classes.
pub fn bytes_spell_at_most_one_class()
    ensures { (bytes : List ℕ) (c d : ClassFile) → Spells bytes c → Spells bytes d → c ≡ d }
{}

/// Proves that no spelling of a class is the front of a longer one.
pub fn nothing_spelled_begins_another_spelling()
    ensures { (bytes more : List ℕ) (c d : ClassFile)
        → Spells bytes c → Spells (bytes ++ more) d → more ≡ [] }
{}

/// Proves that a cut spelling of a class is refused as truncated. The place of the first missing byte is the length of
/// the bytes that are there (JVMS 4).
pub fn a_cut_spelling_is_truncated()
    ensures { (bytes more : List ℕ) (c : ClassFile) → Spells (bytes ++ more) c → 0 < length more
        → read bytes ≡ Err (Truncated (length bytes)) }
{}

/// Proves that bytes that spell instructions are read as those, with their starts (JVMS 4.7.3, 6.5).
pub fn spelled_insns_are_read()
    ensures { (pool : List Constant) (major : ℕ) (code : List ℕ) (is : List Insn) (pcs : List ℕ)
        → SpellsInsns pool major pcs code is → insns_of pool major code ≡ Ok (pcs, is) }
{}

/// Proves that bytes that are read as instructions spell those (JVMS 4.7.3, 6.5).
pub fn read_insns_are_spelled()
    ensures { (pool : List Constant) (major : ℕ) (code : List ℕ) (is : List Insn) (pcs : List ℕ)
        → AllByRecursion (λ b. b < 256) code → insns_of pool major code ≡ Ok (pcs, is)
        → SpellsInsns pool major pcs code is }
{}

/// Proves that the bytes of a layout spell the instructions that its code spells, with the same starts (JVMS 4.7.3).
pub fn layout_spells()
    ensures { (pool : List Constant) (major : ℕ) (code : List ℕ) (is : List Insn) (pcs : List ℕ)
        → SpellsInsns pool major pcs code is
        → SpellsInsns pool major pcs (layout_of pcs is code).bytes is }
{}

/// Proves that the spelling of a pool is read as that pool, whatever follows it, and that none of its entries has a
/// fault (JVMS 4.4).
pub fn a_spelled_pool_is_read()
    ensures { (cut : ClassFault) (bytes rest : List ℕ) (pool : List Constant)
        → SpellsPool bytes pool
        → (pool_at cut (bytes ++ rest) ≡ Ok (pool, rest)) × (entries_fault pool pool ≡ Ok tt) }
{}

/// Proves that bytes that are read as a pool with entries, none of which has a fault, begin with a spelling of it (JVMS
/// 4.4).
pub fn a_read_pool_is_spelled()
    ensures { (cut : ClassFault) (bytes rest : List ℕ) (pool : List Constant)
        → AllByRecursion (λ b. b < 256) bytes → 0 < length pool
        → pool_at cut bytes ≡ Ok (pool, rest) → entries_fault pool pool ≡ Ok tt
        → (first : List ℕ) × SpellsPool first pool × (bytes ≡ first ++ rest) }
{}

/// Proves that the default of a tableswitch is at the first multiple of 4 after the opcode (JVMS 6.5 tableswitch).
/// After it come 8 bytes, and 4 for each target.
pub fn the_default_of_a_tableswitch_is_aligned()
    ensures { (pool : List Constant) (major : ℕ) (pcs : List ℕ) (pc : ℕ) (bytes : List ℕ)
        (s : TableSwitch) → SpellsInsn pool major pcs pc bytes (insn.Table s)
        → HasAlignedDefault pcs pc bytes s.default (8 + 4 * length s.targets) }
{}

/// Proves that the default of a lookupswitch is at the first multiple of 4 after the opcode (JVMS 6.5 lookupswitch).
/// After it come 4 bytes, and 8 for each case.
pub fn the_default_of_a_lookupswitch_is_aligned()
    ensures { (pool : List Constant) (major : ℕ) (pcs : List ℕ) (pc : ℕ) (bytes : List ℕ)
        (s : LookupSwitch) → SpellsInsn pool major pcs pc bytes (insn.Lookup s)
        → HasAlignedDefault pcs pc bytes s.default (4 + 8 * length s.cases) }
{}

/// Proves that a tableswitch of one target has 20, 19, 18 or 17 bytes if it starts at byte 0, 1, 2 or 3 of a method.
pub fn a_tableswitch_of_one_target()
    ensures at_0 { (pool : List Constant) (major : ℕ) (pcs bytes : List ℕ) (s : TableSwitch)
        → length s.targets ≡ 1 → SpellsInsn pool major pcs 0 bytes (insn.Table s)
        → length bytes ≡ 20 }
    ensures at_1 { (pool : List Constant) (major : ℕ) (pcs bytes : List ℕ) (s : TableSwitch)
        → length s.targets ≡ 1 → SpellsInsn pool major pcs 1 bytes (insn.Table s)
        → length bytes ≡ 19 }
    ensures at_2 { (pool : List Constant) (major : ℕ) (pcs bytes : List ℕ) (s : TableSwitch)
        → length s.targets ≡ 1 → SpellsInsn pool major pcs 2 bytes (insn.Table s)
        → length bytes ≡ 18 }
    ensures at_3 { (pool : List Constant) (major : ℕ) (pcs bytes : List ℕ) (s : TableSwitch)
        → length s.targets ≡ 1 → SpellsInsn pool major pcs 3 bytes (insn.Table s)
        → length bytes ≡ 17 }
{}
