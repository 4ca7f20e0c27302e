//! Laws about the tree that a class file is listed as: it has the form that a text spells. Each is the contract of a
//! function with an empty body.
#![tactic(auto)]

ghost use Rattle.std.specs.Prelude.{◌≡◌, ℕ, List, Ok};
ghost use Rattle.jvms_file.specs.declared.class_file.ClassFile.{ClassFile};
ghost use Rattle.jvms_file.specs.Spelling.{Spells};
ghost use Rattle.jasmin.specs.declared.source.Source.{Source};
ghost use Rattle.source_form_laws.specs.Formed.{IsFormed};
ghost use Rattle.listing_spec.specs.Listable.{IsListable};
ghost use Rattle.listing_spec.specs.TreeOf.{tree_of};

/// Proves that the tree of a class that bytes spell has the form that a class file requires (JVMS 4, 6.5).
pub fn listed_tree_is_formed()
    ensures { (bytes : List ℕ) (c : ClassFile) (tree : Source)
        → Spells bytes c → tree_of c ≡ Ok tree → IsFormed tree }
{}

/// Proves that the tree of a class that bytes spell is listable (JVMS 4). Access words can spell its flags, and its
/// labels are those of places. Its texts have UTF-16 code units. A method without code has nothing that isn't written.
pub fn listed_tree_is_listable()
    ensures { (bytes : List ℕ) (c : ClassFile) (tree : Source)
        → Spells bytes c → tree_of c ≡ Ok tree → IsListable tree }
{}
