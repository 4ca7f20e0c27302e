//! A law: the tree that a class file is listed as means what the class means. It is the contract of a function with an
//! empty body.
#![tactic(auto)]

ghost use Rattle.std.specs.Prelude.{◌≡◌, ℕ, List, Ok};
ghost use Rattle.jvms_file.specs.declared.class_file.ClassFile.{ClassFile};
ghost use Rattle.jvms_file.specs.Spelling.{Spells};
ghost use Rattle.jvms_program.specs.Meaning.{meaning};
ghost use Rattle.jasmin.specs.declared.source.Source.{Source};
ghost use Rattle.jasmin.specs.Denote.{denote};
ghost use Rattle.listing_spec.specs.TreeOf.{tree_of};

/// Proves that the tree that a class file is listed as means the class that the class file means, if bytes spell the
/// class file.
pub fn listed_tree_means_its_class()
    ensures { (bytes : List ℕ) (c : ClassFile) (tree : Source)
        → Spells bytes c → tree_of c ≡ Ok tree → denote tree ≡ meaning c }
{}
