//! A law: the text of a listed tree is read as the same tree. It is the contract of a function with an empty body.
#![tactic(auto)]

ghost use Rattle.std.specs.Prelude.{◌≡◌, ℕ, List, map, true, Ok};
ghost use Rattle.std.specs.Str.Lines.{lines};
ghost use Rattle.jasmin.specs.declared.source.Source.{Source};
ghost use Rattle.jasmin.specs.Sources.{units_of};
ghost use Rattle.jasmin.specs.Reading.{source_of};
ghost use Rattle.source_form_laws.specs.Formed.{IsFormed};
ghost use Rattle.listing_spec.specs.Printed.{lines_of_source};
ghost use Rattle.listing_spec.specs.Printable.{is_printable};
ghost use Rattle.listing_spec.specs.Listable.{IsListable};

/// Proves that a text whose lines are those of a tree is read as the tree, if the tree is printable, formed and
/// listable.
pub fn what_is_listed_is_read()
    ensures { (text : List ℕ) (tree : Source) → map units_of (lines text) ≡ lines_of_source tree
        → is_printable tree ≡ true → IsFormed tree → IsListable tree → source_of text ≡ Ok tree }
{}
