//! A law: a source that is read from a text has the form that a class file requires. It is the contract of a function
//! with an empty body.
#![tactic(auto)]

ghost use Rattle.std.specs.Prelude.{◌≡◌, ℕ, List, Ok};
ghost use Rattle.jasmin.specs.declared.source.Source.{Source};
ghost use Rattle.jasmin.specs.Reading.{source_of};
ghost use Rattle.source_form_laws.specs.Formed.{IsFormed};

/// Proves that a source that is read from a text has the form that a class file requires (JVMS 4, 6.5).
pub fn what_is_read_is_formed()
    ensures { (text : List ℕ) (s : Source) → source_of text ≡ Ok s → IsFormed s }
{}
