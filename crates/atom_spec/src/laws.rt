//! Laws about the definitions. Each is the contract of a function that does nothing.

ghost use Rattle.std.specs.Prelude.{◌≡◌, ℕ, List};
ghost use Rattle.velodrome.specs.declared.specification.SpecificationLine.{SpecificationLine};
ghost use Rattle.atom_spec.specs.Specs.{lines_of, AreLines, IsFaulty};

/// Proves that lines are those of one specification at most.
pub fn a_text_is_of_one_specification()
    ensures { (lines : List (List ℕ)) (a b : List SpecificationLine)
        → AreLines lines a → AreLines lines b → a ≡ b }
{}

/// Proves that the text of a specification has no faulty line.
pub fn a_specification_has_no_fault()
    ensures { (text : List ℕ) (specification : List SpecificationLine) (line : ℕ)
        → AreLines (lines_of text) specification → IsFaulty text line → ⊥ }
{}

/// Proves that a text has at most one first faulty line.
pub fn a_text_has_one_first_fault()
    ensures { (text : List ℕ) (j k : ℕ) → IsFaulty text j → IsFaulty text k → j ≡ k }
{}
