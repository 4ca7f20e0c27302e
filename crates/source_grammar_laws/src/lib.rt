//! The grammar of sources as a relation between a text and its syntax tree. Each law is the contract of a function with
//! an empty body. `Writes` is defined by cases on the tree, whereas `source_of` reads a text line by line.
#![tactic(auto)]

ghost use Rattle.std.specs.Prelude.{◌≡◌, ℕ, List, ℤ, Some, Ok};
ghost use Rattle.jasmin.specs.declared.source.Source.{Source};
ghost use Rattle.jasmin.specs.declared.token.Lexeme.{Lexeme};
ghost use Rattle.jasmin.specs.declared.statement.ClassSort.{ClassSort};
ghost use Rattle.jasmin.specs.declared.statement.LineKind.{LineKind};
ghost use Rattle.jasmin.specs.declared.statement.OpenSwitch.{OpenSwitch};
ghost use Rattle.jasmin.specs.declared.statement.Statement.{Statement};
ghost use Rattle.jasmin.specs.Numerals.{number_of};
ghost use Rattle.jasmin.specs.LineKinds.{kind_of};
ghost use Rattle.jasmin.specs.Statements.{statement_of};
ghost use Rattle.jasmin.specs.Reading.{source_of};
ghost use Rattle.source_grammar_laws.specs.Numbers.{SpellsNumber};
ghost use Rattle.source_grammar_laws.specs.Lines.{Spells, Suits};
ghost use Rattle.source_grammar_laws.specs.Sources.{Writes};

/// Proves that a word that spells a number is read as this number.
pub fn what_is_a_number_is_read()
    ensures { (w : List ℕ) (z : ℤ) → SpellsNumber w z → number_of w ≡ Some z }
{}

/// Proves that a word that is read as a number spells this number.
pub fn what_is_read_is_a_number()
    ensures { (w : List ℕ) (z : ℤ) → number_of w ≡ Some z → SpellsNumber w z }
{}

/// Proves that tokens that spell a statement which suits the lines before are read as this statement.
pub fn what_is_spelled_is_said()
    ensures { (sort : ClassSort) (switch : OpenSwitch) (ts : List Lexeme) (s : Statement)
        → Spells ts s → Suits sort switch s
        → (k : LineKind) × (kind_of switch ts ≡ Ok k) × (statement_of sort switch k ts ≡ Ok s) }
{}

/// Proves that tokens that are read as a statement spell this statement, and that it suits the lines before.
pub fn read_statement_is_spelled()
    ensures { (sort : ClassSort) (switch : OpenSwitch) (ts : List Lexeme) (k : LineKind)
        (s : Statement) → kind_of switch ts ≡ Ok k → statement_of sort switch k ts ≡ Ok s
        → Spells ts s × Suits sort switch s }
{}

/// Proves that a text that writes a tree is read as this tree. So no text writes two trees.
pub fn what_is_written_is_read()
    ensures { (text : List ℕ) (tree : Source) → Writes text tree → source_of text ≡ Ok tree }
{}

/// Proves that a text that is read as a tree writes this tree.
pub fn what_is_read_is_written()
    ensures { (text : List ℕ) (tree : Source) → source_of text ≡ Ok tree → Writes text tree }
{}
