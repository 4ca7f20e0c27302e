//! Laws about books: each is the contract of a function that does nothing.

ghost use Rattle.std.specs.Prelude.{ℕ, ◌≤◌, All, List, count_by};
ghost use Rattle.jvms_program.specs.declared.program.Class.{Class};
ghost use Rattle.campaign_jobs.specs.declared.plan.Plan.{Plan};
ghost use Rattle.campaign_book.specs.declared.row.Row.{Row};
ghost use Rattle.campaign_book.specs.Books.{IsBook, IsSkip};
ghost use Rattle.campaign_book.specs.Rows.{is_at};

/// Proves that a book has at most one row for each number.
pub fn numbers_differ()
    ensures { (program : List Class) (plan : Plan) (rows : List Row) → IsBook program plan rows
        → (number : ℕ) → count_by (is_at number) rows ≤ 1 }
{}

/// Proves that a book skips a number only if its plan stops and the book has the report of a smaller number with a
/// cycle.
pub fn a_skip_has_its_cycle()
    ensures { (program : List Class) (plan : Plan) (rows : List Row) → IsBook program plan rows
        → All (IsSkip plan rows) rows }
{}
