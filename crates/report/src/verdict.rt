//! Writes the line of a verdict.

ghost use Rattle.std.specs.Prelude.{◌≡◌, ◌++◌, IfOk, OnOk, codes};
ghost use Rattle.std.specs.List.{flat_map};
ghost use Rattle.std.specs.String.{string_bytes};
ghost use Rattle.report.specs.VerdictTexts.{counts_text, cycle_text, number_text, verdict_text};

use atom_graph::Counts;
use escapes::{put_counted, put_number};
use std::alloc::{AllocError, Global};
use velodrome::verdict::Verdict;

/// Appends the counts of a trace to a text.
fn put_counts(out: &mut String, counts: Counts) -> Result<(), AllocError>
    ensures { OnOk result (string_bytes out.new ≡ string_bytes out.old ++ counts_text counts) }
{
    put_counted(out, "events ", counts.events)?;
    put_counted(out, " transactions ", counts.transactions)?;
    Ok(())
}

/// Appends numbers to a text, each after a space.
fn put_numbers(out: &mut String, numbers: &[u64]) -> Result<(), AllocError>
    ensures { OnOk result
        (string_bytes out.new ≡ string_bytes out.old ++ flat_map number_text numbers.now) }
{
    for number in numbers {
        out.push_str(" ")?;
        put_number(out, *number)?;
    }
    Ok(())
}

/// Appends the line of a trace without a cycle to a text.
fn put_atomic(out: &mut String, counts: Counts) -> Result<(), AllocError>
    ensures { OnOk result (string_bytes out.new
        ≡ string_bytes out.old ++ (codes "atomic " ++ counts_text counts ++ codes "\n")) }
{
    out.push_str("atomic ")?;
    put_counts(out, counts)?;
    out.push_str("\n")?;
    Ok(())
}

/// Appends the line of a trace with a cycle to a text.
fn put_cycle(
    out: &mut String,
    first_at: u64,
    transactions: &[u64],
    counts: Counts,
) -> Result<(), AllocError>
    ensures { OnOk result (string_bytes out.new
        ≡ string_bytes out.old ++ cycle_text first_at transactions.now counts) }
{
    put_counted(out, "cycle at ", first_at)?;
    out.push_str(" ")?;
    put_counts(out, counts)?;
    out.push_str(":")?;
    put_numbers(out, transactions)?;
    out.push_str("\n")?;
    Ok(())
}

/// Returns the line of a verdict, with its end: `atomic events N transactions M`, or `cycle at E events N transactions
/// M: A B ..`. E is the least number of events with a cycle, and A, B .. are the transactions of one. N and M count the
/// whole trace.
pub fn verdict_line(alloc: Global, verdict: &Verdict, counts: Counts) -> Result<String, AllocError>
    ensures { IfOk result (λ s. string_bytes s ≡ verdict_text verdict.now counts) }
{
    let mut line = String::new(alloc);
    match verdict {
        Verdict::Atomic { .. } => put_atomic(&mut line, counts)?,
        Verdict::Cycle {
            first_at,
            transactions,
            ..
        } => put_cycle(&mut line, *first_at, transactions.as_slice(), counts)?,
    }
    Ok(line)
}
