//! Tests what a book stores and refuses.

use crate::plans::{FORKS, campaign_of};
use campaign::{Book, BookEntry, Plan, StoreFault, Totals, run_job};
use program::Program;
use std::alloc::Global;
use std::test::*;

/// Stores entries in a book, and returns the answers and the totals.
fn answers(
    alloc: Global,
    program: &Program,
    plan: &Plan,
) -> Result<([Result<(), StoreFault>; 6], Totals), Fail> {
    if !plan.fits(program) {
        return Err(Fail::new("a plan fits no program"));
    }
    let first = run_job(alloc, program, plan, 1)?;
    let beyond = run_job(alloc, program, plan, 3)?;
    let mut book = Book::new(alloc, program, plan);
    let answers = [
        book.store(BookEntry::Skipped {
            number: 2,
            because: 1,
        }),
        book.store(BookEntry::Done(first)),
        book.store(BookEntry::Skipped {
            number: 2,
            because: 1,
        }),
        book.store(BookEntry::Skipped {
            number: 2,
            because: 1,
        }),
        book.store(BookEntry::Done(beyond)),
        book.store(BookEntry::Skipped {
            number: 0,
            because: 1,
        }),
    ];
    Ok((answers, book.totals()))
}

/// Returns the answers and the totals of a book whose plan has three jobs, each with a cycle.
fn answers_of_three(
    alloc: Global,
    stop: bool,
) -> Result<([Result<(), StoreFault>; 6], Totals), Fail> {
    let (program, plan) = campaign_of(alloc, FORKS, "atomic Main.main", 3, stop)?;
    let answers = answers(alloc, &program, &plan);
    drop(plan);
    drop(program);
    answers
}

#[test]
fn a_book_refuses_what_it_may_not_store(rt: HostRuntime) -> Result<(), Fail> {
    let refused = Err(StoreFault::NotSkippable);
    let repeated = Err(StoreFault::Repeated);
    let range = Err(StoreFault::Range);
    let (stops, totals) = answers_of_three(rt.alloc(), true)?;
    assert_eq!(rt; stops, [refused, Ok(()), Ok(()), repeated, range, refused]);
    assert_eq!(rt;
        totals,
        Totals {
            rows: 2,
            done: 1,
            cycles: 1
        }
    );
    let (kept_on, totals) = answers_of_three(rt.alloc(), false)?;
    assert_eq!(rt;
        kept_on,
        [refused, Ok(()), refused, refused, range, refused]
    );
    assert_eq!(rt;
        totals,
        Totals {
            rows: 1,
            done: 1,
            cycles: 1
        }
    );
    Ok(())
}
