//! The book of a campaign.

ghost use Rattle.std.specs.Prelude.{◌≡◌, ◌<◌, ◌^◌};
ghost use Rattle.campaign_book.specs.Rows.{has_cycle_at, is_skippable, refusal, with_row};

use crate::entry::BookEntry;
use crate::fault::StoreFault;
use crate::row::{Row, Totals};
use crate::rows::Rows;
use campaign_jobs::Plan;
use program::Program;
use std::alloc::Global;
use std::marker::Model;

/// A book: the rows of a campaign, in order. Its type ensures that each result is that of its job, and that each row
/// could be stored after those before it.
#[derive(Drop)]
pub struct Book<'a> {
    program: &'a Program,
    plan: &'a Plan,
    rows: Rows,
    totals: Totals,
}

impl<'a> Model for Book<'a> {
    ghost use Rattle.std.specs.Prelude.{◌≡◌};
    ghost use Rattle.campaign_book.specs.Books.{BookView, IsBook, totals_of};

    ghost Value = { BookView };

    ghost view = { λ b. record { program = b.program.now; plan = b.plan.now; rows = b.rows } };

    ghost invariant = { λ b. IsBook b.program.now b.plan.now b.rows
        × (b.totals ≡ totals_of b.rows) };
}

/// Returns whether the row with a number exists and is a result with a cycle.
fn has_cycle_at(rows: &Rows, number: u64) -> bool
    ensures { result ≡ has_cycle_at number rows.now }
{
    match rows.at(number) {
        Some(row) => row.is_cycle(),
        None => false,
    }
}

/// Returns whether a row is a result, or may skip its number.
fn is_skippable(plan: &Plan, rows: &Rows, row: &Row) -> bool
    ensures { result ≡ is_skippable plan.now rows.now row.now }
{
    match row {
        Row::Done { .. } => true,
        Row::Skipped { number, because } => {
            plan.stop && *because < *number && has_cycle_at(rows, *because)
        }
    }
}

/// Returns the first reason for which a book refuses a row, apart from lack of memory.
fn refusal(plan: &Plan, rows: &Rows, row: &Row) -> Option<StoreFault>
    ensures { result ≡ refusal plan.now rows.now row.now }
{
    if row.number() >= plan.jobs {
        return Some(StoreFault::Range);
    }
    if rows.at(row.number()).is_some() {
        return Some(StoreFault::Repeated);
    }
    if !is_skippable(plan, rows, row) {
        return Some(StoreFault::NotSkippable);
    }
    None
}

/// Returns the totals with one more row counted.
fn with_row(totals: Totals, row: &Row) -> Totals
    requires { (totals.rows < 2 ^ 63) × (totals.done < 2 ^ 63) × (totals.cycles < 2 ^ 63) }
    ensures { result ≡ with_row totals row.now }
{
    Totals {
        rows: totals.rows + 1,
        done: totals.done + u64::from(row.is_done()),
        cycles: totals.cycles + u64::from(row.is_cycle()),
    }
}

impl<'a> Book<'a> {
    ghost use Rattle.std.specs.Prelude.{◌≡◌, []};
    ghost use Rattle.campaign_book.specs.Rows.{row_at, IsStoring};
    ghost use Rattle.campaign_book.specs.Books.{IsBook, totals_of};
    ghost use Rattle.campaign_book.specs.Entries.{row_of, IsEntryOf};

    /// Returns an empty book of a program and a plan. Takes no memory.
    pub fn new(alloc: Global, program: &'a Program, plan: &'a Plan) -> Book<'a>
        ensures program { result.program ≡ program.now }
        ensures plan { result.plan ≡ plan.now }
        ensures empty { result.rows ≡ [] }
    {
        Book {
            program,
            plan,
            rows: Rows::new(alloc),
            totals: Totals {
                rows: 0,
                done: 0,
                cycles: 0,
            },
        }
    }

    /// Stores an entry after the others.
    ///
    /// # Errors
    ///
    /// Returns the first fault that applies, and then changes nothing:
    ///
    /// - G07: the number isn't below the number of jobs.
    /// - G03: the book has an entry with this number.
    /// - G06: the entry skips its number, and must not.
    /// - G04: memory ran out.
    pub fn store(&mut self, entry: BookEntry<'a>) -> Result<(), StoreFault>
        // If the entry is a report, it is of the book's program and plan.
        requires { IsEntryOf self.old.program self.old.plan entry }
        ensures program { self.new.program ≡ self.old.program }
        ensures plan { self.new.plan ≡ self.old.plan }
        ensures rows { IsStoring self.old.plan self.old.rows
            (row_of entry.entry) result self.new.rows }
        ensures was { IsBook self.old.program self.old.plan self.old.rows }
        ensures is { IsBook self.new.program self.new.plan self.new.rows }
    {
        let row = entry.row();
        if let Some(fault) = refusal(self.plan, &self.rows, &row) {
            return Err(fault);
        }
        let Ok(()) = self.rows.push(row) else {
            return Err(StoreFault::Memory);
        };
        self.totals = with_row(self.totals, &row);
        Ok(())
    }

    /// Returns the rows, in the order of storing.
    pub fn rows(&self) -> &[Row]
        ensures same { result.now ≡ self.now.rows }
        ensures kept { IsBook self.now.program self.now.plan result.now }
    {
        self.rows.as_slice()
    }

    /// Returns the row with a number, if there is one.
    pub fn find(&self, number: u64) -> Option<Row>
        ensures row { result ≡ row_at number self.now.rows }
        ensures kept { IsBook self.now.program self.now.plan self.now.rows }
    {
        self.rows.at(number)
    }

    /// Returns the totals of the rows.
    pub fn totals(&self) -> Totals
        ensures { result ≡ totals_of self.now.rows }
    {
        self.totals
    }
}
