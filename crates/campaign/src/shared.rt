//! The book that workers share, guarded by a lock.

ghost use Rattle.std.specs.Prelude.{◌≡◌, ◌<◌, ◌+◌, [], length, vec_len, replicate, IfOk, sum};
ghost use Rattle.campaign_book.specs.Entries.{row_of, IsEntryOf};
ghost use Rattle.campaign_book.specs.Rows.{IsStoring};
ghost use Rattle.campaign.specs.Shares.{after_answer, IsAnswer};

use campaign_book::{Book, BookEntry, StoreFault};
use std::alloc::{AllocError, Global};
use std::marker::{Brand, Model};
use std::sync::ledger::{self, Blank, Ledger};
use std::sync::{Mutex, Wait};

/// A campaign: one program and one plan. Types that name it depend on these.
pub trait Campaign: Ledger {
    ghost use Rattle.std.specs.Prelude.{List};
    ghost use Rattle.jvms_program.specs.declared.program.Class.{Class};
    ghost use Rattle.campaign_jobs.specs.declared.plan.Plan.{Plan};

    ghost program: { List Class };

    ghost plan: { Plan };
}

impl Campaign for Brand {
    ghost use Rattle.campaign.specs.Shares.{no_program, no_plan};

    ghost program = { no_program };

    ghost plan = { no_plan };
}

/// A worker's share of a book. Contracts see how many entries it has stored.
#[derive(Drop)]
pub struct Share<C: Campaign> {
    token: ledger::Share<C>,
}

impl<C: Campaign> Model for Share<C> {
    ghost use Rattle.std.specs.Prelude.{◌≡◌, ℕ};

    ghost Value = { ℕ };

    ghost view = { λ s. s.token.amount };

    ghost invariant = { λ s. s.token.parts ≡ 1 };
}

/// The data that the lock guards: the book, and the number of entries that the shares have stored.
#[derive(Drop)]
struct Guarded<'a, C: Campaign> {
    book: Book<'a>,
    stored: ledger::Book<C>,
    ghost program: { book.program ≡ C.program },
    ghost plan: { book.plan ≡ C.plan },
    ghost counted: { length book.rows ≡ stored.total },
}

impl<'a, C: Campaign> Guarded<'a, C> {
    /// Stores an entry, and counts it.
    fn store(&mut self, share: &mut Share<C>, entry: BookEntry<'a>) -> Result<(), StoreFault>
        requires { IsEntryOf C.program C.plan entry }
        ensures program { self.new.book.program ≡ self.old.book.program }
        ensures plan { self.new.book.plan ≡ self.old.book.plan }
        ensures rows { IsStoring self.old.book.plan self.old.book.rows
            (row_of entry.entry) result self.new.book.rows }
        ensures answer { IsAnswer C.program C.plan (row_of entry.entry) result }
        ensures share { share.new ≡ after_answer share.old result }
    {
        let Guarded { book, stored } = self;
        let answer = book.store(entry);
        if answer.is_ok() {
            let Share { token } = share;
            stored.add(token, 1);
        }
        answer
    }
}

/// A book guarded by a lock. Its type ensures that the book is of the campaign that it names, and that the shares count
/// its entries.
#[derive(Drop)]
pub struct SharedBook<'a, C: Campaign> {
    lock: Mutex<Guarded<'a, C>>,
}

impl<'a, C: Campaign> SharedBook<'a, C> {
    /// Wraps an empty book in a lock, and returns it with a share for each worker.
    ///
    /// # Errors
    ///
    /// Memory ran out.
    pub fn new(
        alloc: Global,
        blank: Blank,
        book: Book<'a>,
        workers: u64,
    ) -> Result<(SharedBook<'a, C>, Vec<Share<C>>), AllocError>
        requires blank { (blank.name ≡ C.name) × (blank.parts ≡ C.parts)
            × (C.parts ≡ workers) × (0 < workers) }
        requires book { (book.rows ≡ []) × (book.program ≡ C.program) × (book.plan ≡ C.plan) }
        ensures { IfOk result (λ r. r.1.items ≡ replicate workers 0) }
    {
        let mut shares = Vec::with_capacity(alloc, workers as usize)?;
        let (stored, mut all) = blank.open::<C>();
        for _ in 1..workers {
            shares.push_reserved(Share {
                token: all.split_off(1, 0),
            });
        }
        shares.push_reserved(Share { token: all });
        let lock = Mutex::new(Guarded { book, stored });
        Ok((SharedBook { lock }, shares))
    }

    /// Stores an entry under the lock, and returns what `Book::store` returns. A stored entry adds 1 to the share.
    pub fn put(
        &self,
        rt: &impl Wait,
        share: &mut Share<C>,
        entry: BookEntry<'a>,
    ) -> Result<(), StoreFault>
        // A report is of the campaign's program and plan.
        requires { IsEntryOf C.program C.plan entry }
        ensures answer { IsAnswer C.program C.plan (row_of entry.entry) result }
        ensures share { share.new ≡ after_answer share.old result }
    {
        self.lock.lock(rt).store(share, entry)
    }

    /// Consumes all shares, and returns the book. It has as many entries as the shares have stored.
    pub fn close(self, mut shares: Vec<Share<C>>) -> Book<'a>
        requires { (vec_len shares ≡ C.parts) × (0 < C.parts) }
        ensures program { result.program ≡ C.program }
        ensures plan { result.plan ≡ C.plan }
        ensures entries { length result.rows ≡ sum shares.items }
    {
        let Some(last) = shares.pop() else {
            unreachable!()
        };
        let mut all = merged(shares, last);
        let Guarded { book, mut stored } = self.lock.into_inner();
        stored.audit(&mut all);
        book
    }
}

/// Merges all shares.
fn merged<C: Campaign>(mut shares: Vec<Share<C>>, last: Share<C>) -> ledger::Share<C>
    ensures parts { result.parts ≡ vec_len shares + 1 }
    ensures amount { result.amount ≡ sum shares.items + last }
{
    let Share { token: mut all } = last;
    while let Some(share) = shares.pop() {
        let Share { token } = share;
        all.merge(token);
    }
    all
}

#[cfg(test)]
mod tests;
