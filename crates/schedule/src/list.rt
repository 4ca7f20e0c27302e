//! Lists of threads.

ghost use Rattle.std.specs.Prelude.{ℕ, List, ◌≡◌, drop, IfOk, IsErrOf};
ghost use Rattle.schedule.specs.Schedules.{WritesThreads};
ghost use Rattle.schedule.specs.Choosers.{Listed, next};

use crate::fault::ScheduleFault;
use crate::written::listed;
use jvms_machine::machine::ThreadId;
use shared_data::items::Items;
use shared_data::shared::Shared;
use std::alloc::{AllocError, Global};
use std::marker::Model;

/// The rest of a list of threads: those from an index on. Copies share the list.
#[derive(Drop)]
pub(crate) struct ListLeft {
    threads: Shared<Items<ThreadId>>,
    place: usize,
}

impl Model for ListLeft {
    ghost use Rattle.std.specs.Prelude.{ℕ, List, drop};

    ghost Value = { List ℕ };

    ghost view = { λ l. drop l.place l.threads };
}

impl ListLeft {
    /// Returns a list of which no thread was taken.
    pub(crate) fn new(alloc: Global, threads: Vec<ThreadId>) -> Result<ListLeft, AllocError>
        ensures { IfOk result (λ list. list ≡ threads.items) }
    {
        Ok(ListLeft {
            threads: Shared::new(alloc, Items::from_vec(threads))?,
            place: 0,
        })
    }

    /// Returns the list of the threads whose numbers a text writes.
    ///
    /// # Errors
    ///
    /// `Syntax` if the text is no list of threads. `Memory` if it is one and memory runs out.
    pub(crate) fn parse(alloc: Global, text: &str) -> Result<ListLeft, ScheduleFault>
        ensures list { IfOk result (λ list. WritesThreads text.now list) }
        ensures syntax { IsErrOf result ScheduleFault.Syntax → (threads : List ℕ)
            → ¬ (WritesThreads text.now threads) }
        ensures memory { IsErrOf result ScheduleFault.Memory
            → (threads : List ℕ) × WritesThreads text.now threads }
    {
        let threads = listed(alloc, text)?;
        let Ok(list) = ListLeft::new(alloc, threads) else {
            return Err(ScheduleFault::Memory);
        };
        Ok(list)
    }

    /// Returns a copy that shares the list.
    pub(crate) fn copy(&self) -> Result<ListLeft, AllocError>
        ensures { IfOk result (λ list. list ≡ self.now) }
    {
        Ok(ListLeft {
            threads: self.threads.share()?,
            place: self.place,
        })
    }

    /// Takes the next thread and returns it, if there is one.
    pub(crate) fn next(&mut self) -> Option<ThreadId>
        ensures { (enabled : List ℕ) → (result, Listed self.new) ≡ next (Listed self.old) enabled }
    {
        let thread = self.threads.as_slice().get(self.place).copied()?;
        self.place += 1;
        Some(thread)
    }
}
