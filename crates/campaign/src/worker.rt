//! One worker of a campaign.

ghost use Rattle.std.specs.Prelude.{◌≡◌, ◌<◌, IfErr, IsTrue, Some};
ghost use Rattle.campaign_book.specs.Books.{HasCycle};
ghost use Rattle.campaign_book.specs.declared.fault.StoreFault.{StoreFault};
ghost use Rattle.campaign_book.specs.declared.fault.StoreFault.TheVariants.{Memory};
ghost use Rattle.campaign_desk.specs.Desk.{IsSeatOf};
ghost use Rattle.campaign_jobs.specs.Plans.{fits};

use crate::gate::Gate;
use crate::shared::{Campaign, Share, SharedBook};
use campaign_book::{BookEntry, StoreFault};
use campaign_desk::{Claim, Desk, Seat};
use campaign_jobs::{Plan, run_job};
use program::Program;
use std::alloc::Global;
use std::sync::Wait;

/// A worker's seat and share, and why it ended early, if it did: memory ran out for it.
#[derive(Drop)]
pub(crate) struct Worker<C: Campaign> {
    pub seat: Seat,
    pub share: Share<C>,
    pub failed: Option<StoreFault>,
    ghost memory: { (fault : StoreFault) → failed ≡ Some fault → fault ≡ Memory },
}

/// The data that the workers of a campaign share. Its type ensures that all of it is of one campaign.
#[derive(Drop)]
pub(crate) struct Work<'a, 'w, C: Campaign> {
    pub alloc: Global,
    pub program: &'a Program,
    pub plan: &'a Plan,
    pub desk: &'w Desk,
    pub book: &'w SharedBook<'a, C>,
    ghost program_is: { program.now ≡ C.program },
    ghost plan_is: { plan.now ≡ C.plan },
    ghost plan_fits: { IsTrue (fits program.now plan.now) },
}

impl<'a, C: Campaign> Work<'a, '_, C> {
    /// Stores that a number is skipped, if the bound is below it. Returns `false` if the job has to be run. Returns
    /// `true` also if the book has an entry with this number.
    ///
    /// # Errors
    ///
    /// Memory ran out.
    fn skip(&self, rt: &impl Wait, worker: &mut Worker<C>, number: u64) -> Result<bool, StoreFault>
        requires seat { IsSeatOf self.now.desk.now worker.old.seat }
        ensures seat { IsSeatOf self.now.desk.now worker.new.seat }
        ensures memory { IfErr result (λ fault. fault ≡ Memory) }
    {
        let because = self.desk.bound(&mut worker.seat);
        if because >= number {
            return Ok(false);
        }
        let entry = BookEntry::Skipped { number, because };
        match self.book.put(rt, &mut worker.share, entry) {
            Err(StoreFault::Memory) => Err(StoreFault::Memory),
            Err(StoreFault::NotSkippable) => Ok(false),
            _ => Ok(true),
        }
    }

    /// Lowers the bound to the number of a job with a cycle.
    fn lower(&self, worker: &mut Worker<C>, number: u64)
        requires seat { IsSeatOf self.now.desk.now worker.old.seat }
        requires job { number < self.now.desk.now.jobs }
        requires cycle { HasCycle C.program C.plan number }
        ensures seat { IsSeatOf self.now.desk.now worker.new.seat }
    {
        self.desk.lower(&mut worker.seat, number);
    }

    /// Runs a job, stores its report, and lowers the bound if it has a cycle.
    ///
    /// # Errors
    ///
    /// Memory ran out.
    fn run<G: Gate>(
        &self,
        rt: &impl Wait,
        gate: &G,
        worker: &mut Worker<C>,
        number: u64,
    ) -> Result<(), StoreFault>
        requires seat { IsSeatOf self.now.desk.now worker.old.seat }
        requires job { number < self.now.desk.now.jobs }
        ensures seat { IsSeatOf self.now.desk.now worker.new.seat }
        ensures memory { IfErr result (λ fault. fault ≡ Memory) }
    {
        let Ok(report) = run_job(self.alloc, self.program, self.plan, number) else {
            return Err(StoreFault::Memory);
        };
        gate.reported(number, report.result);
        let has_cycle = report.result.atomicity.has_cycle();
        let answer = self
            .book
            .put(rt, &mut worker.share, BookEntry::Done(report));
        if let Err(StoreFault::Memory) = answer {
            return Err(StoreFault::Memory);
        }
        if has_cycle {
            self.lower(worker, number);
        }
        Ok(())
    }

    /// Runs or skips a job whose number was drawn.
    ///
    /// # Errors
    ///
    /// Memory ran out.
    fn job<G: Gate>(
        &self,
        rt: &impl Wait,
        gate: &G,
        worker: &mut Worker<C>,
        number: u64,
    ) -> Result<(), StoreFault>
        requires seat { IsSeatOf self.now.desk.now worker.old.seat }
        requires job { number < self.now.desk.now.jobs }
        ensures seat { IsSeatOf self.now.desk.now worker.new.seat }
        ensures memory { IfErr result (λ fault. fault ≡ Memory) }
    {
        if self.plan.stop {
            match self.skip(rt, worker, number) {
                Ok(true) => return Ok(()),
                Ok(false) => {}
                Err(fault) => return Err(fault),
            }
        }
        self.run(rt, gate, worker, number)
    }

    /// Draws numbers, and runs or skips their jobs, until no job is left or memory runs out.
    pub(crate) fn work<G: Gate>(&self, rt: &impl Wait, gate: &G, worker: &mut Worker<C>)
        requires seat { IsSeatOf self.now.desk.now worker.old.seat }
        ensures seat { IsSeatOf self.now.desk.now worker.new.seat }
    {
        for _ in 0..u64::MAX {
            let Claim::Job(number) = self.desk.claim(&mut worker.seat) else {
                return;
            };
            gate.before(number);
            if let Err(fault) = self.job(rt, gate, worker, number) {
                worker.failed = Some(fault);
                return;
            }
            gate.after(number);
        }
    }
}
