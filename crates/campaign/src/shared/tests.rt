//! Tests that steps on a desk don't wait for the thread that holds the book's lock.

ghost use Rattle.std.specs.Prelude.{◌≡◌};
ghost use Rattle.campaign_desk.specs.Desk.{IsSeatOf};

use super::{Campaign, SharedBook};
use atom_spec::Spec;
use campaign_book::Book;
use campaign_desk::{Claim, Desk, Seat};
use campaign_jobs::{Choosing, Plan};
use jvms_machine::machine::{Entry, Limits};
use linker::link;
use program::Program;
use shared_data::items::Items;
use std::alloc::{AllocError, Global};
use std::marker::Brand;
use std::sync::Wait;
use std::sync::atomic::{AtomicU64, Ordering};
use std::sync::ledger::Blank;
use std::test::*;
use std::thread;
use std::thread::{Threads, yield_now};
use turn_limit::TurnLimit;

/// The maximum number of rounds for which a thread waits.
const MOST_ROUNDS: u64 = 1_000_000_000;

/// The limits for tests that make no machine.
const LIMITS: Limits = Limits {
    objects: 0,
    elements: 0,
    threads: 0,
    frames: 0,
};

/// Waits until a flag is 1. Returns whether that happened within the rounds.
fn is_raised(flag: &AtomicU64) -> bool {
    for _ in 0..MOST_ROUNDS {
        if flag.load(Ordering::SeqCst) == 1 {
            return true;
        }
        yield_now();
    }
    false
}

/// Holds the book's lock until the steps are taken. Returns whether that happened within the rounds.
fn hold<C: Campaign>(
    rt: &impl Wait,
    book: &SharedBook<'_, C>,
    locked: &AtomicU64,
    stepped: &AtomicU64,
) -> bool {
    let guard = book.lock.lock(rt);
    locked.store(1, Ordering::SeqCst);
    let in_time = is_raised(stepped);
    drop(guard);
    in_time
}

/// Waits until the lock is held. Then claims until no job is left, lowers the bound to 1 and reads it. Returns the
/// number of jobs that were drawn and the bound, or `None` if the lock wasn't held within the rounds.
fn step(desk: &Desk, seat: &mut Seat, locked: &AtomicU64, stepped: &AtomicU64) -> Option<(u64, u64)>
    requires desk { IsSeatOf desk.now seat.old }
    requires jobs { desk.now.jobs ≡ 3 }
{
    if !is_raised(locked) {
        return None;
    }
    let mut drawn = 0u64;
    for _ in 0..4u64 {
        if let Claim::Job(_) = desk.claim(seat) {
            drawn += 1;
        }
    }
    desk.lower(seat, 1);
    let bound = desk.bound(seat);
    stepped.store(1, Ordering::SeqCst);
    Some((drawn, bound))
}

/// Holds the lock of an empty book in one thread while another takes its steps. Returns whether the steps were taken
/// while the lock was held, and what they returned.
fn run_both<C: Campaign + Send + Sync, R: Threads + Wait + Sync>(
    rt: &R,
    alloc: Global,
    blank: Blank,
    program: &Program,
    plan: &Plan,
    desk: &Desk,
    seat: &mut Seat,
) -> Result<(bool, Option<(u64, u64)>), AllocError>
    requires blank { (blank.name ≡ C.name) × (blank.parts ≡ C.parts) × (C.parts ≡ 1) }
    requires names { (program.now ≡ C.program) × (plan.now ≡ C.plan) }
    requires desk { IsSeatOf desk.now seat.old }
    requires jobs { desk.now.jobs ≡ 3 }
{
    let empty = Book::new(alloc, program, plan);
    let (book, shares) = SharedBook::<C>::new(alloc, blank, empty, 1)?;
    let locked = AtomicU64::new(0);
    let stepped = AtomicU64::new(0);
    let answers = thread::join(
        rt,
        || -> bool { hold(rt, &book, &locked, &stepped) },
        || -> Option<(u64, u64)>
            requires { IsSeatOf desk.now seat.now × (desk.now.jobs ≡ 3) }
        { step(desk, seat, &locked, &stepped) },
    );
    drop(book.close(shares));
    Ok(answers)
}

/// Opens a desk of three jobs, and takes its steps while another thread holds the lock. Returns `None` if memory ran
/// out.
fn steps_past_the_lock<R: Threads + Wait + Sync>(
    rt: &R,
    alloc: Global,
    program: &Program,
    plan: &Plan,
) -> Option<(bool, Option<(u64, u64)>)> {
    let Ok((desk, mut seats)) = Desk::open(alloc, 3, 1) else {
        return None;
    };
    let mut seat = seats.pop()?;
    let blank = Blank::new(1);
    run_both::<Brand, R>(rt, alloc, blank, program, plan, &desk, &mut seat).ok()
}

/// Returns a plan of three jobs.
fn plan_of_three(alloc: Global) -> Result<Plan, Fail> {
    let Some(most) = TurnLimit::new(0) else {
        return Err(Fail::new("a limit is refused"));
    };
    Ok(Plan {
        entry: Entry::Main {
            class: Items::from_vec(Vec::new(alloc)),
        },
        limits: LIMITS,
        jobs: 3,
        first: 0,
        seed: 0,
        choosing: Choosing::Random,
        most,
        spec: Spec::read(alloc, "plain *")?,
        stop: true,
    })
}

#[test]
fn the_desk_waits_for_no_holder_of_the_lock(rt: HostRuntime) -> Result<(), Fail> {
    let plan = plan_of_three(rt.alloc())?;
    let program = link(rt.alloc(), Vec::new(rt.alloc())).expect(&rt, "the built-in classes link");
    let answers = steps_past_the_lock(&rt, rt.alloc(), &program, &plan);
    drop(program);
    drop(plan);
    assert_eq!(rt; answers, Some((true, Some((3, 1)))));
    Ok(())
}
