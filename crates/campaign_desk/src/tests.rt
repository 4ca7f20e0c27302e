//! Tests of a desk: its limits, the draws of two threads, the bound, a seat that is done, and the texts of faults.

ghost use Rattle.std.specs.Prelude.{◌≡◌, ℕ, ◌+◌, ◌<◌, [], ◌∷◌, IfSome};
ghost use Rattle.campaign_desk.specs.Knowledge.{first_knowledge};
ghost use Rattle.campaign_desk.specs.Facts.{count_of, once_below, IsDesk};
ghost use Rattle.campaign_desk.specs.Desk.{IsSeatOf, HasDrawn, seat_at};

use super::*;
use std::alloc::Global;
use std::test::*;
use std::thread;
use std::thread::Threads;

/// Claims until no job is left, and returns the numbers of the jobs, or `None` if memory ran out.
fn draw_all(alloc: Global, desk: &Desk, mut seat: Seat) -> Option<(Seat, Vec<u64>)>
    requires desk { IsSeatOf desk.now seat }
    requires first { seat.knowledge.draws ≡ [] }
    ensures { IfSome result (λ r. HasDrawn desk.now r.0 r.1.items) }
{
    let mut numbers = Vec::new(alloc);
    for _ in 0..u64::MAX {
        match desk.claim(&mut seat) {
            Claim::Job(number) => {
                if numbers.push(number).is_err() {
                    return None;
                }
            }
            Claim::Done => return Some((seat, numbers)),
        }
    }
    None
}

/// Opens a desk of some jobs for two workers. Returns `None` if memory ran out.
fn open_for_two(alloc: Global, jobs: u64) -> Option<(Desk, Seat, Seat)>
    ensures jobs { IfSome result (λ r. r.0.jobs ≡ jobs) }
    ensures workers { IfSome result (λ r. r.0.workers ≡ 2) }
    ensures first { IfSome result (λ r. r.1 ≡ seat_at r.0.table (first_knowledge jobs)) }
    ensures second { IfSome result (λ r. r.2 ≡ seat_at r.0.table (first_knowledge jobs)) }
{
    let Ok((desk, mut seats)) = Desk::open(alloc, jobs, 2) else {
        return None;
    };
    let (Some(second), Some(first)) = (seats.pop(), seats.pop()) else {
        return None;
    };
    Some((desk, first, second))
}

/// Closes a desk for two workers. Returns `None` if memory ran out.
fn close_for_two(alloc: Global, desk: Desk, first: Seat, second: Seat) -> Option<(u64, u64)>
    requires two { desk.workers ≡ 2 }
    requires first { IsSeatOf desk first }
    requires second { IsSeatOf desk second }
    ensures { IfSome result (λ words.
        IsDesk desk.jobs 2 words.0 words.1 (first.knowledge ∷ second.knowledge ∷ [])) }
{
    let Ok(seats) = Vec::from_array(alloc, [first, second]) else {
        return None;
    };
    Some(desk.close(seats))
}

/// Returns three bounds that the second seat reads: at first, after the first seat lowers it to 5, and after it lowers
/// it to 7.
fn bounds_read(desk: &Desk, first: &mut Seat, second: &mut Seat) -> [u64; 3]
    requires jobs { 7 < desk.now.jobs }
    requires first { HasDrawn desk.now first.old first.old.knowledge.draws }
    requires second { HasDrawn desk.now second.old second.old.knowledge.draws }
    ensures first { HasDrawn desk.now first.new first.old.knowledge.draws }
    ensures second { HasDrawn desk.now second.new second.old.knowledge.draws }
{
    let opening = desk.bound(second);
    desk.lower(first, 5);
    let lowered = desk.bound(second);
    desk.lower(first, 7);
    [opening, lowered, desk.bound(second)]
}

/// Returns what two threads draw until both are done, each job once, with the bounds that `bounds_read` returns.
/// Returns `None` if memory ran out.
fn draw_by_two<R: Threads + Sync>(
    rt: &R,
    alloc: Global,
    jobs: u64,
) -> Option<(Vec<u64>, Vec<u64>, [u64; 3])>
    requires jobs { 7 < jobs }
    ensures { IfSome result (λ r. (x : ℕ)
        → count_of x r.0.items + count_of x r.1.items ≡ once_below x jobs) }
{
    let (desk, first, second) = open_for_two(alloc, jobs)?;
    let (one, other) = thread::join(
        rt,
        || -> Option<(Seat, Vec<u64>)>
            requires { IsSeatOf desk first × (first.knowledge.draws ≡ []) }
            ensures { IfSome result (λ r. HasDrawn desk r.0 r.1.items) }
        { draw_all(alloc, &desk, first) },
        || -> Option<(Seat, Vec<u64>)>
            requires { IsSeatOf desk second × (second.knowledge.draws ≡ []) }
            ensures { IfSome result (λ r. HasDrawn desk r.0 r.1.items) }
        { draw_all(alloc, &desk, second) },
    );
    let (mut first, one) = one?;
    let (mut second, other) = other?;
    let bounds = bounds_read(&desk, &mut first, &mut second);
    close_for_two(alloc, desk, first, second)?;
    Some((one, other, bounds))
}

#[test]
fn two_threads_draw_each_job_once_and_share_the_bound(rt: HostRuntime) -> Result<(), Fail> {
    let drawn = draw_by_two(&rt, rt.alloc(), 1_000);
    let (mut all, other, bounds) = drawn.expect(&rt, "there is memory");
    all.extend_from_slice(&other)?;
    all.sort()?;
    assert!(rt; all.iter().copied().eq(0..1_000));
    assert_eq!(rt; bounds, [1_000, 5, 5]);
    Ok(())
}

/// Claims three times at a desk of one job, and returns the claims and the words at the end. Returns `None` if memory
/// ran out.
fn claims_of_one_job(alloc: Global) -> Option<([Claim; 3], (u64, u64))> {
    let (desk, mut first, second) = open_for_two(alloc, 1)?;
    let claims = [
        desk.claim(&mut first),
        desk.claim(&mut first),
        desk.claim(&mut first),
    ];
    let words = close_for_two(alloc, desk, first, second)?;
    Some((claims, words))
}

#[test]
fn a_seat_that_is_done_stays_done(rt: HostRuntime) {
    let (claims, words) = claims_of_one_job(rt.alloc()).expect(&rt, "there is memory");
    assert_eq!(rt; claims, [Claim::Job(0), Claim::Done, Claim::Done]);
    assert_eq!(rt; words, (1, 1));
}

/// Returns whether a desk is refused for this reason.
fn is_refused(alloc: Global, jobs: u64, workers: u64, reason: DeskFault) -> bool {
    matches!(Desk::open(alloc, jobs, workers), Err(fault) if fault == reason)
}

#[test]
fn limits_are_tested_in_their_order(rt: HostRuntime) {
    for (jobs, workers, reason) in [
        (1_000_001, 64, DeskFault::TooManyJobs),
        (1_000_001, 65, DeskFault::TooManyJobs),
        (1_000_000, 65, DeskFault::TooManyWorkers),
        (1_000_000, 0, DeskFault::TooManyWorkers),
    ] {
        assert!(rt;
            is_refused(rt.alloc(), jobs, workers, reason),
            "{jobs} {workers}"
        );
    }
    assert!(rt; Desk::open(rt.alloc(), 1_000_000, 64).is_ok());
}

#[test]
fn faults_have_texts(rt: HostRuntime) -> Result<(), Fail> {
    let text = format!(in rt.alloc();
        "{}, {}, {}",
        DeskFault::TooManyJobs,
        DeskFault::TooManyWorkers,
        DeskFault::Memory
    )?;
    assert_eq!(rt;
        text.as_str(),
        "G01 TooManyJobs, G02 TooManyWorkers, G04 Memory"
    );
    Ok(())
}
