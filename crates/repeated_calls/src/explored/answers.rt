//! Explores a program.

ghost use Rattle.std.specs.Prelude.{◌<◌, ◌≤◌};

use super::plans::plan_of;
use super::shrunk;
use exploration_text::answer_text;
use explore_jobs::Plan;
use exploring::{Bounds, Observer, Team, explore};
use program::Program;
use refused::again;
use std::sync::Wait;
use std::thread::Threads;

/// The greatest number of departures of an exploration.
const MOST_DEPARTURES: u64 = 16;

/// An observer who does nothing.
#[derive(Clone, Copy)]
struct Idle;

impl Observer for Idle {
    fn begins(&self, _departures: u64, _jobs: u64) {}

    fn ran(&self, _runs: u64) {}

    fn ended(&self) {}
}

/// Explores a program, prints the answer, and shrinks the schedule of the run that fails.
fn print<R: Threads + Wait + Sync>(
    host: &HostRuntime,
    team: &Team<'_, R, Idle>,
    program: &Program,
    plan: &Plan,
    bounds: Bounds,
) -> Option<()>
    requires workers { 0 < team.now.workers }
    requires bounds { bounds.departures ≤ 16 }
{
    if !plan.fits(program) {
        return None;
    }
    let answer = again!(
        host,
        "explore",
        explore(team, host.alloc(), program, plan, bounds)
    )?;
    let departures = bounds.departures;
    let text = again!(
        host,
        "answer_text",
        answer_text(host.alloc(), departures, plan, &answer)
    )?;
    print!(host; "{text}").ok()?;
    match &answer.failing {
        Some(run) => shrunk::perform(host, program, plan, run),
        None => Some(()),
    }
}

/// Explores the program of the words, and prints the answer.
pub(crate) fn perform<R: Threads + Wait + Sync>(
    host: &HostRuntime,
    rt: &R,
    program: &Program,
    words: &[String],
) -> Option<()> {
    let departures: u64 = words.first()?.parse().ok()?;
    let workers: usize = words.get(1)?.parse().ok()?;
    let bounds = Bounds {
        departures: departures.min(MOST_DEPARTURES),
        runs: 1_000,
        all: true,
    };
    let team = Team {
        rt,
        workers: workers.max(1),
        observer: &Idle,
    };
    let plan = plan_of(host, words.get(2)?.as_str(), words.get(3)?.as_str())?;
    let printed = print(host, &team, program, &plan, bounds);
    drop(plan);
    printed
}
