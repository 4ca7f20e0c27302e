//! Random traces. bench/plain_reading.py makes the same ones, by the same draws in the same order.

ghost use Rattle.std.specs.Prelude.{◌<◌};

use crate::steps::{Action, Method, Step, Variable, open_behind};
use rand_core::utils::NextWord;
use rand_pcg::Lcg64Xsh32;
use std::alloc::{AllocError, Global};

const THREADS: u32 = 3;

const MOST_STEPS: u32 = 24;

/// Which methods are to be atomic.
#[derive(Clone, Copy)]
pub enum Atomic {
    All,
    First,
    Nothing,
}

/// A trace, and what is to be atomic in it.
#[derive(Drop)]
pub struct RandomTrace {
    pub atomic: Atomic,
    pub steps: Vec<Step>,
}

impl Atomic {
    /// Returns the text of the specification.
    pub fn text(self) -> &'static str {
        match self {
            Atomic::All => "atomic *\n",
            Atomic::First => "atomic C.m\n",
            Atomic::Nothing => "plain *\n",
        }
    }

    pub fn is_of(self, method: Method) -> bool {
        match self {
            Atomic::All => true,
            Atomic::First => matches!(method, Method::First),
            Atomic::Nothing => false,
        }
    }
}

/// Returns a random number below `count`.
fn below(words: &mut Lcg64Xsh32, count: u32) -> u32
    requires { 0 < count }
{
    words.next_word() % count
}

fn any_atomic(words: &mut Lcg64Xsh32) -> Atomic {
    match below(words, 8) {
        0..=2 => Atomic::All,
        3..=6 => Atomic::First,
        _ => Atomic::Nothing,
    }
}

fn any_variable(words: &mut Lcg64Xsh32) -> Variable {
    match below(words, 3) {
        0 => Variable::StaticX,
        1 => Variable::StaticY,
        _ => Variable::InstanceX,
    }
}

fn any_monitor(words: &mut Lcg64Xsh32) -> u32 {
    match below(words, 2) {
        0 => 5,
        _ => 6,
    }
}

fn any_thread(words: &mut Lcg64Xsh32) -> u32 {
    below(words, THREADS)
}

fn any_method(words: &mut Lcg64Xsh32) -> Method {
    match below(words, 2) {
        0 => Method::First,
        _ => Method::Second,
    }
}

/// Returns a random mark: in half of the cases the exit of the innermost open method, if there is one, else an entry.
fn any_mark(words: &mut Lcg64Xsh32, innermost: Option<Method>) -> Action {
    let leaves = below(words, 2) == 0;
    match innermost {
        Some(method) if leaves => Action::Exit(method),
        _ => Action::Enter(any_method(words)),
    }
}

fn any_action(words: &mut Lcg64Xsh32, innermost: Option<Method>) -> Action {
    match below(words, 14) {
        0..=2 => Action::Read(any_variable(words)),
        3..=5 => Action::Write(any_variable(words)),
        6 => Action::Acquire(any_monitor(words)),
        7 => Action::Release(any_monitor(words)),
        8 => Action::Fork(any_thread(words)),
        9 => Action::Join(any_thread(words)),
        _ => any_mark(words, innermost),
    }
}

/// Returns the innermost method that a thread has open after the steps.
fn innermost(alloc: Global, steps: &[Step], thread: u32) -> Result<Option<Method>, AllocError> {
    let open = open_behind(alloc, steps, steps.len(), thread)?;
    Ok(open.last().map(|open| open.method))
}

/// Appends a random step.
fn put_step(
    alloc: Global,
    words: &mut Lcg64Xsh32,
    steps: &mut Vec<Step>,
) -> Result<(), AllocError> {
    let thread = any_thread(words);
    let innermost = innermost(alloc, steps.as_slice(), thread)?;
    let action = any_action(words, innermost);
    steps.push(Step { thread, action })?;
    Ok(())
}

/// Returns the trace that the next random words yield.
pub fn any_trace(alloc: Global, words: &mut Lcg64Xsh32) -> Result<RandomTrace, AllocError> {
    let atomic = any_atomic(words);
    let count = below(words, MOST_STEPS + 1);
    let mut steps = Vec::new(alloc);
    for _ in 0..count {
        put_step(alloc, words, &mut steps)?;
    }
    Ok(RandomTrace { atomic, steps })
}
