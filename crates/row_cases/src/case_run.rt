//! Takes the turns of a case.

use crate::lines::Lines;
use crate::texts;
use machine::{Machine, Outcome, ThreadId, is_enabled};
use std::alloc::{AllocError, Global};
use trace::Trace;
use trace_text::put_line;

/// The limit on the turns of thread 0 in a case without choices.
const MOST_TURNS: usize = 10_000;

/// The results of a case's turns.
#[derive(Drop)]
pub struct CaseRun {
    alloc: Global,
    /// The outcome of each turn, with its items.
    turns: Lines,
    outcomes: Lines,
    items: Lines,
    trace: Trace,
    pub choices: Vec<ThreadId>,
    results: Vec<Outcome>,
}

impl CaseRun {
    fn new(alloc: Global) -> CaseRun {
        CaseRun {
            alloc,
            turns: Lines::new(alloc),
            outcomes: Lines::new(alloc),
            items: Lines::new(alloc),
            trace: Trace::new(alloc),
            choices: Vec::new(alloc),
            results: Vec::new(alloc),
        }
    }

    /// Takes a turn of a thread, and records its outcome and items.
    fn take(&mut self, machine: &mut Machine<'_>, t: ThreadId) -> Result<(), AllocError> {
        let before = self.trace.len();
        let outcome = machine.step(t, &mut self.trace)?;
        self.choices.push(t)?;
        self.results.push(outcome)?;
        let outcome = texts::outcome(self.alloc, machine, outcome)?;
        let line = format!(in self.alloc; "{t} {}", outcome.as_str())?;
        self.turns.put(line.as_str())?;
        self.outcomes.put(line.as_str())?;
        self.put_items(before)
    }

    /// Records the items of the trace from a place on.
    fn put_items(&mut self, before: usize) -> Result<(), AllocError> {
        for item in self.trace.items().iter().skip(before) {
            let mut line = String::new(self.alloc);
            put_line(&mut line, item)?;
            self.turns.put_alone(line.as_str().trim_end())?;
            self.items.put_alone(line.as_str().trim_end())?;
        }
        Ok(())
    }

    /// Closes all lines.
    fn close(&mut self) -> Result<(), AllocError> {
        self.turns.close()?;
        self.outcomes.close()?;
        self.items.close()
    }

    /// Takes turns of thread 0 while it is enabled, and closes all lines.
    fn take_own_turns(&mut self, machine: &mut Machine<'_>) -> Result<(), AllocError> {
        for _ in 0..MOST_TURNS {
            if !is_enabled(machine.peek(0)) {
                break;
            }
            self.take(machine, 0)?;
        }
        self.close()
    }

    /// Takes the turns of these choices, and closes all lines.
    fn take_choices(
        &mut self,
        machine: &mut Machine<'_>,
        choices: &[ThreadId],
    ) -> Result<(), AllocError> {
        for t in choices {
            self.take(machine, *t)?;
        }
        self.close()
    }

    /// Returns the results, unless memory ran out.
    pub fn unless_failed(self, taken: Result<(), AllocError>) -> Result<CaseRun, AllocError> {
        match taken {
            Ok(()) => Ok(self),
            Err(error) => {
                drop(self);
                Err(error)
            }
        }
    }

    /// Takes turns of thread 0 while it is enabled, and returns their results.
    ///
    /// # Errors
    ///
    /// Returns `AllocError` if memory ran out.
    pub fn of_own_turns(alloc: Global, machine: &mut Machine<'_>) -> Result<CaseRun, AllocError> {
        let mut case_run = CaseRun::new(alloc);
        let taken = case_run.take_own_turns(machine);
        case_run.unless_failed(taken)
    }

    /// Takes the turns of these choices, and returns their results.
    ///
    /// # Errors
    ///
    /// Returns `AllocError` if memory ran out.
    pub fn of_choices(
        alloc: Global,
        machine: &mut Machine<'_>,
        choices: &[ThreadId],
    ) -> Result<CaseRun, AllocError> {
        let mut case_run = CaseRun::new(alloc);
        let taken = case_run.take_choices(machine, choices);
        case_run.unless_failed(taken)
    }

    /// Returns the lines that a section of this kind has to have, if it is about turns.
    pub fn lines(&self, kind: &str) -> Option<&str> {
        match kind {
            "turns" => Some(self.turns.text()),
            "outcomes" => Some(self.outcomes.text()),
            "items" => Some(self.items.text()),
            _ => None,
        }
    }

    /// Returns the outcome of the last turn.
    pub fn last(&self) -> Option<Outcome> {
        self.results.last().copied()
    }

    /// Decides whether another machine, which takes all choices in one run, has the same outcomes and items.
    pub fn is_of_one_run(&self, machine: &mut Machine<'_>) -> bool {
        let mut trace = Trace::new(self.alloc);
        match machine.run(self.choices.as_slice(), &mut trace) {
            Ok(outcomes) => {
                outcomes.as_slice() == self.results.as_slice()
                    && trace.items() == self.trace.items()
            }
            Err(_) => false,
        }
    }
}
