//! Choosers: each gives the thread of the next turn.

ghost use Rattle.std.specs.Prelude.{ℕ, List, ◌≡◌, ◌≤◌, ◌↔◌, length, true, IfOk, IfSome, IsErrOf, IsTrue, MatchOption};
ghost use Rattle.schedule.specs.Schedules as schedules;
ghost use Rattle.schedule.specs.Schedules.{Schedule, RoundRobin, Spells, SpellsListOrDepartures, WritesSeed};
ghost use Rattle.schedule.specs.Enabled.{enabled_threads};
ghost use Rattle.schedule.specs.Rules.{chooser_of_rule};
ghost use Rattle.schedule.specs.Choosers.{chooser_of_schedule, enabled_of, by_word, with_choices, is_seeded, may_be_enabled, next, Alone, Seeded, IsNextBeside, IsNextFor, IsSeeded};

use crate::fault::ScheduleFault;
use crate::list::ListLeft;
use crate::numbers::{long_number, quantum};
use crate::ranked::Ranked;
use crate::round_robin::{Candidate, Turns};
use crate::staying::Staying;
use crate::threads::{Threads, alone, enabled_at, enabled_count};
use departures::Departure;
use jvms_machine::machine::ThreadId;
use machine::Machine;
use priority_limits::{Depth, Span};
use rand_core::utils::NextWord;
use rand_pcg::Lcg64Xsh32;
use std::alloc::{AllocError, Global};
use std::marker::Model;

/// The rule by which a chooser chooses.
#[derive(Drop)]
enum Rule {
    /// The remaining threads of a list.
    Listed(ListLeft),
    /// Each enabled thread in turn.
    RoundRobin(Turns),
    /// An enabled thread that a random word names.
    Seeded(Lcg64Xsh32),
    /// Thread 0 alone.
    Alone,
    /// Departures from a default.
    Staying(Staying),
    /// The enabled thread of the highest priority.
    Ranked(Ranked),
}

/// The state of a schedule, which gives the thread of each turn.
#[derive(Drop)]
pub struct Chooser {
    rule: Rule,
}

impl Model for Chooser {
    ghost use Rattle.schedule.specs.Choosers.{Chooser as Seen};
    ghost use Rattle.schedule.specs.Rules.{chooser_of_rule};

    ghost Value = { Seen };

    ghost view = { λ c. chooser_of_rule c.rule };
}

/// Returns the generator whose state and stream a text writes, separated by a colon, or `None` if it writes none.
fn generator(text: &str) -> Option<Lcg64Xsh32>
    ensures { MatchOption result
        ((state stream : ℕ) → ¬ (WritesSeed text.now state stream)) (IsSeeded text.now) }
{
    let (state, stream) = text.split_once(':')?;
    Some(Lcg64Xsh32::new(long_number(state)?, long_number(stream)?))
}

/// Returns the rule of the schedule that a text spells.
///
/// # Errors
///
/// `Syntax` if the text spells no schedule, and `Memory` if memory runs out for a list or departures.
fn rule_of(alloc: Global, text: &str) -> Result<Rule, ScheduleFault>
    ensures rule { IfOk result (λ rule. (schedule : Schedule)
        × Spells text.now schedule × (chooser_of_rule rule ≡ chooser_of_schedule schedule)) }
    ensures syntax { IsErrOf result ScheduleFault.Syntax → (schedule : Schedule)
        → ¬ (Spells text.now schedule) }
    ensures memory { IsErrOf result ScheduleFault.Memory → SpellsListOrDepartures text.now }
{
    if let Some(threads) = text.strip_prefix("list:") {
        let list = ListLeft::parse(alloc, threads)?;
        return Ok(Rule::Listed(list));
    }
    if let Some(departures) = text.strip_prefix("stay:") {
        let staying = Staying::parse(alloc, departures)?;
        return Ok(Rule::Staying(staying));
    }
    if let Some(number) = text.strip_prefix("rr:") {
        let quantum = quantum(number).ok_or(ScheduleFault::Syntax)?;
        return Ok(Rule::RoundRobin(Turns {
            quantum,
            thread: 0,
            turns: 0,
        }));
    }
    if let Some(numbers) = text.strip_prefix("pct:") {
        let ranked = Ranked::parse(numbers).ok_or(ScheduleFault::Syntax)?;
        return Ok(Rule::Ranked(ranked));
    }
    let Some(seed) = text.strip_prefix("seed:") else {
        return Err(ScheduleFault::Syntax);
    };
    let generator = generator(seed).ok_or(ScheduleFault::Syntax)?;
    Ok(Rule::Seeded(generator))
}

/// Returns the enabled thread that a generator's next word names. Without an enabled thread, takes no word.
fn next_by_word<T: Threads>(generator: &mut Lcg64Xsh32, threads: &T) -> Option<ThreadId>
    ensures { (result, Seeded generator.new)
        ≡ by_word generator.old (enabled_of (T.passes threads.now) (T.count threads.now)) }
{
    let enabled = enabled_count(threads);
    if enabled == 0 {
        return None;
    }
    enabled_at(threads, generator.next_word() % enabled)
}

/// Returns the enabled thread of a list that a generator's next word names. Without an enabled thread, takes no word.
#[tactic(auto, using(crate::proofs::Words::no_word, crate::proofs::Words::word_names))]
fn word_among(generator: &mut Lcg64Xsh32, enabled: &[ThreadId]) -> Option<ThreadId>
    ensures { (result, Seeded generator.new) ≡ by_word generator.old enabled.now }
{
    let count = enabled.len();
    if count == 0 {
        return None;
    }
    enabled.get(generator.next_word() as usize % count).copied()
}

/// Predicts thread 0, which is the next choice as long as it is enabled. Returns `None` if there are no threads.
#[tactic(auto, using(crate::proofs::Alone::alone_for))]
fn candidate_alone<T: Threads>(threads: &T) -> Option<Candidate>
    ensures next { IfSome result (λ c. IsNextFor c.turns c.thread (T.count threads.now) Alone) }
    ensures some { IfSome result (λ c. 1 ≤ c.turns) }
{
    if threads.count() == 0 {
        return None;
    }
    Some(Candidate {
        thread: 0,
        turns: u64::MAX,
    })
}

impl Rule {
    /// Returns a rule that makes the same choices. Both share the threads of a list, and departures.
    fn copy(&self) -> Result<Rule, AllocError>
        ensures { IfOk result (λ rule. chooser_of_rule rule ≡ chooser_of_rule self.now) }
    {
        match self {
            Rule::Listed(list) => Ok(Rule::Listed(list.copy()?)),
            Rule::RoundRobin(turns) => Ok(Rule::RoundRobin(*turns)),
            Rule::Seeded(generator) => Ok(Rule::Seeded(generator.clone()?)),
            Rule::Alone => Ok(Rule::Alone),
            Rule::Staying(staying) => Ok(Rule::Staying(staying.copy()?)),
            Rule::Ranked(ranked) => Ok(Rule::Ranked(ranked.copy())),
        }
    }
}

impl Chooser {
    /// Returns the chooser of the schedule `rr:1`: each enabled thread takes one turn, by rising number, round to
    /// the least.
    pub fn in_turn() -> Chooser
        ensures { result ≡ chooser_of_schedule (RoundRobin 1) }
    {
        let turns = Turns {
            quantum: 1,
            thread: 0,
            turns: 0,
        };
        Chooser {
            rule: Rule::RoundRobin(turns),
        }
    }

    /// Returns the chooser of the schedule `seed:S:K`: random words of state S and stream K name enabled threads.
    pub fn seeded(state: u64, stream: u64) -> Chooser
        ensures { result ≡ chooser_of_schedule (schedules.Seeded state stream) }
    {
        Chooser {
            rule: Rule::Seeded(Lcg64Xsh32::new(state, stream)),
        }
    }

    /// Returns the chooser of the schedule `pct:S:K:D:N`: random words of state S and stream K name the priorities of
    /// threads, and the turns below N after which D - 1 changes are made.
    pub fn ranked(state: u64, stream: u64, depth: Depth, turns: Span) -> Chooser
        ensures { result ≡ chooser_of_schedule (schedules.Ranked state stream depth turns) }
    {
        Chooser {
            rule: Rule::Ranked(Ranked::new(state, stream, depth.number(), turns.turns())),
        }
    }

    /// Returns the chooser that gives thread 0 while it is enabled, and no other. No text spells this schedule.
    pub fn alone() -> Chooser
        ensures { result ≡ Alone }
    {
        Chooser { rule: Rule::Alone }
    }

    /// Returns the chooser of the schedule `stay:N=T,N=T..` of these departures: each names a thread T at a position N,
    /// counted in turns from 0. Everywhere else the last thread stays the choice while it is enabled. A departure that
    /// isn't at a later position than the one before it is the next choice after it.
    pub fn staying(alloc: Global, departures: Vec<Departure>) -> Result<Chooser, AllocError>
        ensures { IfOk result
            (λ c. c ≡ chooser_of_schedule (schedules.Staying departures.items)) }
    {
        let staying = Staying::new(alloc, departures)?;
        Ok(Chooser {
            rule: Rule::Staying(staying),
        })
    }

    /// Returns the chooser of the schedule that a text spells:
    ///
    /// - `list:` and numbers of threads up to 4,294,967,295, separated by commas, maybe none,
    /// - `rr:Q` with a quantum Q from 1 to 1,000,000,
    /// - `seed:S:K` with a state S and a stream K below 2^64,
    /// - `stay:` and departures `N=T`, separated by commas, maybe none: positions N below 2^64, each above the one before,
    ///   and threads T up to 4,294,967,295,
    /// - `pct:S:K:D:N` with a state S and a stream K below 2^64, a depth D from 1 to 64, and a number of turns N from 1 to
    ///   4,294,967,296.
    ///
    /// Numbers are decimal digits. Leading zeros are allowed.
    ///
    /// # Errors
    ///
    /// `Syntax` if and only if the text spells no schedule. `Memory` if memory runs out for a list or departures.
    pub fn parse(alloc: Global, text: &str) -> Result<Chooser, ScheduleFault>
        ensures chooser { IfOk result (λ chooser. (schedule : Schedule)
            × Spells text.now schedule × (chooser ≡ chooser_of_schedule schedule)) }
        // Whichever schedule the text spells, this is its chooser.
        ensures only { (schedule : Schedule) → Spells text.now schedule
            → IfOk result (λ chooser. chooser ≡ chooser_of_schedule schedule) }
        ensures syntax { IsErrOf result ScheduleFault.Syntax
            ↔ ((schedule : Schedule) → ¬ (Spells text.now schedule)) }
        ensures memory { IsErrOf result ScheduleFault.Memory → SpellsListOrDepartures text.now }
    {
        let rule = rule_of(alloc, text)?;
        Ok(Chooser { rule })
    }

    /// Returns a chooser that makes the same choices. Both share the threads of a list, and departures. These aren't
    /// copied.
    pub fn copy(&self) -> Result<Chooser, AllocError>
        ensures { IfOk result (λ chooser. chooser ≡ self.now) }
    {
        Ok(Chooser {
            rule: self.rule.copy()?,
        })
    }

    /// Returns the next choice among threads, if there is one.
    pub(crate) fn choose<T: Threads>(&mut self, threads: &T) -> Option<ThreadId>
        ensures { (result, self.new)
            ≡ next self.old (enabled_of (T.passes threads.now) (T.count threads.now)) }
    {
        match &mut self.rule {
            Rule::Listed(list) => list.next(),
            Rule::RoundRobin(turns) => turns.next(threads),
            Rule::Seeded(generator) => next_by_word(generator, threads),
            Rule::Alone => alone(threads),
            Rule::Staying(staying) => staying.next(threads),
            Rule::Ranked(ranked) => ranked.next(threads),
        }
    }

    /// Returns whether random words name the threads, or their priorities do.
    pub fn is_seeded(&self) -> bool
        ensures { result ≡ is_seeded self.now }
    {
        matches!(self.rule, Rule::Seeded(_) | Rule::Ranked(_))
    }

    /// Returns the thread that the next random word or the priorities name among the enabled threads, which are listed in
    /// rising order. Without an enabled thread, takes no word and returns `None`.
    pub fn next_by_word(&mut self, enabled: &[ThreadId]) -> Option<ThreadId>
        requires { IsTrue (is_seeded self.old) }
        ensures choice { result ≡ (next self.old enabled.now).0 }
        ensures after { self.new ≡ (next self.old enabled.now).1 }
        ensures seeded { IsTrue (is_seeded self.new) }
    {
        match &mut self.rule {
            Rule::Seeded(generator) => word_among(generator, enabled),
            Rule::Ranked(ranked) => ranked.next_among(enabled),
            Rule::Listed(_) | Rule::RoundRobin(_) | Rule::Alone | Rule::Staying(_) => None,
        }
    }

    /// Returns the next choice, if there is one. Takes no memory.
    ///
    /// - A list gives its next thread, enabled or not.
    /// - `rr:Q` gives the last thread while it is enabled and had fewer than Q consecutive turns. Else it gives the
    ///   next enabled thread by rising number, round to the least.
    /// - `seed:S:K` gives an enabled thread that the next random word names.
    /// - The chooser of thread 0 alone gives thread 0 while it is enabled.
    /// - `stay:N=T,N=T..` gives T at position N, enabled or not, and no further choice if it isn't. Elsewhere it gives the
    ///   last thread while it is enabled, else the next enabled thread by rising number, round to the least.
    /// - `pct:S:K:D:N` gives the enabled thread of the highest priority. After each of D - 1 random turns below N, the
    ///   thread of that turn gets a priority below all random ones.
    pub fn next(&mut self, machine: &Machine<'_>) -> Option<ThreadId>
        ensures choice { result ≡ (next self.old (enabled_threads machine.now)).0 }
        ensures after { self.new ≡ (next self.old (enabled_threads machine.now)).1 }
    {
        self.choose(machine)
    }

    /// Predicts the next choice and its number of consecutive turns, without inspecting any thread. The prediction
    /// holds as long as the thread is enabled at each of them.
    ///
    /// `rr:Q` predicts the only thread, or the last thread for its remaining turns, else the thread after it. The
    /// chooser of thread 0 alone predicts that. `stay:N=T,N=T..` predicts the last thread for the turns before the next
    /// departure, and nothing at a departure. Lists, random words and priorities predict nothing.
    pub fn candidate(&self, machine: &Machine<'_>) -> Option<Candidate>
        ensures next { IfSome result
            (λ c. IsNextFor c.turns c.thread (length machine.now.state.threads) self.now) }
        ensures some { IfSome result (λ c. 1 ≤ c.turns) }
    {
        match &self.rule {
            Rule::RoundRobin(turns) => turns.candidate(machine),
            Rule::Alone => candidate_alone(machine),
            Rule::Staying(staying) => staying.candidate(machine),
            Rule::Listed(_) | Rule::Seeded(_) | Rule::Ranked(_) => None,
        }
    }

    /// Predicts the next choice beside idle threads, which are marked and aren't enabled, without inspecting any thread.
    /// The prediction holds if the predicted thread is enabled.
    ///
    /// `rr:Q` predicts the last thread if it has turns left and isn't idle, else the next thread that isn't idle.
    /// `stay:N=T,N=T..` predicts the last thread if it isn't idle, else the next thread that isn't idle, and nothing at a
    /// departure. All other choosers predict nothing.
    pub fn candidate_beside(&self, machine: &Machine<'_>, idle: &[bool]) -> Option<ThreadId>
        ensures next { IfSome result
            (λ t. IsNextBeside idle.now t (length machine.now.state.threads) self.now) }
        ensures beside { IfSome result (λ t. may_be_enabled idle.now t ≡ true) }
    {
        match &self.rule {
            Rule::RoundRobin(turns) => turns.candidate_beside(machine.count(), idle),
            Rule::Staying(staying) => staying.candidate_beside(machine.count(), idle),
            Rule::Listed(_) | Rule::Seeded(_) | Rule::Alone | Rule::Ranked(_) => None,
        }
    }

    /// Counts consecutive choices of a thread that was predicted and was enabled each time.
    #[tactic(auto, using(crate::proofs::Candidates::listed_stays, crate::proofs::Candidates::seeded_stays, crate::proofs::Alone::alone_stays, crate::proofs::Priorities::ranked_stays))]
    pub fn count(&mut self, chosen: ThreadId, times: u64)
        ensures { self.new ≡ with_choices times chosen self.old }
    {
        match &mut self.rule {
            Rule::RoundRobin(turns) => turns.count_times(chosen, times),
            Rule::Staying(staying) => staying.count_times(chosen, times),
            Rule::Listed(_) | Rule::Seeded(_) | Rule::Alone | Rule::Ranked(_) => {}
        }
    }
}
