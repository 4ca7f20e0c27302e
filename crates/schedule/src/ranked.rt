//! Priorities of threads, which change at random turns. The choice is the enabled thread of the highest one.

ghost use Rattle.std.specs.Prelude.{ℕ, ◌≡◌, ◌≤◌, length, take, IfSome, MatchOption};
ghost use Rattle.schedule.specs.Schedules.{WritesChanges, WritesRanking};
ghost use Rattle.schedule.specs.Choosers as choosers;
ghost use Rattle.schedule.specs.Choosers.{after_turn, after_words, changes_at, due, enabled_of, higher, highest, left_after, next, priority, ranking_of, words_of, IsRanking};
ghost use Rattle.schedule.specs.Rankings.{thread_of};

use crate::numbers::{depth, long_number, turns};
use crate::threads::Threads;
use jvms_machine::machine::ThreadId;
use rand_core::utils::NextWord;
use rand_pcg::Lcg64Xsh32;
use std::marker::Model;

/// A thread and its priority.
#[derive(Clone, Copy)]
struct Rank {
    /// The thread.
    pub thread: ThreadId,
    /// Its priority.
    pub priority: u64,
}

/// The rank of no thread, which fills room.
const NO_RANK: Rank = Rank {
    thread: 0,
    priority: 0,
};

/// A change of priorities.
#[derive(Clone, Copy)]
struct Change {
    /// The number of turns before the one after which it is made.
    pub turns: u32,
    /// The priority that it gives to the thread of that turn.
    pub priority: u32,
}

/// A change that isn't made, which fills room.
const NO_CHANGE: Change = Change {
    turns: 0,
    priority: 0,
};

/// The priorities of threads, and their changes that are left.
#[derive(Drop)]
pub(crate) struct Ranked {
    /// The changes. Those from index `left` on were made.
    changes: [Change; 63],
    /// The number of changes that are left.
    left: usize,
    /// The threads that changes moved, and the priorities that they gave, the last one first, from index `top` on.
    moved: [Rank; 64],
    /// The index of the thread that was moved last, or 64 if none was.
    top: usize,
    /// The least priority of a thread that wasn't moved.
    least: u32,
    /// The state of the generator of the threads' words.
    state: u64,
    /// The stream of that generator.
    stream: u64,
}

impl Model for Ranked {
    ghost use Rattle.schedule.specs.Choosers.{Ranking};

    ghost Value = { Ranking };

    ghost use Rattle.schedule.specs.Rankings.{ranking_seen, HasRoom};

    ghost view = { ranking_seen };

    ghost invariant = { HasRoom };
}

/// Fills a list with the changes at a generator's next words, each modulo a number of turns.
fn draw(generator: &mut Lcg64Xsh32, turns: u64, changes: &mut [Change])
    requires some { 1 ≤ turns }
    requires most { turns ≤ 4294967296 }
    requires few { length changes.old ≤ 63 }
    ensures changes { changes.new
        ≡ changes_at 0 turns (words_of (length changes.old) generator.old) }
    ensures generator { generator.new ≡ after_words (length changes.old) generator.old }
{
    for place in 0..changes.len() {
        changes[place] = Change {
            turns: (u64::from(generator.next_word()) % turns) as u32,
            priority: place as u32,
        };
    }
}

/// Returns the priority that is given after the next turn, if a change is made then.
fn due(changes: &[Change]) -> Option<u32>
    ensures { result ≡ due changes.now }
{
    for place in 0..changes.len() {
        let change = changes[place];
        if change.turns == 0 {
            return Some(change.priority);
        }
    }
    None
}

/// Counts a turn. Drops the changes that are made after it, and returns the number of those that are left. They come
/// first, each with one turn less before it.
fn count_down(changes: &mut [Change]) -> usize
    ensures left { take result changes.new ≡ left_after changes.old }
    ensures most { result ≤ length changes.old }
{
    let mut left = 0;
    for place in 0..changes.len() {
        let change = changes[place];
        if change.turns == 0 {
            continue;
        }
        changes[left] = Change {
            turns: change.turns - 1,
            priority: change.priority,
        };
        left += 1;
    }
    left
}

/// Returns the depth and the number of turns that a text writes, separated by a colon, or `None` if it writes none.
fn written_changes(text: &str) -> Option<(u32, u64)>
    ensures { MatchOption result ((depth turns : ℕ) → ¬ (WritesChanges text.now depth turns))
        (λ c. WritesChanges text.now c.0 c.1) }
{
    let (first, second) = text.split_once(':')?;
    Some((depth(first)?, turns(second)?))
}

impl Ranked {
    /// Returns the priorities of a depth over a number of turns, before the first choice.
    pub(crate) fn new(state: u64, stream: u64, depth: u32, turns: u64) -> Ranked
        requires depth { (1 ≤ depth) × (depth ≤ 64) }
        requires turns { (1 ≤ turns) × (turns ≤ 4294967296) }
        ensures { result ≡ ranking_of state stream depth turns }
    {
        let mut generator = Lcg64Xsh32::new(state, stream);
        let mut changes = [NO_CHANGE; 63];
        let left = depth as usize - 1;
        draw(&mut generator, turns, &mut changes[..left]);
        Ranked {
            changes,
            left,
            moved: [NO_RANK; 64],
            top: 64,
            least: depth - 1,
            state: generator.state(),
            stream,
        }
    }

    /// Returns the priorities of the state, the stream, the depth and the number of turns that a text writes, separated by
    /// colons, or `None` if it writes none.
    pub(crate) fn parse(text: &str) -> Option<Ranked>
        ensures { MatchOption result ((state stream depth turns : ℕ)
            → ¬ (WritesRanking text.now state stream depth turns)) (IsRanking text.now) }
    {
        let (state, rest) = text.split_once(':')?;
        let (stream, changes) = rest.split_once(':')?;
        let state = long_number(state)?;
        let stream = long_number(stream)?;
        let (depth, turns) = written_changes(changes)?;
        Some(Ranked::new(state, stream, depth, turns))
    }

    /// Returns a copy.
    pub(crate) fn copy(&self) -> Ranked
        ensures { result ≡ self.now }
    {
        Ranked {
            changes: self.changes,
            left: self.left,
            moved: self.moved,
            top: self.top,
            least: self.least,
            state: self.state,
            stream: self.stream,
        }
    }

    /// Returns a thread's priority.
    fn priority(&self, thread: ThreadId) -> u64
        ensures { result ≡ priority self.now thread }
    {
        let moved = &self.moved[self.top..];
        for place in 0..moved.len() {
            let rank = moved[place];
            if rank.thread == thread {
                return rank.priority;
            }
        }
        let mut generator = Lcg64Xsh32::from_state(self.state, self.stream);
        generator.advance(u64::from(thread));
        u64::from(self.least) + u64::from(generator.next_word())
    }

    /// Returns a thread if it has a higher priority than the best one before it, or if there is none, else the best one.
    fn higher(&self, best: Option<Rank>, thread: ThreadId) -> Rank
        requires { IfSome best (λ b. b.priority ≡ priority self.now b.thread) }
        ensures thread { result.thread ≡ higher (priority self.now) (thread_of best) thread }
        ensures priority { result.priority ≡ priority self.now result.thread }
    {
        let priority = self.priority(thread);
        match best {
            Some(best) if priority <= best.priority => best,
            _ => Rank { thread, priority },
        }
    }

    /// Returns the thread of the highest priority of a list, if it has one.
    fn highest_among(&self, enabled: &[ThreadId]) -> Option<ThreadId>
        ensures { result ≡ highest self.now enabled.now }
    {
        let mut best = None;
        for place in 0..enabled.len() {
            best = Some(self.higher(best, enabled[place]));
        }
        Some(best?.thread)
    }

    /// Returns the enabled thread of the highest priority, if one is enabled.
    #[tactic(auto, using(crate::proofs::Ranges::range_more, crate::proofs::Ranges::range_none))]
    fn highest_enabled<T: Threads>(&self, threads: &T) -> Option<ThreadId>
        ensures { result
            ≡ highest self.now (enabled_of (T.passes threads.now) (T.count threads.now)) }
    {
        let mut best = None;
        for thread in 0..threads.count() {
            if !threads.is_enabled(thread) {
                continue;
            }
            best = Some(self.higher(best, thread));
        }
        Some(best?.thread)
    }

    /// Counts a turn of a thread. If a change is due, the thread gets its priority.
    fn count_turn(&mut self, thread: ThreadId)
        ensures { self.new ≡ after_turn self.old thread }
    {
        let left = self.left;
        let given = due(&self.changes[..left]);
        self.left = count_down(&mut self.changes[..left]);
        let Some(priority) = given else {
            return;
        };
        self.top -= 1;
        self.moved[self.top] = Rank {
            thread,
            priority: u64::from(priority),
        };
    }

    /// Returns the next choice among threads that are listed in rising order, if there is one, and counts it.
    pub(crate) fn next_among(&mut self, enabled: &[ThreadId]) -> Option<ThreadId>
        ensures { (result, choosers.Ranked self.new) ≡ next (choosers.Ranked self.old) enabled.now }
    {
        let thread = self.highest_among(enabled)?;
        self.count_turn(thread);
        Some(thread)
    }

    /// Returns the next choice, if there is one, and counts it.
    pub(crate) fn next<T: Threads>(&mut self, threads: &T) -> Option<ThreadId>
        ensures { (result, choosers.Ranked self.new) ≡ next (choosers.Ranked self.old)
            (enabled_of (T.passes threads.now) (T.count threads.now)) }
    {
        let thread = self.highest_enabled(threads)?;
        self.count_turn(thread);
        Some(thread)
    }
}
