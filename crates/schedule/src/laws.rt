//! Laws about choosers: each is the contract of a function that does nothing.

ghost use Rattle.std.specs.Prelude.{◌≡◌, ◌≢◌, ◌↔◌, ℕ, ◌+◌, ◌<◌, ◌≤◌, IsTrue, IsNone, IfSome, List, [], ◌∷◌, Contains};
ghost use Rattle.std.specs.List.{All};
ghost use Rattle.departures.specs.Departures.{chosen_at, left_at};
ghost use Rattle.departures.specs.declared.departure.Departure.{Departure};
ghost use Rattle.schedule.specs.declared.ranked.Change.{Change};
ghost use Rattle.schedule.specs.Schedules.{RoundRobin, Staying};
ghost use Rattle.schedule.specs.Choosers.{Chooser, Listed, Ranking, after_turn, asks, chooser_of_schedule, default, due, generator_of, highest, next, priority, ranking_of, round_robin, words_of};
ghost use Rattle.schedule.specs.Past.{round_robin_after, choice_after, with_choice};
ghost use Rattle.schedule.specs.Positions.{due_at, left_after_turns, staying_at, AreRisingFrom};

/// States that round robin, random words and priorities choose an enabled thread, as long as there is one.
#[tactic(auto, using(crate::proofs::Choices::chosen_is_enabled, crate::proofs::Choices::none_is_enabled))]
pub fn choices_are_of_enabled_threads()
    ensures enabled { (chooser : Chooser) (enabled : List ℕ) → IsTrue (asks chooser)
        → IfSome (next chooser enabled).0 (Contains enabled) }
    ensures none { (chooser : Chooser) (enabled : List ℕ) → IsTrue (asks chooser)
        → (IsNone (next chooser enabled).0 ↔ (enabled ≡ [])) }
{}

/// States that round robin counts all of a thread's last consecutive choices, up to the quantum, even if the round led
/// back to it.
#[tactic(auto, using(crate::proofs::Choices::opened_behind, crate::proofs::Choices::next_behind))]
pub fn round_robin_counts_consecutive_choices()
    ensures start { (quantum : ℕ) → chooser_of_schedule (RoundRobin quantum)
        ≡ round_robin_after quantum [] }
    ensures turn { (quantum : ℕ) (past : List ℕ) (enabled : List ℕ) → 0 < quantum
        → let chosen = choice_after quantum past enabled in
        next (round_robin_after quantum past) enabled
        ≡ (chosen, round_robin_after quantum (with_choice chosen past)) }
{}

/// States that the first words of state 42 and stream 54 are those of PCG's demonstration of pcg32.
#[tactic(auto, using(crate::proofs::Choices::demonstrated))]
pub fn random_words_are_those_of_pcg()
    ensures { words_of 6 (generator_of 42 54)
        ≡ 0xa15c02b7 ∷ 0x7b47f409 ∷ 0xba1d3330 ∷ 0x83d2f293 ∷ 0xbfa4784b ∷ 0xcbed606e ∷ [] }
{}

/// States that each departure is made at its position, and the default is the choice at every other position. After a
/// departure to a thread that isn't enabled there is no choice.
#[tactic(auto, using(crate::proofs::Positions::turn, crate::proofs::Positions::rest, crate::proofs::Positions::ended))]
pub fn departures_are_made_at_their_positions()
    ensures start { (departures : List Departure) → chooser_of_schedule (Staying departures)
        ≡ staying_at 0 0 departures }
    ensures turn { (position last t : ℕ) (departures : List Departure) (enabled : List ℕ)
        → AreRisingFrom position departures → default last enabled ≡ Some t
        → let chosen = chosen_at position t departures in
        Contains enabled chosen → next (staying_at position last departures) enabled
        ≡ (Some chosen, staying_at (position + 1) chosen (left_at position departures)) }
    ensures rest { (position : ℕ) (departures : List Departure) → AreRisingFrom position departures
        → AreRisingFrom (position + 1) (left_at position departures) }
    ensures ended { (last : ℕ) (d : Departure) (departures : List Departure) (enabled : List ℕ)
        → ¬ (Contains enabled d.thread)
        → next (staying_at d.position last (d ∷ departures)) enabled ≡ (Some d.thread, Listed []) }
{}

/// States that the default is the choice of round robin with turns left.
#[tactic(auto, using(crate::proofs::Positions::turns_left))]
pub fn the_default_is_round_robin_with_turns_left()
    ensures { (quantum turns last : ℕ) (enabled : List ℕ) → turns < quantum
        → default last enabled ≡ round_robin quantum last turns enabled }
{}

/// States that the highest thread is one of the threads, and none of them has a higher priority.
#[tactic(auto, using(crate::proofs::Priorities::highest_is_highest))]
pub fn the_highest_thread_has_the_highest_priority()
    ensures { (ranking : Ranking) (threads : List ℕ) → IfSome (highest ranking threads) (λ thread.
        Contains threads thread
        × All (λ other. priority ranking other ≤ priority ranking thread) threads) }
{}

/// States that a change gives its thread the priority of the change, and that no other priority changes by a turn.
#[tactic(auto, using(crate::proofs::Priorities::moved_to_it, crate::proofs::Priorities::others_stay))]
pub fn a_change_moves_its_thread()
    ensures moved { (ranking : Ranking) (thread given : ℕ) → due ranking.changes ≡ Some given
        → priority (after_turn ranking thread) thread ≡ given }
    ensures others { (ranking : Ranking) (thread other : ℕ) → other ≢ thread
        → priority (after_turn ranking thread) other ≡ priority ranking other }
{}

/// States that changes give priorities below those of all threads that weren't moved.
#[tactic(auto, using(crate::proofs::Priorities::below_least, crate::proofs::Priorities::above_least))]
pub fn changes_give_low_priorities()
    ensures low { (state stream depth turns : ℕ) → let ranking = ranking_of state stream depth turns in
        All (λ change. change.priority < ranking.least) ranking.changes }
    ensures high { (state stream depth turns thread : ℕ)
        → let ranking = ranking_of state stream depth turns in
        ranking.least ≤ priority ranking thread }
{}

/// States that a change is due after as many turns as its position says, and after no others.
#[tactic(auto, using(crate::proofs::Priorities::due_after))]
pub fn changes_are_due_at_their_positions()
    ensures { (turns : ℕ) (changes : List Change) → due (left_after_turns turns changes)
        ≡ due_at turns changes }
{}
