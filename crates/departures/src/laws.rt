//! Laws about departures: each is the contract of a function that does nothing.

ghost use Rattle.std.specs.Prelude.{◌≡◌, ◌≤◌, ℕ, Bool, List, Some, false, length, true};
ghost use Rattle.departures.specs.Departures.{choices_of, default_of, departures, name_of};
ghost use Rattle.departures.specs.Jobs.{AreDistinct, AreGoodBelow, AreGoodTo, CanTakeLocals, IsIn, IsJob, IsOneJob, IsReduced, IsRunOfJob, jobs_of};
ghost use Rattle.departures.specs.Reductions.{AreLocal, IsLikeness, StandsFor, events_of, held_by, seen_by};
ghost use Rattle.departures.specs.Turns.{CanTake, IsRun, IsSchedule, IsStuck, Turns, end_of};
ghost use Rattle.departures.specs.declared.departure.Departure.{Departure};

/// Proves that the last thread is the default while it is enabled.
pub fn the_last_thread_stays<S>()
    ensures { (system : Turns S) (s : S) (last : ℕ) → CanTake system s last
        → default_of system s last ≡ Some last }
{}

/// Proves that each schedule is the run of its name.
pub fn each_schedule_is_the_run_of_its_name<S>()
    ensures { (system : Turns S) (turns : ℕ) (s : S) (last : ℕ) (choices : List ℕ)
        → IsSchedule system turns s choices
        → choices_of system turns 0 s last (name_of system 0 s last choices) ≡ choices }
{}

/// Proves that each reduced schedule is the run of exactly one job, at the level of the number of its departures.
pub fn each_schedule_is_one_job<S>()
    ensures { (system : Turns S) (is_local : S → ℕ → Bool) → CanTakeLocals system is_local
        → (turns : ℕ) (s : S) (last : ℕ) (choices : List ℕ)
        → IsSchedule system turns s choices → IsReduced system is_local s last choices
        → IsOneJob system is_local turns s last choices }
{}

/// Proves that the run of each job is a reduced schedule with the job's departures, as many as its level.
pub fn each_job_is_a_schedule<S>()
    ensures { (system : Turns S) (is_local : S → ℕ → Bool) → CanTakeLocals system is_local
        → (turns : ℕ) (s : S) (last level : ℕ) (ds : List Departure)
        → IsJob system is_local turns s last level ds
        → IsRunOfJob system is_local turns s last level ds }
{}

/// Proves that the levels cover the reduced schedules: if no job up to a level is to be reported, none with at most this
/// number of departures is.
pub fn levels_cover_schedules<S>()
    ensures { (system : Turns S) (is_local : S → ℕ → Bool) → CanTakeLocals system is_local
        → (turns : ℕ) (s : S) (last most : ℕ) (report : List ℕ → Bool)
        → AreGoodTo system is_local turns s last most (λ choices. report choices ≡ false)
        → (choices : List ℕ)
        → IsSchedule system turns s choices → IsReduced system is_local s last choices
        → departures system s last choices ≤ most → report choices ≡ false }
{}

/// Proves that the first level with a job that is to be reported has the least number of departures.
pub fn the_first_level_has_the_fewest<S>()
    ensures { (system : Turns S) (is_local : S → ℕ → Bool) → CanTakeLocals system is_local
        → (turns : ℕ) (s : S) (last level : ℕ) (report : List ℕ → Bool)
        → AreGoodBelow system is_local turns s last level (λ choices. report choices ≡ false)
        → (choices : List ℕ)
        → IsSchedule system turns s choices → IsReduced system is_local s last choices
        → report choices ≡ true → level ≤ departures system s last choices }
{}

/// Proves that for each run that ends there are reduced choices that stand for it.
pub fn each_run_has_reduced_choices<S, E, V, H>()
    ensures { (system : Turns S) (is_local : S → ℕ → Bool) (events : S → ℕ → List E)
        (view : List E → V) → IsLikeness (seen_by view) → (state_of : H → S)
        → AreLocal system is_local events (seen_by view) (held_by state_of)
        → (s : S) (last : ℕ) (choices : List ℕ) → held_by state_of s
        → IsRun system s choices → IsStuck system (end_of system s choices)
        → (reduced : List ℕ) × StandsFor system is_local events (seen_by view) s last choices reduced }
{}

/// Proves that the levels of reduced jobs cover all runs that end within the turns and the departures.
pub fn levels_cover_runs<S, E, V, H>()
    ensures { (system : Turns S) (is_local : S → ℕ → Bool) (events : S → ℕ → List E)
        (view : List E → V) → IsLikeness (seen_by view) → (state_of : H → S)
        → AreLocal system is_local events (seen_by view) (held_by state_of)
        → (report : S → List E → Bool)
        → ((s : S) (xs ys : List E) → view xs ≡ view ys → report s xs ≡ report s ys)
        → (turns : ℕ) (s : S) (last most : ℕ) → held_by state_of s
        → AreGoodTo system is_local turns s last most
        (λ choices. report (end_of system s choices) (events_of system events s choices) ≡ false)
        → (choices : List ℕ)
        → IsRun system s choices → IsStuck system (end_of system s choices)
        → length choices ≤ turns → departures system s last choices ≤ most
        → report (end_of system s choices) (events_of system events s choices) ≡ false }
{}

/// Proves that runs that end are within the turns if the runs of all jobs end: those with at most as many departures as
/// the levels have.
pub fn runs_that_end_are_within_the_turns<S, E, V, H>()
    ensures { (system : Turns S) (is_local : S → ℕ → Bool) (events : S → ℕ → List E)
        (view : List E → V) → IsLikeness (seen_by view) → (state_of : H → S)
        → AreLocal system is_local events (seen_by view) (held_by state_of)
        → (turns : ℕ) (s : S) (last most : ℕ) → held_by state_of s
        → AreGoodTo system is_local turns s last most
        (λ choices. IsStuck system (end_of system s choices)) → (choices : List ℕ)
        → IsRun system s choices → IsStuck system (end_of system s choices)
        → departures system s last choices ≤ most → length choices ≤ turns }
{}

/// Proves that the list of a level has its jobs, and nothing else.
pub fn the_list_of_a_level_has_its_jobs<S>()
    ensures { (system : Turns S) (is_local : S → ℕ → Bool) (turns : ℕ) (s : S) (last level : ℕ)
        (ds : List Departure)
        → (IsJob system is_local turns s last level ds → IsIn ds (jobs_of system is_local turns s last level))
        × (IsIn ds (jobs_of system is_local turns s last level) → IsJob system is_local turns s last level ds) }
{}

/// Proves that the list of a level has each job once.
pub fn the_list_of_a_level_has_each_job_once<S>()
    ensures { (system : Turns S) (is_local : S → ℕ → Bool) (turns : ℕ) (s : S) (last level : ℕ)
        → AreDistinct (jobs_of system is_local turns s last level) }
{}
