//! Laws about the parts of an exploration: each is the contract of a function that does nothing.

ghost use Rattle.std.specs.Prelude.{ℕ, ◌<◌, Bool, List};
ghost use Rattle.departures.specs.Jobs.{IsIn, IsJob};
ghost use Rattle.departures.specs.Turns.{Turns};
ghost use Rattle.departures.specs.declared.departure.Departure.{Departure};
ghost use Rattle.exploration_parts.specs.Parts.{IsInAPart, jobs_of_part};
ghost use Rattle.exploration_parts.specs.declared.part.Part.{Part};

/// Proves that the parts together have all jobs: each job of a level is among those of a part.
pub fn each_job_is_in_a_part<S>()
    ensures { (system : Turns S) (is_local : S → ℕ → Bool) (count : ℕ) → 0 < count
        → (turns : ℕ) (s : S) (last level : ℕ) (ds : List Departure)
        → IsJob system is_local turns s last level ds
        → IsInAPart system is_local count turns s last level ds }
{}

/// Proves that a part has no other jobs: each that it has is one of its level.
pub fn a_part_has_jobs<S>()
    ensures { (system : Turns S) (is_local : S → ℕ → Bool) (part : Part)
        (turns : ℕ) (s : S) (last level : ℕ) (ds : List Departure)
        → IsIn ds (jobs_of_part system is_local part turns s last level)
        → IsJob system is_local turns s last level ds }
{}
