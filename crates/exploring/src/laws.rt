//! Laws about what explorations cover: each is the contract of a function that does nothing.

ghost use Rattle.std.specs.Prelude.{◌≡◌, ℕ, ◌<◌, List, None, Ok, Some};
ghost use Rattle.explore_jobs.specs.declared.plan.Plan.{Plan};
ghost use Rattle.exploring.specs.Explorations.{Covers};
ghost use Rattle.jvms_machine.specs.Opening.{start_of_entry};
ghost use Rattle.jvms_machine.specs.Start.{Start};
ghost use Rattle.jvms_program.specs.Program.{IsProgram};
ghost use Rattle.jvms_program.specs.declared.program.Class.{Class};

use explore_laws::laws::{jobs_speak_for_all_runs, jobs_speak_for_reduced_runs};

/// Proves that parts cover together what an exploration of all schedules covers: if each of n parts covers the runs of its
/// own jobs below a level, all is covered below that level.
pub fn parts_cover_together()
    ensures { (program : List Class) (plan : Plan) (start : Start)
        → IsProgram program → start_of_entry program plan.limits plan.entry ≡ Ok start
        → (count : ℕ) → 0 < count → (end : ℕ)
        → ((index : ℕ) → index < count → Covers program (record plan {
          part = Some (record { index = index; count = count });
        }) start end)
        → Covers program (record plan { part = None }) start end }
{
    jobs_speak_for_all_runs();
    jobs_speak_for_reduced_runs();
}
