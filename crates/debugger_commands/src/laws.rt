//! Laws about the definitions. Each is the contract of a function that does nothing.

ghost use Rattle.std.specs.Prelude.{◌≡◌, ◌+◌, ◌<◌, ◌≤◌, true, false, Bool, List, ℕ, Ok};
ghost use Rattle.jvms_program.specs.declared.program.Class.{Class};
ghost use Rattle.jvms_machine.specs.declared.machine.Limits.{Limits};
ghost use Rattle.jvms_machine.specs.Start.{Start};
ghost use Rattle.debugger_commands.specs.declared.command.Command.{Command};
ghost use Rattle.debugger_commands.specs.Readings.{AreRead};
ghost use Rattle.debugger_commands.specs.Sessions.{Session, IsSession, new_session, next_hit, hit_before, after};

/// Proves that words are read as one command at most.
pub fn words_are_of_one_command()
    ensures { (words : List (List ℕ)) (a b : Command)
        → AreRead words (Ok a) → AreRead words (Ok b) → a ≡ b }
{}

/// Proves that `continue` moves to a hit after the position, or to the end, and skips no hit.
pub fn the_next_hit_is_the_nearest()
    ensures hit { (test : ℕ → Bool) (p left : ℕ) → next_hit test p left < p + left
        → test (next_hit test p left) ≡ true }
    ensures nearest { (test : ℕ → Bool) (p left k : ℕ)
        → p < k → k < next_hit test p left → test k ≡ false }
    ensures within { (test : ℕ → Bool) (p left : ℕ)
        → (p ≤ next_hit test p left) × (next_hit test p left ≤ p + left) }
    ensures beyond { (test : ℕ → Bool) (p left : ℕ) → 0 < left → p < next_hit test p left }
{}

/// Proves that `rcontinue` moves to a hit before the position, or to 0, and skips no hit.
pub fn the_hit_before_is_the_nearest()
    ensures hit { (test : ℕ → Bool) (p : ℕ) → 0 < hit_before test p
        → test (hit_before test p) ≡ true }
    ensures nearest { (test : ℕ → Bool) (p k : ℕ) → k < p → hit_before test p < k → test k ≡ false }
    ensures within { (test : ℕ → Bool) (p : ℕ) → hit_before test p ≤ p }
    ensures before { (test : ℕ → Bool) (p : ℕ) → 0 < p → hit_before test p < p }
{}

/// Proves that every command keeps the invariant of a session: it is at one of its positions, and the numbers of its
/// breakpoints are below the next.
pub fn a_session_stays_one()
    ensures opened { (choices : List ℕ) → IsSession (new_session choices) }
    ensures beyond { (program : List Class) (limits : Limits) (start : Start) (x y : Session)
        (c : Command) → IsSession x → after program limits start x c ≡ Ok y → IsSession y }
{}
