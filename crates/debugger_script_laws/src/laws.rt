//! Laws about the definitions. Each is the contract of a function that does nothing else.

ghost use Rattle.std.specs.Prelude.{◌≡◌, ◌≢◌, List, Option, Some, Result, Err, ℕ};
ghost use Rattle.debugger_commands.specs.declared.command.Command.{Command};
ghost use Rattle.debugger_commands.specs.declared.fault.DebugFault.{DebugFault};
ghost use Rattle.debugger_commands.specs.declared.fault.DebugFault.TheVariants as fault;
ghost use Rattle.debugger_commands.specs.Readings.{Reads};
ghost use Rattle.debugger_commands.specs.Sessions.{Session};
ghost use Rattle.debugger.specs.Sessions.{Debugger};
ghost use Rattle.debugger.specs.States.{Setting};
ghost use Rattle.debugger_script.specs.Answers.{AreAnswers};
ghost use Rattle.debugger_script.specs.Scripts.{AreLines, HasRun};

use debugger_commands::words_are_of_one_command;

/// Ensures that a line is read as one command or one fault, apart from lack of memory.
pub fn a_line_is_read_as_one_result()
    ensures { (line : List ℕ) (a b : Result Command DebugFault)
        → a ≢ Err fault.Memory → b ≢ Err fault.Memory → Reads line a → Reads line b → a ≡ b }
{
    words_are_of_one_command();
}

/// Ensures that bytes are the lines of one list only, with one rest.
pub fn bytes_are_one_list_of_lines()
    ensures lines { (bytes : List ℕ) (first second : List (List ℕ)) (rest other : List ℕ)
        → AreLines bytes first rest → AreLines bytes second other → first ≡ second }
    ensures rest { (bytes : List ℕ) (first second : List (List ℕ)) (rest other : List ℕ)
        → AreLines bytes first rest → AreLines bytes second other → rest ≡ other }
{}

/// Ensures that lines have one answer in a session, and lead to one session.
pub fn lines_have_one_answer()
    ensures text { (g : Setting) (x y z : Session) (lines : List (List ℕ)) (s t : List ℕ)
        → AreAnswers g x lines s y → AreAnswers g x lines t z → s ≡ t }
    ensures session { (g : Setting) (x y z : Session) (lines : List (List ℕ)) (s t : List ℕ)
        → AreAnswers g x lines s y → AreAnswers g x lines t z → y ≡ z }
{
    words_are_of_one_command();
}

/// Ensures that scripts of the same bytes write the same answers in a session, and lead to one session.
pub fn scripts_have_one_answer()
    ensures written { (read written : List ℕ) (l m w v : Option (List ℕ))
        (old first second : Debugger) → HasRun (Some read) l (Some written) w old first
        → HasRun (Some read) m (Some written) v old second → w ≡ v }
    ensures session { (read written : List ℕ) (l m w v : Option (List ℕ))
        (old first second : Debugger) → HasRun (Some read) l (Some written) w old first
        → HasRun (Some read) m (Some written) v old second → first.session ≡ second.session }
{
    words_are_of_one_command();
}
