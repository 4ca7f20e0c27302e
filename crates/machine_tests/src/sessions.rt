//! Tests sessions of the debugger where a read or a write fails, and the numbers of turns that commands take. The run is
//! that of gcd(48, 36): 25 choices of thread 0.

ghost use Rattle.std.specs.Prelude.{◌≡◌, ◌<◌};

use crate::programs::{LIMITS, entry, program_of};
use debugger::Session;
use debugger_commands::{Command, DebugFault};
use debugger_script::{ScriptFault, fault_text, run_script};
use fixtures::devices::{Cut, Short};
use fixtures::texts::units;
use machine::{Argument, Entry, Outcome};
use program::Program;
use std::alloc::Global;
use std::marker::Brand;
use std::sync::ledger::{Blank, Ledger};
use std::test::Fail;
use trace::{Counted, Failures};

/// The greatest common divisor of two ints.
const GCD: &str = "
.class public G
.method public static gcd(II)I
.limit stack 3
.limit locals 2
AGAIN:
  iload_1
  ifeq DONE
  iload_1
  iload_0
  iload_1
  irem
  istore_1
  istore_0
  goto AGAIN
DONE:
  iload_0
  ireturn
.end method
";

/// The number of turns of gcd(48, 36).
const TURNS: usize = 25;

/// More bytes than a script's answers have.
const MOST_ANSWERS: usize = 10_000;

/// A script that moves along the run and replaces its end.
const MOVES: &str = "step 10\nback 3\npick 1\nback 99\ngoto 99\nrcontinue\n";

/// The position before the first line of `MOVES` and after each.
const MOVED: [usize; 7] = [0, 10, 7, 8, 0, 8, 0];

/// The number of choices before the first line of `MOVES` and after each.
const CHOSEN: [usize; 7] = [25, 25, 25, 8, 8, 8, 8];

/// A script that runs to each call of a place.
const HITS: &str = "break G.gcd.(II)I 0\ncontinue\ncontinue\ncontinue\ncontinue\n";

/// The position before the first line of `HITS` and after each.
const HIT: [usize; 6] = [0, 0, 3, 12, 21, 25];

/// The number of choices before the first line of `HITS` and after each.
const KEPT: [usize; 6] = [25; 6];

/// The output of Hello World, whose run has seven turns.
const HELLO: &str = "
.class public HelloWorld
.method public static main([Ljava/lang/String;)V
.limit stack 2
  getstatic java/lang/System/out Ljava/io/PrintStream;
  ldc \"Hello World!\"
  invokevirtual java/io/PrintStream/println(Ljava/lang/String;)V
  return
.end method
";

/// A script, with the position and the number of choices before its first line and after each.
#[derive(Clone, Copy)]
struct Script<'t> {
    text: &'t str,
    positions: &'t [usize],
    choices: &'t [usize],
}

const SCRIPTS: [Script<'static>; 2] = [
    Script {
        text: MOVES,
        positions: &MOVED,
        choices: &CHOSEN,
    },
    Script {
        text: HITS,
        positions: &HIT,
        choices: &KEPT,
    },
];

/// The number of bytes that a reader returns and that a writer accepts before it fails.
#[derive(Clone, Copy)]
struct Room {
    input: usize,
    output: usize,
}

/// How a script ended, and what it left of the session. It owns no memory, so the loops below own none.
#[derive(Clone, Copy)]
struct Left {
    fault: Option<ScriptFault>,
    /// The number of whole answers that were written. Each answer to a line of these scripts is a line.
    answers: usize,
    position: usize,
    choices: usize,
}

/// Returns the number of lines that LF ends.
fn lines_of(bytes: &[u8]) -> usize {
    bytes.iter().filter(|byte| **byte == b'\n').count()
}

/// Begins a session of the run of gcd(48, 36), before the first of its choices.
fn session_of<'p>(alloc: Global, program: &'p Program) -> Result<Session<'p>, Fail> {
    let arguments = [Argument::Int(48), Argument::Int(36)];
    let entry = entry(alloc, "G", "gcd", "(II)I", &arguments)?;
    let choices = vec![in alloc; 0u32; TURNS]?;
    let session = Session::new(alloc, program, LIMITS, &entry, choices);
    drop(entry);
    Ok(session?)
}

/// Runs a script over devices that fail, and returns its fault and the number of whole answers. These ledgers count the
/// devices' failures.
fn run_counted<I: Ledger, O: Ledger>(
    alloc: Global,
    session: &mut Session<'_>,
    script: &[u8],
    room: Room,
    input: Blank,
    output: Blank,
) -> (Option<ScriptFault>, usize)
    requires input { (input.name ≡ I.name) × (input.parts ≡ I.parts) × (0 < I.parts) }
    requires output { (output.name ≡ O.name) × (output.parts ≡ O.parts) × (0 < O.parts) }
{
    let mut input = Counted::new(Cut::new(script, room.input), Failures::<I>::none(input));
    let mut output = Counted::new(Short::new(alloc, room.output), Failures::<O>::none(output));
    let fault = run_script(alloc, session, &mut input, &mut output).err();
    (fault, lines_of(output.inner().bytes().as_slice()))
}

/// Runs a script over devices that fail, and returns its fault and the number of whole answers.
fn run_within(
    alloc: Global,
    session: &mut Session<'_>,
    script: &[u8],
    room: Room,
) -> (Option<ScriptFault>, usize) {
    let (input, output) = (Blank::new(1), Blank::new(1));
    run_counted::<Brand, Brand>(alloc, session, script, room, input, output)
}

/// Runs a script over devices that fail, in a session of its own, and returns what it left.
fn left_by(alloc: Global, program: &Program, script: &[u8], room: Room) -> Result<Left, Fail> {
    let mut session = session_of(alloc, program)?;
    let (fault, answers) = run_within(alloc, &mut session, script, room);
    let left = Left {
        fault,
        answers,
        position: session.position(),
        choices: session.choices().len(),
    };
    drop(session);
    Ok(left)
}

/// Fails unless a session was left as it is after this number of a script's lines.
fn assert_after(left: Left, script: Script<'_>, lines: usize) -> Result<(), Fail> {
    let position = script.positions.get(lines).copied();
    let choices = script.choices.get(lines).copied();
    if position != Some(left.position) || choices != Some(left.choices) {
        return Err(Fail::new("a session isn't as it was after these lines"));
    }
    Ok(())
}

/// Fails a read after each number of a script's bytes. The session is then as it is after the whole lines before.
fn fail_reads(alloc: Global, program: &Program, script: Script<'_>) -> Result<(), Fail> {
    let bytes = script.text.as_bytes();
    for input in 0..=bytes.len() {
        let room = Room {
            input,
            output: usize::MAX,
        };
        let left = left_by(alloc, program, bytes, room)?;
        if left.fault != Some(ScriptFault::Read) {
            return Err(Fail::new("a failed read isn't reported"));
        }
        assert_after(left, script, lines_of(&bytes[..input]))?;
    }
    Ok(())
}

/// Fails a write after each number of bytes of a script's answers, of which there are some. The session is then as it is
/// after the line whose answer was being written.
fn fail_writes(alloc: Global, program: &Program, script: Script<'_>) -> Result<(), Fail> {
    for output in 0..MOST_ANSWERS {
        let room = Room {
            input: usize::MAX,
            output,
        };
        let left = left_by(alloc, program, script.text.as_bytes(), room)?;
        match left.fault {
            None if output == 0 => return Err(Fail::new("a script has no answers")),
            None => return Ok(()),
            Some(ScriptFault::Write) => assert_after(left, script, left.answers.saturating_add(1))?,
            Some(_) => return Err(Fail::new("a failed write isn't reported")),
        }
    }
    Err(Fail::new("a script's answers don't end"))
}

/// Fails reads and writes of each script.
fn fail_all(alloc: Global, program: &Program) -> Result<(), Fail> {
    for script in SCRIPTS {
        fail_reads(alloc, program, script)?;
        fail_writes(alloc, program, script)?;
    }
    Ok(())
}

#[test]
fn a_session_is_whole_after_a_failed_read_or_write(rt: HostRuntime) -> Result<(), Fail> {
    let program = program_of(rt.alloc(), &[GCD])?;
    let tried = fail_all(rt.alloc(), &program);
    drop(program);
    tried
}

/// Executes the command of a line, and returns the number of turns that it took.
fn replayed(alloc: Global, session: &mut Session<'_>, line: &str) -> Result<u64, Fail> {
    let command = Command::parse(alloc, line.as_bytes())?;
    session.command(command)?;
    Ok(session.replayed())
}

/// Executes the commands of two lines, and returns the number of turns that each took.
fn both_replayed(
    alloc: Global,
    session: &mut Session<'_>,
    first: &str,
    second: &str,
) -> Result<[u64; 2], Fail> {
    let first = replayed(alloc, session, first)?;
    Ok([first, replayed(alloc, session, second)?])
}

#[test]
fn a_move_back_takes_no_turn_beside_a_checkpoint(rt: HostRuntime) -> Result<(), Fail> {
    let program = program_of(rt.alloc(), &[GCD])?;
    let mut session = session_of(rt.alloc(), &program)?;
    let taken = both_replayed(rt.alloc(), &mut session, "goto 25", "back 3");
    drop(session);
    drop(program);
    assert_eq!(rt; taken?, [25, 0]);
    Ok(())
}

#[test]
fn a_refused_growth_has_its_text(rt: HostRuntime) -> Result<(), Fail> {
    let text = fault_text(rt.alloc(), DebugFault::Memory)?;
    assert_eq!(rt; text.as_str(), "fault B07 Memory\n");
    Ok(())
}

/// Begins a session of Hello World, before the first of 200 choices.
fn long_session<'p>(alloc: Global, program: &'p Program) -> Result<Session<'p>, Fail> {
    let entry = Entry::Main {
        class: units(alloc, "HelloWorld")?,
    };
    let choices = vec![in alloc; 0u32; 200]?;
    let session = Session::new(alloc, program, LIMITS, &entry, choices);
    drop(entry);
    Ok(session?)
}

/// What a session shows at the end of 200 choices, and the number of turns that two moves back take.
#[derive(Clone, Copy)]
struct Along {
    position: usize,
    outcome: Option<Outcome>,
    back: [u64; 2],
}

/// Moves to the end of 200 choices, one choice back, and to the first.
fn moved_along(alloc: Global, session: &mut Session<'_>) -> Result<Along, Fail> {
    replayed(alloc, session, "goto 200")?;
    Ok(Along {
        position: session.position(),
        outcome: session.last_outcome(),
        back: both_replayed(alloc, session, "back 1", "goto 0")?,
    })
}

#[test]
fn moves_along_200_choices_take_few_turns(rt: HostRuntime) -> Result<(), Fail> {
    let program = program_of(rt.alloc(), &[HELLO])?;
    let mut session = long_session(rt.alloc(), &program)?;
    let along = moved_along(rt.alloc(), &mut session);
    drop(session);
    drop(program);
    let along = along?;
    assert_eq!(rt; along.position, 200);
    assert_eq!(rt; along.outcome, Some(Outcome::Ended { last: false }));
    assert!(rt; along.back[0] <= 3 && along.back[1] <= 3);
    Ok(())
}
