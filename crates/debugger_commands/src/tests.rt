//! Tests lines of the debugger: the fault of each that spells no command, and what the others spell.

use super::*;
use std::alloc::Global;
use std::process::Abort;
use std::test::*;

/// Lines that spell no command.
const UNKNOWN: [&[u8]; 15] = [
    b"",
    b" ",
    b"foo",
    b"foo x",
    b"back",
    b"trace 1",
    b"trace\r",
    b"trace ",
    b"Step 1",
    b" step 1",
    b"step  1",
    b"step 1 2",
    b"step\t1",
    b"step \xff",
    b"break G.gcd.(II)I",
];

/// Lines with another word at a number's place.
const WITHOUT_NUMBER: [&[u8]; 7] = [
    b"step x",
    b"goto ",
    b"back 4294967296",
    b"pick +1",
    b"delete -1",
    b"break G.gcd.(II)I x",
    b"break x x",
];

/// Decides whether a line is refused for this reason.
fn is_refused(alloc: Global, line: &[u8], reason: DebugFault) -> bool {
    matches!(Command::parse(alloc, line), Err(fault) if fault == reason)
}

#[test]
fn lines_that_spell_no_command_are_refused(rt: HostRuntime) -> Result<(), Fail> {
    for line in UNKNOWN {
        assert!(rt; is_refused(rt.alloc(), line, DebugFault::UnknownCommand));
    }
    for line in WITHOUT_NUMBER {
        assert!(rt; is_refused(rt.alloc(), line, DebugFault::Number));
    }
    Ok(())
}

/// What a line spells. Names are left out.
#[derive(Clone, Copy, Debug, PartialEq)]
enum Spelled {
    Step(u32),
    Goto(u32),
    ReverseContinue,
    Class { is_name: bool },
    Break { is_method: bool, instruction: u32 },
    Other,
}

/// Returns what a command is, without its names.
fn without_names(command: &Command) -> Spelled {
    match command {
        Command::Step(count) => Spelled::Step(*count),
        Command::Goto(position) => Spelled::Goto(*position),
        Command::ReverseContinue => Spelled::ReverseContinue,
        Command::Class(name) => Spelled::Class {
            is_name: name.is_some(),
        },
        Command::Break(place) => Spelled::Break {
            is_method: place.method.is_some(),
            instruction: place.instruction,
        },
        _ => Spelled::Other,
    }
}

/// Returns what a line spells, if it is a command.
fn spelled_by(alloc: Global, line: &[u8]) -> Option<Spelled> {
    let command = Command::parse(alloc, line).ok()?;
    let spelled = without_names(&command);
    drop(command);
    Some(spelled)
}

#[test]
fn lines_spell_commands(rt: HostRuntime) -> Result<(), Fail> {
    let lines: [(&[u8], Spelled); 6] = [
        (b"step 4294967295", Spelled::Step(4_294_967_295)),
        (b"goto 007", Spelled::Goto(7)),
        (b"rcontinue", Spelled::ReverseContinue),
        (b"class ", Spelled::Class { is_name: false }),
        (b"class G", Spelled::Class { is_name: true }),
        (
            b"break G.gcd.(II)I 11",
            Spelled::Break {
                is_method: true,
                instruction: 11,
            },
        ),
    ];
    for (line, wanted) in lines {
        assert_eq!(rt; spelled_by(rt.alloc(), line), Some(wanted));
    }
    Ok(())
}
