//! The program `jvmx`: runs Java class files, one turn of one thread at a time, and decides whether methods were
//! atomic.
#![tactic(auto)]

ghost use Rattle.std.specs.Prelude.{◌≡◌, ◌<◌};

use command_line::WordsFault;
use commands::perform::perform_at;
use commands::{SystemFiles, Terminal};
use std::env;
use std::io::IsTerminal;
use std::marker::Brand;
use std::process::ExitCode;
use std::rt::Clock;
use std::sync::Wait;
use std::sync::ledger::{Blank, Ledger};
use std::thread::Threads;
use trace::{Counted, Failures};

/// Returns the words after the program's name.
fn words_of(rt: &HostRuntime) -> Result<Vec<String>, WordsFault> {
    let words = env::args(rt)?.skip(1).collect(rt.alloc())?;
    Ok(words)
}

/// Returns which standard devices are a terminal.
fn terminal_of(rt: &HostRuntime) -> Terminal {
    Terminal {
        input: rt.stdin().is_terminal(),
        output: rt.stdout().is_terminal(),
        errors: rt.stderr().is_terminal(),
    }
}

/// Runs the program over the system's files, standard input, standard output and standard error. These three ledgers
/// count their failures.
fn counted<
    R: AllocGlobal + Clock + Eprint + Threads + Wait + Sync,
    I: Ledger,
    O: Ledger,
    E: Ledger,
>(host: &HostRuntime, rt: &R, words: &[String], input: Blank, output: Blank, errors: Blank) -> u8
    requires input { (input.name ≡ I.name) × (input.parts ≡ I.parts) × (0 < I.parts) }
    requires output { (output.name ≡ O.name) × (output.parts ≡ O.parts) × (0 < O.parts) }
    requires errors { (errors.name ≡ E.name) × (errors.parts ≡ E.parts) × (0 < E.parts) }
{
    let mut files = SystemFiles { rt: host };
    let mut input = Counted::new(host.stdin(), Failures::<I>::none(input));
    let mut output = Counted::new(host.stdout(), Failures::<O>::none(output));
    let mut errors = Counted::new(host.stderr(), Failures::<E>::none(errors));
    let terminal = terminal_of(host);
    perform_at(
        rt,
        terminal,
        words,
        &mut files,
        &mut input,
        &mut output,
        &mut errors,
    )
}

/// Runs the program on these words, and returns its exit status.
fn performed<R: AllocGlobal + Clock + Eprint + Threads + Wait + Sync>(
    host: &HostRuntime,
    rt: &R,
    words: &[String],
) -> u8 {
    let (input, output, errors) = (Blank::new(1), Blank::new(1), Blank::new(1));
    counted::<R, Brand, Brand, Brand>(host, rt, words, input, output, errors)
}

/// Reports that the words can't be read, and returns the exit status. It is 2 if a word isn't UTF-8, and 3 if memory
/// ran out or standard error failed.
fn refused(rt: &HostRuntime, fault: WordsFault) -> u8 {
    let printed = eprintln!(rt; "jvmx: {fault}");
    if printed.is_ok() && fault == WordsFault::Words {
        2
    } else {
        3
    }
}

fn main(rt: HostRuntime) -> ExitCode {
    let status = match words_of(&rt) {
        Ok(words) => performed(&rt, &rt, words.as_slice()),
        Err(fault) => refused(&rt, fault),
    };
    ExitCode::from(status)
}
