//! Tests of all commands, as data. Each argument names a file of cases. A case has files, commands and the wanted
//! outcome of each command. A line reports each command with another outcome, and the last line has the number of
//! commands with the wanted one.
//!
//! A case is a list of sections, which are processed in order:
//!
//! | Section | Meaning |
//! |---|---|
//! | `text F` | the file F has these lines, and N copies of LINE for a line `%N LINE` |
//! | `open F` | as `text F`, but the last line has no line end |
//! | `hex F` | the file F has these bytes, in hexadecimal digits |
//! | `splice F B N M` | F has the bytes of the file B, but these in place of M at place N |
//! | `fault F NAME` | F can't be read or written: File, TooLarge or Memory |
//! | `input` | these lines are the standard input of the next command, which is empty otherwise |
//! | `input open`, `input hex` | as `input`, but without the last line end, or in hexadecimal digits |
//! | `input-room N` | standard input of the next command returns N bytes and then fails |
//! | `room N`, `error-room N` | standard output or standard error of the next command accepts N bytes and then fails |
//! | `command WORDS` | a command with these words, of which `''` is the empty one |
//! | `short WORDS` | as `command`, and also with room for each smaller number of bytes on either output device |
//! | `cut WORDS` | as `short`, and also with standard input that fails after each number of bytes, even all |
//!
//! The wanted outcome of a command follows it. Without such a section it writes nothing, with the status 0.
//!
//! `line` sections give a script of the debugger. If standard input fails, a `cut` command must write the answers to
//! the whole lines before, and report S01. If standard output fails, a command with an input must report S02, and any
//! other P05.
//!
//! | Section | Meaning |
//! |---|---|
//! | `status N` | its exit status |
//! | `output`, `errors` | these lines are written to standard output, or to standard error |
//! | `output open`, `errors open` | as `output` and `errors`, but the last line has no line end |
//! | `output hex`, `errors hex` | these bytes are written, in hexadecimal digits |
//! | `line LINE` | this is the next line of standard input, and the section's lines, maybe none, are the answer to it |
//! | `prints LINE` | this line is written to standard output, and nothing else, with the status 0 |
//! | `ends LINE` | this line is written to standard error, with the status 1 |
//! | `refused LINE` | `jvmx: LINE` is written to standard error, and nothing else, with the status 2 |
//! | `failed LINE` | as `refused LINE`, with the status 3 |
//! | `like WORDS` | the outcome of another command with the same standard input |
//! | `written F` | then the file F has these bytes, in hexadecimal digits |
//! | `same F B` | then the file F has the bytes of the file B |
//!
//! A file that no section names is one of the system.
#![tactic(auto)]

mod bytes;
mod devices;
mod fault;
mod files;
mod stage;
mod wanted;

use crate::fault::CaseFault;
use crate::files::read_text;
use crate::stage::{Stage, Tally};
use cases::{Case, cases_of};
use commands::SystemFiles;
use std::alloc::Global;
use std::process::ExitCode;
use std::rt::Clock;
use std::sync::Wait;
use std::thread::Threads;
use std::{env, io};

/// Runs a case.
fn run_case<R: AllocGlobal + Clock + Eprint + Threads + Wait + Sync>(
    host: &HostRuntime,
    rt: &R,
    case: &Case<'_>,
    tally: &mut Tally,
) -> Result<(), CaseFault> {
    let mut stage = Stage::new(rt, case.name, SystemFiles { rt: host }, tally);
    for section in case.sections.as_slice() {
        stage.take(section)?;
    }
    stage.finish()
}

/// Runs all cases of a file.
fn run_file<R: AllocGlobal + Clock + Eprint + Threads + Wait + Sync>(
    host: &HostRuntime,
    rt: &R,
    name: &str,
    tally: &mut Tally,
) -> Result<(), CaseFault> {
    let alloc = rt.alloc();
    let text = read_text(&mut SystemFiles { rt: host }, name)?;
    let cases = cases_of(alloc, text.as_str())?;
    if cases.is_empty() {
        return Err(CaseFault::Empty);
    }
    for case in cases.as_slice() {
        if let Err(fault) = run_case(host, rt, case, tally) {
            tally.unreadable(alloc, case.name, fault)?;
        }
    }
    Ok(())
}

/// Runs the cases of the files that the arguments name.
fn run_all<R: AllocGlobal + Clock + Eprint + Threads + Wait + Sync>(
    host: &HostRuntime,
    rt: &R,
    tally: &mut Tally,
) -> Result<(), CaseFault> {
    let words: Vec<String> = env::args(host)?.skip(1).collect(rt.alloc())?;
    for name in words.as_slice() {
        if let Err(fault) = run_file(host, rt, name.as_str(), tally) {
            tally.unreadable(rt.alloc(), name.as_str(), fault)?;
        }
    }
    Ok(())
}

/// Prints the differences, and the number of commands with the wanted outcome.
fn print_tally(rt: &HostRuntime, tally: &Tally) -> io::Result<()> {
    let Tally {
        alike,
        differences,
        lines,
    } = tally;
    print!(rt; "{lines}")?;
    if *differences > 0 {
        println!(rt; "{differences} differ")?;
    }
    println!(rt; "{alike} commands give what is wanted")
}

fn main(rt: HostRuntime) -> ExitCode {
    let mut tally = Tally::new(rt.alloc());
    let ran = run_all(&rt, &rt, &mut tally);
    let printed = print_tally(&rt, &tally);
    let whole = ran.is_ok() && printed.is_ok() && tally.differences == 0;
    ExitCode::from(u8::from(!whole))
}
