//! Defines the options and FILEs of each command for the argument parser.

use clap::{Arg, ArgAction, Command};
use std::alloc::{AllocError, Global};

/// The names of the commands.
const COMMANDS: [&str; 13] = [
    "eval", "run", "trace", "debug", "campaign", "explore", "shrink", "check", "picture", "asm",
    "list", "tables", "needs",
];

/// The option `--entry`.
pub(crate) const ENTRY: &str = "entry";

/// The option `--args`.
pub(crate) const ARGUMENTS: &str = "args";

/// The option `--sched`.
pub(crate) const SCHEDULE: &str = "sched";

/// The option `--max`.
pub(crate) const MOST: &str = "max";

/// The option `--spec`.
pub(crate) const SPECIFICATION: &str = "spec";

/// The flag `--serial`.
pub(crate) const SERIAL: &str = "serial";

/// The flag `--explain`.
pub(crate) const EXPLAIN: &str = "explain";

/// The flag `--choices`.
pub(crate) const CHOICES: &str = "choices";

/// The option `--first`.
pub(crate) const FIRST: &str = "first";

/// The option `--jobs`.
pub(crate) const JOBS: &str = "jobs";

/// The option `--seed`.
pub(crate) const SEED: &str = "seed";

/// The option `--pct`.
pub(crate) const PRIORITIES: &str = "pct";

/// The option `--workers`.
pub(crate) const WORKERS: &str = "workers";

/// The option `--departures`.
pub(crate) const DEPARTURES: &str = "departures";

/// The option `--runs`.
pub(crate) const RUNS: &str = "runs";

/// The option `--within`.
pub(crate) const WITHIN: &str = "within";

/// The option `--part`.
pub(crate) const PART: &str = "part";

/// The flag `--all`.
pub(crate) const ALL: &str = "all";

/// The flag `--stop`.
pub(crate) const STOP: &str = "stop";

/// The flag `--summary`.
pub(crate) const SUMMARY: &str = "summary";

/// The flag `--dot`.
pub(crate) const DOT: &str = "dot";

/// The name of the argument TRACE.
pub(crate) const TRACE: &str = "trace";

/// The name of the argument FILE...
pub(crate) const FILES: &str = "files";

/// The name of the argument FILE.
pub(crate) const FILE: &str = "file";

/// The name of the argument IN.
pub(crate) const INPUT: &str = "input";

/// The name of the argument OUT.
pub(crate) const OUTPUT: &str = "output";

/// Returns a command without the parser's own help and version.
fn bare<'a>(alloc: Global, name: &'a str) -> Command<'a> {
    Command::new(alloc, name)
        .no_binary_name(true)
        .disable_help_flag(true)
        .disable_help_subcommand(true)
        .disable_version_flag(true)
}

/// Returns an option with a value.
fn option<'a>(alloc: Global, name: &'a str) -> Arg<'a> {
    Arg::new(alloc, name).long(name).action(ArgAction::Set)
}

/// Returns an option with a value that may come several times.
fn options<'a>(alloc: Global, name: &'a str) -> Arg<'a> {
    Arg::new(alloc, name).long(name).action(ArgAction::Append)
}

/// Returns an option without a value.
fn flag<'a>(alloc: Global, name: &'a str) -> Arg<'a> {
    Arg::new(alloc, name).long(name).action(ArgAction::SetTrue)
}

/// Returns the argument FILE..., at least one.
fn files<'a>(alloc: Global) -> Arg<'a> {
    Arg::new(alloc, FILES)
        .required(true)
        .num_args(1..)
        .action(ArgAction::Append)
}

/// Returns the argument of one file.
fn file<'a>(alloc: Global, name: &'a str) -> Arg<'a> {
    Arg::new(alloc, name).required(true).action(ArgAction::Set)
}

/// Returns the syntax `NAME --entry E [--args N,N] FILE...`.
fn program_syntax<'a>(alloc: Global, name: &'a str) -> Result<Command<'a>, AllocError> {
    let arguments = vec![in alloc;
        option(alloc, ENTRY).required(true),
        option(alloc, ARGUMENTS),
        files(alloc),
    ]?;
    bare(alloc, name).args(arguments)
}

/// Returns the syntax `NAME --entry E [--args N,N] [--sched S] [--max N] FILE...`.
fn scheduled_syntax<'a>(alloc: Global, name: &'a str) -> Result<Command<'a>, AllocError> {
    let arguments = vec![in alloc; option(alloc, SCHEDULE), option(alloc, MOST)]?;
    program_syntax(alloc, name)?.args(arguments)
}

/// Returns the syntax `run --entry E [--args N,N] [--sched S] [--max N] [--spec F] [--explain] FILE...`.
fn run_syntax<'a>(alloc: Global) -> Result<Command<'a>, AllocError> {
    let arguments = vec![in alloc; option(alloc, SPECIFICATION), flag(alloc, EXPLAIN)]?;
    scheduled_syntax(alloc, "run")?.args(arguments)
}

/// Returns the syntax `trace --entry E [--args N,N] [--sched S] [--max N] [--choices] FILE...`.
fn trace_syntax<'a>(alloc: Global) -> Result<Command<'a>, AllocError> {
    scheduled_syntax(alloc, "trace")?.arg(flag(alloc, CHOICES))
}

/// Returns the syntax `campaign --entry E [--args N,N] --spec F --jobs N [--first K] [--seed N] [--pct D] [--workers N]
/// [--max N] [--stop] [--summary] FILE...`.
fn campaign_syntax<'a>(alloc: Global) -> Result<Command<'a>, AllocError> {
    let arguments = vec![in alloc;
        option(alloc, SPECIFICATION).required(true),
        option(alloc, JOBS).required(true),
        option(alloc, FIRST),
        option(alloc, SEED),
        option(alloc, PRIORITIES),
        option(alloc, WORKERS),
        option(alloc, MOST),
        flag(alloc, STOP),
        flag(alloc, SUMMARY),
    ]?;
    program_syntax(alloc, "campaign")?.args(arguments)
}

/// Returns the syntax `explore --entry E [--args N,N] [--spec F] [--departures D] [--within P]... [--part I/N] [--runs N]
/// [--max N] [--workers W] [--all] [--summary] FILE...`.
fn explore_syntax<'a>(alloc: Global) -> Result<Command<'a>, AllocError> {
    let arguments = vec![in alloc;
        option(alloc, SPECIFICATION),
        option(alloc, DEPARTURES),
        options(alloc, WITHIN),
        option(alloc, PART),
        option(alloc, RUNS),
        option(alloc, MOST),
        option(alloc, WORKERS),
        flag(alloc, ALL),
        flag(alloc, SUMMARY),
    ]?;
    program_syntax(alloc, "explore")?.args(arguments)
}

/// Returns the syntax `shrink --entry E [--args N,N] --sched S [--spec F] [--max N] [--runs N] [--summary] FILE...`.
fn shrink_syntax<'a>(alloc: Global) -> Result<Command<'a>, AllocError> {
    let arguments = vec![in alloc;
        option(alloc, SCHEDULE).required(true),
        option(alloc, SPECIFICATION),
        option(alloc, MOST),
        option(alloc, RUNS),
        flag(alloc, SUMMARY),
    ]?;
    program_syntax(alloc, "shrink")?.args(arguments)
}

/// Returns the syntax `check --spec F [--serial] [--explain] TRACE`.
fn check_syntax<'a>(alloc: Global) -> Result<Command<'a>, AllocError> {
    let arguments = vec![in alloc;
        option(alloc, SPECIFICATION).required(true),
        flag(alloc, SERIAL),
        flag(alloc, EXPLAIN),
        file(alloc, TRACE),
    ]?;
    bare(alloc, "check").args(arguments)
}

/// Returns the syntax `picture --spec F [--dot] TRACE`.
fn picture_syntax<'a>(alloc: Global) -> Result<Command<'a>, AllocError> {
    let arguments = vec![in alloc;
        option(alloc, SPECIFICATION).required(true),
        flag(alloc, DOT),
        file(alloc, TRACE),
    ]?;
    bare(alloc, "picture").args(arguments)
}

/// Returns the syntax `asm IN OUT`.
fn asm_syntax<'a>(alloc: Global) -> Result<Command<'a>, AllocError> {
    let arguments = vec![in alloc; file(alloc, INPUT), file(alloc, OUTPUT)]?;
    bare(alloc, "asm").args(arguments)
}

/// Returns the syntax `list FILE`.
fn list_syntax<'a>(alloc: Global) -> Result<Command<'a>, AllocError> {
    bare(alloc, "list").arg(file(alloc, FILE))
}

/// Returns the syntax `tables FILE...`.
fn tables_syntax<'a>(alloc: Global) -> Result<Command<'a>, AllocError> {
    bare(alloc, "tables").arg(files(alloc))
}

/// Returns the syntax `needs [--spec F] FILE...`.
fn needs_syntax<'a>(alloc: Global) -> Result<Command<'a>, AllocError> {
    let arguments = vec![in alloc; option(alloc, SPECIFICATION), files(alloc)]?;
    bare(alloc, "needs").args(arguments)
}

/// Returns the syntax of a command.
fn syntax_of<'a>(alloc: Global, command: &'a str) -> Result<Command<'a>, AllocError> {
    match command {
        "eval" => program_syntax(alloc, command),
        "run" => run_syntax(alloc),
        "trace" => trace_syntax(alloc),
        "debug" => scheduled_syntax(alloc, command),
        "campaign" => campaign_syntax(alloc),
        "explore" => explore_syntax(alloc),
        "shrink" => shrink_syntax(alloc),
        "check" => check_syntax(alloc),
        "picture" => picture_syntax(alloc),
        "asm" => asm_syntax(alloc),
        "list" => list_syntax(alloc),
        "tables" => tables_syntax(alloc),
        "needs" => needs_syntax(alloc),
        _ => Ok(bare(alloc, command)),
    }
}

/// Adds a command to others, unless memory ran out for it.
fn with<'a>(
    commands: Command<'a>,
    command: Result<Command<'a>, AllocError>,
) -> Result<Command<'a>, AllocError> {
    match command {
        Ok(command) => commands.subcommand(command),
        Err(error) => {
            drop(commands);
            Err(error)
        }
    }
}

/// Returns the syntax of all commands.
pub(crate) fn syntax<'a>(alloc: Global) -> Result<Command<'a>, AllocError> {
    let mut commands = bare(alloc, "jvmx");
    for command in COMMANDS {
        commands = with(commands, syntax_of(alloc, command))?;
    }
    Ok(commands)
}
