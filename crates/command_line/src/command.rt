//! Reads the command of a line of words.

use crate::campaign::{CampaignWords, campaign_words};
use crate::explore::{ExploreWords, explore_words};
use crate::fault::WordsFault;
use crate::help::{
    ASM_HELP, CAMPAIGN_HELP, CHECK_HELP, DEBUG_HELP, EVAL_HELP, EXPLORE_HELP, HELP, LIST_HELP,
    NEEDS_HELP, PICTURE_HELP, RUN_HELP, SHRINK_HELP, TABLES_HELP, TRACE_HELP,
};
use crate::program_words::{
    ProgramNames, ProgramWords, files_of, most_of, names_without_entry, program_words,
};
use crate::refusals::explanation_of;
use crate::shrink::{ShrinkWords, shrink_words};
use crate::syntax::{
    CHOICES, DOT, EXPLAIN, FILE, INPUT, OUTPUT, SCHEDULE, SERIAL, SPECIFICATION, TRACE, syntax,
};
use clap::ArgMatches;
use jvms_machine::machine::Entry;
use std::alloc::Global;
use turn_limit::TurnLimit;

/// The schedule without `--sched`.
const DEFAULT_SCHEDULE: &str = "rr:1";

/// The command of a line of words.
#[derive(Debug, Drop)]
pub enum Command<'a> {
    /// `eval`: runs a static method and prints its result.
    Eval(ProgramWords<'a>),
    /// `run`: runs a program and prints its output.
    Run(RunWords<'a>),
    /// `trace`: runs a program and prints the trace of its threads, or its choices. Its words name no specification,
    /// and ask for no explanation.
    Trace(RunWords<'a>),
    /// `debug`: debugs a run of a program. Its words are those of `trace`.
    Debug(RunWords<'a>),
    /// `campaign`: runs a program under many schedules.
    Campaign(CampaignWords<'a>),
    /// `explore`: runs a program under all schedules with few departures.
    Explore(ExploreWords<'a>),
    /// `shrink`: leaves out departures of a schedule whose run fails.
    Shrink(ShrinkWords<'a>),
    /// `check`: decides whether a trace is atomic.
    Check(CheckWords<'a>),
    /// `picture`: prints a picture of a trace.
    Picture(PictureWords<'a>),
    /// `asm`: writes the class file of a source.
    Asm(AsmWords<'a>),
    /// `list`: prints the listing of the class of a FILE.
    List(&'a str),
    /// `tables`: prints what joins the FILEs, the parts of a campaign or of an exploration.
    Tables(TablesWords<'a>),
    /// `needs`: prints what class files use and lack.
    Needs(NeedsWords<'a>),
    /// A help text: how the program or one command is used, or the meaning of a refusal's code.
    Help(&'static str),
    /// Why these words are no command line.
    Explain(&'a [String]),
    /// The version of the program.
    Version,
}

/// A text that words ask for.
#[derive(Clone, Copy)]
enum AskedText {
    /// How the program or one command is used, or the meaning of a refusal's code.
    Help(&'static str),
    /// The version of the program.
    Version,
}

/// The words of `run`, of `trace` and of `debug`.
#[derive(Debug, Drop)]
pub struct RunWords<'a> {
    pub program: ProgramWords<'a>,
    /// The schedule, as spelled in the words. It may be no schedule.
    pub schedule: &'a str,
    /// The maximum number of turns.
    pub most: TurnLimit,
    /// The file with the specification of which methods are to be atomic, if there is one.
    pub spec: Option<&'a str>,
    /// `true` if the run is explained.
    pub explains: bool,
    /// `true` if the choices are printed instead of the trace.
    pub choices: bool,
}

/// The words of `check`.
#[derive(Debug, Drop)]
pub struct CheckWords<'a> {
    /// The file with the specification of which methods are to be atomic.
    pub spec: &'a str,
    /// The file of the trace.
    pub trace: &'a str,
    /// `true` if the events of an atomic trace are printed in a serial order.
    pub serial: bool,
    /// `true` if a cycle is explained.
    pub explains: bool,
}

/// The words of `picture`.
#[derive(Debug, Drop)]
pub struct PictureWords<'a> {
    /// The file with the specification of which methods are to be atomic.
    pub spec: &'a str,
    /// The file of the trace.
    pub trace: &'a str,
    /// `true` if the picture is a graph of transactions in DOT. Else it is SVG.
    pub is_dot: bool,
}

/// The words of `asm`.
#[derive(Debug, Drop)]
pub struct AsmWords<'a> {
    /// The source.
    pub input: &'a str,
    /// The class file that is written.
    pub output: &'a str,
}

/// The words of `tables`.
#[derive(Debug, Drop)]
pub struct TablesWords<'a> {
    /// The files of tables, at least one.
    pub files: Vec<&'a str>,
}

/// The words of `needs`.
#[derive(Debug, Drop)]
pub struct NeedsWords<'a> {
    /// The file with the specification of which methods are to be atomic, if there is one.
    pub spec: Option<&'a str>,
    /// The class files and sources. No entry is named.
    pub names: ProgramNames<'a>,
}

/// Returns the command `eval`. Refuses a main class as its entry.
fn eval_command<'a>(alloc: Global, matches: &ArgMatches<'a>) -> Result<Command<'a>, WordsFault> {
    let words = program_words(alloc, matches)?;
    match words.entry {
        Entry::Static { .. } => Ok(Command::Eval(words)),
        Entry::Main { .. } => Err(WordsFault::Words),
    }
}

/// Returns the words that are common to the commands that run a program.
fn run_words<'a>(alloc: Global, matches: &ArgMatches<'a>) -> Result<RunWords<'a>, WordsFault> {
    let most = most_of(matches)?;
    Ok(RunWords {
        program: program_words(alloc, matches)?,
        schedule: matches.get_str(SCHEDULE).unwrap_or(DEFAULT_SCHEDULE),
        most,
        spec: None,
        explains: false,
        choices: false,
    })
}

/// Returns the command `run`.
fn run_command<'a>(alloc: Global, matches: &ArgMatches<'a>) -> Result<Command<'a>, WordsFault> {
    let mut words = run_words(alloc, matches)?;
    words.spec = matches.get_str(SPECIFICATION);
    words.explains = matches.get_flag(EXPLAIN);
    Ok(Command::Run(words))
}

/// Returns the command `trace`.
fn trace_command<'a>(alloc: Global, matches: &ArgMatches<'a>) -> Result<Command<'a>, WordsFault> {
    let mut words = run_words(alloc, matches)?;
    words.choices = matches.get_flag(CHOICES);
    Ok(Command::Trace(words))
}

/// Returns the command `check`.
fn check_command<'a>(matches: &ArgMatches<'a>) -> Result<Command<'a>, WordsFault> {
    Ok(Command::Check(CheckWords {
        spec: matches.get_str(SPECIFICATION).ok_or(WordsFault::Words)?,
        trace: matches.get_str(TRACE).ok_or(WordsFault::Words)?,
        serial: matches.get_flag(SERIAL),
        explains: matches.get_flag(EXPLAIN),
    }))
}

/// Returns the command `picture`.
fn picture_command<'a>(matches: &ArgMatches<'a>) -> Result<Command<'a>, WordsFault> {
    Ok(Command::Picture(PictureWords {
        spec: matches.get_str(SPECIFICATION).ok_or(WordsFault::Words)?,
        trace: matches.get_str(TRACE).ok_or(WordsFault::Words)?,
        is_dot: matches.get_flag(DOT),
    }))
}

/// Returns the command `asm`. Refuses equal names of its files, so that the class doesn't replace the source.
fn asm_command<'a>(matches: &ArgMatches<'a>) -> Result<Command<'a>, WordsFault> {
    let input = matches.get_str(INPUT).ok_or(WordsFault::Words)?;
    let output = matches.get_str(OUTPUT).ok_or(WordsFault::Words)?;
    if input == output {
        return Err(WordsFault::Words);
    }
    Ok(Command::Asm(AsmWords { input, output }))
}

/// Returns the FILE of `list`.
fn list_word<'a>(matches: &ArgMatches<'a>) -> Result<&'a str, WordsFault> {
    matches.get_str(FILE).ok_or(WordsFault::Words)
}

/// Returns the command `tables`.
fn tables_command<'a>(alloc: Global, matches: &ArgMatches<'a>) -> Result<Command<'a>, WordsFault> {
    Ok(Command::Tables(TablesWords {
        files: files_of(alloc, matches)?,
    }))
}

/// Returns the command `needs`.
fn needs_command<'a>(alloc: Global, matches: &ArgMatches<'a>) -> Result<Command<'a>, WordsFault> {
    Ok(Command::Needs(NeedsWords {
        spec: matches.get_str(SPECIFICATION),
        names: names_without_entry(alloc, matches)?,
    }))
}

/// Decides whether a word asks for help.
fn asks_help(word: &str) -> bool {
    word == "--help" || word == "-h"
}

/// Returns the help of a command, or `None` if no command has this name.
fn usage_of(command: &str) -> Option<AskedText> {
    match command {
        "eval" => Some(AskedText::Help(EVAL_HELP)),
        "run" => Some(AskedText::Help(RUN_HELP)),
        "trace" => Some(AskedText::Help(TRACE_HELP)),
        "debug" => Some(AskedText::Help(DEBUG_HELP)),
        "campaign" => Some(AskedText::Help(CAMPAIGN_HELP)),
        "explore" => Some(AskedText::Help(EXPLORE_HELP)),
        "shrink" => Some(AskedText::Help(SHRINK_HELP)),
        "check" => Some(AskedText::Help(CHECK_HELP)),
        "picture" => Some(AskedText::Help(PICTURE_HELP)),
        "asm" => Some(AskedText::Help(ASM_HELP)),
        "list" => Some(AskedText::Help(LIST_HELP)),
        "tables" => Some(AskedText::Help(TABLES_HELP)),
        "needs" => Some(AskedText::Help(NEEDS_HELP)),
        _ => None,
    }
}

/// Returns what `help` prints about a word: the help of a command, or the meaning of a refusal's code.
fn help_of(word: &str) -> Option<AskedText> {
    match usage_of(word) {
        Some(usage) => Some(usage),
        None => match explanation_of(word) {
            Some(explanation) => Some(AskedText::Help(explanation)),
            None => None,
        },
    }
}

/// Returns the text that one word asks for, if it does.
fn text_of(word: &str) -> Option<AskedText> {
    if word == "help" || asks_help(word) {
        Some(AskedText::Help(HELP))
    } else if word == "--version" || word == "-V" {
        Some(AskedText::Version)
    } else {
        None
    }
}

/// Returns the text that words ask for, if they do.
fn asked_text(words: &[String]) -> Option<AskedText> {
    match words {
        [word] => text_of(word.as_str()),
        [first, second] if first.as_str() == "help" => help_of(second.as_str()),
        [first, second] if asks_help(second.as_str()) => usage_of(first.as_str()),
        _ => None,
    }
}

/// Returns the command of a name and its matches.
fn matched<'a>(
    alloc: Global,
    name: &str,
    matches: &ArgMatches<'a>,
) -> Result<Command<'a>, WordsFault> {
    match name {
        "eval" => eval_command(alloc, matches),
        "run" => run_command(alloc, matches),
        "trace" => trace_command(alloc, matches),
        "debug" => Ok(Command::Debug(run_words(alloc, matches)?)),
        "campaign" => Ok(Command::Campaign(campaign_words(alloc, matches)?)),
        "explore" => Ok(Command::Explore(explore_words(alloc, matches)?)),
        "shrink" => Ok(Command::Shrink(shrink_words(alloc, matches)?)),
        "check" => check_command(matches),
        "picture" => picture_command(matches),
        "asm" => asm_command(matches),
        "list" => Ok(Command::List(list_word(matches)?)),
        "tables" => tables_command(alloc, matches),
        "needs" => needs_command(alloc, matches),
        _ => Err(WordsFault::Words),
    }
}

/// Returns the words that `help P04 -- WORDS` asks about.
fn explained_words(words: &[String]) -> Option<&[String]> {
    match words {
        [help, code, dashes, words @ ..]
            if help.as_str() == "help" && code.as_str() == "P04" && dashes.as_str() == "--" => {
            Some(words)
        }
        _ => None,
    }
}

/// Returns whether words ask for a text.
pub(crate) fn is_text(words: &[String]) -> bool {
    asked_text(words).is_some() || explained_words(words).is_some()
}

/// Returns the command of words that don't ask for a text.
pub(crate) fn parsed<'a>(alloc: Global, words: &'a [String]) -> Result<Command<'a>, WordsFault> {
    let matches = syntax(alloc)?.try_get_matches_from(words)?;
    match matches.subcommand() {
        Some((name, matches)) => matched(alloc, name, matches),
        None => Err(WordsFault::Words),
    }
}

/// Returns the command of the words after the program's name. Options and FILEs may follow the command in any order.
/// `--x V` is `--x=V`, and after `--` all words are FILEs.
///
/// # Errors
///
/// P04 if the words are no command line. The causes are an option that is unknown, repeated or without a value, a value
/// that begins with `-` and isn't joined by `=`, and a missing FILE. Others are a malformed entry, argument or number,
/// and a main class in `eval` or with arguments. The last are an OUT of `asm` that is IN, a job or a depth of `campaign`
/// that is out of range, departures, runs or workers of `explore` that are, and runs of `shrink` that are. The schedule
/// isn't read here.
pub fn command_of<'a>(alloc: Global, words: &'a [String]) -> Result<Command<'a>, WordsFault> {
    match (asked_text(words), explained_words(words)) {
        (Some(AskedText::Help(text)), _) => Ok(Command::Help(text)),
        (Some(AskedText::Version), _) => Ok(Command::Version),
        (None, Some(words)) => Ok(Command::Explain(words)),
        (None, None) => parsed(alloc, words),
    }
}
