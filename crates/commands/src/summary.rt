//! Makes the summaries of a campaign and of an exploration: the commands that run some of their runs again.

use campaigning::{Choosing, JobResult, Table};
use command_line::{ProgramNames, shown_line};
use explorations::{FailingRun, schedule_text};
use machine::Status;
use machine_text::status_name;
use std::alloc::{AllocError, Global};

/// The words that a command for a run repeats.
#[derive(Clone, Copy)]
pub(crate) struct SameWords<'n, 'w> {
    pub names: &'n ProgramNames<'w>,
    /// The word for the maximum number of turns, if there is one.
    pub most: Option<&'w str>,
    /// `true` if a terminal shows the commands.
    pub is_shown: bool,
}

/// What says which schedules the jobs of a campaign have.
#[derive(Drop)]
pub(crate) struct JobSchedules {
    /// The number of the first job.
    pub first: u64,
    pub seed: u64,
    /// How the jobs choose.
    pub choosing: Choosing,
}

impl JobSchedules {
    /// Returns the number of the job at a place of the table.
    fn number_at(&self, place: usize) -> u64 {
        self.first.saturating_add(place as u64)
    }
}

/// A reason why a job is worth a look.
#[derive(Clone, Copy)]
enum Finding {
    /// The job has a cycle.
    Cycle,
    /// The job has this status.
    Status(Status),
}

/// The findings that a summary searches for.
const FINDINGS: [Finding; 4] = [
    Finding::Cycle,
    Finding::Status(Status::Deadlocked),
    Finding::Status(Status::Stalled),
    Finding::Status(Status::Running),
];

impl Finding {
    /// Returns whether the finding applies to a job.
    fn is_of(self, job: JobResult) -> bool {
        match self {
            Finding::Cycle => job.atomicity.has_cycle(),
            Finding::Status(status) => job.status == status,
        }
    }

    /// Returns the place of the first job to which the finding applies.
    fn first_in(self, results: &[JobResult]) -> Option<usize> {
        for (place, job) in results.iter().enumerate() {
            if self.is_of(*job) {
                return Some(place);
            }
        }
        None
    }

    /// Returns the number of jobs to which the finding applies.
    fn count_in(self, results: &[JobResult]) -> usize {
        let mut count: usize = 0;
        for job in results {
            if self.is_of(*job) {
                count = count.saturating_add(1);
            }
        }
        count
    }

    /// Returns the text of the finding.
    fn text(self) -> &'static str {
        match self {
            Finding::Cycle => "a cycle",
            Finding::Status(status) => status_name(status),
        }
    }
}

/// Returns whether a byte needs no quoting in a shell.
fn is_plain(byte: u8) -> bool {
    byte.is_ascii_alphanumeric() || b"_./:,=+@%-".contains(&byte)
}

/// Appends a word, quoted for a shell if necessary.
fn put_quoted(text: &mut String, word: &str) -> Result<(), AllocError> {
    if !word.is_empty() && word.as_bytes().iter().all(|byte| is_plain(*byte)) {
        return text.push_str(word);
    }
    text.push('\'')?;
    for c in word.chars() {
        if c == '\'' {
            text.push_str("'\\''")?;
        } else {
            text.push(c)?;
        }
    }
    text.push('\'')
}

/// Appends a word as bash reads it in `$'..'`, with each control character as `\u` and four hexadecimal digits.
fn put_escaped(alloc: Global, text: &mut String, word: &str) -> Result<(), AllocError> {
    let mut inside = String::new(alloc);
    for c in word.chars() {
        if c == '\'' || c == '\\' {
            inside.push('\\')?;
        }
        inside.push(c)?;
    }
    text.push_str("$'")?;
    text.push_str(shown_line(alloc, inside.as_str())?.as_str())?;
    text.push('\'')
}

/// Appends a word, as a shell reads it. A terminal is given no control characters.
fn put_word(
    alloc: Global,
    text: &mut String,
    word: &str,
    is_shown: bool,
) -> Result<(), AllocError> {
    if is_shown && word.chars().any(|c| c.is_control()) {
        put_escaped(alloc, text, word)
    } else {
        put_quoted(text, word)
    }
}

/// Appends an option and its value. A value that begins with `-` is joined to it.
fn put_option(
    alloc: Global,
    text: &mut String,
    option: &str,
    value: &str,
    is_shown: bool,
) -> Result<(), AllocError> {
    text.push_str(option)?;
    text.push_str(if value.starts_with('-') { "=" } else { " " })?;
    put_word(alloc, text, value, is_shown)
}

/// Appends the FILEs. If one begins with `-`, they follow `--`.
fn put_files(
    alloc: Global,
    text: &mut String,
    files: &[&str],
    is_shown: bool,
) -> Result<(), AllocError> {
    if files.iter().any(|file| file.starts_with('-')) {
        text.push_str(" --")?;
    }
    for file in files {
        text.push(' ')?;
        put_word(alloc, text, file, is_shown)?;
    }
    Ok(())
}

/// Returns the line of the command that runs a schedule again, or debugs it if no specification is named.
fn command_line(
    alloc: Global,
    command: &str,
    words: SameWords<'_, '_>,
    spec: Option<&str>,
    schedule: &str,
) -> Result<String, AllocError> {
    let is_shown = words.is_shown;
    let mut line = format!(in alloc; "  jvmx {command}")?;
    put_option(alloc, &mut line, " --entry", words.names.entry, is_shown)?;
    if let Some(arguments) = words.names.arguments {
        put_option(alloc, &mut line, " --args", arguments, is_shown)?;
    }
    put_option(alloc, &mut line, " --sched", schedule, is_shown)?;
    if let Some(most) = words.most {
        put_option(alloc, &mut line, " --max", most, is_shown)?;
    }
    if let Some(spec) = spec {
        put_option(alloc, &mut line, " --spec", spec, is_shown)?;
    }
    put_files(alloc, &mut line, words.names.files.as_slice(), is_shown)?;
    line.push('\n')?;
    Ok(line)
}

/// Returns whether the job at a place is the first for one of these findings.
fn is_first_of(findings: &[Finding], results: &[JobResult], place: usize) -> bool {
    findings
        .iter()
        .any(|finding| finding.first_in(results) == Some(place))
}

/// Appends a finding, and the number of jobs to which it applies, if there is more than one.
fn put_finding(
    alloc: Global,
    line: &mut String,
    finding: Finding,
    results: &[JobResult],
) -> Result<(), AllocError> {
    line.push_str(finding.text())?;
    let count = finding.count_in(results);
    if count > 1 {
        let rest = format!(in alloc; " (the first of {count})")?;
        line.push_str(rest.as_str())?;
    }
    Ok(())
}

/// Returns the line of the findings for which the job at a place is the first. `number` is the job's number.
fn found_line(
    alloc: Global,
    results: &[JobResult],
    place: usize,
    number: u64,
) -> Result<String, AllocError> {
    let mut line = format!(in alloc; "job {number}: ")?;
    let mut separator = "";
    for finding in FINDINGS {
        if finding.first_in(results) == Some(place) {
            line.push_str(separator)?;
            put_finding(alloc, &mut line, finding, results)?;
            separator = ", ";
        }
    }
    line.push_str("; to run it again, and to debug it\n")?;
    Ok(line)
}

/// Returns the schedule of the job of this number.
fn job_schedule(
    alloc: Global,
    schedules: &JobSchedules,
    number: u64,
) -> Result<String, AllocError> {
    let seed = schedules.seed;
    match &schedules.choosing {
        Choosing::Random => format!(in alloc; "seed:{seed}:{number}"),
        Choosing::Priorities { depth, turns } => {
            let (depth, turns) = (depth.number(), turns.turns());
            format!(in alloc; "pct:{seed}:{number}:{depth}:{turns}")
        }
    }
}

/// Returns the lines of a job: the findings for which it is the first, and the commands that run it again and debug it.
fn job_lines(
    alloc: Global,
    same: SameWords<'_, '_>,
    spec: &str,
    schedules: &JobSchedules,
    results: &[JobResult],
    place: usize,
) -> Result<String, AllocError> {
    let number = schedules.number_at(place);
    let mut lines = found_line(alloc, results, place, number)?;
    let schedule = job_schedule(alloc, schedules, number)?;
    let run = command_line(alloc, "run", same, Some(spec), schedule.as_str())?;
    lines.push_str(run.as_str())?;
    let debug = command_line(alloc, "debug", same, None, schedule.as_str())?;
    lines.push_str(debug.as_str())?;
    Ok(lines)
}

/// Returns the summary of a table. It has the first job with a cycle, and the first with each status other than
/// Finished. `spec` is the file with the specification of which methods are to be atomic.
pub(crate) fn summary_of(
    alloc: Global,
    same: SameWords<'_, '_>,
    spec: &str,
    schedules: &JobSchedules,
    table: &Table,
) -> Result<String, AllocError> {
    let results = table.results.as_slice();
    let mut summary = String::new(alloc);
    for (before, finding) in FINDINGS.iter().enumerate() {
        if let Some(place) = finding.first_in(results)
            && !is_first_of(&FINDINGS[..before], results, place)
        {
            let lines = job_lines(alloc, same, spec, schedules, results, place)?;
            summary.push_str(lines.as_str())?;
        }
    }
    Ok(summary)
}

/// Returns the lines of a run that fails: the commands that run it again, explain it, and debug it.
pub(crate) fn failing_summary(
    alloc: Global,
    same: SameWords<'_, '_>,
    spec: Option<&str>,
    run: &FailingRun,
) -> Result<String, AllocError> {
    let schedule = schedule_text(alloc, run.departures.as_slice())?;
    let schedule = schedule.as_str();
    let mut lines = String::from_str(alloc, "to run it again, to explain it, and to debug it\n")?;
    for command in ["run", "run --explain"] {
        lines.push_str(command_line(alloc, command, same, spec, schedule)?.as_str())?;
    }
    lines.push_str(command_line(alloc, "debug", same, None, schedule)?.as_str())?;
    Ok(lines)
}
