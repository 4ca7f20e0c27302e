//! Runs a case: keeps its files, the last command, its input, and the outcome that is wanted.

use crate::bytes::{hex_of, lines_of, number_of, open_lines_of, spliced};
use crate::devices::{Devices, Room, outcome_of};
use crate::fault::CaseFault;
use crate::files::CaseFiles;
use crate::wanted::{Failure, Outcome, bytes_of};
use cases::Section;
use commands::{FileFault, Files};
use std::alloc::{AllocError, Global};
use std::mem;
use std::rt::Clock;
use std::sync::Wait;
use std::thread::Threads;

/// The number of commands with the wanted outcome, the number of differences, and a line for each difference.
#[derive(Drop)]
pub(crate) struct Tally {
    pub(crate) alike: u64,
    pub(crate) differences: u64,
    pub(crate) lines: String,
}

impl Tally {
    pub(crate) fn new(alloc: Global) -> Self {
        Tally {
            alike: 0,
            differences: 0,
            lines: String::new(alloc),
        }
    }

    /// Counts a wanted outcome.
    fn count(&mut self) {
        self.alike = self.alike.saturating_add(1);
    }

    /// Counts a difference, and appends its line.
    fn differ(&mut self, line: &str) -> Result<(), AllocError> {
        self.differences = self.differences.saturating_add(1);
        self.lines.push_str(line)
    }

    /// Reports that a case, or a file of cases, can't be run.
    pub(crate) fn unreadable(
        &mut self,
        alloc: Global,
        name: &str,
        fault: CaseFault,
    ) -> Result<(), AllocError> {
        let line = format!(in alloc; "{name}: {fault}\n")?;
        self.differ(line.as_str())
    }
}

/// The ways of running a command.
#[derive(Clone, Copy)]
enum Manner {
    /// A single run.
    Once,
    /// A run, and runs with output devices that fail early.
    Short,
    /// A run, and runs with devices that fail early, including standard input.
    Cut,
}

/// A command to run.
#[derive(Clone, Copy)]
struct Given<'c> {
    words: &'c str,
    room: Room,
    manner: Manner,
}

/// The end of a line in the input, and the end of its answer in the output.
#[derive(Clone, Copy)]
struct Answered {
    input: usize,
    output: usize,
}

/// A case that is being run.
#[derive(Drop)]
pub(crate) struct Stage<'c, 't, R, F> {
    rt: &'t R,
    alloc: Global,
    name: &'c str,
    files: CaseFiles<F>,
    /// The room of the next command's devices.
    room: Room,
    /// The standard input of the next command, or of the last one.
    input: Vec<u8>,
    given: Option<Given<'c>>,
    wanted: Outcome,
    /// The lines of the input whose answers are known.
    answered: Vec<Answered>,
    tally: &'t mut Tally,
}

impl<'c, 't, R: AllocGlobal + Clock + Eprint + Threads + Wait + Sync, F: Files + Drop> Stage<
    'c,
    't,
    R,
    F,
> {
    /// Returns a case before its first section, over existing files.
    pub(crate) fn new(rt: &'t R, name: &'c str, beneath: F, tally: &'t mut Tally) -> Self {
        let alloc = rt.alloc();
        Stage {
            rt,
            alloc,
            name,
            files: CaseFiles::new(alloc, beneath),
            room: Room::AMPLE,
            input: Vec::new(alloc),
            given: None,
            wanted: Outcome::nothing(alloc),
            answered: Vec::new(alloc),
            tally,
        }
    }

    /// Processes the next section.
    pub(crate) fn take(&mut self, section: &Section<'c>) -> Result<(), CaseFault> {
        if self.take_wanted(section)? {
            return Ok(());
        }
        self.finish()?;
        match section.kind {
            "command" => self.give(section.words, Manner::Once),
            "short" => self.give(section.words, Manner::Short),
            "cut" => self.give(section.words, Manner::Cut),
            "input" => self.input = bytes_of(self.alloc, section)?,
            "input-room" => self.room.input = number_of(section.words)?,
            "room" => self.room.output = number_of(section.words)?,
            "error-room" => self.room.errors = number_of(section.words)?,
            "written" => self.compare_file(section.words, hex_of(self.alloc, section.lines)?)?,
            "same" => self.compare_files(section.words)?,
            _ => self.take_file(section)?,
        }
        Ok(())
    }

    /// Processes a section about the last command. Returns whether the section is one.
    fn take_wanted(&mut self, section: &Section<'c>) -> Result<bool, CaseFault> {
        match section.kind {
            "like" => self.wanted = self.outcome(section.words, Room::AMPLE)?,
            "line" => self.take_line(section)?,
            _ => return self.wanted.take(self.alloc, section),
        }
        Ok(true)
    }

    /// Adds a line of the input, and the answer to it.
    fn take_line(&mut self, section: &Section<'c>) -> Result<(), CaseFault> {
        let answer = lines_of(self.alloc, section.lines)?;
        self.input.extend_from_slice(section.words.as_bytes())?;
        self.input.push(b'\n')?;
        self.wanted.output.extend_from_slice(answer.as_slice())?;
        self.answered.push(Answered {
            input: self.input.len(),
            output: self.wanted.output.len(),
        })?;
        Ok(())
    }

    /// Keeps a command to run.
    fn give(&mut self, words: &'c str, manner: Manner) {
        self.given = Some(Given {
            words,
            room: self.room,
            manner,
        });
        self.room = Room::AMPLE;
    }

    /// Runs a command on the input, and returns its outcome.
    fn outcome(&mut self, words: &str, room: Room) -> Result<Outcome, CaseFault> {
        let devices = Devices {
            script: self.input.as_slice(),
            room,
        };
        outcome_of(self.rt, words, &mut self.files, devices)
    }

    /// Processes the section of a file.
    fn take_file(&mut self, section: &Section<'c>) -> Result<(), CaseFault> {
        let Section { kind, words, lines } = *section;
        match kind {
            "text" => self.files.put(words, lines_of(self.alloc, lines)?)?,
            "open" => self.files.put(words, open_lines_of(self.alloc, lines)?)?,
            "hex" => self.files.put(words, hex_of(self.alloc, lines)?)?,
            "splice" => self.splice(words, lines)?,
            "fault" => self.fault(words)?,
            _ => return Err(CaseFault::Kind),
        }
        Ok(())
    }

    /// Adds a file with the bytes of another one, some of them replaced.
    fn splice(&mut self, words: &str, lines: &str) -> Result<(), CaseFault> {
        let mut words = words.split(' ');
        let (Some(name), Some(base), Some(place), Some(count)) = (
            words.next(),
            words.next(),
            words.next(),
            words.next(),
        ) else {
            return Err(CaseFault::Words);
        };
        let bytes = self.files.read(base)?;
        let others = hex_of(self.alloc, lines)?;
        let made = spliced(
            self.alloc,
            bytes.as_slice(),
            number_of(place)?,
            number_of(count)?,
            others.as_slice(),
        )?;
        self.files.put(name, made)?;
        Ok(())
    }

    /// Adds a file that fails.
    fn fault(&mut self, words: &str) -> Result<(), CaseFault> {
        let Some((name, fault)) = words.split_once(' ') else {
            return Err(CaseFault::Words);
        };
        let fault = match fault {
            "File" => FileFault::File,
            "TooLarge" => FileFault::TooLarge,
            "Memory" => FileFault::Memory,
            _ => return Err(CaseFault::Words),
        };
        self.files.put_fault(name, fault)?;
        Ok(())
    }

    /// Compares the content of a file with these bytes.
    fn compare_file(&mut self, name: &str, wanted: Vec<u8>) -> Result<(), CaseFault> {
        let held = self.files.read(name)?;
        if held.as_slice() != wanted.as_slice() {
            let case = self.name;
            let line = format!(in self.alloc; "{case}: {name} holds {held:?}\n")?;
            self.tally.differ(line.as_str())?;
        }
        Ok(())
    }

    /// Compares the contents of two files.
    fn compare_files(&mut self, words: &str) -> Result<(), CaseFault> {
        let Some((name, other)) = words.split_once(' ') else {
            return Err(CaseFault::Words);
        };
        let wanted = self.files.read(other)?;
        self.compare_file(name, wanted)
    }

    /// Runs the last command, if there is one, and compares its outcome with the wanted one.
    pub(crate) fn finish(&mut self) -> Result<(), CaseFault> {
        let Some(given) = self.given.take() else {
            return Ok(());
        };
        let wanted = mem::replace(&mut self.wanted, Outcome::nothing(self.alloc));
        self.compare_given(given, &wanted)?;
        self.input.clear();
        self.answered.clear();
        Ok(())
    }

    /// Compares all outcomes of a command with the wanted ones.
    fn compare_given(&mut self, given: Given<'c>, wanted: &Outcome) -> Result<(), CaseFault> {
        self.compare(given.words, given.room, wanted)?;
        match given.manner {
            Manner::Once => Ok(()),
            Manner::Short => self.shorten(given.words, wanted),
            Manner::Cut => {
                self.shorten(given.words, wanted)?;
                self.cut(given.words, wanted)
            }
        }
    }

    /// Compares the outcomes of a command when an output device fails early.
    fn shorten(&mut self, words: &str, wanted: &Outcome) -> Result<(), CaseFault> {
        for output in 0..wanted.output.len() {
            let wanted = wanted.failed(self.alloc, output, self.output_failure())?;
            let room = Room {
                output,
                ..Room::AMPLE
            };
            self.compare(words, room, &wanted)?;
        }
        for errors in 0..wanted.errors.len() {
            let wanted = wanted.without_errors(self.alloc, errors)?;
            let room = Room {
                errors,
                ..Room::AMPLE
            };
            self.compare(words, room, &wanted)?;
        }
        Ok(())
    }

    /// Returns the failure of a command when its standard output fails. Only a script has an input.
    fn output_failure(&self) -> Failure {
        if self.input.is_empty() {
            Failure::Output
        } else {
            Failure::ScriptOutput
        }
    }

    /// Compares the outcomes of a command when standard input fails after each number of bytes.
    fn cut(&mut self, words: &str, wanted: &Outcome) -> Result<(), CaseFault> {
        for input in 0..=self.input.len() {
            let wanted = wanted.failed(
                self.alloc,
                self.answers_within(input),
                Failure::ScriptInput,
            )?;
            let room = Room {
                input,
                ..Room::AMPLE
            };
            self.compare(words, room, &wanted)?;
        }
        Ok(())
    }

    /// Returns the number of bytes that answer the lines within the first `input` bytes.
    fn answers_within(&self, input: usize) -> usize {
        let mut output = 0;
        for line in self.answered.as_slice() {
            if line.input <= input {
                output = line.output;
            }
        }
        output
    }

    /// Runs a command and compares its outcome with the wanted one.
    fn compare(&mut self, words: &str, room: Room, wanted: &Outcome) -> Result<(), CaseFault> {
        let given = self.outcome(words, room)?;
        if given.is(wanted) {
            self.tally.count();
        } else {
            let case = self.name;
            let line = format!(in self.alloc;
                "{case}: jvmx {words}\n  wanted: {wanted}\n  given:  {given}\n"
            )?;
            self.tally.differ(line.as_str())?;
        }
        Ok(())
    }
}
