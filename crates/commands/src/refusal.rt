//! The reasons why a command is refused, each with its line on standard error and its exit status.

use crate::fault::RunFault;
use crate::files::FileFault;
use atom_spec::SpecFault;
use campaigning::{CampaignFault, JoinFault, TableFault};
use command_line::{ProgramNames, WordsFault};
use debugger_script::ScriptFault;
use debugging::DebugStop;
use exploration_joins::{JoinFault as PartsFault, PartFault};
use explorations::ExplorationFault;
use inputs::InputFault;
use judge::JudgeFault;
use linker::LinkFault;
use listing::ListFault;
use machine::MachineFault;
use schedule::ScheduleFault;
use shrinkings::ShrinkFault;
use std::alloc::{AllocError, AllocFailed};
use std::fmt;
use trace::DeviceFailure;
use trace_check::CheckFault;

/// A reason why a command is refused, with what its line names: a file, the entry or the schedule, as spelled in the
/// words.
#[derive(Debug, Drop)]
pub(crate) enum Refusal<'w> {
    /// P04: the words are no command line.
    Words,
    /// H01: a word is no schedule.
    Schedule { text: &'w str },
    /// P02: there is no such file, or it can't be read.
    File { file: &'w str },
    /// P01: a file has too many bytes.
    FileTooLarge { file: &'w str },
    /// P03: a file has to be a text and isn't UTF-8.
    NotUtf8 { file: &'w str },
    /// E01, E02: a file is no specification, or memory ran out for it.
    Spec { file: &'w str, fault: SpecFault },
    /// X01, X02, F01 to F03: a file is no trace that can be checked, or memory ran out for it.
    Check { file: &'w str, fault: CheckFault },
    /// C01 to C18, J01 to J12, A01 to A08: a file is no class, or memory ran out for its class.
    Input { file: &'w str, fault: InputFault },
    /// L01 to L03: the class of a file can't be listed.
    List { file: &'w str, fault: ListFault },
    /// K01 to K05: the class of a file can't be linked.
    Link { file: &'w str, fault: LinkFault },
    /// K06: memory ran out for the program.
    LinkMemory,
    /// M01 to M03: the entry has no machine.
    Machine { entry: &'w str, fault: MachineFault },
    /// S01 to S03: the script of the debugger ended early.
    Script { fault: ScriptFault },
    /// G01, G02, G04, G05: a campaign has too many jobs or workers, or memory ran out for it.
    Campaign { fault: CampaignFault },
    /// T01: a file is no table, or memory ran out for it.
    Table { file: &'w str, fault: TableFault },
    /// T02, T03: tables can't be joined, or memory ran out for it.
    Join { fault: JoinFault },
    /// T01: a file isn't the text of a part of an exploration, or memory ran out for it.
    Part { file: &'w str, fault: PartFault },
    /// T04, T05: the parts of an exploration can't be joined, or memory ran out for it.
    JoinParts { fault: PartsFault },
    /// P06: the run of a schedule doesn't fail.
    NotFailing { schedule: &'w str },
    /// P05: standard output or standard error failed.
    Output,
    /// Memory ran out for anything else.
    Memory,
}

impl From<WordsFault> for Refusal<'_> {
    fn from(fault: WordsFault) -> Self {
        match fault {
            WordsFault::Words => Refusal::Words,
            WordsFault::Memory => Refusal::Memory,
        }
    }
}

impl From<AllocError> for Refusal<'_> {
    fn from(_error: AllocError) -> Self {
        Refusal::Memory
    }
}

impl<T: Drop> From<AllocFailed<T>> for Refusal<'_> {
    fn from(_error: AllocFailed<T>) -> Self {
        Refusal::Memory
    }
}

impl From<DeviceFailure> for Refusal<'_> {
    fn from(_failure: DeviceFailure) -> Self {
        Refusal::Output
    }
}

impl<'w> Refusal<'w> {
    /// Returns the refusal for a file that wasn't read or written.
    pub(crate) fn of_file(file: &'w str, fault: FileFault) -> Self {
        match fault {
            FileFault::File => Refusal::File { file },
            FileFault::TooLarge => Refusal::FileTooLarge { file },
            FileFault::Memory => Refusal::Memory,
        }
    }

    /// Returns the refusal for a word that is no schedule.
    pub(crate) fn of_schedule(text: &'w str, fault: ScheduleFault) -> Self {
        match fault {
            ScheduleFault::Syntax => Refusal::Schedule { text },
            ScheduleFault::Memory => Refusal::Memory,
        }
    }

    /// Returns the refusal for a trace without a verdict, or whose verdict wasn't written.
    pub(crate) fn of_check(file: &'w str, fault: CheckFault) -> Self {
        match fault {
            CheckFault::Memory => Refusal::Memory,
            CheckFault::Output => Refusal::Output,
            _ => Refusal::Check { file, fault },
        }
    }

    /// Returns the refusal for a class that wasn't linked.
    fn of_link(names: &ProgramNames<'w>, fault: LinkFault) -> Self {
        match fault {
            LinkFault::BuiltInName { class }
            | LinkFault::RepeatedClass { class }
            | LinkFault::MissingSuper { class }
            | LinkFault::SuperKind { class }
            | LinkFault::Circular { class } => Refusal::Link {
                file: names.file(class),
                fault,
            },
            LinkFault::Memory => Refusal::LinkMemory,
        }
    }

    /// Returns the refusal for a program that wasn't run and judged.
    pub(crate) fn of_judge(names: &ProgramNames<'w>, fault: JudgeFault) -> Self {
        match fault {
            JudgeFault::Input { file, fault } => Refusal::Input {
                file: names.file(file),
                fault,
            },
            JudgeFault::Link(fault) => Refusal::of_link(names, fault),
            JudgeFault::Machine(fault) => Refusal::Machine {
                entry: names.entry,
                fault,
            },
            JudgeFault::Memory => Refusal::Memory,
        }
    }

    /// Returns the refusal for a program that wasn't run, or whose output wasn't written.
    pub(crate) fn of_run(names: &ProgramNames<'w>, fault: RunFault) -> Self {
        match fault {
            RunFault::Judge(fault) => Refusal::of_judge(names, fault),
            RunFault::Output => Refusal::Output,
        }
    }

    /// Returns the refusal for a program that wasn't debugged, or a script that ended early.
    pub(crate) fn of_debug(names: &ProgramNames<'w>, stop: DebugStop) -> Self {
        match stop {
            DebugStop::Judge(fault) => Refusal::of_judge(names, fault),
            DebugStop::Script(fault) => Refusal::Script { fault },
        }
    }

    /// Returns the refusal for a campaign without a table, or whose table wasn't written.
    pub(crate) fn of_campaign(names: &ProgramNames<'w>, fault: CampaignFault) -> Self {
        match fault {
            CampaignFault::Judge(fault) => Refusal::of_judge(names, fault),
            CampaignFault::Output => Refusal::Output,
            _ => Refusal::Campaign { fault },
        }
    }

    /// Returns the refusal for an exploration without an answer, or whose answer wasn't written.
    pub(crate) fn of_exploration(names: &ProgramNames<'w>, fault: ExplorationFault) -> Self {
        match fault {
            ExplorationFault::Judge(fault) => Refusal::of_judge(names, fault),
            ExplorationFault::Output => Refusal::Output,
        }
    }

    /// Returns the refusal for a schedule whose run wasn't shrunk, or wasn't written.
    pub(crate) fn of_shrinking(
        names: &ProgramNames<'w>,
        schedule: &'w str,
        fault: ShrinkFault,
    ) -> Self {
        match fault {
            ShrinkFault::Judge(fault) => Refusal::of_judge(names, fault),
            ShrinkFault::NotFailing => Refusal::NotFailing { schedule },
            ShrinkFault::Output => Refusal::Output,
        }
    }

    /// Returns the exit status: 3 if a file can't be read or written, memory ran out or a device failed, else 2.
    pub(crate) fn status(&self) -> u8 {
        match self {
            Refusal::File { .. } | Refusal::LinkMemory | Refusal::Output | Refusal::Memory => 3,
            Refusal::Script { .. } => 3,
            Refusal::Spec { fault, .. } if *fault == SpecFault::Memory => 3,
            Refusal::Check { fault, .. } if fault.is_memory() => 3,
            Refusal::Input { fault, .. } if fault.is_memory() => 3,
            Refusal::List { fault, .. } if *fault == ListFault::Memory => 3,
            Refusal::Machine { fault, .. } if *fault == MachineFault::Memory => 3,
            Refusal::Campaign { fault } if fault.is_memory() => 3,
            Refusal::Table { fault, .. } if *fault == TableFault::Memory => 3,
            Refusal::Join { fault } if *fault == JoinFault::Memory => 3,
            Refusal::Part { fault, .. } if *fault == PartFault::Memory => 3,
            Refusal::JoinParts { fault } if *fault == PartsFault::Memory => 3,
            _ => 2,
        }
    }
}

impl fmt::Display for Refusal<'_> {
    fn fmt<W: fmt::Write>(&self, f: &mut fmt::Formatter<W>) -> fmt::Result {
        match self {
            Refusal::Words => write!(f, "{}", WordsFault::Words),
            Refusal::Schedule { text } => write!(f, "{text}: {}", ScheduleFault::Syntax),
            Refusal::File { file } => write!(f, "{file}: P02 File"),
            Refusal::FileTooLarge { file } => write!(f, "{file}: P01 FileTooLarge"),
            Refusal::NotUtf8 { file } => write!(f, "{file}: P03 NotUtf8"),
            Refusal::Spec { file, fault } => write!(f, "{file}: {fault}"),
            Refusal::Check { file, fault } => write!(f, "{file}: {fault}"),
            Refusal::Input { file, fault } => write!(f, "{file}: {fault}"),
            Refusal::List { file, fault } => write!(f, "{file}: {fault}"),
            Refusal::Link { file, fault } => write!(f, "{file}: {fault}"),
            Refusal::LinkMemory => write!(f, "{}", LinkFault::Memory),
            Refusal::Machine { entry, fault } => write!(f, "{entry}: {fault}"),
            Refusal::Script { fault } => write!(f, "{fault}"),
            Refusal::Campaign { fault } => write!(f, "{fault}"),
            Refusal::Table { file, fault } => write!(f, "{file}: {fault}"),
            Refusal::Join { fault } => write!(f, "{fault}"),
            Refusal::Part { file, fault } => write!(f, "{file}: {fault}"),
            Refusal::JoinParts { fault } => write!(f, "{fault}"),
            Refusal::NotFailing { schedule } => {
                write!(f, "{schedule}: {}", ShrinkFault::NotFailing)
            }
            Refusal::Output => write!(f, "{}", RunFault::Output),
            Refusal::Memory => f.write_str("Memory"),
        }
    }
}
