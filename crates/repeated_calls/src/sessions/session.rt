//! A session of gcd(48, 36).

use super::answers::answer_all;
use crate::limits::LIMITS;
use debugger::Session;
use machine::{Argument, Entry, MachineFault};
use program::Program;
use refused::{again, units_of};
use shared_data::items::Items;
use std::alloc::Global;

/// The number of turns of the run.
const TURNS: usize = 25;

/// Returns the entry.
fn entry_of(rt: &HostRuntime) -> Option<Entry> {
    let arguments = [Argument::Int(48), Argument::Int(36)];
    let arguments = again!(rt, "arguments", Vec::from_slice(rt.alloc(), &arguments))?;
    Some(Entry::Static {
        class: units_of(rt, "G")?,
        name: units_of(rt, "gcd")?,
        descriptor: units_of(rt, "(II)I")?,
        arguments: Items::from_vec(arguments),
    })
}

/// Begins a session, before the first of the choices.
fn begun<'p>(
    alloc: Global,
    program: &'p Program,
    entry: &Entry,
) -> Result<Session<'p>, MachineFault> {
    let choices = vec![in alloc; 0u32; TURNS]?;
    Session::new(alloc, program, LIMITS, entry, choices)
}

/// Begins a session, and executes a script.
pub(crate) fn debug(rt: &HostRuntime, program: &Program, script: &[u8]) -> Option<()> {
    let entry = entry_of(rt)?;
    let made = again!(rt, "Session::new", begun(rt.alloc(), program, &entry));
    let mut session = made?;
    let answered = answer_all(rt, &mut session, script);
    drop(session);
    answered
}
