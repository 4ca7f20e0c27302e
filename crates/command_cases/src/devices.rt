//! Runs a command over a case's files, and over a reader and writers that can fail.

ghost use Rattle.std.specs.Prelude.{◌≡◌, ◌<◌};

use crate::fault::CaseFault;
use crate::wanted::Outcome;
use commands::Files;
use commands::perform::perform;
use fixtures::devices::{Cut, Short};
use std::alloc::{AllocError, Global};
use std::marker::Brand;
use std::rt::Clock;
use std::sync::Wait;
use std::sync::ledger::{Blank, Ledger};
use std::thread::Threads;
use trace::{Counted, Failures};

/// The number of bytes that standard input returns, and that standard output and standard error accept, before they
/// fail.
#[derive(Clone, Copy)]
pub(crate) struct Room {
    pub(crate) input: usize,
    pub(crate) output: usize,
    pub(crate) errors: usize,
}

impl Room {
    /// Room for everything that is read and written.
    pub(crate) const AMPLE: Room = Room {
        input: usize::MAX,
        output: usize::MAX,
        errors: usize::MAX,
    };
}

/// The standard devices of a command.
#[derive(Clone, Copy)]
pub(crate) struct Devices<'b> {
    /// The bytes of standard input.
    pub(crate) script: &'b [u8],
    pub(crate) room: Room,
}

/// Returns the words of a command, which spaces separate. `''` is the empty word.
fn words_of(alloc: Global, text: &str) -> Result<Vec<String>, AllocError> {
    let mut words = Vec::new(alloc);
    for word in text.split(' ') {
        if word == "''" {
            words.push(String::new(alloc))?;
        } else if !word.is_empty() {
            words.push(String::from_str(alloc, word)?)?;
        }
    }
    Ok(words)
}

/// Runs a command and returns its outcome. These ledgers count the failures of its devices.
fn counted<
    R: AllocGlobal + Clock + Eprint + Threads + Wait + Sync,
    F: Files,
    I: Ledger,
    O: Ledger,
    E: Ledger,
>(
    rt: &R,
    words: &[String],
    files: &mut F,
    devices: Devices<'_>,
    input: Blank,
    output: Blank,
    errors: Blank,
) -> Result<Outcome, CaseFault>
    requires input { (input.name ≡ I.name) × (input.parts ≡ I.parts) × (0 < I.parts) }
    requires output { (output.name ≡ O.name) × (output.parts ≡ O.parts) × (0 < O.parts) }
    requires errors { (errors.name ≡ E.name) × (errors.parts ≡ E.parts) × (0 < E.parts) }
{
    let alloc = rt.alloc();
    let Devices { script, room } = devices;
    let reader = Cut::new(script, room.input);
    let mut input = Counted::new(reader, Failures::<I>::none(input));
    let mut output = Counted::new(Short::new(alloc, room.output), Failures::<O>::none(output));
    let mut errors = Counted::new(Short::new(alloc, room.errors), Failures::<E>::none(errors));
    let status = perform(rt, words, files, &mut input, &mut output, &mut errors);
    Ok(Outcome {
        status,
        output: output.inner().bytes().clone()?,
        errors: errors.inner().bytes().clone()?,
    })
}

/// Runs a command over these devices, and returns its outcome.
pub(crate) fn outcome_of<R: AllocGlobal + Clock + Eprint + Threads + Wait + Sync, F: Files>(
    rt: &R,
    words: &str,
    files: &mut F,
    devices: Devices<'_>,
) -> Result<Outcome, CaseFault> {
    let words = words_of(rt.alloc(), words)?;
    let words = words.as_slice();
    let (input, output, errors) = (Blank::new(1), Blank::new(1), Blank::new(1));
    counted::<R, F, Brand, Brand, Brand>(rt, words, files, devices, input, output, errors)
}
