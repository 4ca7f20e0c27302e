//! Shows the results of a run as texts.

use escapes::put_name;
use jvms_machine::machine::{BadCause, BlockedOn};
use jvms_machine::value::Value;
use machine::{Machine, Outcome, Status};
use std::alloc::{AllocError, Global};

/// Returns the text of a name.
pub fn name(alloc: Global, units: &[u16]) -> Result<String, AllocError> {
    let mut text = String::new(alloc);
    put_name(&mut text, units)?;
    Ok(text)
}

/// Returns the text of a value.
pub fn value(alloc: Global, value: Value) -> Result<String, AllocError> {
    match value {
        Value::Int(n) => format!(in alloc; "I:{n}"),
        Value::Long(n) => format!(in alloc; "J:{n}"),
        Value::Second => String::from_str(alloc, "+"),
        Value::Null => String::from_str(alloc, "null"),
        Value::Reference(reference) => format!(in alloc; "R:{reference}"),
        Value::ReturnAddress(place) => format!(in alloc; "ret:{place}"),
        Value::Unset => String::from_str(alloc, "-"),
    }
}

/// Returns the text of a machine's status.
pub fn status(status: Status) -> &'static str {
    match status {
        Status::Finished => "Finished",
        Status::Running => "Running",
        Status::Stalled => "Stalled",
        Status::Deadlocked => "Deadlocked",
    }
}

fn cause(cause: BadCause) -> &'static str {
    match cause {
        BadCause::FellOff => "FellOff",
        BadCause::OutOfProfile => "OutOfProfile",
        BadCause::Depth => "Depth",
        BadCause::Kind => "Kind",
        BadCause::Local => "Local",
    }
}

/// Returns the name of a class by its number.
pub fn class_name(
    alloc: Global,
    machine: &Machine<'_>,
    number: usize,
) -> Result<String, AllocError> {
    match machine.program().class(number) {
        Some(class) => name(alloc, class.name.as_slice()),
        None => Ok(String::new(alloc)),
    }
}

fn blocked(alloc: Global, machine: &Machine<'_>, on: BlockedOn) -> Result<String, AllocError> {
    match on {
        BlockedOn::Monitor { reference, owner } => {
            format!(in alloc; "Blocked monitor {reference} by {owner}")
        }
        BlockedOn::Initialisation { class, owner } => {
            let class = class_name(alloc, machine, class)?;
            format!(in alloc; "Blocked init {class} by {owner}")
        }
        BlockedOn::Join { thread } => format!(in alloc; "Blocked join {thread}"),
        BlockedOn::Wait { reference } => format!(in alloc; "Blocked wait {reference}"),
    }
}

/// Returns the text of an outcome. `Ended last` is that of the turn that ends a thread.
pub fn outcome(
    alloc: Global,
    machine: &Machine<'_>,
    outcome: Outcome,
) -> Result<String, AllocError> {
    match outcome {
        Outcome::Ran => String::from_str(alloc, "Ran"),
        Outcome::Raised => String::from_str(alloc, "Raised"),
        Outcome::Ended { last: true } => String::from_str(alloc, "Ended last"),
        Outcome::Ended { last: false } => String::from_str(alloc, "Ended"),
        Outcome::NoThread => String::from_str(alloc, "NoThread"),
        Outcome::Blocked { on } => blocked(alloc, machine, on),
        Outcome::Bad { cause: why } => {
            let why = cause(why);
            format!(in alloc; "Bad {why}")
        }
    }
}

/// Returns written bytes between quotes. Printable ASCII characters are themselves, quotes and backslashes follow a
/// backslash, and a line feed is `\n`. Any other byte is `\x` and two hexadecimal digits.
pub fn output(alloc: Global, bytes: &[u8]) -> Result<String, AllocError> {
    let mut text = String::from_str(alloc, "\"")?;
    for byte in bytes {
        let byte = *byte;
        match byte {
            b'\n' => text.push_str("\\n")?,
            b'"' | b'\\' => write!(text, "\\{}", char::from(byte))?,
            32..=126 => text.push(char::from(byte))?,
            _ => write!(text, "\\x{byte:02x}")?,
        }
    }
    text.push('"')?;
    Ok(text)
}
