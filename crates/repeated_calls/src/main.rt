//! Makes calls of the libraries, each once more if it is refused, for runs with one refused allocation. The arguments
//! are parts, with a word `--` between two. The first word of a part is the name of its module, which says what the
//! others are.
//!
//! | Part | Calls |
//! |---|---|
//! | `reading` | classes are read, assembled, listed, written and linked |
//! | `turns` | a machine's turns and copies, and a checker of its trace |
//! | `judgements` | a judged run |
//! | `sessions` | the commands of a session of the debugger |
//! | `campaigns` | a campaign |
//! | `explorations` | an exploration, and the shrinking of a schedule |
#![tactic(auto)]

mod campaigns;
mod explored;
mod judgements;
mod limits;
mod reading;
mod sessions;
mod turns;

use refused::words_of;
use std::process::ExitCode;
use std::sync::Wait;
use std::thread::Threads;

/// Makes the calls of a part.
fn perform_part<R: Threads + Wait + Sync>(
    host: &HostRuntime,
    rt: &R,
    words: &[String],
) -> Option<()> {
    let (part, others) = words.split_first()?;
    match part.as_str() {
        "reading" => reading::perform(host, others),
        "turns" => turns::perform(host, others),
        "judgements" => judgements::perform(host, others),
        "sessions" => sessions::perform(host, others),
        "campaigns" => campaigns::perform(host, rt, others),
        "explorations" => explored::perform(host, rt, others),
        _ => None,
    }
}

/// Makes the calls of all parts that the arguments name.
fn perform<R: Threads + Wait + Sync>(host: &HostRuntime, rt: &R) -> Option<()> {
    let words = words_of(host)?;
    for part in words.as_slice().split(|word| word.as_str() == "--") {
        perform_part(host, rt, part)?;
    }
    Some(())
}

fn main(rt: HostRuntime) -> ExitCode {
    match perform(&rt, &rt) {
        Some(()) => ExitCode::SUCCESS,
        None => ExitCode::from(3),
    }
}
