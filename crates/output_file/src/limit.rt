//! The limit on the size of a file that a process writes.

use std::{fs, rt};

/// The file in which Linux lists the limits of the process that reads it.
const LIMITS: &str = "/proc/self/limits";

/// What the line of the size of a file begins with. The limit that holds follows it, in bytes or as `unlimited`.
const FILE_SIZE: &str = "Max file size";

/// Returns the limit of a line, if it is that of the size of a file and has a number.
fn limit_in(line: &str) -> Option<u64> {
    let rest = line.strip_prefix(FILE_SIZE)?;
    rest.split_whitespace().next()?.parse().ok()
}

/// Returns the maximum number of bytes of a file that this process writes. A write past it would end the process by a
/// signal. If the system doesn't say it, any number is allowed.
pub(crate) fn most_bytes<R: rt::Files + AllocGlobal>(rt: &R) -> u64 {
    let Ok(limits) = fs::read_to_string(rt, LIMITS) else {
        return u64::MAX;
    };
    for line in limits.lines() {
        if let Some(most) = limit_in(line) {
            return most;
        }
    }
    u64::MAX
}
