//! Reads the script of standard input.

use refused::again;
use std::io::Read;

/// The maximum number of bytes of a script.
const MOST_BYTES: usize = 4_096;

/// Reads standard input into bytes, and returns their number. Takes no memory.
fn read_into(rt: &HostRuntime, bytes: &mut [u8]) -> Option<usize> {
    let mut count = 0usize;
    for _ in 0..MOST_BYTES {
        let more = rt.stdin().read(bytes.get_mut(count..)?).ok()?;
        if more == 0 {
            break;
        }
        count = count.saturating_add(more);
    }
    Some(count)
}

/// Reads standard input.
pub(crate) fn read(rt: &HostRuntime) -> Option<Vec<u8>> {
    let mut bytes = again!(rt, "script", vec![in rt.alloc(); 0u8; MOST_BYTES])?;
    let count = read_into(rt, bytes.as_mut_slice())?;
    bytes.truncate(count);
    Some(bytes)
}
