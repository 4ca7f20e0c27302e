//! Consecutive parts, as many as a count says (JVMS 4).

ghost use Rattle.std.specs.Prelude.{◌≡◌, ℕ, List, [], Result};
ghost use Rattle.jvms_file.specs.declared.fault.ClassFault.{ClassFault as Fault};
ghost use Rattle.jvms_file.specs.Reading.{Gives};
ghost use Rattle.jvms_file.specs.Results.{part_list_onto};

use jvms_file::fault::ReadError;
use shared_data::items::Items;
use std::alloc::Global;

/// A reader of one part, which may depend on the parts before it.
pub trait Part<T> {
    ghost at: { Self → List T → List ℕ → Result (T × List ℕ) Fault };

    /// Reads the part at the front and returns it with the bytes after it. `seen` are the parts before it.
    fn part_at<'a>(
        &self,
        alloc: Global,
        seen: &[T],
        bytes: &'a [u8],
    ) -> Result<(T, &'a [u8]), ReadError>
        ensures { Gives (λ x. (x.0, x.1.now)) result (at self.now seen.now bytes.now) };
}

/// Reads `count` consecutive parts and returns them with the bytes after them.
pub fn parts_of<'a, T: Drop, P: Part<T>>(
    alloc: Global,
    part: &P,
    count: usize,
    bytes: &'a [u8],
) -> Result<(Items<T>, &'a [u8]), ReadError>
    ensures { Gives (λ x. (x.0, x.1.now)) result
        (part_list_onto (P.at part.now) [] count bytes.now) }
{
    let mut parts = Items::new(alloc);
    let mut rest = bytes;
    let mut left = count;
    while left > 0 {
        let (one, behind) = match part.part_at(alloc, parts.as_slice(), rest) {
            Ok(read) => read,
            Err(error) => return Err(error),
        };
        parts.push(one)?;
        rest = behind;
        left -= 1;
    }
    Ok((parts, rest))
}
