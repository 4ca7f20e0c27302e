//! The entries of a pool, read one after another.

ghost use Rattle.std.specs.Prelude.{◌≡◌, ◌<◌, ◌-◌, ◌++◌, length, IfOk, OnErr};
ghost use Rattle.jvms_file.specs.ConstantPool.{takes_two, entries_at, pool_at};
ghost use Rattle.jvms_file.specs.Reading.{Gives};
ghost use Rattle.const_pool.specs.Numbered.{with_unusable};

use crate::constant::constant_at;
use file_bytes::u2_at;
use jvms_file::class_file::Constant;
use jvms_file::fault::{ClassFault, ReadError};
use shared_data::items::Items;
use std::alloc::{AllocError, Global};

/// Decides whether an entry takes two numbers (JVMS 4.4.5).
fn takes_two_numbers(constant: &Constant) -> bool
    ensures { result ≡ takes_two constant.now }
{
    matches!(constant, Constant::Long(_) | Constant::Double(_))
}

/// Appends an entry, and after a long or a double an unusable one if a number is left for it. Returns the count of
/// numbers that are left then.
fn put(entries: &mut Items<Constant>, constant: Constant, left: usize) -> Result<usize, AllocError>
    requires { 0 < left }
    ensures left { IfOk result (λ after. after ≡ left - length (with_unusable constant left)) }
    ensures entries { IfOk result
        (λ after. entries.new ≡ entries.old ++ with_unusable constant left) }
{
    let two = takes_two_numbers(&constant) && left > 1;
    entries.push(constant)?;
    if two {
        entries.push(Constant::Unusable)?;
        Ok(left - 2)
    } else {
        Ok(left - 1)
    }
}

/// Reads the entries of `count` numbers, and returns them with the bytes after them.
fn entries_of(
    alloc: Global,
    cut: ClassFault,
    count: usize,
    bytes: &[u8],
) -> Result<(Items<Constant>, &[u8]), ReadError>
    ensures { Gives (λ x. (x.0, x.1.now)) result (entries_at cut count bytes.now) }
{
    let mut entries = Items::new(alloc);
    let mut rest = bytes;
    let mut left = count;
    while left > 0 {
        let (constant, behind) = match constant_at(alloc, cut, rest) {
            Ok(read) => read,
            Err(error) => return Err(error),
        };
        left = put(&mut entries, constant, left)?;
        rest = behind;
    }
    Ok((entries, rest))
}

/// Reads constant_pool_count and its entries, whatever they name, and returns them with the bytes after them.
pub(crate) fn entries_at_front(
    alloc: Global,
    cut: ClassFault,
    bytes: &[u8],
) -> Result<(Items<Constant>, &[u8]), ReadError>
    ensures { Gives (λ x. (x.0, x.1.now)) result (pool_at cut bytes.now) }
{
    let (count, rest) = u2_at(cut, bytes)?;
    entries_of(alloc, cut, usize::from(count).saturating_sub(1), rest)
}
