//! Attributes that are kept as bytes (JVMS 4.7), and the names of those that are parsed.

ghost use Rattle.std.specs.Prelude.{◌≡◌};
ghost use Rattle.jvms_file.specs.Reading.{Gives};
ghost use Rattle.jvms_file.specs.Members.{kept_content_at, kept_at, kept_attributes_at, is_named};

use const_pool::Pool;
use file_bytes::{Part, bytes_at, parts_of, u2_at, u4_at, want};
use jvms_file::class_file::KeptAttribute;
use jvms_file::fault::{ClassFault, ReadError};
use shared_data::items::Items;
use std::alloc::Global;

/// Decides whether an entry is this text.
pub(crate) fn is_named(pool: &Pool, number: u16, name: &[u16]) -> bool
    ensures { result ≡ is_named pool.now number name.now }
{
    match pool.utf8(number) {
        None => false,
        Some(text) => text == name,
    }
}

/// Reads a kept attribute after its name, and returns it with the bytes after it.
pub(crate) fn kept_content(
    alloc: Global,
    cut: ClassFault,
    name: u16,
    bytes: &[u8],
) -> Result<(KeptAttribute, &[u8]), ReadError>
    ensures { Gives (λ x. (x.0, x.1.now)) result (kept_content_at cut name bytes.now) }
{
    let (count, rest) = u4_at(cut, bytes)?;
    let (content, behind) = bytes_at(cut, count as usize, rest)?;
    let bytes = Items::from_vec(content.to_vec(alloc)?);
    Ok((KeptAttribute { name, bytes }, behind))
}

/// The reader of kept attributes of a class with this pool. `cut` is the fault of missing bytes.
#[derive(Clone, Copy)]
struct KeptAttributes<'p> {
    pool: &'p Pool,
    cut: ClassFault,
}

impl Part<KeptAttribute> for KeptAttributes<'_> {
    ghost at = { λ k _. kept_at k.pool.now k.cut };

    fn part_at<'a>(
        &self,
        alloc: Global,
        _seen: &[KeptAttribute],
        bytes: &'a [u8],
    ) -> Result<(KeptAttribute, &'a [u8]), ReadError> {
        let (name, rest) = u2_at(self.cut, bytes)?;
        want(self.pool.is_utf8(name), ClassFault::Index)?;
        kept_content(alloc, self.cut, name, rest)
    }
}

/// Reads attributes_count and the attributes, all kept, and returns them with the bytes after them.
pub(crate) fn kept_attributes_at<'a>(
    alloc: Global,
    pool: &Pool,
    cut: ClassFault,
    bytes: &'a [u8],
) -> Result<(Items<KeptAttribute>, &'a [u8]), ReadError>
    ensures { Gives (λ x. (x.0, x.1.now)) result (kept_attributes_at pool.now cut bytes.now) }
{
    let (count, rest) = u2_at(cut, bytes)?;
    parts_of(
        alloc,
        &KeptAttributes { pool, cut },
        usize::from(count),
        rest,
    )
}
