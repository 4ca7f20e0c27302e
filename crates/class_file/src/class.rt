//! Class files (JVMS 4.1).

ghost use Rattle.std.specs.Prelude.{◌≡◌};
ghost use Rattle.jvms_file.specs.ClassFile.{is_version, is_proper_class, interface_at, interfaces_at, class_at, read};
ghost use Rattle.jvms_file.specs.Reading.{Gives};
ghost use Rattle.class_file.specs.Opening.{members_after_superclass, class_after_pool, class_after_versions};

use crate::attribute::kept_attributes_at;
use crate::field::fields_at;
use crate::method::methods_at;
use const_pool::{Pool, ScannedPool};
use descriptor::is_array_name;
use file_bytes::{Part, parts_of, u2_at, u4_at, want};
use jvms_file::class_file::ClassFile;
use jvms_file::fault::{ClassFault, ReadError};
use shared_data::items::Items;
use std::alloc::Global;

/// The first four bytes of a class file.
pub(crate) const MAGIC: u32 = 0xcafebabe;

/// The parts of a class before its interfaces, except the constant pool.
#[derive(Clone, Copy)]
pub(crate) struct Head {
    pub(crate) minor: u16,
    pub(crate) major: u16,
    pub(crate) access: u16,
    pub(crate) this_class: u16,
    pub(crate) super_class: u16,
}

/// Decides whether a number is that of a class that is no array's.
fn is_proper_class(pool: &Pool, number: u16) -> bool
    ensures { result ≡ is_proper_class pool.now number }
{
    match pool.class_name(number) {
        None => false,
        Some(name) => !is_array_name(name),
    }
}

/// The reader of the numbers of interfaces in a class with this pool. `cut` is the fault of missing bytes.
#[derive(Clone, Copy)]
struct Interfaces<'p> {
    pool: &'p Pool,
    cut: ClassFault,
}

impl Part<u16> for Interfaces<'_> {
    ghost at = { λ i _. interface_at i.pool.now i.cut };

    fn part_at<'a>(
        &self,
        _alloc: Global,
        _seen: &[u16],
        bytes: &'a [u8],
    ) -> Result<(u16, &'a [u8]), ReadError> {
        let (number, rest) = u2_at(self.cut, bytes)?;
        want(is_proper_class(self.pool, number), ClassFault::Index)?;
        Ok((number, rest))
    }
}

/// Reads interfaces_count and the interfaces, and returns them with the bytes after them.
fn interfaces_at<'a>(
    alloc: Global,
    pool: &Pool,
    cut: ClassFault,
    bytes: &'a [u8],
) -> Result<(Items<u16>, &'a [u8]), ReadError>
    ensures { Gives (λ x. (x.0, x.1.now)) result (interfaces_at pool.now cut bytes.now) }
{
    let (count, rest) = u2_at(cut, bytes)?;
    parts_of(alloc, &Interfaces { pool, cut }, usize::from(count), rest)
}

/// Reads the bytes after the superclass, and returns the class with the parts in `head`.
fn members_after_superclass(
    alloc: Global,
    cut: ClassFault,
    pool: ScannedPool,
    head: Head,
    bytes: &[u8],
) -> Result<ClassFile, ReadError>
    ensures { Gives (λ c. c) result (members_after_superclass cut pool head bytes.now) }
{
    let (interfaces, rest) = interfaces_at(alloc, pool.pool(), cut, bytes)?;
    let (fields, rest) = fields_at(alloc, &pool, cut, rest)?;
    let (methods, rest) = methods_at(alloc, &pool, head.major, cut, head.access, rest)?;
    let (attributes, rest) = kept_attributes_at(alloc, pool.pool(), cut, rest)?;
    want(rest.is_empty(), ClassFault::Trailing)?;
    Ok(ClassFile {
        minor: head.minor,
        major: head.major,
        pool: pool.into_entries(),
        access: head.access,
        this_class: head.this_class,
        super_class: head.super_class,
        interfaces,
        fields,
        methods,
        attributes,
    })
}

/// Reads the bytes after the constant pool, and returns the class.
fn class_after_pool(
    alloc: Global,
    cut: ClassFault,
    minor: u16,
    major: u16,
    pool: ScannedPool,
    bytes: &[u8],
) -> Result<ClassFile, ReadError>
    ensures { Gives (λ c. c) result (class_after_pool cut minor major pool bytes.now) }
{
    let (access, rest) = u2_at(cut, bytes)?;
    let (this_class, rest) = u2_at(cut, rest)?;
    want(is_proper_class(pool.pool(), this_class), ClassFault::Index)?;
    let (super_class, rest) = u2_at(cut, rest)?;
    want(
        super_class == 0 || is_proper_class(pool.pool(), super_class),
        ClassFault::Index,
    )?;
    let head = Head {
        minor,
        major,
        access,
        this_class,
        super_class,
    };
    members_after_superclass(alloc, cut, pool, head, rest)
}

/// Reads the bytes after the versions, and returns the class.
fn class_after_versions(
    alloc: Global,
    cut: ClassFault,
    minor: u16,
    major: u16,
    bytes: &[u8],
) -> Result<ClassFile, ReadError>
    ensures { Gives (λ c. c) result (class_after_versions cut minor major bytes.now) }
{
    let (pool, rest) = ScannedPool::read(alloc, cut, bytes)?;
    class_after_pool(alloc, cut, minor, major, pool, rest)
}

/// Decides whether a major version is one that is read, 45 to 50.
fn is_version(major: u16) -> bool
    ensures { result ≡ is_version major }
{
    45 <= major && major <= 50
}

/// Reads a class from bytes, or returns their first fault. `cut` is the fault of missing bytes.
#[tactic(auto, unfolding(jvms_file::specs::ClassFile::class_at))]
fn class_at(alloc: Global, cut: ClassFault, bytes: &[u8]) -> Result<ClassFile, ReadError>
    ensures { Gives (λ c. c) result (class_at cut bytes.now) }
{
    let (magic, rest) = u4_at(cut, bytes)?;
    want(magic == MAGIC, ClassFault::Magic)?;
    let (minor, rest) = u2_at(cut, rest)?;
    let (major, rest) = u2_at(cut, rest)?;
    want(is_version(major), ClassFault::Version)?;
    class_after_versions(alloc, cut, minor, major, rest)
}

/// Reads a class from bytes, or returns their first fault. Truncated bytes have their length as the place of the fault.
pub(crate) fn read_class(alloc: Global, bytes: &[u8]) -> Result<ClassFile, ReadError>
    ensures exact { Gives (λ c. c) result (read bytes.now) }
{
    class_at(alloc, ClassFault::Truncated { at: bytes.len() }, bytes)
}
