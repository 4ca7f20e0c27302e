//! Reads a constant pool from bytes (JVMS 4.4): first its entries, then the tests of what they name.

ghost use Rattle.jvms_file.specs.Reading.{Gives};
ghost use Rattle.const_pool.specs.Reading.{checked_pool_at};

use crate::entries::entries_at_front;
use crate::faults::check_entries;
use crate::pool::Pool;
use crate::scanned::ScannedPool;
use jvms_file::fault::{ClassFault, ReadError};
use std::alloc::Global;

impl ScannedPool {
    /// Reads constant_pool_count and the entries, tests what each names, and returns the pool with the bytes after it.
    /// Else it returns the first fault. Faults of the bytes come before faults of names. `cut` is the fault of missing
    /// bytes.
    pub fn read(
        alloc: Global,
        cut: ClassFault,
        bytes: &[u8],
    ) -> Result<(ScannedPool, &[u8]), ReadError>
        ensures { Gives (λ x. (x.0, x.1.now)) result (checked_pool_at cut bytes.now) }
    {
        let (entries, rest) = entries_at_front(alloc, cut, bytes)?;
        let pool = ScannedPool::of(alloc, entries)?;
        check_entries(&pool, pool.pool().entries().as_slice())?;
        Ok((pool, rest))
    }
}

impl Pool {
    /// Reads a pool like `ScannedPool::read`, without keeping the forms of its texts.
    pub fn read(alloc: Global, cut: ClassFault, bytes: &[u8]) -> Result<(Pool, &[u8]), ReadError>
        ensures { Gives (λ x. (x.0, x.1.now)) result (checked_pool_at cut bytes.now) }
    {
        let (pool, rest) = ScannedPool::read(alloc, cut, bytes)?;
        Ok((pool.into_pool(), rest))
    }
}
