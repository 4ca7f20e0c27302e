//! The constant pool of a class file (JVMS 4.4): read from bytes and written, its entries by number.
#![tactic(auto)]

mod builder;
mod constant;
mod entries;
mod entry;
mod faults;
mod firsts;
mod forms;
mod pool;
mod reading;
mod scanned;
mod writing;

pub use builder::{PoolBuilder, PoolFault};
pub use entry::Entry;
pub use forms::Forms;
pub use jvms_file::class_file::Constant;
pub use pool::Pool;
pub use scanned::ScannedPool;
pub use writing::write_pool;
