//! The trace of a run: the items of its turns, in order. It also has the interfaces by which programs read and write
//! bytes.
#![tactic(auto)]

mod bytes;
mod failures;
mod list;
mod recording;

pub use bytes::{ByteIn, ByteOut, Counted, DeviceFailure};
pub use failures::Failures;
pub use jvms_machine::trace::{Item, Variable};
pub use jvms_program::key::{FieldKey, MethodKey};
pub use list::Trace;
pub use recording::Recording;
