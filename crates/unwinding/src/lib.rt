//! Exceptions (JVMS 2.10): `athrow`, and the handler of a pending exception, or the frame that it pops. Each turn is
//! decided with nothing changed, and its action is then applied to the parts of a machine.
#![tactic(auto)]

mod applying;
mod decisions;

pub use applying::{catch, fail_initialisation, fail_to_unlock, throw_object, unwind};
pub use decisions::{throw_decision, unwinding_decision};
