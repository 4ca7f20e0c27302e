//! Runs of a program from an entry, by the choices of a chooser: their ending, their items, and whether they are
//! atomic.
#![tactic(auto)]

mod checking;
mod ending;
mod fault;
mod feeding;
mod tracing;

pub use atom_graph;
pub use checking::{CheckedRun, check_program, check_turns, feed_program};
pub use ending::run_program;
pub use fault::ProgramFault;
pub use feeding::{Judgement, feed_items, judgement_of};
pub use runs;
pub use runs::{machine, schedule};
pub use tracing::{TracedRun, trace_program};
