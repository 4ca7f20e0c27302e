//! The methods that each thread of a trace has open, and the transaction that it is in (Velodrome, section 3).
#![tactic(auto)]

mod open;
mod position;
mod states;

pub use atom_spec;
pub use position::ThreadPosition;
pub use states::ThreadStates;
