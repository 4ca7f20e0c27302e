//! Atomicity of a trace (Velodrome, PLDI 2008): specifications and verdicts as data. `specs/` defines transactions,
//! conflicts, edges, cycles, orders, what open transactions reach, and serial rearrangements.
#![tactic(auto)]

pub mod specification;
pub mod verdict;
