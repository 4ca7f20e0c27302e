//! Laws about the local turns of the machine, which touch their thread alone and give at most marks.
#![tactic(auto)]

pub mod laws;
