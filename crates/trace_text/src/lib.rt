//! The text of a trace: one item a line.
#![tactic(auto)]

mod fault;
mod item;
mod known;
mod laws;
mod line;
mod members;
mod number;
mod reading;
mod variable;
mod word;
mod writing;

pub use fault::TraceFault;
pub use laws::{
    a_text_has_one_first_fault, a_text_is_of_one_trace, a_text_of_items_has_no_fault,
    what_is_written_is_read_again,
};
pub use reading::read;
pub use trace::Trace;
pub use writing::{put_line, write, write_items};
