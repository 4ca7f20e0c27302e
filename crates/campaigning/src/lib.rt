//! The campaign of a program from class files and sources, and the text of its table.
#![tactic(auto)]

mod fault;
mod running;
mod spans;
mod writing;

pub use campaign_text::campaign::{Choosing, Gate, JobResult, OpenGate, Plan, Table};
pub use campaign_text::{JoinFault, Part, TableFault, join, read_table, table_text};
pub use fault::CampaignFault;
pub use spans::default_span;
pub use writing::write_table;
