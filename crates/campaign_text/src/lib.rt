//! The text of a campaign's table: writes and reads it, and joins the tables of a campaign's parts.
#![tactic(auto)]

mod fault;
mod joining;
pub mod laws;
mod line;
mod part;
mod reading;
mod table;

pub use campaign;
pub use fault::{JoinFault, TableFault};
pub use joining::join;
pub use line::push_result;
pub use part::Part;
pub use reading::read_table;
pub use table::table_text;
