//! Campaigns: workers run the jobs of a plan on threads, and the table is the same for every number of workers.
#![tactic(auto)]

mod audits;
mod gate;
mod halt;
pub mod laws;
mod run;
mod shared;
mod table;
mod worker;

pub use audits::audit;
pub use campaign_book::{Book, BookEntry, Row, StoreFault, Totals};
pub use campaign_desk::{Claim, Desk, DeskFault, Seat};
pub use campaign_jobs::{Atomicity, Choosing, JobResult, Plan, Report, run_job, serial_of};
pub use gate::{Gate, OpenGate};
pub use halt::Halted;
pub use run::run_campaign;
pub use shared::{Campaign, Share, SharedBook};
pub use table::Table;
