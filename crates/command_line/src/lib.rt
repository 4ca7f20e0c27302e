//! The command line: reads the command of its words, and has the help texts.
#![tactic(auto)]

mod campaign;
mod command;
mod entry;
mod explore;
mod fault;
mod help;
mod program_words;
mod refusals;
mod screen;
mod shrink;
mod syntax;
mod words_help;

pub use campaign::CampaignWords;
pub use command::{
    AsmWords, CheckWords, Command, NeedsWords, PictureWords, RunWords, TablesWords, command_of,
};
pub use explore::ExploreWords;
pub use fault::WordsFault;
pub use help::{
    ASM_HELP, CAMPAIGN_HELP, CHECK_HELP, DEBUG_HELP, EVAL_HELP, EXPLORE_HELP, HELP, LIST_HELP,
    NEEDS_HELP, PICTURE_HELP, RUN_HELP, SHRINK_HELP, TABLES_HELP, TRACE_HELP, VERSION,
};
pub use program_words::{ProgramNames, ProgramWords};
pub use screen::{shown_line, shown_lines};
pub use shrink::ShrinkWords;
pub use words_help::{shown_words_text, words_text};
