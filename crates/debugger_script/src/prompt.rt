//! What a person at a terminal sees besides the answers.

use debugger::Session;

/// A prompt, which shows a person at a terminal what to type. It sees the session and the answers, and changes neither.
pub trait Prompt {
    /// Asks for a line. `run_prompted` calls it before each read.
    fn ask(&mut self, session: &Session<'_>);

    /// Explains an answer that was written.
    fn explain(&mut self, answer: &str);
}

/// A prompt that shows nothing, for scripts that no person types.
#[derive(Clone, Copy, Debug, Drop)]
pub struct NoPrompt;

impl Prompt for NoPrompt {
    fn ask(&mut self, _session: &Session<'_>) {}

    fn explain(&mut self, _answer: &str) {}
}
