//! The words of items.

ghost use Rattle.std.specs.Prelude.{◌≡◌};
ghost use Rattle.escapes.specs.Readings.{IsReadAs};

/// The kind of an item, as the word that its line begins with.
#[derive(Clone, Copy, Debug, PartialEq, Eq)]
pub(crate) enum Word {
    Read,
    Write,
    Acquire,
    Release,
    Fork,
    Join,
    Enter,
    Exit,
}

impl Word {
    ghost use Rattle.trace_text.specs.Parts.{word_text, IsWord};

    /// Returns the spelling of the word.
    pub(crate) fn text(self) -> &'static str
        ensures { result.now ≡ word_text self }
    {
        match self {
            Word::Read => "rd",
            Word::Write => "wr",
            Word::Acquire => "acq",
            Word::Release => "rel",
            Word::Fork => "fork",
            Word::Join => "join",
            Word::Enter => "enter",
            Word::Exit => "exit",
        }
    }

    /// Reads a word. Returns `None` if the text is none.
    pub(crate) fn of(text: &[u8]) -> Option<Word>
        ensures { IsReadAs IsWord word_text text.now result }
    {
        match text {
            b"rd" => Some(Word::Read),
            b"wr" => Some(Word::Write),
            b"acq" => Some(Word::Acquire),
            b"rel" => Some(Word::Release),
            b"fork" => Some(Word::Fork),
            b"join" => Some(Word::Join),
            b"enter" => Some(Word::Enter),
            b"exit" => Some(Word::Exit),
            _ => None,
        }
    }
}
