//! The reason for which a text gives no chooser.

ghost use Rattle.std.specs.Prelude.{◌≡◌};

use thiserror::Error;

/// The reason for which a text gives no chooser.
#[derive(Clone, Copy, Debug, PartialEq, Eq, Error)]
pub enum ScheduleFault {
    /// H01: the text spells no schedule.
    #[error("H01 Syntax")]
    Syntax,
    /// Memory ran out for a list or departures.
    #[error("Memory")]
    Memory,
}
