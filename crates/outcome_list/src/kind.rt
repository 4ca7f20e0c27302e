//! The kind of an outcome, without the thread, the reference and the class that it names.

ghost use Rattle.std.specs.Prelude.{◌≡◌};
ghost use Rattle.outcome_list.specs.Kinds.{kind_of};

use jvms_machine::machine::{BadCause, BlockedOn, Outcome};

/// The kind of an outcome, in one byte.
#[derive(Clone, Copy, Debug)]
pub(crate) enum Kind {
    Ran,
    Raised,
    /// The thread ended in this turn.
    Last,
    /// The thread had ended before.
    Ended,
    NoThread,
    FellOff,
    OutOfProfile,
    Depth,
    WrongKind,
    Local,
    /// Blocked on a monitor: the owner and the reference are among the names.
    Monitor,
    /// Blocked on an initialisation: the owner and the class are among the names.
    Initialisation,
    /// Blocked on a thread's end: the thread is among the names.
    Join,
    /// Blocked on a notification: the reference is among the names.
    Wait,
}

const _: () = prove!(size_of::<Kind>() == 1);

/// Returns the kind of a Bad outcome with this cause.
fn bad_kind(cause: BadCause) -> Kind
    ensures { result ≡ kind_of (Outcome.Bad cause) }
{
    match cause {
        BadCause::FellOff => Kind::FellOff,
        BadCause::OutOfProfile => Kind::OutOfProfile,
        BadCause::Depth => Kind::Depth,
        BadCause::Kind => Kind::WrongKind,
        BadCause::Local => Kind::Local,
    }
}

/// Returns the kind of a Blocked outcome.
fn blocked_kind(on: BlockedOn) -> Kind
    ensures { result ≡ kind_of (Outcome.Blocked on) }
{
    match on {
        BlockedOn::Monitor { .. } => Kind::Monitor,
        BlockedOn::Initialisation { .. } => Kind::Initialisation,
        BlockedOn::Join { .. } => Kind::Join,
        BlockedOn::Wait { .. } => Kind::Wait,
    }
}

impl Kind {
    /// Returns the kind of an outcome.
    pub(crate) fn of(outcome: Outcome) -> Kind
        ensures { result ≡ kind_of outcome }
    {
        match outcome {
            Outcome::Ran => Kind::Ran,
            Outcome::Raised => Kind::Raised,
            Outcome::Ended { last: true } => Kind::Last,
            Outcome::Ended { last: false } => Kind::Ended,
            Outcome::Blocked { on } => blocked_kind(on),
            Outcome::NoThread => Kind::NoThread,
            Outcome::Bad { cause } => bad_kind(cause),
        }
    }
}
