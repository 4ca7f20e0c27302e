//! Tests of decisions: whether a turn keeps, takes or gives what other threads wait for. Meets `specs/Quiet.antt`.

ghost use Rattle.std.specs.Prelude.{◌≡◌};
ghost use Rattle.enabled_laws.specs.Quiet.{is_inner, is_quiet, is_quiet_decision, is_quiet_effect, is_quiet_lock, is_quiet_unlock, is_taking, is_taking_decision, is_taking_effect, is_giving, is_giving_decision, is_giving_effect};

use jvms_machine::action::{Action, Decision, Effect, Lock, MonitorUse};

/// Decides whether a thread enters a monitor that it already holds, or still holds the one that it leaves.
#[inline]
fn is_inner(monitor: MonitorUse) -> bool
    ensures { result ≡ is_inner monitor }
{
    !monitor.outermost
}

#[inline]
fn is_quiet_effect<T>(effect: &Effect<T>) -> bool
    ensures { result ≡ is_quiet_effect effect.now }
{
    match effect {
        Effect::Locks(monitor) | Effect::Unlocks(monitor) => is_inner(*monitor),
        Effect::Starts { .. } => false,
        _ => true,
    }
}

#[inline]
fn is_quiet_lock(lock: Lock) -> bool
    ensures { result ≡ is_quiet_lock lock }
{
    match lock {
        Lock::Nothing => true,
        Lock::Monitor(monitor) => is_inner(monitor),
        Lock::NewClass { .. } => false,
    }
}

#[inline]
fn is_quiet_unlock(unlock: Option<MonitorUse>) -> bool
    ensures { result ≡ is_quiet_unlock unlock }
{
    match unlock {
        None => true,
        Some(monitor) => is_inner(monitor),
    }
}

/// Decides whether an action enters no free monitor and frees none, begins and ends no initialisation, and starts and
/// ends no thread.
#[inline]
fn is_quiet_action<C, T>(action: &Action<C, T>) -> bool
    ensures { result ≡ is_quiet action.now }
{
    match action {
        Action::Goes(_)
        | Action::Initialises { .. }
        | Action::Throws { .. }
        | Action::Catches { .. }
        | Action::Raises(_) => true,
        Action::Reaches(effect, _) => is_quiet_effect(effect),
        Action::Enters { lock, .. } | Action::Calls { lock, .. } => is_quiet_lock(*lock),
        Action::Returns { unlock, .. } => is_quiet_unlock(*unlock),
        Action::Unwinds { last, unlock, .. } => !*last && is_quiet_unlock(*unlock),
        Action::FailsToUnlock { last, .. } => !*last,
        Action::Begins { .. }
        | Action::Finishes { .. }
        | Action::Ends { .. }
        | Action::FailsInitialisation { .. }
        | Action::Waits(_)
        | Action::Retakes(_)
        | Action::Fails(_) => false,
    }
}

/// Decides whether a turn of this decision keeps which other threads are enabled (`laws`).
#[inline]
pub fn is_quiet<C, T>(decision: &Decision<C, T>) -> bool
    ensures { result ≡ is_quiet_decision decision.now }
{
    match decision {
        Decision::Stays(_) => true,
        Decision::Applies(action) => is_quiet_action(action),
    }
}

#[inline]
fn is_taking_effect<T>(effect: &Effect<T>) -> bool
    ensures { result ≡ is_taking_effect effect.now }
{
    match effect {
        Effect::Unlocks(monitor) => is_inner(*monitor),
        _ => true,
    }
}

/// Decides whether an action frees no monitor, and ends no initialisation and no thread.
#[inline]
fn is_taking_action<C, T>(action: &Action<C, T>) -> bool
    ensures { result ≡ is_taking action.now }
{
    match action {
        Action::Reaches(effect, _) => is_taking_effect(effect),
        Action::Returns { unlock, .. } => is_quiet_unlock(*unlock),
        Action::Unwinds { last, unlock, .. } => !*last && is_quiet_unlock(*unlock),
        Action::FailsToUnlock { last, .. } => !*last,
        Action::Waits(_)
        | Action::Finishes { .. }
        | Action::Ends { .. }
        | Action::FailsInitialisation { .. }
        | Action::Fails(_) => false,
        _ => true,
    }
}

/// Decides whether a turn of this decision enables no other thread that was started before (`laws`).
#[inline]
pub fn is_taking<C, T>(decision: &Decision<C, T>) -> bool
    ensures { result ≡ is_taking_decision decision.now }
{
    match decision {
        Decision::Stays(_) => true,
        Decision::Applies(action) => is_taking_action(action),
    }
}

#[inline]
fn is_giving_effect<T>(effect: &Effect<T>) -> bool
    ensures { result ≡ is_giving_effect effect.now }
{
    match effect {
        Effect::Locks(monitor) => is_inner(*monitor),
        Effect::Starts { .. } => false,
        _ => true,
    }
}

/// Decides whether an action enters no free monitor, begins and ends no initialisation, and starts no thread.
#[inline]
fn is_giving_action<C, T>(action: &Action<C, T>) -> bool
    ensures { result ≡ is_giving action.now }
{
    match action {
        Action::Reaches(effect, _) => is_giving_effect(effect),
        Action::Enters { lock, .. } | Action::Calls { lock, .. } => is_quiet_lock(*lock),
        Action::Begins { .. }
        | Action::Finishes { .. }
        | Action::FailsInitialisation { .. }
        | Action::Retakes(_) => false,
        _ => true,
    }
}

/// Decides whether a turn of this decision disables no other thread (`laws`).
#[inline]
pub fn is_giving<C, T>(decision: &Decision<C, T>) -> bool
    ensures { result ≡ is_giving_decision decision.now }
{
    match decision {
        Decision::Stays(_) => true,
        Decision::Applies(action) => is_giving_action(action),
    }
}
