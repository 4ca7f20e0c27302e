//! Clones of items. They share the texts of names.

ghost use Rattle.std.specs.Prelude.{◌≡◌, IfOk};

use accesses::share_variable;
use jvms_machine::trace::Item;
use jvms_program::key::MethodKey;
use std::alloc::AllocError;

/// Clones a method's key. The clone shares its texts.
pub(crate) fn share_method(method: &MethodKey) -> Result<MethodKey, AllocError>
    ensures { IfOk result (λ k. k ≡ method.now) }
{
    Ok(MethodKey {
        class: method.class.share()?,
        name: method.name.share()?,
        descriptor: method.descriptor.share()?,
    })
}

/// Clones an item. The clone shares its texts.
pub(crate) fn share_item(item: &Item) -> Result<Item, AllocError>
    ensures { IfOk result (λ i. i ≡ item.now) }
{
    match item {
        Item::Read { thread, variable } => Ok(Item::Read {
            thread: *thread,
            variable: share_variable(variable)?,
        }),
        Item::Write { thread, variable } => Ok(Item::Write {
            thread: *thread,
            variable: share_variable(variable)?,
        }),
        Item::Acquire { thread, reference } => Ok(Item::Acquire {
            thread: *thread,
            reference: *reference,
        }),
        Item::Release { thread, reference } => Ok(Item::Release {
            thread: *thread,
            reference: *reference,
        }),
        Item::Fork { thread, started } => Ok(Item::Fork {
            thread: *thread,
            started: *started,
        }),
        Item::Join { thread, ended } => Ok(Item::Join {
            thread: *thread,
            ended: *ended,
        }),
        Item::Enter { thread, method } => Ok(Item::Enter {
            thread: *thread,
            method: share_method(method)?,
        }),
        Item::Exit { thread, method } => Ok(Item::Exit {
            thread: *thread,
            method: share_method(method)?,
        }),
    }
}
