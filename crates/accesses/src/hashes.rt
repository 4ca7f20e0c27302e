//! Hashes of what items name. Equal values have one hash, and others mostly different ones. Only caches use them, so
//! nothing depends on them.

use jvms_machine::trace::{Item, Variable};
use jvms_program::key::{FieldKey, MethodKey};

/// Returns a hash extended by one number.
fn mixed(hash: u32, number: u32) -> u32 {
    hash.wrapping_mul(31).wrapping_add(number)
}

/// Returns a hash extended by a name.
fn mixed_name(hash: u32, name: &[u16]) -> u32 {
    let mut all = hash;
    for unit in name {
        all = mixed(all, u32::from(*unit));
    }
    all
}

/// Returns a hash of a field, by its name and the length of its class's name.
fn hash_of_field(field: &FieldKey) -> u32 {
    mixed_name(
        (field.class.as_slice().len() % 1024) as u32,
        field.name.as_slice(),
    )
}

/// Returns a hash of a method, by its name and the lengths of its class's name and its descriptor.
fn hash_of_method(method: &MethodKey) -> u32 {
    let class = (method.class.as_slice().len() % 1024) as u32;
    let descriptor = (method.descriptor.as_slice().len() % 1024) as u32;
    mixed_name(mixed(class, descriptor), method.name.as_slice())
}

/// Returns a hash of a variable.
fn hash_of_variable(variable: &Variable) -> u32 {
    match variable {
        Variable::Instance { reference, field } => mixed(hash_of_field(field), *reference),
        Variable::Static { field } => hash_of_field(field),
        Variable::Element { reference, index } => mixed(*reference, *index),
    }
}

/// Returns a hash of what an item touches, enters or leaves.
pub fn hash_of_touched(item: &Item) -> u32 {
    match item {
        Item::Read { variable, .. } => hash_of_variable(variable),
        Item::Write { variable, .. } => hash_of_variable(variable),
        Item::Acquire { reference, .. } => *reference,
        Item::Release { reference, .. } => *reference,
        Item::Fork { started, .. } => *started,
        Item::Join { ended, .. } => *ended,
        Item::Enter { method, .. } => hash_of_method(method),
        Item::Exit { method, .. } => hash_of_method(method),
    }
}

/// Returns a hash of an item. `touched` is the hash of what the item touches.
pub fn hash_of_item(touched: u32, item: &Item) -> u32 {
    match item {
        Item::Read { thread, .. } => mixed(mixed(touched, *thread), 1),
        Item::Write { thread, .. } => mixed(mixed(touched, *thread), 2),
        Item::Acquire { thread, .. } => mixed(mixed(touched, *thread), 3),
        Item::Release { thread, .. } => mixed(mixed(touched, *thread), 4),
        Item::Fork { thread, .. } => mixed(mixed(touched, *thread), 5),
        Item::Join { thread, .. } => mixed(mixed(touched, *thread), 6),
        Item::Enter { thread, .. } => mixed(mixed(touched, *thread), 7),
        Item::Exit { thread, .. } => mixed(mixed(touched, *thread), 8),
    }
}
