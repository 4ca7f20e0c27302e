//! The marks of calls in a trace, and helpers that append items.

ghost use Rattle.std.specs.Prelude.{◌≡◌, ◌++◌, [], None, IsOk, IfOk, OnOk, OnErr};
ghost use Rattle.jvms_machine.specs.Actions.{enter_items, exit_items, lock_items, unlock_items};
ghost use Rattle.machine_parts.specs.Marks.{item_list, marked_key};
ghost use Rattle.trace.specs.Recording.{with_items};

use crate::locks::{lock_item, unlock_item};
use crate::parts::Parts;
use jvms_machine::action::{Lock, MonitorUse};
use jvms_machine::machine::ThreadId;
use jvms_machine::trace::Item;
use jvms_program::key::MethodKey;
use jvms_program::number::MethodNumber;
use std::alloc::AllocError;
use trace::Recording;

/// Appends at most one item.
#[inline(always)]
#[tactic(auto, using(trace::proofs::Recorded::recorded_none))]
pub fn push_listed(trace: &mut Recording, item: Option<Item>) -> Result<(), AllocError>
    ensures ok { OnOk result (trace.new ≡ with_items trace.old (item_list item)) }
    ensures err { OnErr result (trace.new ≡ trace.old) }
    ensures none { item_list item ≡ [] → IsOk result }
{
    match item {
        None => Ok(()),
        Some(item) => trace.push(item),
    }
}

/// Appends at most two items, or none if there is no memory for both.
#[inline(always)]
#[tactic(auto, using(trace::proofs::Recorded::recorded_both, trace::proofs::Recorded::cut_recorded))]
fn push_both(
    trace: &mut Recording,
    first: Option<Item>,
    second: Option<Item>,
) -> Result<(), AllocError>
    ensures ok { OnOk result
        (trace.new ≡ with_items trace.old (item_list first ++ item_list second)) }
    ensures err { OnErr result (trace.new ≡ trace.old) }
    ensures none { item_list first ++ item_list second ≡ [] → IsOk result }
{
    let before = trace.len();
    push_listed(trace, first)?;
    if let Err(error) = push_listed(trace, second) {
        trace.truncate(before);
        return Err(error);
    }
    Ok(())
}

impl Parts<'_> {
    /// Returns the key of a method for its marks. A method of a built-in class has none.
    fn mark_key(&self, method: MethodNumber) -> Result<Option<MethodKey>, AllocError>
        ensures key { IfOk result (λ key. key ≡ marked_key self.now.program method) }
        ensures none { marked_key self.now.program method ≡ None → IsOk result }
    {
        if self.program().is_built_in(method.class) {
            return Ok(None);
        }
        self.program().key(method)
    }

    /// Returns the mark of a method's entry.
    #[inline(always)]
    pub fn enter_item(&self, t: ThreadId, method: MethodNumber) -> Result<Option<Item>, AllocError>
        ensures item { IfOk result (λ item.
            item_list item ≡ enter_items self.now.program t method) }
    {
        let Some(method) = self.mark_key(method)? else {
            return Ok(None);
        };
        Ok(Some(Item::Enter { thread: t, method }))
    }

    /// Returns the mark of a method's exit.
    #[inline(always)]
    pub fn exit_item(&self, t: ThreadId, method: MethodNumber) -> Result<Option<Item>, AllocError>
        ensures item { IfOk result (λ item. item_list item ≡ exit_items self.now.program t method) }
        ensures none { exit_items self.now.program t method ≡ [] → IsOk result }
    {
        let Some(method) = self.mark_key(method)? else {
            return Ok(None);
        };
        Ok(Some(Item::Exit { thread: t, method }))
    }

    /// Appends the mark of a method's entry, and the item of what its call locks, if items are recorded.
    #[inline(always)]
    pub fn record_entry(
        &self,
        t: ThreadId,
        method: MethodNumber,
        lock: Lock,
        trace: &mut Recording,
    ) -> Result<(), AllocError>
        ensures ok { OnOk result (trace.new
            ≡ with_items trace.old (enter_items self.now.program t method ++ lock_items t lock)) }
        ensures err { OnErr result (trace.new ≡ trace.old) }
    {
        if !trace.keeps() {
            return Ok(());
        }
        let item = self.enter_item(t, method)?;
        push_both(trace, item, lock_item(t, lock))
    }

    /// Appends the item of what a call unlocks, and the mark of its method's exit, if items are recorded.
    #[inline(always)]
    pub fn record_exit(
        &self,
        t: ThreadId,
        method: MethodNumber,
        unlock: Option<MonitorUse>,
        trace: &mut Recording,
    ) -> Result<(), AllocError>
        ensures ok { OnOk result (trace.new
            ≡ with_items trace.old
            (unlock_items t unlock ++ exit_items self.now.program t method)) }
        ensures err { OnErr result (trace.new ≡ trace.old) }
        ensures none { unlock_items t unlock ++ exit_items self.now.program t method ≡ []
            → IsOk result }
    {
        if !trace.keeps() {
            return Ok(());
        }
        let item = self.exit_item(t, method)?;
        push_both(trace, unlock_item(t, unlock), item)
    }
}
