//! Adds a statement to the open method. The functions do nothing if no method is open.

ghost use Rattle.std.specs.Prelude.{◌≡◌, OnOk, Some};
ghost use Rattle.std.specs.Option.{option_map};
ghost use Rattle.jasmin.specs.declared.reading.OpenMethod.{OpenMethod as MethodValue};
ghost use Rattle.jasmin.specs.declared.source.CodeItem.TheVariants as item;
ghost use Rattle.jasmin.specs.Reading.{with_throws, with_catch, with_item, with_instruction, with_table_label, with_match, closed_switch};

use jasmin::reading::{OpenMethod, SwitchLines};
use jasmin::source::{CatchLine, CodeItem, LookupLines, MatchLine, Operation, TableLines};
use jasmin::statement::Instruction;
use shared_data::boxed::Boxed;
use shared_data::items::Items;
use shared_data::shared::Text;
use std::alloc::{AllocError, Global};

/// Sets the limit of the operand stack.
pub(crate) fn with_max_stack(method: &mut Option<OpenMethod>, limit: u16)
    ensures { method.new
        ≡ option_map (λ (m : MethodValue). record m { max_stack = Some limit }) method.old }
{
    if let Some(method) = method {
        method.max_stack = Some(limit);
    }
}

/// Sets the number of local variables.
pub(crate) fn with_max_locals(method: &mut Option<OpenMethod>, limit: u16)
    ensures { method.new
        ≡ option_map (λ (m : MethodValue). record m { max_locals = Some limit }) method.old }
{
    if let Some(method) = method {
        method.max_locals = Some(limit);
    }
}

/// Appends a class that the method throws.
pub(crate) fn with_throws(method: &mut Option<OpenMethod>, name: Text) -> Result<(), AllocError>
    ensures { OnOk result (method.new ≡ option_map (with_throws name) method.old) }
{
    match method {
        Some(method) => method.throws.push(name),
        None => Ok(()),
    }
}

/// Appends a catch.
pub(crate) fn with_catch(method: &mut Option<OpenMethod>, line: CatchLine) -> Result<(), AllocError>
    ensures { OnOk result (method.new ≡ option_map (with_catch line) method.old) }
{
    match method {
        Some(method) => method.catches.push(line),
        None => Ok(()),
    }
}

/// Appends a label to the code.
pub(crate) fn with_label(method: &mut Option<OpenMethod>, label: Text) -> Result<(), AllocError>
    ensures { OnOk result (method.new ≡ option_map (with_item (item.Label label)) method.old) }
{
    match method {
        Some(method) => method.code.push(CodeItem::Label(label)),
        None => Ok(()),
    }
}

/// Appends an item to the method's code.
fn with_item(method: &mut OpenMethod, item: CodeItem) -> Result<(), AllocError>
    ensures { OnOk result (method.new ≡ with_item item method.old) }
{
    method.code.push(item)
}

/// Appends an instruction to the method's code, or opens a switch.
fn with_instruction_in(
    alloc: Global,
    method: &mut OpenMethod,
    instruction: Instruction,
) -> Result<(), AllocError>
    ensures { OnOk result (method.new ≡ with_instruction instruction method.old) }
{
    match instruction {
        Instruction::Whole(operation) => with_item(method, CodeItem::Operation(operation)),
        Instruction::Table(low) => {
            method.switch = Some(SwitchLines::Table {
                low,
                labels: Items::new(alloc),
            });
            Ok(())
        }
        Instruction::Lookup => {
            method.switch = Some(SwitchLines::Lookup {
                matches: Items::new(alloc),
            });
            Ok(())
        }
    }
}

/// Appends a label to an open `tableswitch`.
fn with_table_label_in(switch: &mut Option<SwitchLines>, label: Text) -> Result<(), AllocError>
    ensures { OnOk result (switch.new ≡ with_table_label label switch.old) }
{
    match switch {
        Some(SwitchLines::Table { low: _, labels }) => labels.push(label),
        _ => Ok(()),
    }
}

/// Appends a match to an open `lookupswitch`.
fn with_match_in(switch: &mut Option<SwitchLines>, line: MatchLine) -> Result<(), AllocError>
    ensures { OnOk result (switch.new ≡ with_match line switch.old) }
{
    match switch {
        Some(SwitchLines::Lookup { matches }) => matches.push(line),
        _ => Ok(()),
    }
}

/// Closes the open switch with its default, and appends it to the method's code.
fn with_default_in(alloc: Global, method: &mut OpenMethod, default: Text) -> Result<(), AllocError>
    ensures { OnOk result (method.new ≡ closed_switch method.old.switch default method.old) }
{
    match method.switch.take() {
        Some(SwitchLines::Table { low, labels }) => {
            let lines = TableLines {
                low,
                labels,
                default,
            };
            let operation = Operation::Table(Boxed::new(alloc, lines)?);
            with_item(method, CodeItem::Operation(operation))
        }
        Some(SwitchLines::Lookup { matches }) => {
            let lines = LookupLines { matches, default };
            let operation = Operation::Lookup(Boxed::new(alloc, lines)?);
            with_item(method, CodeItem::Operation(operation))
        }
        None => Ok(()),
    }
}

/// Appends an instruction to the code, or opens a switch.
pub(crate) fn with_instruction(
    alloc: Global,
    method: &mut Option<OpenMethod>,
    instruction: Instruction,
) -> Result<(), AllocError>
    ensures { OnOk result (method.new ≡ option_map (with_instruction instruction) method.old) }
{
    match method {
        Some(method) => with_instruction_in(alloc, method, instruction),
        None => Ok(()),
    }
}

/// Appends a label, and the instruction that it marks.
pub(crate) fn with_labelled_instruction(
    alloc: Global,
    method: &mut Option<OpenMethod>,
    label: Text,
    instruction: Instruction,
) -> Result<(), AllocError>
    ensures { OnOk result (method.new ≡ option_map (λ (m : MethodValue).
        with_instruction instruction (with_item (item.Label label) m)) method.old) }
{
    match method {
        Some(method) => {
            with_item(method, CodeItem::Label(label))?;
            with_instruction_in(alloc, method, instruction)
        }
        None => Ok(()),
    }
}

/// Appends a label to an open `tableswitch`.
pub(crate) fn with_table_label(
    method: &mut Option<OpenMethod>,
    label: Text,
) -> Result<(), AllocError>
    ensures { OnOk result (method.new ≡ option_map
        (λ (m : MethodValue). record m { switch = with_table_label label m.switch }) method.old) }
{
    match method {
        Some(method) => with_table_label_in(&mut method.switch, label),
        None => Ok(()),
    }
}

/// Appends a match to an open `lookupswitch`.
pub(crate) fn with_match(method: &mut Option<OpenMethod>, line: MatchLine) -> Result<(), AllocError>
    ensures { OnOk result (method.new ≡ option_map
        (λ (m : MethodValue). record m { switch = with_match line m.switch }) method.old) }
{
    match method {
        Some(method) => with_match_in(&mut method.switch, line),
        None => Ok(()),
    }
}

/// Closes the open switch with its default, and appends it to the code.
pub(crate) fn with_default(
    alloc: Global,
    method: &mut Option<OpenMethod>,
    label: Text,
) -> Result<(), AllocError>
    ensures { OnOk result
        (method.new ≡ option_map (λ (m : MethodValue). closed_switch m.switch label m) method.old) }
{
    match method {
        Some(method) => with_default_in(alloc, method, label),
        None => Ok(()),
    }
}
