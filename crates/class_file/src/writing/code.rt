//! The code of a method (JVMS 4.7.3).

ghost use Rattle.std.specs.Prelude.{◌≡◌, ◌++◌, OnOk};
ghost use Rattle.class_file.specs.Writing.{counted_bytes, code_bytes, handler_bytes, pc_of};

use crate::writing::attribute::write_kept_attributes;
use file_bytes::{write_count, write_length, write_u2};
use insn::encode;
use jvms_file::class_file::{Code, Handler, Layout};
use std::alloc::AllocError;

/// Returns the byte at which the instruction at a place starts, or the code's length for the place after the last.
fn pc_of(layout: &Layout, place: u32) -> usize
    ensures { result ≡ pc_of layout.now place }
{
    match layout.starts.as_slice().get(place as usize).copied() {
        Some(start) => start as usize,
        None => layout.bytes.len(),
    }
}

/// Appends an entry of the exception table, with bytes for its places.
#[tactic(auto, unfolding(crate::specs::Writing::handler_bytes))]
fn write_handler(out: &mut Vec<u8>, layout: &Layout, handler: &Handler) -> Result<(), AllocError>
    ensures { OnOk result (out.new.items ≡ out.old.items ++ handler_bytes layout.now handler.now) }
{
    write_count(out, pc_of(layout, handler.start))?;
    write_count(out, pc_of(layout, handler.end))?;
    write_count(out, pc_of(layout, handler.target))?;
    write_u2(out, handler.catch_type)
}

/// Appends exception_table_length and the entries of the table.
fn write_table(out: &mut Vec<u8>, layout: &Layout, handlers: &[Handler]) -> Result<(), AllocError>
    ensures { OnOk result
        (out.new.items ≡ out.old.items ++ counted_bytes (handler_bytes layout.now) handlers.now) }
{
    write_count(out, handlers.len())?;
    for handler in handlers {
        write_handler(out, layout, handler)?;
    }
    Ok(())
}

/// Appends the content of a Code attribute.
#[tactic(auto, unfolding(crate::specs::Writing::code_bytes))]
pub(crate) fn write_code(out: &mut Vec<u8>, code: &Code) -> Result<(), AllocError>
    ensures { OnOk result (out.new.items ≡ out.old.items ++ code_bytes code.now) }
{
    write_u2(out, code.max_stack)?;
    write_u2(out, code.max_locals)?;
    write_length(out, code.layout.bytes.len())?;
    encode(out, &code.layout)?;
    write_table(out, &code.layout, code.handlers.as_slice())?;
    write_kept_attributes(out, code.attributes.as_slice())
}
