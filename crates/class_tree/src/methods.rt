//! Converts methods (JVMS 4.6).

ghost use Rattle.std.specs.Prelude.{◌≡◌, IfOk, map};
ghost use Rattle.jvms_file.specs.Results.{results_of};
ghost use Rattle.listing_spec.specs.Faults.{Lists};
ghost use Rattle.listing_spec.specs.TreeOf.{method_flags, method_with, method_lines};

use crate::code::items_of;
use crate::handlers::catches_of;
use crate::texts::Texts;
use jasmin::source::{CatchLine, CodeItem, MethodLines};
use jvms_file::class_file::MethodInfo;
use jvms_program::attributes::{code_of, exceptions_of};
use listing_spec::fault::ListFault;
use shared_data::items::Items;
use std::alloc::{AllocError, Global};

/// The flags that have access words of methods (JVMS table 4.6-A).
const FLAGS: u16 = 1343;

/// Returns a method's lines, with these limits, catches and items.
fn method_with(
    alloc: Global,
    texts: &Texts<'_>,
    info: &MethodInfo,
    max_stack: u16,
    max_locals: u16,
    catches: Items<CatchLine>,
    code: Items<CodeItem>,
) -> Result<MethodLines, AllocError>
    ensures { IfOk result
        (λ m. m ≡ method_with texts.now info.now max_stack max_locals catches code) }
{
    Ok(MethodLines {
        access: info.access & FLAGS,
        name: texts.text(info.name)?,
        descriptor: texts.text(info.descriptor)?,
        throws: texts.class_names(alloc, exceptions_of(info.attributes.as_slice()))?,
        max_stack,
        max_locals,
        catches,
        code,
    })
}

/// Returns the lines of a method. A method without code has limits of 1, as if none is written.
#[tactic(auto, unfolding(listing_spec::specs::TreeOf::method_lines))]
fn method_lines(
    alloc: Global,
    texts: &Texts<'_>,
    info: &MethodInfo,
) -> Result<MethodLines, ListFault>
    ensures { Lists result (method_lines texts.now info.now) }
{
    match code_of(info.attributes.as_slice()) {
        None => Ok(method_with(
            alloc,
            texts,
            info,
            1,
            1,
            Items::new(alloc),
            Items::new(alloc),
        )?),
        Some(code) => {
            let items = items_of(alloc, texts, code)?;
            let catches = catches_of(alloc, texts, code.handlers.as_slice())?;
            Ok(method_with(
                alloc,
                texts,
                info,
                code.max_stack,
                code.max_locals,
                catches,
                items,
            )?)
        }
    }
}

/// Returns the lines of methods, in order.
pub(crate) fn all_method_lines(
    alloc: Global,
    texts: &Texts<'_>,
    infos: &[MethodInfo],
) -> Result<Items<MethodLines>, ListFault>
    ensures { Lists result (results_of (method_lines texts.now) infos.now) }
{
    let mut methods = Items::new(alloc);
    let mut rest = infos;
    while let [info, others @ ..] = rest {
        let lines = method_lines(alloc, texts, info)?;
        methods.push(lines)?;
        rest = others;
    }
    Ok(methods)
}
