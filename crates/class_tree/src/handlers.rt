//! Converts the exception table of a method (JVMS 4.7.3).

ghost use Rattle.std.specs.Prelude.{◌≡◌, map, IfOk};
ghost use Rattle.listing_spec.specs.TreeOf.{caught_of, catch_of};

use crate::labels::label_of;
use crate::texts::Texts;
use jasmin::source::{CatchLine, Caught};
use jvms_file::class_file::Handler;
use shared_data::items::Items;
use std::alloc::{AllocError, Global};

/// Returns what a handler of this `catch_type` catches: all exceptions for 0.
fn caught_of(texts: &Texts<'_>, catch_type: u16) -> Result<Caught, AllocError>
    ensures { IfOk result (λ c. c ≡ caught_of texts.now catch_type) }
{
    if catch_type == 0 {
        Ok(Caught::All)
    } else {
        Ok(Caught::Class(texts.class_name(catch_type)?))
    }
}

/// Returns the line of a handler.
fn catch_of(alloc: Global, texts: &Texts<'_>, handler: &Handler) -> Result<CatchLine, AllocError>
    ensures { IfOk result (λ c. c ≡ catch_of texts.now handler.now) }
{
    Ok(CatchLine {
        caught: caught_of(texts, handler.catch_type)?,
        from: label_of(alloc, handler.start as usize)?,
        to: label_of(alloc, handler.end as usize)?,
        using: label_of(alloc, handler.target as usize)?,
    })
}

/// Returns the lines of handlers, in the order of the table.
pub(crate) fn catches_of(
    alloc: Global,
    texts: &Texts<'_>,
    handlers: &[Handler],
) -> Result<Items<CatchLine>, AllocError>
    ensures { IfOk result (λ cs. cs ≡ map (catch_of texts.now) handlers.now) }
{
    let mut catches = Vec::with_capacity(alloc, handlers.len())?;
    for handler in handlers {
        catches.push(catch_of(alloc, texts, handler)?)?;
    }
    Ok(Items::from_vec(catches))
}
