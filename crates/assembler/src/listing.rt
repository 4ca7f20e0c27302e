//! Lists the attributes that a member has.

ghost use Rattle.std.specs.Prelude.{◌≡◌, ◌++◌, IfOk, OnOk};
ghost use Rattle.assembler.specs.Steps.{list_of};

use jvms_file::class_file::MethodAttribute;
use shared_data::items::Items;
use std::alloc::{AllocError, Global};

/// Appends an attribute, if there is one.
fn push(
    attributes: &mut Items<MethodAttribute>,
    attribute: Option<MethodAttribute>,
) -> Result<(), AllocError>
    ensures { OnOk result (attributes.new ≡ attributes.old ++ list_of attribute) }
{
    match attribute {
        None => Ok(()),
        Some(attribute) => attributes.push(attribute),
    }
}

/// Returns the attributes of a method: its Code, if there is one, before its Exceptions, if there is one.
pub(crate) fn attributes_of(
    alloc: Global,
    code: Option<MethodAttribute>,
    throws: Option<MethodAttribute>,
) -> Result<Items<MethodAttribute>, AllocError>
    ensures { IfOk result (λ attributes. attributes ≡ list_of code ++ list_of throws) }
{
    let mut attributes = Items::new(alloc);
    push(&mut attributes, code)?;
    push(&mut attributes, throws)?;
    Ok(attributes)
}
