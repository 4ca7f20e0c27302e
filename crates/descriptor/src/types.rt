//! The types of fields and methods from their descriptors, with a default for texts that spell none (JVMS 4.3).

ghost use Rattle.std.specs.Prelude.{◌≡◌, IfOk};
ghost use Rattle.jvms_file.specs.Descriptors.{field_type, method_type};

use crate::fault::DescriptorFault;
use crate::field::read_field;
use crate::method::read_method;
use jvms_file::descriptor::{Element, FieldType, MethodType, Primitive, ResultType};
use shared_data::items::Items;
use std::alloc::{AllocError, Global};

/// Returns the type that a field's descriptor spells, or int if the text spells none.
pub fn field_type(alloc: Global, descriptor: &[u16]) -> Result<FieldType, AllocError>
    ensures { IfOk result (λ t. t ≡ field_type descriptor.now) }
{
    match read_field(alloc, descriptor) {
        Ok(t) => Ok(t),
        Err(DescriptorFault::Malformed) => Ok(FieldType {
            dimensions: 0,
            element: Element::Primitive(Primitive::Int),
        }),
        Err(DescriptorFault::Memory) => Err(AllocError),
    }
}

/// Returns the type that a method's descriptor spells. If the text spells none, the type has no parameters and no
/// result.
pub fn method_type(alloc: Global, descriptor: &[u16]) -> Result<MethodType, AllocError>
    ensures { IfOk result (λ t. t ≡ method_type descriptor.now) }
{
    match read_method(alloc, descriptor) {
        Ok(t) => Ok(t),
        Err(DescriptorFault::Malformed) => Ok(MethodType {
            parameters: Items::new(alloc),
            result: ResultType::Void,
        }),
        Err(DescriptorFault::Memory) => Err(AllocError),
    }
}
