//! Resolution of methods (JVMS 5.4.3.3, 5.4.3.4).

ghost use Rattle.std.specs.Prelude.{◌≡◌};
ghost use Rattle.jvms_file.specs.Names.{is_constructor_name};
ghost use Rattle.jvms_program.specs.Resolution.{members_class, method_in_order, reference_method};
ghost use Rattle.classes.specs.MethodNames.{reference};
ghost use Rattle.classes.specs.Places.{IsMethodAt, LocatesItem};

use crate::list::Classes;
use crate::look::DeclaredMethod;
use crate::lookup::{method_number_at, numbered};
use crate::names::members_class;
use crate::order::{first_for_class, first_for_interface};
use crate::walk::Look;
use descriptor::is_constructor_name;
use jvms_program::number::MethodNumber;

/// A method by its names: the parts of a reference that resolution needs.
#[derive(Clone, Copy)]
pub struct MethodNames<'a> {
    /// True if the pool entry is an InterfaceMethodref.
    pub is_interface: bool,
    pub class: &'a [u16],
    pub name: &'a [u16],
    pub descriptor: &'a [u16],
}

/// Finds the method that a reference names, in the order of resolution.
fn method_in_order(program: &Classes, r: MethodNames) -> Option<MethodNumber>
    ensures { LocatesItem (IsMethodAt program.now)
        (method_in_order program.now (reference r.entry)) result }
{
    if !program.may_declare_method(r.name, r.descriptor) {
        return None;
    }
    let look = DeclaredMethod {
        name: r.name,
        descriptor: r.descriptor,
    };
    if r.is_interface {
        method_number_at(first_for_interface(program, r.class, &look))
    } else {
        method_number_at(first_for_class(program, members_class(r.class), &look))
    }
}

/// Finds the method that a reference names. A constructor is searched in the named class alone.
pub(crate) fn reference_method(program: &Classes, r: MethodNames) -> Option<MethodNumber>
    ensures { LocatesItem (IsMethodAt program.now)
        (reference_method program.now (reference r.entry)) result }
{
    if !is_constructor_name(r.name) {
        return method_in_order(program, r);
    }
    let (number, class) = numbered(program, r.class)?;
    let look = DeclaredMethod {
        name: r.name,
        descriptor: r.descriptor,
    };
    method_number_at(look.look(number, class))
}
