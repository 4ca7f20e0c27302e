//! The order of classes in method resolution (JVMS 5.4.3.3, 5.4.3.4).

ghost use Rattle.std.specs.Prelude.{◌≡◌};
ghost use Rattle.jvms_program.specs.Resolution.{class_method_order, interface_method_order, first_in};
ghost use Rattle.classes.specs.Places.{match_with_number};

use crate::ancestors::{Start, first_from};
use crate::list::Classes;
use crate::lookup::numbered;
use crate::names::OBJECT;
use crate::walk::{Look, first_up};

/// Returns the first match in the order of resolution of a class's method (JVMS 5.4.3.3).
#[tactic(auto, using(crate::proofs::WalkLaws::appended))]
pub(crate) fn first_for_class<L: Look>(
    program: &Classes,
    name: &[u16],
    look: &L,
) -> Option<(usize, usize)>
    ensures { result ≡ first_in (match_with_number program.now (L.gives look.now))
        (class_method_order program.now name.now) }
{
    if let Some(found) = first_up(program, name, look) {
        return Some(found);
    }
    first_from(program, Start::InterfacesUp(name), look)
}

/// Returns the first match in the order of resolution of an interface's method (JVMS 5.4.3.4).
pub(crate) fn first_for_interface<L: Look>(
    program: &Classes,
    name: &[u16],
    look: &L,
) -> Option<(usize, usize)>
    ensures { result ≡ first_in (match_with_number program.now (L.gives look.now))
        (interface_method_order program.now name.now) }
{
    let (number, interface) = numbered(program, name)?;
    if let Some(found) = look.look(number, interface) {
        return Some(found);
    }
    if let Some((own, object)) = numbered(program, &OBJECT) {
        if let Some(found) = look.look(own, object) {
            return Some(found);
        }
    }
    first_from(program, Start::Interfaces(name), look)
}
