//! Looks up places in methods.

ghost use Rattle.std.specs.Prelude.{◌≡◌};
ghost use Rattle.debugger_commands.specs.Sessions.{has_instruction, method_of_key, method_of_place};

use classes::declared_number;
use debugger_commands::Place;
use jvms_program::key::MethodKey;
use jvms_program::number::MethodNumber;
use program::Program;

/// Returns the number of the method that a class itself declares.
fn method_of_key(program: &Program, key: &MethodKey) -> Option<MethodNumber>
    ensures { result ≡ method_of_key program.now key.now }
{
    let class = program.class_number(key.class.as_slice())?;
    let method = declared_number(
        program.class(class)?,
        key.name.as_slice(),
        key.descriptor.as_slice(),
    )?;
    Some(MethodNumber { class, method })
}

/// Returns whether a method's code has an instruction with this number.
fn has_instruction(program: &Program, instruction: u32, method: MethodNumber) -> bool
    ensures { result ≡ has_instruction program.now instruction method }
{
    let Some(method) = program.method(method) else {
        return false;
    };
    let Some(body) = &method.body else {
        return false;
    };
    (instruction as usize) < body.instructions.as_slice().len()
}

/// Returns the method of a place, if its code has the instruction.
pub(crate) fn method_of_place(program: &Program, place: &Place) -> Option<MethodNumber>
    ensures { result ≡ method_of_place program.now place.now }
{
    let method = method_of_key(program, place.method.as_ref()?)?;
    if has_instruction(program, place.instruction, method) {
        Some(method)
    } else {
        None
    }
}
