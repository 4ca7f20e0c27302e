//! Returns what an instruction names.

ghost use Rattle.std.specs.Prelude.{◌≡◌};
ghost use Rattle.std.specs.Option.{option_map};
ghost use Rattle.needs.specs.Named.{class_named, class_of_constant, member_named};

use jvms_program::program::{Instruction, Loadable};

/// Returns the class that a constant names.
fn class_of_constant(constant: &Loadable) -> Option<&[u16]>
    ensures { option_map (λ c. c.now) result ≡ class_of_constant constant.now }
{
    match constant {
        Loadable::Class(name) => Some(name.as_slice()),
        _ => None,
    }
}

/// Returns the name of the class that an instruction names, alone or with a member.
pub(crate) fn class_named(instruction: &Instruction) -> Option<&[u16]>
    ensures { option_map (λ c. c.now) result ≡ class_named instruction.now }
{
    match instruction {
        Instruction::Field(_, field) => Some(field.get().class.as_slice()),
        Instruction::Invoke(_, method) => Some(method.get().class.as_slice()),
        Instruction::Class(_, name) | Instruction::MultiNewArray(_, name) => Some(name.as_slice()),
        Instruction::Constant(constant) => class_of_constant(constant.get()),
        _ => None,
    }
}

/// Returns the name and the descriptor of the member that an instruction names.
pub(crate) fn member_named(instruction: &Instruction) -> Option<(&[u16], &[u16])>
    ensures { option_map (λ m. (m.0.now, m.1.now)) result ≡ member_named instruction.now }
{
    match instruction {
        Instruction::Field(_, field) => {
            let field = field.get();
            Some((field.name.as_slice(), field.descriptor.as_slice()))
        }
        Instruction::Invoke(_, method) => {
            let method = method.get();
            Some((method.name.as_slice(), method.descriptor.as_slice()))
        }
        _ => None,
    }
}
