//! Finds the form of an opcode's operands (JVMS 7).

ghost use Rattle.std.specs.Prelude.{◌≡◌, slice_get};
ghost use Rattle.jvms_file.specs.declared.insn.TheConstants.{OPCODES as table};

use crate::insn::{OPCODES, Opcode};

/// Returns the entry of an opcode, if there is one.
fn entry_of(entries: &[Opcode], code: u8) -> Option<Opcode>
    ensures { result ≡ slice_get entries.now code }
{
    entries.get(usize::from(code)).copied()
}

/// Returns the form of an opcode's operands, if the code is an opcode.
pub fn form_of(code: u8) -> Option<Opcode>
    ensures { result ≡ slice_get table code }
{
    entry_of(&OPCODES, code)
}
