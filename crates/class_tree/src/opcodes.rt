//! Finds the opcodes of instructions in their bytes.

ghost use Rattle.std.specs.Prelude.{◌≡◌, slice_get};
ghost use Rattle.std.specs.Option.{unwrap_or};
ghost use Rattle.jvms_file.specs.declared.insn.TheConstants.{OPCODES as table};
ghost use Rattle.listing_spec.specs.TreeOf.{opcode_at};

use jvms_file::insn::Opcode;
use jvms_file::opcodes::form_of;

/// Returns the byte at a place, or 0 after the last.
fn byte_at(bytes: &[u8], place: usize) -> u8
    ensures { result ≡ unwrap_or (slice_get bytes.now place) 0 }
{
    bytes.get(place).copied().unwrap_or(0)
}

/// Returns the opcode of the instruction that starts at a byte. After `wide`, it is that of the instruction that `wide`
/// modifies.
pub(crate) fn opcode_at(bytes: &[u8], pc: u32) -> u8
    ensures { result ≡ opcode_at bytes.now pc }
{
    let code = byte_at(bytes, pc as usize);
    if code == 196 {
        byte_at(bytes, pc as usize + 1)
    } else {
        code
    }
}

/// Returns the form of an opcode's operands, or `Reserved` if the code is no opcode.
pub(crate) fn form_or_reserved(code: u8) -> Opcode
    ensures { result ≡ unwrap_or (slice_get table code) Opcode.Reserved }
{
    form_of(code).unwrap_or(Opcode::Reserved)
}
