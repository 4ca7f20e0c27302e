//! The targets of offsets.

ghost use Rattle.std.specs.Prelude.{◌≡◌};
ghost use Rattle.jvms_file.specs.Instructions.{target_of};

/// The modulus of targets, 2^32.
const BYTES: usize = 4_294_967_296;

/// Returns the byte to which an offset leads, counted from the opcode's byte.
pub(crate) fn target_of(pc: usize, offset: i32) -> u32
    ensures { result ≡ target_of pc offset }
{
    let forward = offset.cast_unsigned() as usize;
    ((pc % BYTES + forward) % BYTES) as u32
}
