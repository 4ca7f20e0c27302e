//! Finds the names of instructions and of the component types of arrays.

ghost use Rattle.std.specs.Prelude.{◌≡◌, [], map, slice_get};
ghost use Rattle.std.specs.Option.{unwrap_or};
ghost use Rattle.listing_spec.specs.Printed.{mnemonic, array_type_name};

use jasmin::mnemonic::MNEMONICS;
use jvms_file::insn::ArrayType;

/// Returns the name at a place, or the empty text if there is none.
fn name_at<'a>(names: &[&'a str], place: usize) -> &'a str
    ensures { result.now ≡ unwrap_or (slice_get (map (λ name. name.now) names.now) place) [] }
{
    match names.get(place).copied() {
        Some(name) => name,
        None => "",
    }
}

/// Returns the mnemonic of an opcode (JVMS 6.5).
pub(crate) fn mnemonic(code: u8) -> &'static str
    ensures { result.now ≡ mnemonic code }
{
    name_at(&MNEMONICS, usize::from(code))
}

/// Returns the name of an array's component type (JVMS 6.5 `newarray`).
pub(crate) fn array_type_name(component: ArrayType) -> &'static str
    ensures { result.now ≡ array_type_name component }
{
    match component {
        ArrayType::Boolean => "boolean",
        ArrayType::Char => "char",
        ArrayType::Float => "float",
        ArrayType::Double => "double",
        ArrayType::Byte => "byte",
        ArrayType::Short => "short",
        ArrayType::Int => "int",
        ArrayType::Long => "long",
    }
}
