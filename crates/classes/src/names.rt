//! Names as texts.

ghost use Rattle.std.specs.Prelude.{◌≡◌};
ghost use Rattle.jvms_program.specs.Resolution.{members_class};

use descriptor::is_array_name;

/// The name of the class above all others, `java/lang/Object`.
pub const OBJECT: [u16; 16] = [
    106, 97, 118, 97, 47, 108, 97, 110, 103, 47, 79, 98, 106, 101, 99, 116,
];

/// Returns the name of the class whose members a class has. An array has those of `java/lang/Object`.
pub(crate) fn members_class(name: &[u16]) -> &[u16]
    ensures { result.now ≡ members_class name.now }
{
    if is_array_name(name) { &OBJECT } else { name }
}
