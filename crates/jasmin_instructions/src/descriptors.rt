//! Judges the descriptors of methods with an object and without.

ghost use Rattle.std.specs.Prelude.{◌≡◌};
ghost use Rattle.jvms_file.specs.Members.{is_method_descriptor_for};

use descriptor::method_units;

/// The limit on the units of a method's arguments (JVMS 4.3.3).
const MOST_UNITS: usize = 255;

/// Decides whether a text is a method's descriptor with at most 255 units of arguments. The object is one of them
/// unless `on_none` is set.
pub fn is_method_descriptor_for(on_none: bool, text: &[u16]) -> bool
    ensures { result ≡ is_method_descriptor_for on_none text.now }
{
    match method_units(text) {
        Some(units) => units + usize::from(!on_none) <= MOST_UNITS,
        None => false,
    }
}
