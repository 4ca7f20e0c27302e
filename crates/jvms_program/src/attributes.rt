//! What the attributes of a method say (JVMS 4.7.3, 4.7.5).

ghost use Rattle.std.specs.Prelude.{◌≡◌};
ghost use Rattle.std.specs.Option.{option_map};
ghost use Rattle.jvms_program.specs.Meaning.{code_of, exceptions_of};

use jvms_file::class_file::{Code, MethodAttribute};

/// Returns the code of the first Code attribute.
pub fn code_of(attributes: &[MethodAttribute]) -> Option<&Code>
    ensures { option_map (λ c. c.now) result ≡ code_of attributes.now }
{
    let mut rest = attributes;
    while let [attribute, others @ ..] = rest {
        if let MethodAttribute::Code { name: _, code } = attribute {
            return Some(code);
        }
        rest = others;
    }
    None
}

/// Returns the class numbers of the first Exceptions attribute.
pub fn exceptions_of(attributes: &[MethodAttribute]) -> &[u16]
    ensures { result.now ≡ exceptions_of attributes.now }
{
    let mut rest = attributes;
    while let [attribute, others @ ..] = rest {
        if let MethodAttribute::Exceptions { name: _, classes } = attribute {
            return classes.as_slice();
        }
        rest = others;
    }
    &[]
}
