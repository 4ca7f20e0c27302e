//! The names by which a field is looked up.

use std::marker::Model;

/// A field by its names. These are borrowed, so that a look-up allocates no memory. Contracts see the field's key.
#[derive(Drop)]
pub struct FieldName<'a> {
    /// The name of the class that declares the field.
    pub class: &'a [u16],
    /// The field's own name.
    pub name: &'a [u16],
    /// The field's descriptor.
    pub descriptor: &'a [u16],
}

impl<'a> Model for FieldName<'a> {
    ghost use Rattle.jvms_program.specs.declared.key.FieldKey.{FieldKey};

    ghost Value = { FieldKey };

    ghost view = { λ n. record {
      class = n.class.now;
      name = n.name.now;
      descriptor = n.descriptor.now;
    } };
}
