//! The static fields that are the first of their class with a string as their constant (JVMS 4.7.2). When a class is
//! initialised, one object is created for each string.

ghost use Rattle.std.specs.Prelude.{◌≡◌, ◌++◌, ◌∷◌, [], IfOk, List, OnOk, Some, slice_get};
ghost use Rattle.std.specs.Option.{option_map};
ghost use Rattle.jvms_program.specs.declared.program.Class.{Class as SeenClass};
ghost use Rattle.jvms_program.specs.declared.program.Field.{Field as SeenField};
ghost use Rattle.program.specs.FieldTexts.{AreFirstTexts, AreFirstTextsOfClass, AreTextsOf, constant_text, is_first_text, is_not_among};

use crate::list::Program;
use classes::Classes;
use jvms_program::number::FieldNumber;
use jvms_program::program::{Class, Field, Loadable};
use shared_data::shared::Text;
use std::alloc::{AllocError, Global};
use std::collections::BTreeSet;

/// Returns the string that is the constant of a field, if the field is static.
pub fn constant_text(field: &Field) -> Option<&Text>
    ensures { option_map (λ units. units.now) result ≡ constant_text field.now }
{
    match &field.constant {
        Some(Loadable::String(units)) if field.is_static => Some(units),
        _ => None,
    }
}

/// Adds the string of a field to those of the fields before it. Returns whether it has one and none of them has the same.
fn add_text<'a>(texts: &mut BTreeSet<&'a [u16]>, field: &'a Field) -> Result<bool, AllocError>
    ensures first { (before : List SeenField) → AreTextsOf before texts.old
        → IfOk result (λ is_first. is_first ≡ is_not_among before (constant_text field.now)) }
    ensures texts { (before : List SeenField) → AreTextsOf before texts.old
        → OnOk result (AreTextsOf (before ++ field.now ∷ []) texts.new) }
{
    match constant_text(field) {
        None => Ok(false),
        Some(units) => Ok(texts.insert(units.as_slice())?),
    }
}

/// Returns for each field of a class whether it is the first with its string.
fn first_texts_of_class(alloc: Global, class: &Class) -> Result<Vec<bool>, AllocError>
    ensures { IfOk result (λ firsts. AreFirstTextsOfClass 0 class.now firsts) }
{
    let fields = class.fields.as_slice();
    let mut texts = BTreeSet::new(alloc);
    let mut firsts = Vec::with_capacity(alloc, fields.len())?;
    for field in fields {
        firsts.push(add_text(&mut texts, field)?)?;
    }
    Ok(firsts)
}

/// Returns for each field of a program, by class and field, whether it is the first of its class with its string.
pub(super) fn first_texts_of(alloc: Global, program: &Classes) -> Result<Vec<Vec<bool>>, AllocError>
    ensures { IfOk result (λ firsts. AreFirstTexts program.now firsts.items) }
{
    let mut firsts = Vec::with_capacity(alloc, program.classes().len())?;
    for class in program.classes() {
        firsts.push(first_texts_of_class(alloc, class)?)?;
    }
    Ok(firsts)
}

impl Program {
    /// Decides whether the field of a number is static, has a string as its constant, and no field before it in its
    /// class has the same.
    pub fn is_first_text(&self, n: FieldNumber) -> bool
        ensures { (c : SeenClass) (f : SeenField) → slice_get self.now n.class ≡ Some c
            → slice_get c.fields n.field ≡ Some f
            → result ≡ is_first_text c.fields n.field f }
    {
        match self.tables.first_texts.as_slice().get(n.class) {
            Some(firsts) => firsts.as_slice().get(n.field).copied().unwrap_or(false),
            None => false,
        }
    }
}
