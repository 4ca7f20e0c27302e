//! The constants of static fields, which initialisation stores (JVMS 4.7.2, 5.5).

ghost use Rattle.std.specs.Prelude.{◌≡◌, ◌∷◌, [], IfOk, OnOk, Some, length, slice_get, take};
ghost use Rattle.jvms_machine.specs.State.{text_reference};
ghost use Rattle.jvms_machine.specs.Initialisation.{constants_of, new_texts};
ghost use Rattle.jvms_machine.specs.Actions.{constant_value, with_constants};
ghost use Rattle.jvms_program.specs.Program.{field_key, field_key_at};
ghost use Rattle.machine_parts.specs.Constants.{is_new_text, text_to_make, text_value, with_text};
ghost use Rattle.machine_parts.specs.Machine.{with_statics};
ghost use Rattle.machine_parts.specs.Ready.{texts_to_make};

use crate::parts::Parts;
use crate::stored::stored_in_field;
use jvms_file::descriptor::FieldType;
use jvms_machine::value::Value;
use jvms_program::number::{ClassNumber, FieldNumber};
use jvms_program::program::{Class, Field, Loadable};
use machine_thread::program::constant_text;
use shared_data::shared::Text;
use std::alloc::AllocError;

/// Returns the number of a field of a class.
fn field_number(class: ClassNumber, field: usize) -> FieldNumber
    ensures class { result.class ≡ class }
    ensures field { result.field ≡ field }
{
    FieldNumber { class, field }
}

impl<'p> Parts<'p> {
    /// Decides whether a field stores a string that has no object yet and that no field before it stores.
    fn is_new_text(&self, n: FieldNumber, class: &Class, field: &Field) -> bool
        requires class { slice_get self.now.program n.class ≡ Some class.now }
        requires field { slice_get class.now.fields n.field ≡ Some field.now }
        ensures { result
            ≡ is_new_text self.now.state.heap (take n.field class.now.fields) field.now }
    {
        match constant_text(field) {
            None => false,
            Some(units) => {
                let exists = self.heap.text_reference(units.as_slice()).is_some();
                !exists && self.program().is_first_text(n)
            }
        }
    }

    /// Returns the number of distinct strings among a class's constants that have no object yet.
    #[tactic(auto, using(crate::proofs::ConstantTexts::counted_new, crate::proofs::ConstantTexts::counted_old))]
    pub(crate) fn new_texts(&self, number: ClassNumber, class: &Class) -> usize
        requires { slice_get self.now.program number ≡ Some class.now }
        ensures { result ≡ length (new_texts self.now.state.heap (constants_of class.now.fields)) }
    {
        let mut count = 0;
        for (i, field) in class.fields.as_slice().iter().enumerate() {
            if self.is_new_text(field_number(number, i), class, field) {
                count += 1;
            }
        }
        count
    }

    /// Appends the string of a field to those of the fields before it, if it has no object yet and none of them has it.
    fn add_text(
        &self,
        texts: &mut Vec<Text>,
        n: FieldNumber,
        class: &Class,
        field: &Field,
    ) -> Result<(), AllocError>
        requires class { slice_get self.now.program n.class ≡ Some class.now }
        requires field { slice_get class.now.fields n.field ≡ Some field.now }
        ensures { OnOk result (texts.new.items ≡ with_text texts.old.items
            (text_to_make self.now.state.heap (take n.field class.now.fields) field.now)) }
    {
        if self.is_new_text(n, class, field) {
            if let Some(text) = constant_text(field) {
                texts.push(text.share()?)?;
            }
        }
        Ok(())
    }

    /// Returns the distinct strings among a class's constants that have no object yet.
    #[tactic(auto, using(crate::proofs::ConstantTexts::texts_behind))]
    fn texts_of(&self, number: ClassNumber, class: &Class) -> Result<Vec<Text>, AllocError>
        requires { slice_get self.now.program number ≡ Some class.now }
        ensures { IfOk result (λ texts. texts.items
            ≡ new_texts self.now.state.heap (constants_of class.now.fields)) }
    {
        let mut texts = Vec::new(self.alloc);
        for (i, field) in class.fields.as_slice().iter().enumerate() {
            self.add_text(&mut texts, field_number(number, i), class, field)?;
        }
        Ok(texts)
    }

    /// Returns the strings for which the initialisation of a class creates objects.
    pub fn texts_to_make(&self, class: ClassNumber) -> Result<Vec<Text>, AllocError>
        ensures { IfOk result (λ texts. texts.items
            ≡ texts_to_make self.now.state.heap (slice_get self.now.program class)) }
    {
        match self.program().class(class) {
            None => Ok(Vec::new(self.alloc)),
            Some(c) => self.texts_of(class, c),
        }
    }

    /// Returns the string of these units as a value: its reference, or null if it has no object.
    fn text_value(&self, units: &[u16]) -> Value
        ensures { result ≡ text_value (text_reference self.now.state.heap units.now) }
    {
        match self.heap.text_reference(units) {
            None => Value::Null,
            Some(reference) => Value::Reference(reference),
        }
    }

    /// Returns the value of a constant in a field of a type. A float or a double stays unset.
    fn constant_value(&self, t: &FieldType, constant: &Loadable) -> Value
        ensures { result ≡ constant_value self.now.state.heap t.now constant.now }
    {
        match constant {
            Loadable::Integer(n) => stored_in_field(t, Value::Int(*n)),
            Loadable::Long(n) => Value::Long(*n),
            Loadable::String(units) => self.text_value(units.as_slice()),
            _ => Value::Unset,
        }
    }

    /// Stores the constant of the field of a number if it is static and has one.
    fn store_constant(&mut self, n: FieldNumber, class: &Class, field: &Field)
        requires { field_key_at self.old.program n ≡ Some (field_key class.now field.now) }
        ensures { self.new ≡ with_statics (with_constants self.old.state.heap class.now
            (field.now ∷ []) self.old.state.statics) self.old }
    {
        if !field.is_static {
            return;
        }
        let Some(constant) = &field.constant else {
            return;
        };
        let value = self.constant_value(field.field_type.get(), constant);
        self.statics.put_numbered(n, value);
    }

    /// Stores the constants of a class's static fields, in the fields' order.
    #[tactic(auto, using(crate::proofs::ConstantTexts::constants_further))]
    pub fn store_constants(&mut self, number: ClassNumber, class: &Class)
        requires { slice_get self.old.program number ≡ Some class.now }
        ensures { self.new ≡ with_statics (with_constants self.old.state.heap
            class.now class.now.fields self.old.state.statics) self.old }
    {
        for (i, field) in class.fields.as_slice().iter().enumerate() {
            self.store_constant(field_number(number, i), class, field);
        }
    }
}
